ghost use Rattle.fabric_c.specs.Words.{Audits};

use crate::code::OUT_OF_MEMORY;
use crate::lent_source::LentSource;
use crate::reply::Reply;
use crate::text_sink::TextSink;
use fabric_status::Status;
use std::alloc::Global;
use transcript_audit::audit;

/// What `fabric audit` writes of a transcript, and its status. No device can fail here, so memory alone can be short.
pub fn audit_reply(alloc: Global, transcript: &[u8]) -> Reply
    ensures { Audits transcript.now result.text.items result.code }
{
    let mut source = LentSource::new(transcript);
    let mut sink = TextSink::new(alloc);
    match audit(alloc, &mut source, &mut sink) {
        Status::OutOfMemory => Reply::bare(alloc, OUT_OF_MEMORY),
        status => Reply {
            text: sink.text,
            code: status.code(),
        },
    }
}

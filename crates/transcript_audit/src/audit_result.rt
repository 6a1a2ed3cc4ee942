ghost use Rattle.std.specs.Prelude.{◌≡◌, ℕ, List, [], Some, IfOk, IsTrue};
ghost use Rattle.edge_io.specs.Edge.{HasRisen};
ghost use Rattle.fabric_status.specs.Codes.{status_of};
ghost use Rattle.fabric_status.specs.Faults.{fault_line};
ghost use Rattle.transcript_audit.specs.Audits.{IsAnswer, IsEnd, Writes};
ghost use Rattle.transcript_audit.specs.Places.{IsTranscript, Stands};
ghost use Rattle.transcript_audit.specs.Statuses.{may_end_audit};
ghost use Rattle.transcript_audit.specs.Transcript.{transcript_of};

use crate::transcript::{Transcript, read_transcript};
use crate::verdict::{judge, push_verdict};
use edge_io::{EdgeRefusal, Sink, Source};
use fabric_status::{Refusal, Status, push_fault, write_last};
use fabric_terms::OutOfMemory;
use std::alloc::Global;

/// The last line, and the status that goes with it.
#[derive(Drop)]
pub struct AuditResult {
    pub text: Vec<u8>,
    pub status: Status,
}

/// The line of a fault.
fn refused(alloc: Global, refusal: Refusal) -> Result<AuditResult, OutOfMemory>
    ensures { IfOk result (λ a. (a.status ≡ status_of refusal) × (a.text.items ≡ fault_line (status_of refusal))) }
{
    let status = refusal.status();
    let mut text = Vec::new(alloc);
    push_fault(alloc, &mut text, status)?;
    Ok(AuditResult { text, status })
}

/// What is answered to a transcript that was read.
pub fn answer_to(alloc: Global, transcript: Transcript) -> Result<AuditResult, OutOfMemory>
    requires { Stands transcript }
    ensures answer { (bytes : List ℕ) → IsTranscript bytes transcript (transcript_of bytes) →
        IfOk result (λ a. IsAnswer bytes a.status a.text.items) }
    ensures status { IfOk result (λ a. IsEnd transcript a.status) }
{
    match transcript {
        Transcript::Refused(refusal) => refused(alloc, refusal),
        Transcript::Good(bytes, places) => {
            let mut places = places;
            places.sort()?;
            let breach = judge(alloc, &bytes, &places)?;
            let mut text = Vec::new(alloc);
            push_verdict(&mut text, breach, places.count())?;
            Ok(AuditResult {
                text,
                status: Status::Ok,
            })
        }
    }
}

/// Reads a transcript line by line to its end and writes one line: the verdict on its run, with status Ok; or reads it
/// up to the line that is refused, and writes how it is refused: `BadLine` or `TooLarge`. `ReadFault` and `WriteFault`
/// come only where that device's count of faults rose; at `OutOfMemory` and `WriteFault` the sink has a front of what
/// would have been written.
pub fn audit<S: Source, K: Sink>(alloc: Global, source: &mut S, sink: &mut K) -> Status
    ensures statuses { IsTrue (may_end_audit result) }
    ensures read { result ≡ Status.Ok → (bytes : List ℕ) → S.left source.old ≡ Some bytes →
        S.left source.new ≡ Some [] }
    ensures written { (bytes : List ℕ) → S.left source.old ≡ Some bytes →
        Writes result bytes (HasRisen (S.faults source.old) (S.faults source.new)) (K.held sink.old) (K.held sink.new) }
    ensures read_fault { result ≡ Status.ReadFault → HasRisen (S.faults source.old) (S.faults source.new) }
    ensures write_fault { result ≡ Status.WriteFault → HasRisen (K.faults sink.old) (K.faults sink.new) }
{
    match read_transcript(alloc, source) {
        Err(EdgeRefusal::Failed) => write_last(sink, b"fault read\n", Status::ReadFault),
        Err(EdgeRefusal::OutOfMemory) => Status::OutOfMemory,
        Ok(transcript) => match answer_to(alloc, transcript) {
            Ok(answer) => write_last(sink, &answer.text, answer.status),
            Err(_) => Status::OutOfMemory,
        },
    }
}

ghost use Rattle.std.specs.Prelude.{◌≡◌, ◌++◌, OnOk, Some};
ghost use Rattle.fabric_c.specs.Replies.{Replies};
ghost use Rattle.fabric_c.specs.Lines.{frame_words};
ghost use Rattle.fabric_c.specs.Words.{WritesFrame};

use crate::code::{NOT_READ, OK, OUT_OF_MEMORY};
use crate::digits::push_digits;
use crate::frame_name::frame_name;
use crate::reply::Reply;
use fabric_terms::{Body, Message, OutOfMemory};
use ring_points::Who;
use ring_wire::decode_into;
use std::alloc::Global;
use text_fields::{push_bytes, push_who};

fn push_words(
    alloc: Global,
    text: &mut Vec<u8>,
    bytes: &[u8],
    message: &Message,
) -> Result<(), OutOfMemory>
    ensures { OnOk result (text.new.items ≡ text.old.items ++ frame_words bytes.now message.now) }
{
    push_digits(alloc, text, bytes)?;
    push_bytes(text, b" ")?;
    push_bytes(text, frame_name(&message.body))?;
    push_bytes(text, b" ")?;
    push_who(text, message.from)?;
    push_bytes(text, b" ")?;
    push_who(text, message.to)
}

fn worded(alloc: Global, bytes: &[u8], message: &Message) -> Reply
    ensures { Replies (Some (frame_words bytes.now message.now)) result.text.items result.code }
{
    let mut text = Vec::new(alloc);
    match push_words(alloc, &mut text, bytes, message) {
        Ok(()) => Reply { text, code: OK },
        Err(_) => Reply::bare(alloc, OUT_OF_MEMORY),
    }
}

/// The line of a frame.
pub fn frame_reply(alloc: Global, bytes: &[u8]) -> Reply
    ensures { WritesFrame bytes.now result.text.items result.code }
{
    let nobody = Who {
        actor: 0,
        instance: 0,
    };
    let mut message = Message {
        from: nobody,
        to: nobody,
        body: Body::Hello { mine: 0 },
    };
    match decode_into(bytes, &mut message) {
        Ok(()) => worded(alloc, bytes, &message),
        Err(_) => Reply::bare(alloc, NOT_READ),
    }
}

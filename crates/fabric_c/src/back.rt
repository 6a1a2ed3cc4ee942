// From a line to the bytes that have it.
ghost use Rattle.std.specs.Prelude.{◌≢◌, ◌⊎◌, List, ℕ, Option, None};
ghost use Rattle.fabric_c.specs.Replies.{IsBack, IsOf, IsShort, Replies};
ghost use Rattle.fabric_c.specs.Words.{ReadsFrame, ReadsRecord};

use crate::code::{NOT_READ, OK, OUT_OF_MEMORY};
use crate::digits::digits_at;
use crate::frame::frame_reply;
use crate::record::record_reply;
use crate::reply::Reply;
use hex::FromHexError;
use std::alloc::Global;

/// The bytes, where the line that was replied of them is this one.
fn bytes_of_same(alloc: Global, line: &[u8], again: &Reply, bytes: Vec<u8>) -> Reply
    ensures { (wanted : Option (List ℕ)) → Replies wanted again.now.text.items again.now.code →
        IsBack wanted line.now bytes.items result.text.items result.code }
{
    if again.code == OUT_OF_MEMORY {
        return Reply::bare(alloc, OUT_OF_MEMORY);
    }
    if again.code == OK && again.text.as_slice() == line {
        return Reply {
            text: bytes,
            code: OK,
        };
    }
    Reply::bare(alloc, NOT_READ)
}

/// No bytes, since the digits of the line are refused.
fn refused(alloc: Global, error: FromHexError) -> Reply
    ensures { IsShort result.text.items result.code ⊎
        ((error ≢ FromHexError.OutOfMemory) × IsOf None result.text.items result.code) }
{
    match error {
        FromHexError::OutOfMemory => Reply::bare(alloc, OUT_OF_MEMORY),
        _ => Reply::bare(alloc, NOT_READ),
    }
}

/// The frame with this line.
pub fn frame_back(alloc: Global, line: &[u8]) -> Reply
    ensures { ReadsFrame line.now result.text.items result.code }
{
    match digits_at(alloc, line) {
        Ok(bytes) => {
            let again = frame_reply(alloc, bytes.as_slice());
            bytes_of_same(alloc, line, &again, bytes)
        }
        Err(error) => refused(alloc, error),
    }
}

/// The record with this line.
pub fn record_back(alloc: Global, line: &[u8]) -> Reply
    ensures { ReadsRecord line.now result.text.items result.code }
{
    match digits_at(alloc, line) {
        Ok(bytes) => {
            let again = record_reply(alloc, bytes.as_slice());
            bytes_of_same(alloc, line, &again, bytes)
        }
        Err(error) => refused(alloc, error),
    }
}

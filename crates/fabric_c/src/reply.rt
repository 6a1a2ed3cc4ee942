ghost use Rattle.std.specs.Prelude.{◌≡◌, []};
ghost use Rattle.fabric_c.specs.Rooms.{HandedOut};

use crate::code::NO_ROOM;
use std::alloc::Global;

/// What a word replies: a text, and how it ended.
#[derive(Drop)]
pub struct Reply {
    pub text: Vec<u8>,
    pub code: u8,
}

impl Reply {
    /// No text.
    pub fn bare(alloc: Global, code: u8) -> Reply
        ensures text { result.text.items ≡ [] }
        ensures code { result.code ≡ code }
    {
        Reply {
            text: Vec::new(alloc),
            code,
        }
    }
}

/// Puts the text at the front of the room, and gives the reply's code. A room that is too small stays as it is, and the
/// code is `NO_ROOM`. The length is the text's either way.
pub fn hand_out(reply: &Reply, room: &mut [u8], length: &mut usize) -> u8
    ensures { HandedOut reply.now.text.items reply.now.code room.old room.new length.new result }
{
    let text = reply.text.as_slice();
    let count = text.len();
    *length = count;
    if count > room.len() {
        return NO_ROOM;
    }
    room[..count].copy_from_slice(text);
    reply.code
}

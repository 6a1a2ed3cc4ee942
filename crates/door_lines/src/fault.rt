ghost use Rattle.std.specs.Prelude.{◌≡◌, ◌++◌, OnOk};
ghost use Rattle.text_fields.specs.Texts.{Keeps};
ghost use Rattle.door_lines.specs.Replies.{Says, reply_text};
ghost use Rattle.door_lines.specs.Words.{Unknown, Late, Faults, words_text, fault_text};

use crate::reply::{push_end, push_reply, push_tag};
use fabric_terms::OutOfMemory;
use text_fields::push_bytes;

/// Why a line is refused. A refused line changes nothing.
#[derive(Clone, Copy, Debug, PartialEq, Eq)]
pub enum Fault {
    /// The bytes are no line that this speaker may ask.
    Line,
    /// The line names a node that is not configured, or its own node.
    NoSuch,
    /// The line is too long.
    Large,
    /// As many answers are open as there may be.
    Busy,
}

/// The word of a refusal.
pub fn fault_word(fault: Fault) -> &'static [u8]
    ensures { result.now ≡ fault_text fault }
{
    match fault {
        Fault::Line => b"line",
        Fault::NoSuch => b"nosuch",
        Fault::Large => b"large",
        Fault::Busy => b"busy",
    }
}

/// Appends the answer to a line that is refused. `done` is a line of its own.
pub fn push_fault(into: &mut Vec<u8>, tag: Option<u32>, fault: Fault) -> Result<(), OutOfMemory>
    ensures ok { OnOk result (into.new.items
        ≡ into.old.items ++ reply_text (Says tag (words_text (Faults fault)))) }
    ensures kept { Keeps into.old.items into.new.items }
{
    push_tag(into, tag)?;
    push_bytes(into, b"fault ")?;
    push_bytes(into, fault_word(fault))?;
    push_end(into)
}

/// Appends the last words of an answer whose instance has ended: nothing is said of what becomes of the command.
pub fn push_unknown(into: &mut Vec<u8>, tag: Option<u32>) -> Result<(), OutOfMemory>
    ensures ok { OnOk result (into.new.items ≡ into.old.items ++ reply_text (Says tag (words_text Unknown))) }
    ensures kept { Keeps into.old.items into.new.items }
{
    push_reply(into, tag, b"unknown")
}

/// Appends the last words of an answer whose time is over.
pub fn push_late(into: &mut Vec<u8>, tag: Option<u32>) -> Result<(), OutOfMemory>
    ensures ok { OnOk result (into.new.items ≡ into.old.items ++ reply_text (Says tag (words_text Late))) }
    ensures kept { Keeps into.old.items into.new.items }
{
    push_reply(into, tag, b"late")
}

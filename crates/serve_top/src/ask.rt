ghost use Rattle.std.specs.Prelude.{◌≡◌, ◌++◌, ◌==◌, OnOk, nat_eq};
ghost use Rattle.serve_top.specs.Replies.{asked_text, first_word, fresh_replies, is_undone, is_undone_kind};
ghost use Rattle.serve_top.specs.Replies.{is_undone_word, later_words, replies_after};
ghost use Rattle.text_fields.specs.Texts.{Keeps};

use crate::cut::cut_by;
use fabric_terms::OutOfMemory;
use text_fields::{push_bytes, push_number};

/// Appends a line that asks with this tag.
pub fn push_asked(into: &mut Vec<u8>, tag: u64, line: &[u8]) -> Result<(), OutOfMemory>
    ensures ok { OnOk result (into.new.items ≡ into.old.items ++ asked_text tag line.now) }
    ensures kept { Keeps into.old.items into.new.items }
{
    push_bytes(into, b"@")?;
    push_number(into, tag)?;
    push_bytes(into, b" ")?;
    push_bytes(into, line)?;
    push_bytes(into, b"\n")
}

/// What a client has read: how many lines it still waits for, and whether one of them was not done.
#[derive(Clone, Copy, Debug, PartialEq, Eq)]
pub struct Replies {
    awaited: u64,
    undone: bool,
}

/// The first word.
pub(crate) fn first_word(words: &[u8]) -> &[u8]
    ensures { result.now ≡ first_word words.now }
{
    cut_by(b' ', words).0
}

/// What stands behind the first word and its blank.
pub(crate) fn later_words(words: &[u8]) -> &[u8]
    ensures { result.now ≡ later_words words.now }
{
    cut_by(b' ', words).1
}

/// Whether the first word of an answer says that its line was refused, or that nothing is known of it.
fn is_undone_word(word: &[u8]) -> bool
    ensures { result ≡ is_undone_word word.now }
{
    word == b"fault".as_slice() || word == b"unknown".as_slice() || word == b"late".as_slice()
}

/// Whether a report of this kind says that a command was not done.
fn is_undone_kind(word: &[u8]) -> bool
    ensures { result ≡ is_undone_kind word.now }
{
    word == b"refused".as_slice()
        || word == b"superseded".as_slice()
        || word == b"nowhere".as_slice()
}

/// Whether an answer, without its tag, says that its line was not done. The kind of a report is its fifth word.
fn is_undone(words: &[u8]) -> bool
    ensures { result ≡ is_undone words.now }
{
    if is_undone_word(first_word(words)) {
        return true;
    }
    let third = later_words(later_words(words));
    is_undone_kind(first_word(later_words(later_words(third))))
}

impl Replies {
    /// So many lines were asked.
    pub fn new(awaited: u64) -> Replies
        ensures { result ≡ fresh_replies awaited }
    {
        Replies {
            awaited,
            undone: false,
        }
    }

    /// A line has come, without its line feed.
    pub fn take(&mut self, line: &[u8])
        ensures { self.new ≡ replies_after line.now self.old }
    {
        if line.starts_with(b"done ") {
            self.awaited = self.awaited.saturating_sub(1);
        } else if line.starts_with(b"@") {
            self.undone = self.undone || is_undone(later_words(line));
        }
    }

    /// Whether each line is done.
    pub fn is_done(&self) -> bool
        ensures { result ≡ (self.now.awaited == 0) }
    {
        self.awaited == 0
    }

    /// Whether an answer said that its line was not done.
    pub fn has_undone(&self) -> bool
        ensures { result ≡ self.now.undone }
    {
        self.undone
    }
}

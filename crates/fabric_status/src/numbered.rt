ghost use Rattle.std.specs.Prelude.{◌≡◌, ◌++◌, decimal, codes, OnOk};
ghost use Rattle.text_fields.specs.Texts.{Keeps};

use fabric_terms::OutOfMemory;
use text_fields::{push_bytes, push_number};

/// Appends the words, a number and a line feed. At want of memory a front of them may be written.
pub fn push_numbered(text: &mut Vec<u8>, words: &[u8], number: u64) -> Result<(), OutOfMemory>
    ensures ok { OnOk result (text.new.items ≡ text.old.items ++ (words.now ++ (decimal number ++ codes "\n"))) }
    ensures kept { Keeps text.old.items text.new.items }
{
    push_bytes(text, words)?;
    push_number(text, number)?;
    push_bytes(text, b"\n")
}

/// Appends the words, two numbers with a blank between, and a line feed. At want of memory a front of them may be
/// written.
pub fn push_two(
    text: &mut Vec<u8>,
    words: &[u8],
    first: u64,
    second: u64,
) -> Result<(), OutOfMemory>
    ensures ok { OnOk result (text.new.items ≡ text.old.items ++
        (words.now ++ (decimal first ++ (codes " " ++ (decimal second ++ codes "\n"))))) }
    ensures kept { Keeps text.old.items text.new.items }
{
    push_bytes(text, words)?;
    push_number(text, first)?;
    push_numbered(text, b" ", second)
}

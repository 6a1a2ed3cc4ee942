ghost use Rattle.std.specs.Prelude.{◌≡◌, ◌++◌, codes, OnOk};
ghost use Rattle.text_fields.specs.Numbers.{optional_text};
ghost use Rattle.text_fields.specs.Texts.{Keeps};
ghost use Rattle.door_lines.specs.Replies.{Says, Done, GivesUp, reply_text};
ghost use Rattle.door_lines.specs.Words.{Reports, words_text};

use fabric_terms::{Head, OutOfMemory, Report};
use report_lines::print_report;
use text_fields::{push_bytes, push_number, push_optional};

/// Appends `@TAG` and a blank: what each line of an answer begins with. The tag is `-` where none could be read.
pub fn push_tag(into: &mut Vec<u8>, tag: Option<u32>) -> Result<(), OutOfMemory>
    ensures ok { OnOk result (into.new.items ≡ into.old.items ++ (codes "@" ++ optional_text tag ++ codes " ")) }
    ensures kept { Keeps into.old.items into.new.items }
{
    push_bytes(into, b"@")?;
    push_tag_number(into, tag)?;
    push_bytes(into, b" ")
}

/// Appends a line feed, which ends each line.
pub fn push_end(into: &mut Vec<u8>) -> Result<(), OutOfMemory>
    ensures ok { OnOk result (into.new.items ≡ into.old.items ++ codes "\n") }
    ensures kept { Keeps into.old.items into.new.items }
{
    push_bytes(into, b"\n")
}

// The number of a tag, or a dash.
fn push_tag_number(into: &mut Vec<u8>, tag: Option<u32>) -> Result<(), OutOfMemory>
    ensures ok { OnOk result (into.new.items ≡ into.old.items ++ optional_text tag) }
    ensures kept { Keeps into.old.items into.new.items }
{
    match tag {
        None => push_optional(into, None),
        Some(number) => push_optional(into, Some(u64::from(number))),
    }
}

/// Appends a line of an answer with these words.
pub fn push_reply(into: &mut Vec<u8>, tag: Option<u32>, words: &[u8]) -> Result<(), OutOfMemory>
    ensures ok { OnOk result (into.new.items ≡ into.old.items ++ reply_text (Says tag words.now)) }
    ensures kept { Keeps into.old.items into.new.items }
{
    push_tag(into, tag)?;
    push_bytes(into, words)?;
    push_end(into)
}

/// Appends a line of an answer that is a report.
pub fn push_report(
    into: &mut Vec<u8>,
    tag: Option<u32>,
    head: &Head,
    report: &Report,
) -> Result<(), OutOfMemory>
    ensures ok { OnOk result (into.new.items
        ≡ into.old.items ++ reply_text (Says tag (words_text (Reports head.now report.now)))) }
    ensures kept { Keeps into.old.items into.new.items }
{
    push_tag(into, tag)?;
    print_report(head, report, into)
}

/// Appends the last line of an answer: `done`, and its tag.
pub fn push_done(into: &mut Vec<u8>, tag: Option<u32>) -> Result<(), OutOfMemory>
    ensures ok { OnOk result (into.new.items ≡ into.old.items ++ reply_text (Done tag)) }
    ensures kept { Keeps into.old.items into.new.items }
{
    push_bytes(into, b"done ")?;
    push_tag_number(into, tag)?;
    push_end(into)
}

/// Appends the line that gives something up to the parent: its number, and the report that says what.
pub fn push_given_up(
    into: &mut Vec<u8>,
    number: u64,
    head: &Head,
    report: &Report,
) -> Result<(), OutOfMemory>
    ensures ok { OnOk result (into.new.items
        ≡ into.old.items ++ reply_text (GivesUp number head.now report.now)) }
    ensures kept { Keeps into.old.items into.new.items }
{
    push_bytes(into, b"#")?;
    push_number(into, number)?;
    push_bytes(into, b" ")?;
    print_report(head, report, into)
}

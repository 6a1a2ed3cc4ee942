// The texts that are said, appended to a buffer. Where memory is short, what stands there is not looked at.
ghost use Rattle.std.specs.Prelude.{◌≡◌, ◌++◌, Some, OnOk, option_map};
ghost use Rattle.text_fields.specs.Texts.{Keeps};
ghost use Rattle.door_lines.specs.Replies.{Says, reply_text};
ghost use Rattle.client_sessions.specs.Sessions.{done_text, last_words, told_reply};
ghost use Rattle.client_sessions.specs.Answers.{closing, own_line, own_lines, own_text, refusal_text};

use door_lines::{Fault, push_done, push_fault, push_late, push_reply, push_report, push_unknown};
use fabric_terms::{Head, OutOfMemory, Report};
use open_answers::{Answer, Ending};
use text_fields::push_bytes;

/// Appends a report of a command's own step, but for an `own`.
fn put_own_line(
    text: &mut Vec<u8>,
    tag: u32,
    head: &Head,
    report: &Report,
) -> Result<(), OutOfMemory>
    ensures ok { OnOk result (text.new.items ≡ text.old.items ++ own_line tag head.now report.now) }
    ensures kept { Keeps text.old.items text.new.items }
{
    match report {
        Report::Own(_, _) => Ok(()),
        _ => push_report(text, Some(tag), head, report),
    }
}

/// Appends the reports of a command's own step, but for `own`.
fn put_own_lines(
    text: &mut Vec<u8>,
    tag: u32,
    head: &Head,
    told: &[Report],
) -> Result<(), OutOfMemory>
    ensures { OnOk result (text.new.items ≡ text.old.items ++ own_lines tag head.now told.now) }
{
    for report in told {
        put_own_line(text, tag, head, report)?;
    }
    Ok(())
}

/// Appends what ends an answer in its own step, if it ends there.
fn put_closing(text: &mut Vec<u8>, tag: u32, answer: Answer) -> Result<(), OutOfMemory>
    ensures { OnOk result (text.new.items ≡ text.old.items ++ closing tag answer) }
{
    match answer {
        Answer::Done => push_done(text, Some(tag)),
        Answer::Unknown => {
            push_unknown(text, Some(tag))?;
            push_done(text, Some(tag))
        }
        Answer::Open => Ok(()),
    }
}

/// Writes the answer to a command, as far as its own step gives it.
pub fn write_own(
    text: &mut Vec<u8>,
    tag: u32,
    head: &Head,
    told: &[Report],
    answer: Answer,
) -> Result<(), OutOfMemory>
    ensures { OnOk result (text.new.items ≡ own_text tag head.now told.now answer) }
{
    text.clear();
    put_own_lines(text, tag, head, told)?;
    put_closing(text, tag, answer)
}

/// Appends the report at this place, if there is one.
fn put_told(
    text: &mut Vec<u8>,
    tag: u32,
    head: &Head,
    report: Option<&Report>,
) -> Result<(), OutOfMemory>
    ensures { OnOk result (text.new.items
        ≡ text.old.items ++ told_reply tag head.now (option_map (λ r. r.now) report.entry)) }
{
    match report {
        Some(report) => push_report(text, Some(tag), head, report),
        None => Ok(()),
    }
}

/// Appends the last words of an answer that ends in a later step.
fn put_last_words(
    text: &mut Vec<u8>,
    head: &Head,
    told: &[Report],
    tag: u32,
    ending: Ending,
) -> Result<(), OutOfMemory>
    ensures { OnOk result (text.new.items ≡ text.old.items ++ last_words head.now told.now tag ending) }
{
    match ending {
        Ending::Told(index) => put_told(text, tag, head, told.get(index)),
        Ending::Unknown => push_unknown(text, Some(tag)),
        Ending::Late => push_late(text, Some(tag)),
    }
}

/// Writes what ends an answer in a later step.
pub fn write_ended(
    text: &mut Vec<u8>,
    head: &Head,
    told: &[Report],
    tag: u32,
    ending: Ending,
) -> Result<(), OutOfMemory>
    ensures { OnOk result (text.new.items ≡ last_words head.now told.now tag ending ++ done_text (Some tag)) }
{
    text.clear();
    put_last_words(text, head, told, tag, ending)?;
    push_done(text, Some(tag))
}

/// Writes what ends an answer without a report.
pub fn write_words(text: &mut Vec<u8>, tag: u32, words: &[u8]) -> Result<(), OutOfMemory>
    ensures { OnOk result (text.new.items
        ≡ reply_text (Says (Some tag) words.now) ++ done_text (Some tag)) }
{
    text.clear();
    push_reply(text, Some(tag), words)?;
    push_done(text, Some(tag))
}

/// Writes the answer to a line that is refused.
pub fn write_refusal(text: &mut Vec<u8>, tag: Option<u32>, fault: Fault) -> Result<(), OutOfMemory>
    ensures { OnOk result (text.new.items ≡ refusal_text tag fault) }
{
    text.clear();
    push_fault(text, tag, fault)?;
    push_done(text, tag)
}

/// Writes an answer that has these lines.
pub fn write_lines(text: &mut Vec<u8>, tag: u32, lines: &[u8]) -> Result<(), OutOfMemory>
    ensures { OnOk result (text.new.items ≡ lines.now ++ done_text (Some tag)) }
{
    text.clear();
    push_bytes(text, lines)?;
    push_done(text, Some(tag))
}

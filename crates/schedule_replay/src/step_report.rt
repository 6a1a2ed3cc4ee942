ghost use Rattle.std.specs.Prelude.{◌≡◌, ◌++◌, Some, OnOk};
ghost use Rattle.ring_world.specs.Answers.{entry_of};
ghost use Rattle.line_format.specs.Reports.{lines_of_reports};
ghost use Rattle.schedule_rules.specs.Output.{entry_lines, sent_lines};
ghost use Rattle.schedule_replay.specs.Acts.{told_lines};
ghost use Rattle.text_fields.specs.Texts.{Keeps};

use fabric_terms::{Head, OutOfMemory, Report};
use report_lines::{print_report, print_sent};
use ring_world::Acted;

/// Appends the lines of these reports, in their order.
#[tactic(auto, using(text_fields::proofs::Lists::keeps_on))]
fn push_reports(text: &mut Vec<u8>, head: &Head, reports: &[Report]) -> Result<(), OutOfMemory>
    ensures ok { OnOk result (text.new.items ≡ text.old.items ++ lines_of_reports head.now reports.now) }
    ensures kept { Keeps text.old.items text.new.items }
{
    for report in reports {
        print_report(head, report, text)?;
    }
    Ok(())
}

/// Appends the line of the frames that were sent, if any were. Frames are counted from 1.
fn push_sent(text: &mut Vec<u8>, head: &Head, sent: (u32, u32)) -> Result<(), OutOfMemory>
    ensures ok { OnOk result (text.new.items ≡ text.old.items ++ sent_lines head.now sent) }
    ensures kept { Keeps text.old.items text.new.items }
{
    if sent.0 > 0 {
        print_sent(head, sent, text)
    } else {
        Ok(())
    }
}

/// Appends what this actor told in a step, and last which frames it sent.
fn push_acted(text: &mut Vec<u8>, acted: &Acted) -> Result<(), OutOfMemory>
    ensures ok { OnOk result (text.new.items ≡ text.old.items ++ entry_lines acted.now.line acted.now.time
        (entry_of (Some acted.now))) }
    ensures kept { Keeps text.old.items text.new.items }
{
    let head = Head {
        line: acted.line,
        time: Some(acted.time),
        who: acted.who,
        reading: acted.reading,
    };
    push_reports(text, &head, acted.reports.as_slice())?;
    push_sent(text, &head, acted.sent)
}

/// Appends what an actor told in a step, if one acted. At want of memory a front of it may be written.
pub fn push_told(text: &mut Vec<u8>, acted: &Option<Acted>) -> Result<(), OutOfMemory>
    ensures ok { OnOk result (text.new.items ≡ text.old.items ++ told_lines acted.now) }
    ensures kept { Keeps text.old.items text.new.items }
{
    match acted {
        None => Ok(()),
        Some(acted) => push_acted(text, acted),
    }
}

ghost use Rattle.std.specs.Prelude.{◌≡◌, ◌++◌, OnOk};
ghost use Rattle.schedule_rules.specs.Traces.{clock_words, clocks_line};
ghost use Rattle.text_fields.specs.Texts.{Keeps};

use fabric_terms::OutOfMemory;
use ring_points::Who;
use text_fields::{push_bytes, push_number, push_who};

/// Appends the words of the running instances and their readings.
#[tactic(auto, using(text_fields::proofs::Lists::keeps_on))]
fn push_clock_words(text: &mut Vec<u8>, clocks: &[(Who, u64)]) -> Result<(), OutOfMemory>
    ensures ok { OnOk result (text.new.items ≡ text.old.items ++ clock_words clocks.now) }
    ensures kept { Keeps text.old.items text.new.items }
{
    for (who, reading) in clocks {
        push_bytes(text, b" ")?;
        push_who(text, *who)?;
        push_bytes(text, b":")?;
        push_number(text, *reading)?;
    }
    Ok(())
}

/// Appends the running instances, rising by node, with their readings in ticks, behind the number of the event's line.
/// At want of memory a front of it may be written.
pub fn push_clocks(text: &mut Vec<u8>, line: u64, clocks: &[(Who, u64)]) -> Result<(), OutOfMemory>
    ensures ok { OnOk result (text.new.items ≡ text.old.items ++ clocks_line line clocks.now) }
    ensures kept { Keeps text.old.items text.new.items }
{
    push_number(text, line)?;
    push_bytes(text, b" clocks")?;
    push_clock_words(text, clocks)?;
    push_bytes(text, b"\n")
}

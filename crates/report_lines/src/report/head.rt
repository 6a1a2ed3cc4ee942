ghost use Rattle.std.specs.Prelude.{◌≡◌, ◌++◌, OnOk};
ghost use Rattle.text_fields.specs.Fields.{Gives};
ghost use Rattle.text_fields.specs.Texts.{Keeps};
ghost use Rattle.line_format.specs.Heads.{has_its_reading, head_at, head_text};

use super::pair::{push_optional_behind, push_who_behind};
use fabric_terms::{Head, OutOfMemory};
use line_format::BadLine;
use ring_points::{ARBITRATORS, Who};
use text_fields::{number_word, optional_word, push_number, who_word};

// An arbitrator has no reading, and a node has one.
fn has_its_reading(who: Who, reading: Option<u64>) -> bool
    ensures { result ≡ has_its_reading who reading }
{
    let is_arbiter = who.actor > ARBITRATORS;
    match reading {
        None => is_arbiter,
        Some(_) => !is_arbiter,
    }
}

/// A head and the blank behind it, and what follows. `BadLine` exactly where the line does not begin so.
#[tactic(auto, unfolding(line_format::specs::Heads::head_at))]
pub fn head_at(line: &[u8]) -> Result<(Head, &[u8]), BadLine>
    ensures { Gives (λ x. (x.0, x.1.now)) result (head_at line.now) }
{
    let (line, rest) = number_word(0, u64::MAX, line)?;
    let (time, rest) = optional_word(rest)?;
    let (who, rest) = who_word(rest)?;
    let (reading, rest) = optional_word(rest)?;
    if !has_its_reading(who, reading) {
        return Err(BadLine);
    }
    let head = Head {
        line,
        time,
        who,
        reading,
    };
    Ok((head, rest))
}

/// Appends a head.
pub fn push_head(into: &mut Vec<u8>, head: &Head) -> Result<(), OutOfMemory>
    ensures ok { OnOk result (into.new.items ≡ into.old.items ++ head_text head.now) }
    ensures kept { Keeps into.old.items into.new.items }
{
    push_number(into, head.line)?;
    push_optional_behind(into, b" ", head.time)?;
    push_who_behind(into, b" ", head.who)?;
    push_optional_behind(into, b" ", head.reading)
}

ghost use Rattle.std.specs.Prelude.{◌≡◌, ◌≤◌, [], length};
ghost use Rattle.fabric_terms.specs.declared.event.Event.{Event};
ghost use Rattle.text_fields.specs.Fields.{Gives};
ghost use Rattle.line_format.specs.Lines.{reading_at, readings_of, tick_of};

use super::count::count_at;
use arrayvec::ArrayVec;
use fabric_terms::Readings;
use line_format::BadLine;
use ring_points::MAX_NODES;
use text_fields::{BadField, after_word, node_at};

/// Nodes, each with the reading of its clock, in a list that is used for many ticks.
pub type TickReadings = ArrayVec<(u16, u64), MAX_NODES>;

/// A node and the reading of its clock, behind a blank, and what follows them.
#[tactic(auto, unfolding(line_format::specs::Lines::reading_at))]
fn reading_at(bytes: &[u8]) -> Result<(u16, u64, &[u8]), BadField>
    ensures { Gives (λ x. ((x.0, x.1), x.2.now)) result (reading_at bytes.now) }
{
    let (node, rest) = node_at(after_word(b" ", bytes)?)?;
    let (reading, rest) = count_at(after_word(b":", rest)?)?;
    Ok((node, reading, rest))
}

/// Fills an empty list with the readings to the end of the line. A refusal leaves a front of them.
fn fill(bytes: &[u8], readings: &mut TickReadings) -> Result<(), BadLine>
    requires { readings.old.items ≡ [] }
    ensures { Gives (λ _. readings.new.items) result (readings_of MAX_NODES bytes.now) }
{
    let mut rest = bytes;
    while !rest.is_empty() {
        if readings.len() == MAX_NODES {
            return Err(BadLine);
        }
        let (node, reading, after) = reading_at(rest)?;
        readings.push((node, reading));
        rest = after;
    }
    Ok(())
}

/// The readings as an event has them.
pub fn copy_of(pairs: &[(u16, u64)]) -> Readings
    requires { length pairs.now ≤ MAX_NODES }
    ensures { result ≡ pairs.now }
{
    let mut readings = Readings::new();
    for (node, reading) in pairs {
        readings.push(*node, *reading);
    }
    readings
}

/// Reads a tick behind its word: gives the advance, and leaves the readings in the list, in the place of what it had.
/// A refusal leaves a front of them.
#[tactic(auto, unfolding(line_format::specs::Lines::tick_of))]
pub fn read_tick(words: &[u8], readings: &mut TickReadings) -> Result<u64, BadLine>
    ensures { Gives (λ advance. Event.Tick advance readings.new.items) result (tick_of words.now) }
{
    readings.clear();
    let (advance, rest) = count_at(words)?;
    fill(rest, readings)?;
    Ok(advance)
}

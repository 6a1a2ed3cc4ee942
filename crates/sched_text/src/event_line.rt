ghost use Rattle.std.specs.Prelude.{◌≡◌, ℕ, List, codes};
ghost use Rattle.fabric_terms.specs.declared.event.Event.{Event};
ghost use Rattle.text_fields.specs.Actors.{node_at, actor_at};
ghost use Rattle.text_fields.specs.Fields.{Gives, last, made, behind, nothing};
ghost use Rattle.line_format.specs.Lines.{count_at, start_of, tick_of, do_of, junk_of, event_of};
ghost use Rattle.sched_text.specs.EventLines.{Tells, third_byte};

mod count;
mod junk;
mod tick;

use count::last_count;
pub use junk::read_junk;
use line_format::BadLine;
use text_fields::{actor_word, after_word, last_actor, last_arbiter, last_node, node_word};
pub use tick::TickReadings;
pub(crate) use tick::copy_of;
use tick::read_tick;

/// What a line of a schedule says. It is small, since what is long stays where it lies: readings in the caller's list,
/// and a command and bytes of junk in the line.
#[derive(Drop)]
pub enum EventLine<'a> {
    /// A process begins. The reading is None exactly for an arbitrator.
    Start { actor: u16, reading: Option<u64> },
    /// A process ends.
    Stop { actor: u16 },
    /// True time grows. The readings are in the caller's list.
    Tick { advance: u64 },
    /// A node's timer fires.
    Fire { node: u16 },
    /// The frame of this number comes to its addressee.
    Give { frame: u64 },
    /// An operator commands a node, if `read_command` reads these words.
    Do { node: u16, words: &'a [u8] },
    /// Bytes that are no frame come to an actor, if `read_junk` reads these digits.
    Junk { actor: u16, digits: &'a [u8] },
}

/// Who starts, and the reading of a node's clock.
#[tactic(auto, unfolding(line_format::specs::Lines::start_of))]
fn start_of(words: &[u8]) -> Result<(u16, Option<u64>), BadLine>
    ensures { Gives (λ x. Event.Start x.0 x.1) result (start_of words.now) }
{
    if let Ok(rest) = after_word(b"a", words) {
        return Ok((last_arbiter(rest)?, None));
    }
    let (node, rest) = node_word(words)?;
    Ok((node, Some(last_count(rest)?)))
}

fn start_line(line: &[u8]) -> Result<EventLine<'_>, BadLine>
    ensures { (rs : List (ℕ × ℕ)) →
        Tells rs result (behind (codes "start ") start_of nothing line.now) }
{
    let (actor, reading) = start_of(after_word(b"start ", line)?)?;
    Ok(EventLine::Start { actor, reading })
}

fn stop_line(line: &[u8]) -> Result<EventLine<'_>, BadLine>
    ensures { (rs : List (ℕ × ℕ)) →
        Tells rs result (behind (codes "stop ") (made Event.Stop (last actor_at)) nothing line.now) }
{
    let actor = last_actor(after_word(b"stop ", line)?)?;
    Ok(EventLine::Stop { actor })
}

fn tick_line<'a>(line: &'a [u8], readings: &mut TickReadings) -> Result<EventLine<'a>, BadLine>
    ensures { Tells readings.new.items result (behind (codes "tick ") tick_of nothing line.now) }
{
    let advance = read_tick(after_word(b"tick ", line)?, readings)?;
    Ok(EventLine::Tick { advance })
}

fn fire_line(line: &[u8]) -> Result<EventLine<'_>, BadLine>
    ensures { (rs : List (ℕ × ℕ)) →
        Tells rs result (behind (codes "fire ") (made Event.Fire (last node_at)) nothing line.now) }
{
    let node = last_node(after_word(b"fire ", line)?)?;
    Ok(EventLine::Fire { node })
}

fn give_line(line: &[u8]) -> Result<EventLine<'_>, BadLine>
    ensures { (rs : List (ℕ × ℕ)) →
        Tells rs result (behind (codes "give ") (made Event.Give (last count_at)) nothing line.now) }
{
    let frame = last_count(after_word(b"give ", line)?)?;
    Ok(EventLine::Give { frame })
}

#[tactic(auto, unfolding(line_format::specs::Lines::do_of))]
fn do_line(line: &[u8]) -> Result<EventLine<'_>, BadLine>
    ensures { (rs : List (ℕ × ℕ)) →
        Tells rs result (behind (codes "do ") do_of nothing line.now) }
{
    let (node, words) = node_word(after_word(b"do ", line)?)?;
    Ok(EventLine::Do { node, words })
}

#[tactic(auto, unfolding(line_format::specs::Lines::junk_of))]
fn junk_line(line: &[u8]) -> Result<EventLine<'_>, BadLine>
    ensures { (rs : List (ℕ × ℕ)) →
        Tells rs result (behind (codes "junk ") junk_of nothing line.now) }
{
    let (actor, digits) = actor_word(after_word(b"junk ", line)?)?;
    Ok(EventLine::Junk { actor, digits })
}

/// The third byte of a line, which tells its first word from the six others; 0 where there is none.
fn third_byte(line: &[u8]) -> u8
    ensures { result ≡ third_byte line.now }
{
    if line.len() < 3 { 0 } else { line[2] }
}

/// Reads a line of a schedule, without its line feed. Whether the line is ignored, and whether it is too long, is the
/// caller's matter.
///
/// The readings of a tick come into the list, in the place of what it had, so that one list serves any number of lines.
/// BadLine comes where the bytes are no line. Of a command and of junk only the first words are read.
pub fn read_event_line<'a>(
    line: &'a [u8],
    readings: &mut TickReadings,
) -> Result<EventLine<'a>, BadLine>
    ensures { Tells readings.new.items result (event_of line.now) }
{
    match third_byte(line) {
        b'a' => start_line(line),
        b'o' => stop_line(line),
        b'c' => tick_line(line, readings),
        b'r' => fire_line(line),
        b'v' => give_line(line),
        b' ' => do_line(line),
        b'n' => junk_line(line),
        _ => Err(BadLine),
    }
}

// The lines of generated events.
ghost use Rattle.std.specs.Prelude.{◌≡◌, ◌++◌, decimal, OnOk};
ghost use Rattle.fabric_terms.specs.declared.event.Event.TheVariants.{Tick};
ghost use Rattle.line_format.specs.Lines.{event_text};
ghost use Rattle.schedule_generate.specs.Moves.{event_for};
ghost use Rattle.schedule_generate.specs.Texts.{event_line, readings_text};
ghost use Rattle.text_fields.specs.Actors.{actor_text};

use crate::moves::Move;
use fabric_terms::OutOfMemory;
use ring_points::ARBITRATORS;
use text_fields::{push_bytes, push_number};

/// Appends words and a number.
pub fn push_counted(text: &mut Vec<u8>, words: &[u8], number: u64) -> Result<(), OutOfMemory>
    ensures { OnOk result (text.new.items ≡ text.old.items ++ (words.now ++ decimal number)) }
{
    push_bytes(text, words)?;
    push_number(text, number)
}

/// Appends words and two numbers.
fn push_two(
    text: &mut Vec<u8>,
    words: &[u8],
    first: u64,
    between: &[u8],
    second: u64,
) -> Result<(), OutOfMemory>
    ensures { OnOk result (text.new.items ≡ text.old.items ++
        (words.now ++ (decimal first ++ (between.now ++ decimal second)))) }
{
    push_counted(text, words, first)?;
    push_counted(text, between, second)
}

/// Appends words and an actor.
fn push_named(text: &mut Vec<u8>, words: &[u8], actor: u16) -> Result<(), OutOfMemory>
    ensures { OnOk result (text.new.items ≡ text.old.items ++ (words.now ++ actor_text actor)) }
{
    push_bytes(text, words)?;
    if actor > ARBITRATORS {
        return push_counted(text, b"a", u64::from(actor - ARBITRATORS));
    }
    push_number(text, u64::from(actor))
}

fn push_words(text: &mut Vec<u8>, made: Move) -> Result<(), OutOfMemory>
    ensures { OnOk result (text.new.items ≡ text.old.items ++ event_text (event_for made)) }
{
    match made {
        Move::Start(actor, None) => push_named(text, b"start ", actor),
        Move::Start(actor, Some(reading)) => {
            push_two(text, b"start ", u64::from(actor), b" ", reading)
        }
        Move::Stop(actor) => push_named(text, b"stop ", actor),
        Move::Fire(node) => push_counted(text, b"fire ", u64::from(node)),
        Move::Give(frame) => push_counted(text, b"give ", frame),
        Move::Link(node, other) => {
            push_two(text, b"do ", u64::from(node), b" link ", u64::from(other))
        }
    }
}

/// Appends the line of an event that is no tick.
pub fn push_move_line(text: &mut Vec<u8>, made: Move) -> Result<(), OutOfMemory>
    ensures { OnOk result (text.new.items ≡ text.old.items ++ event_line (event_for made)) }
{
    push_words(text, made)?;
    push_bytes(text, b"\n")
}

fn push_readings(text: &mut Vec<u8>, readings: &[(u16, u64)]) -> Result<(), OutOfMemory>
    ensures { OnOk result (text.new.items ≡ text.old.items ++ readings_text readings.now) }
{
    for i in 0..readings.len() {
        let (node, reading) = readings[i];
        push_two(text, b" ", u64::from(node), b":", reading)?;
    }
    Ok(())
}

/// Appends the line of a tick.
pub fn push_tick_line(
    text: &mut Vec<u8>,
    advance: u64,
    readings: &[(u16, u64)],
) -> Result<(), OutOfMemory>
    ensures { OnOk result (text.new.items ≡ text.old.items ++ event_line (Tick advance readings.now)) }
{
    push_counted(text, b"tick ", advance)?;
    push_readings(text, readings)?;
    push_bytes(text, b"\n")
}

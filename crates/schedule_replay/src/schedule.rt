// One line of a schedule: how it is judged, and what is told of it.
ghost use Rattle.std.specs.Prelude.{IfOk, length};
ghost use Rattle.fabric_terms.specs.declared.config.FabricConfig.{FabricConfig as Configuration};
ghost use Rattle.ring_world.specs.Answers.{IsWorld};
ghost use Rattle.unit_rules.specs.Ruled.{ruled};
ghost use Rattle.fabric_terms.specs.Ranges.{Fits};
ghost use Rattle.line_format.specs.Commands.{command_of};
ghost use Rattle.line_format.specs.Lines.{event_of, junk_bytes_of};
ghost use Rattle.schedule_replay.specs.Fitting.{FitsIfRead};
ghost use Rattle.text_fields.specs.Fields.{made};
ghost use Rattle.text_fields.specs.Texts.{Keeps};
ghost use Rattle.world_rules.specs.Runs.{History};
ghost use Rattle.schedule_replay.specs.Follows.{At, Follows};
ghost use Rattle.schedule_rules.specs.Schedule.{line_verdict, event_verdict, run_verdict};

use crate::refusal::refusal_of;
use crate::run_observer::RunObserver;
use crate::schedule_reader::EventPlaces;
use fabric_status::Refusal;
use fabric_terms::{Event, OutOfMemory};
use ring_world::{FramePlace, World};
use sched_text::{EventLine, read_command, read_event_line, read_junk};
use source_lines::{MAX_LINE, MAX_LINES, is_ignored};

/// What follows the answer of the world to an event: what is told of it is written, or how it is refused is given.
macro_rules! tell_answer {
    ($answer:expr, $world:ident, $teller:ident, $number:ident, $text:ident) => {
        match $answer {
            Ok(acted) => {
                $teller.tell($world, $number, &acted, $text)?;
                $world.recycle(acted);
                Ok(None)
            }
            Err(refusal) => Ok(Some(refusal_of(refusal, $number)?)),
        }
    };
}

/// Takes an event, and writes what is told of it. Gives how it is refused, if it is.
fn take_event<T: RunObserver>(
    world: &mut World,
    teller: &mut T,
    number: u64,
    event: &Event,
    text: &mut Vec<u8>,
) -> Result<Option<Refusal>, OutOfMemory>
    requires world { IsWorld world.old }
    requires fits { Fits event.now }
    ensures follows { (c : Configuration) (h : History) → At world.old (T.knows teller.old) c h →
        IfOk result (λ refused. Follows T.telling c h number (run_verdict c (ruled c h) (length h) number event.now)
        refused world.new (T.knows teller.new) text.old.items text.new.items) }
    ensures kept { Keeps text.old.items text.new.items }
{
    tell_answer!(world.apply(number, event), world, teller, number, text)
}

/// Takes a tick. Gives how it is refused, if it is.
fn take_tick<T: RunObserver>(
    world: &mut World,
    teller: &mut T,
    number: u64,
    advance: u64,
    readings: &[(u16, u64)],
    text: &mut Vec<u8>,
) -> Result<Option<Refusal>, OutOfMemory>
    requires world { IsWorld world.old }
    requires fits { Fits (Event.Tick advance readings.now) }
    ensures follows { (c : Configuration) (h : History) → At world.old (T.knows teller.old) c h →
        IfOk result (λ refused. Follows T.telling c h number
        (run_verdict c (ruled c h) (length h) number (Event.Tick advance readings.now)) refused world.new
        (T.knows teller.new) text.old.items text.new.items) }
    ensures kept { Keeps text.old.items text.new.items }
{
    match world.tick(advance, readings) {
        Ok(()) => {
            teller.tell(world, number, &None, text)?;
            Ok(None)
        }
        Err(refusal) => Ok(Some(refusal_of(refusal, number)?)),
    }
}

/// Takes an operator's command to a node, in these words.
fn take_command<T: RunObserver>(
    world: &mut World,
    teller: &mut T,
    number: u64,
    node: u16,
    words: &[u8],
    text: &mut Vec<u8>,
) -> Result<Option<Refusal>, OutOfMemory>
    requires world { IsWorld world.old }
    requires fits { FitsIfRead (made (Event.Do node) command_of words.now) }
    ensures follows { (c : Configuration) (h : History) → At world.old (T.knows teller.old) c h →
        IfOk result (λ refused. Follows T.telling c h number
        (event_verdict c (ruled c h) (length h) number (made (Event.Do node) command_of words.now)) refused world.new
        (T.knows teller.new) text.old.items text.new.items) }
    ensures kept { Keeps text.old.items text.new.items }
{
    match read_command(words) {
        Err(_) => Ok(Some(Refusal::BadLine(number))),
        Ok(command) => take_event(world, teller, number, &Event::Do { node, command }, text),
    }
}

/// Takes bytes that are no frame, in these digits, which come to an actor.
fn take_junk<T: RunObserver>(
    world: &mut World,
    teller: &mut T,
    number: u64,
    actor: u16,
    digits: &[u8],
    text: &mut Vec<u8>,
) -> Result<Option<Refusal>, OutOfMemory>
    requires world { IsWorld world.old }
    requires fits { FitsIfRead (made (Event.Junk actor) junk_bytes_of digits.now) }
    ensures follows { (c : Configuration) (h : History) → At world.old (T.knows teller.old) c h →
        IfOk result (λ refused. Follows T.telling c h number
        (event_verdict c (ruled c h) (length h) number (made (Event.Junk actor) junk_bytes_of digits.now)) refused
        world.new (T.knows teller.new) text.old.items text.new.items) }
    ensures kept { Keeps text.old.items text.new.items }
{
    match read_junk(digits) {
        Err(_) => Ok(Some(Refusal::BadLine(number))),
        Ok(bytes) => take_event(world, teller, number, &Event::Junk { actor, bytes }, text),
    }
}

/// Takes the start of a process.
fn take_start<T: RunObserver>(
    world: &mut World,
    teller: &mut T,
    number: u64,
    actor: u16,
    reading: Option<u64>,
    text: &mut Vec<u8>,
) -> Result<Option<Refusal>, OutOfMemory>
    requires world { IsWorld world.old }
    requires fits { Fits (Event.Start actor reading) }
    ensures follows { (c : Configuration) (h : History) → At world.old (T.knows teller.old) c h →
        IfOk result (λ refused. Follows T.telling c h number
        (run_verdict c (ruled c h) (length h) number (Event.Start actor reading)) refused world.new (T.knows teller.new)
        text.old.items text.new.items) }
    ensures kept { Keeps text.old.items text.new.items }
{
    take_event(
        world,
        teller,
        number,
        &Event::Start { actor, reading },
        text,
    )
}

/// Takes the end of a process.
fn take_stop<T: RunObserver>(
    world: &mut World,
    teller: &mut T,
    number: u64,
    actor: u16,
    text: &mut Vec<u8>,
) -> Result<Option<Refusal>, OutOfMemory>
    requires world { IsWorld world.old }
    requires fits { Fits (Event.Stop actor) }
    ensures follows { (c : Configuration) (h : History) → At world.old (T.knows teller.old) c h →
        IfOk result (λ refused. Follows T.telling c h number
        (run_verdict c (ruled c h) (length h) number (Event.Stop actor)) refused world.new (T.knows teller.new)
        text.old.items text.new.items) }
    ensures kept { Keeps text.old.items text.new.items }
{
    take_event(world, teller, number, &Event::Stop { actor }, text)
}

/// Takes a firing of a node's timer. No event is made for it.
fn take_fire<T: RunObserver>(
    world: &mut World,
    teller: &mut T,
    number: u64,
    node: u16,
    text: &mut Vec<u8>,
) -> Result<Option<Refusal>, OutOfMemory>
    requires world { IsWorld world.old }
    requires fits { Fits (Event.Fire node) }
    ensures follows { (c : Configuration) (h : History) → At world.old (T.knows teller.old) c h →
        IfOk result (λ refused. Follows T.telling c h number
        (run_verdict c (ruled c h) (length h) number (Event.Fire node)) refused world.new (T.knows teller.new)
        text.old.items text.new.items) }
    ensures kept { Keeps text.old.items text.new.items }
{
    tell_answer!(world.fire(number, node), world, teller, number, text)
}

/// Takes a frame that comes to its addressee. No event is made for it, and it is read into the place.
fn take_give<T: RunObserver>(
    world: &mut World,
    teller: &mut T,
    number: u64,
    frame: u64,
    place: &mut FramePlace,
    text: &mut Vec<u8>,
) -> Result<Option<Refusal>, OutOfMemory>
    requires world { IsWorld world.old }
    requires fits { Fits (Event.Give frame) }
    ensures follows { (c : Configuration) (h : History) → At world.old (T.knows teller.old) c h →
        IfOk result (λ refused. Follows T.telling c h number
        (run_verdict c (ruled c h) (length h) number (Event.Give frame)) refused world.new (T.knows teller.new)
        text.old.items text.new.items) }
    ensures kept { Keeps text.old.items text.new.items }
{
    tell_answer!(
        world.give(number, frame, place),
        world,
        teller,
        number,
        text
    )
}

/// Takes a line of an event. The event is made in a function of its kind: a function clears the room of every event that
/// it may make, whichever it makes.
fn take_words<T: RunObserver>(
    world: &mut World,
    teller: &mut T,
    number: u64,
    line: &[u8],
    places: &mut EventPlaces,
    text: &mut Vec<u8>,
) -> Result<Option<Refusal>, OutOfMemory>
    requires { IsWorld world.old }
    ensures follows { (c : Configuration) (h : History) → At world.old (T.knows teller.old) c h →
        IfOk result (λ refused. Follows T.telling c h number
        (event_verdict c (ruled c h) (length h) number (event_of line.now)) refused world.new (T.knows teller.new)
        text.old.items text.new.items) }
    ensures kept { Keeps text.old.items text.new.items }
{
    match read_event_line(line, &mut places.readings) {
        Err(_) => Ok(Some(Refusal::BadLine(number))),
        Ok(EventLine::Fire { node }) => take_fire(world, teller, number, node, text),
        Ok(EventLine::Give { frame }) => take_give(
            world,
            teller,
            number,
            frame,
            &mut places.frame,
            text,
        ),
        Ok(EventLine::Tick { advance }) => {
            take_tick(
                world,
                teller,
                number,
                advance,
                places.readings.as_slice(),
                text,
            )
        }
        Ok(EventLine::Start { actor, reading }) => {
            take_start(world, teller, number, actor, reading, text)
        }
        Ok(EventLine::Stop { actor }) => take_stop(world, teller, number, actor, text),
        Ok(EventLine::Do { node, words }) => take_command(world, teller, number, node, words, text),
        Ok(EventLine::Junk { actor, digits }) => {
            take_junk(world, teller, number, actor, digits, text)
        }
    }
}

/// Takes a line, and writes what is told of it. Gives how it is refused, if it is.
#[tactic(auto, unfolding(schedule_rules::specs::Schedule::line_verdict))]
pub fn take_line<T: RunObserver>(
    world: &mut World,
    teller: &mut T,
    number: u64,
    line: &[u8],
    places: &mut EventPlaces,
    text: &mut Vec<u8>,
) -> Result<Option<Refusal>, OutOfMemory>
    requires { IsWorld world.old }
    ensures follows { (c : Configuration) (h : History) → At world.old (T.knows teller.old) c h →
        IfOk result (λ refused. Follows T.telling c h number (line_verdict c (ruled c h) (length h) number line.now)
        refused world.new (T.knows teller.new) text.old.items text.new.items) }
    ensures kept { Keeps text.old.items text.new.items }
{
    if line.len() > MAX_LINE || number > MAX_LINES {
        return Ok(Some(Refusal::TooLarge(number)));
    }
    if is_ignored(line) {
        return Ok(None);
    }
    take_words(world, teller, number, line, places, text)
}

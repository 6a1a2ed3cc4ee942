ghost use Rattle.std.specs.Prelude.{◌≡◌, ◌==◌, Some, position};
ghost use Rattle.line_format.specs.Commands.{command_of};
ghost use Rattle.turn_plans.specs.Bids.{bid};
ghost use Rattle.turn_plans.specs.PlanVerdicts.{CanBeKept, line_verdict, order_verdict, place_of, seen};

use crate::bid::{Bid, bid_of};
use crate::given::Given;
use edge_io::Endpoint;
use fabric_status::Refusal;
use source_lines::{MAX_LINE, MAX_LINES, is_ignored};
use turn_rules::Order;
use world_rules::{is_configured_node, is_named};

/// What becomes of a line.
#[derive(Drop)]
pub enum PlanVerdict<'a> {
    /// It says nothing.
    Ignored,
    /// It commands a node, in these words.
    Ordered(Order, &'a [u8]),
    /// It ends the reading.
    Refused(Refusal),
}

fn position_of(actors: &[Endpoint], node: u16) -> Option<usize>
    ensures { result ≡ position (λ e. e.actor == node) actors.now }
{
    actors.iter().position(|e| e.actor == node)
}

/// The place of a node among the actors.
fn place_of(actors: &[Endpoint], node: u16) -> usize
    ensures { result ≡ place_of actors.now node }
{
    match position_of(actors, node) {
        Some(place) => place,
        None => 0,
    }
}

/// A bid at a line, where the node that it is for, and the one that its command names, are there.
fn order_verdict<'a>(given: &Given, number: u64, asked: Bid<'a>) -> PlanVerdict<'a>
    requires { command_of asked.words.now ≡ Some asked.command }
    ensures verdict { seen result ≡ order_verdict given.now.config.now given.now.actors.now number
        (bid asked.entry.turn asked.entry.node asked.entry.command) }
    ensures kept { CanBeKept asked.entry.turn result }
{
    if is_configured_node(given.config, asked.node)
        && is_named(given.config, asked.node, &asked.command)
    {
        let order = Order {
            turn: asked.turn,
            place: place_of(given.actors, asked.node),
            command: asked.command,
        };
        PlanVerdict::Ordered(order, asked.words)
    } else {
        PlanVerdict::Refused(Refusal::NoSuch(number))
    }
}

/// The line of this number, where no turn below `least` may come.
#[tactic(auto, unfolding(crate::specs::PlanVerdicts::line_verdict))]
pub(crate) fn line_verdict<'a>(
    given: &Given,
    least: u64,
    number: u64,
    line: &'a [u8],
) -> PlanVerdict<'a>
    ensures verdict { seen result ≡ line_verdict given.now.crew given.now.config.now given.now.actors.now
        given.now.turns least number line.now }
    ensures kept { CanBeKept least result }
{
    if line.len() > MAX_LINE || number > MAX_LINES {
        return PlanVerdict::Refused(Refusal::TooLarge(number));
    }
    if is_ignored(line) {
        return PlanVerdict::Ignored;
    }
    match bid_of(given.crew, least, given.turns, line) {
        Err(_) => PlanVerdict::Refused(Refusal::BadLine(number)),
        Ok(bid) => order_verdict(given, number, bid),
    }
}

ghost use Rattle.std.specs.Prelude.{◌≡◌};
ghost use Rattle.turn_rules.specs.Plans.{Rises};
ghost use Rattle.fabric_turns.specs.Windows.{IsFirstOf, IsTurnOf};

use turn_rules::Orders;

/// A turn: its number, counted from 1, and which of the plan's orders are of it: those from `first` on, before `end`.
#[derive(Clone, Copy)]
pub(crate) struct Turn {
    pub(crate) number: u64,
    pub(crate) first: usize,
    pub(crate) end: usize,
}

/// The turn of the actor at a place.
#[derive(Clone, Copy)]
pub(crate) struct ActorTurn {
    pub(crate) turn: Turn,
    pub(crate) place: usize,
}

/// The turn of a number, where the orders of the turns before it are the first ones. Each order is looked at once in a
/// run, since the next turn's orders begin where this one's end.
pub(crate) fn turn_of(orders: &Orders, number: u64, first: usize) -> Turn
    requires rising { Rises 1 orders.now }
    requires first { IsFirstOf orders.now number first }
    ensures number { result.number ≡ number }
    ensures turn { IsTurnOf orders.now result }
{
    for end in first..orders.len() {
        if orders.turn_at(end) != number {
            return Turn { number, first, end };
        }
    }
    Turn {
        number,
        first,
        end: orders.len(),
    }
}

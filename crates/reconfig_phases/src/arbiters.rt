ghost use Rattle.std.specs.Prelude.{◌≡◌, ◌≤◌, ◌-◌, length, Some, None, if◌then◌else◌};
ghost use Rattle.ring_points.specs.Whos.{arbiter_actor};
ghost use Rattle.unit_rules.specs.Phases.{is_arbiter_to};
ghost use Rattle.unit_rules.specs.Polls.{arbiters_to};

use arrayvec::ArrayVec;
use ring_points::{ARBITRATORS, MAX_ARBITRATORS};

/// The first so many arbitrators, in their order.
pub fn arbiters(count: u8) -> ArrayVec<u16, MAX_ARBITRATORS>
    requires { count ≤ MAX_ARBITRATORS }
    ensures items { result.items ≡ arbiters_to count }
    ensures many { length result.items ≤ MAX_ARBITRATORS }
{
    let mut actors = ArrayVec::new();
    for i in 0..count {
        actors.push(ARBITRATORS + 1 + u16::from(i));
    }
    actors
}

/// The number of an actor that is one of the first so many arbitrators.
pub fn arbiter_number(actor: u16, count: u8) -> Option<u8>
    requires { count ≤ MAX_ARBITRATORS }
    ensures { result ≡ (if is_arbiter_to count actor then Some (actor - arbiter_actor 0) else None) }
{
    if ARBITRATORS < actor && actor <= ARBITRATORS + u16::from(count) {
        Some((actor - ARBITRATORS) as u8)
    } else {
        None
    }
}

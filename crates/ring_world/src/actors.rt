ghost use Rattle.std.specs.Prelude.{◌≡◌, ◌==◌, length};
ghost use Rattle.std.specs.List.{position};
ghost use Rattle.unit_rules.specs.Fabric.{fabric};
ghost use Rattle.world_rules.specs.Schedules.{runs};
ghost use Rattle.world_rules.specs.Worlds.{World as RuledWorld};
ghost use Rattle.ring_world.specs.Finds.{IsPlaceOf, IsSeatPlace};
ghost use Rattle.ring_world.specs.Stands.{Stands};

use crate::world::World;
use ring_points::{ARBITRATORS, Who};

fn position_of(clocks: &[(Who, u64)], node: u16) -> Option<usize>
    ensures { result ≡ position (λ k. k.0.actor == node) clocks.now }
{
    clocks.iter().position(|k| k.0.actor == node)
}

impl World {
    /// The place of this node, if it runs.
    pub(crate) fn place_of(&self, node: u16) -> Option<usize>
        ensures { (w : RuledWorld fabric) → Stands self.now w → IsPlaceOf node w.nodes result }
    {
        position_of(&self.clocks, node)
    }

    /// The place of this arbitrator, if it is configured.
    pub(crate) fn seat_of(&self, actor: u16) -> Option<usize>
        ensures { IsSeatPlace (length self.now.seats.items) actor result }
    {
        if actor <= ARBITRATORS {
            return None;
        }
        let place = usize::from(actor - ARBITRATORS) - 1;
        if place < self.seats.len() {
            Some(place)
        } else {
            None
        }
    }

    /// Whether the actor runs.
    pub(crate) fn runs(&self, actor: u16) -> bool
        ensures { (w : RuledWorld fabric) → Stands self.now w → result ≡ runs w actor }
    {
        if actor <= ARBITRATORS {
            return self.place_of(actor).is_some();
        }
        match self.seat_of(actor) {
            None => false,
            Some(place) => self.seats[place].runs,
        }
    }
}

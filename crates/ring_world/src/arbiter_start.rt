ghost use Rattle.std.specs.Prelude.{◌<◌, None};
ghost use Rattle.unit_rules.specs.Fabric.{fabric};
ghost use Rattle.world_rules.specs.Worlds.{World as RuledWorld};
ghost use Rattle.ring_world.specs.Moves.{Comes};
ghost use Rattle.ring_world.specs.Stands.{Stands};

use crate::world::{Acted, EventRefusal, World};
use fabric_terms::Event;
use node_core::Batch;
use ring_points::{ARBITRATORS, Who};

impl World {
    /// Starts a configured arbitrator that does not run.
    pub(crate) fn start_arbiter(
        &mut self,
        line: u64,
        actor: u16,
    ) -> Result<Option<Acted>, EventRefusal>
        requires can { (w : RuledWorld fabric) × Stands self.old w }
        requires actor { ARBITRATORS < actor }
        ensures { (w : RuledWorld fabric) → Stands self.old w →
            Comes self.old self.new w line (Event.Start actor None) result }
    {
        let Some(place) = self.seat_of(actor) else {
            return Err(EventRefusal::NoSuch);
        };
        if self.seats[place].runs {
            return Err(EventRefusal::NoSuch);
        }
        if !self.may_act() {
            return Err(EventRefusal::TooLarge);
        }
        let seat = &mut self.seats[place];
        seat.runs = true;
        self.events += 1;
        Ok(Some(Acted {
            line,
            time: self.time,
            who: Who { actor, instance: 0 },
            reading: None,
            sent: (0, 0),
            reports: Batch::new(Vec::new(self.alloc)),
        }))
    }
}

ghost use Rattle.std.specs.Prelude.{◌≡◌, ◌≤◌, ◌<◌, ◌∷◌, ◌++◌, [], IfOk, vec_capacity, vec_len};
ghost use Rattle.fabric_terms.specs.Ranges.{Fits};
ghost use Rattle.unit_rules.specs.Fabric.{fabric};
ghost use Rattle.world_rules.specs.Worlds.{World as RuledWorld};
ghost use Rattle.ring_world.specs.Moves.{Comes};
ghost use Rattle.ring_world.specs.Stands.{Stands};

use crate::world::{Acted, EventRefusal, World};
use fabric_terms::{Event, OutOfMemory, Report};
use node_core::{Batch, NodeCore};
use ring_points::{ARBITRATORS, MAX_NODE_NUMBER, Who};
use std::alloc::Global;

fn stopped(alloc: Global) -> Result<Batch<Report>, OutOfMemory>
    ensures { IfOk result (λ r. r ≡ Report.Stopped ∷ []) }
{
    let mut reports = Vec::new(alloc);
    reports.push(Report::Stopped)?;
    Ok(Batch::new(reports))
}

/// Keeps a node that has ended, for a start to come. Where memory is short for one more, it is dropped.
fn keep_ended(ended: &mut Vec<Box<NodeCore>>, node: Box<NodeCore>)
    ensures { vec_len ended.old < vec_capacity ended.old → ended.new.items ≡ ended.old.items ++ node ∷ [] }
{
    match ended.reserve(1) {
        Ok(()) => ended.push_reserved(node),
        Err(_) => drop(node),
    }
}

impl World {
    /// A node's process ends.
    fn stop_node(&mut self, line: u64, node: u16) -> Result<Option<Acted>, EventRefusal>
        requires can { (w : RuledWorld fabric) × Stands self.old w }
        requires node { node ≤ MAX_NODE_NUMBER }
        ensures { (w : RuledWorld fabric) → Stands self.old w →
            Comes self.old self.new w line (Event.Stop node) result }
    {
        let Some(place) = self.place_of(node) else {
            return Err(EventRefusal::NoSuch);
        };
        if !self.may_come() {
            return Err(EventRefusal::TooLarge);
        }
        let reports = stopped(self.alloc)?;
        let (who, reading) = self.clocks.remove(place);
        let mut core = self.running.remove(place).node;
        self.kept[usize::from(node)] = core.take_kept();
        keep_ended(&mut self.ended, core);
        self.events += 1;
        Ok(Some(Acted {
            line,
            time: self.time,
            who,
            reading: Some(reading),
            sent: (0, 0),
            reports,
        }))
    }

    /// An arbitrator's process ends.
    fn stop_arbiter(&mut self, line: u64, actor: u16) -> Result<Option<Acted>, EventRefusal>
        requires { ARBITRATORS < actor }
        ensures { (w : RuledWorld fabric) → Stands self.old w →
            Comes self.old self.new w line (Event.Stop actor) result }
    {
        let Some(place) = self.seat_of(actor) else {
            return Err(EventRefusal::NoSuch);
        };
        if !self.seats[place].runs {
            return Err(EventRefusal::NoSuch);
        }
        if !self.may_come() {
            return Err(EventRefusal::TooLarge);
        }
        let reports = stopped(self.alloc)?;
        let seat = &mut self.seats[place];
        seat.runs = false;
        self.events += 1;
        Ok(Some(Acted {
            line,
            time: self.time,
            who: Who { actor, instance: 0 },
            reading: None,
            sent: (0, 0),
            reports,
        }))
    }

    /// An actor's process ends. It is never inlined into the taking of an event, which would then pay for its room.
    #[inline(never)]
    pub(crate) fn stop(&mut self, line: u64, actor: u16) -> Result<Option<Acted>, EventRefusal>
        requires can { (w : RuledWorld fabric) × Stands self.old w }
        requires fits { Fits (Event.Stop actor) }
        ensures { (w : RuledWorld fabric) → Stands self.old w →
            Comes self.old self.new w line (Event.Stop actor) result }
    {
        if actor <= ARBITRATORS {
            self.stop_node(line, actor)
        } else {
            self.stop_arbiter(line, actor)
        }
    }
}

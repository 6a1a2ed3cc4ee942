ghost use Rattle.std.specs.Prelude.{◌≡◌, ◌∷◌, ◌++◌, [], OnOk, OnErr, IfOk, filter};
ghost use Rattle.fabric_terms.specs.Places.{place_of};
ghost use Rattle.fabric_terms.specs.Reports.{told};
ghost use Rattle.fabric_terms.specs.declared.config.FabricConfig.{FabricConfig as Configuration};
ghost use Rattle.point_places.specs.Lines.{IsAppended};
ghost use Rattle.ring_points.specs.Whos.{node_instance};
ghost use Rattle.ring_world.specs.Answers.{StandsFor};
ghost use Rattle.ring_world.specs.Holders.{held_now};
ghost use Rattle.point_places.specs.Holders.{holders_in, holders_of, holds_in, is_some_range};
ghost use Rattle.unit_rules.specs.Fabric.{fabric};
ghost use Rattle.world_rules.specs.Runs.{History, run_of};

use crate::world::World;
use fabric_terms::OutOfMemory;
use node_core::NodeCore;
use point_places::Holder;
use ring_points::Who;

/// Whether a node owns a point and its reading is below its fence.
fn holds(node: &NodeCore, reading: u64) -> bool
    ensures { result ≡ is_some_range (held_now reading node.now) }
{
    let is_below = match node.fence() {
        None => true,
        Some(fence) => reading < fence,
    };
    is_below && !node.ranges().intervals().is_empty()
}

/// Adds the instance of a node to the holders if it holds a point, with what it holds.
fn push_holder(
    holders: &mut Vec<Holder>,
    who: Who,
    reading: u64,
    node: &NodeCore,
) -> Result<(), OutOfMemory>
    ensures { OnOk result (holders.new.items ≡ holders.old.items
        ++ filter (λ holder. is_some_range holder.ranges) (record { who = who; ranges = held_now reading node.now } ∷ [])) }
{
    if holds(node, reading) {
        holders.push(Holder {
            who,
            ranges: node.ranges().copy(),
        })?;
    }
    Ok(())
}

impl World {
    /// How many running instances hold a point.
    pub(crate) fn count_holders(&self) -> u32
        ensures { (c : Configuration) (h : History) → StandsFor self.now c h → result ≡ holders_in (run_of fabric c h) }
    {
        let mut count: u32 = 0;
        for (clock, running) in self.clocks.iter().zip(self.running.iter()) {
            if holds(&running.node, clock.1) {
                count = count.saturating_add(1);
            }
        }
        count
    }

    /// The running instances that hold a point, each with what it holds.
    fn holders(&self) -> Result<Vec<Holder>, OutOfMemory>
        ensures { (c : Configuration) (h : History) → StandsFor self.now c h →
            IfOk result (λ r. r.items ≡ holders_of (run_of fabric c h)) }
    {
        let mut holders = Vec::new(self.alloc);
        for (clock, running) in self.clocks.iter().zip(self.running.iter()) {
            push_holder(&mut holders, clock.0, clock.1, &running.node)?;
        }
        Ok(holders)
    }

    /// Appends the lines of the points that are with an instance which does not hold them, and of those in flight.
    pub(crate) fn push_place_lines(&self, into: &mut Vec<u8>) -> Result<(), OutOfMemory>
        ensures ok { (c : Configuration) (h : History) → StandsFor self.now c h →
            OnOk result (IsAppended (place_of (node_instance c.first 1) (told (run_of fabric c h)))
            (holds_in (run_of fabric c h)) into.old.items into.new.items) }
        ensures refused { OnErr result (into.new.items ≡ into.old.items) }
    {
        let holders = self.holders()?;
        self.places.push_lines(&holders, into)
    }
}

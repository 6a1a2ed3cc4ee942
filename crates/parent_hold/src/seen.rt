// What a node has before a step.
ghost use Rattle.std.specs.Prelude.{◌≡◌, IfOk};
ghost use Rattle.std.specs.Option.{option_copied};
ghost use Rattle.parent_hold.specs.Had.{IsSeen, had_nothing, had_of, is_primary, leads_at, led_by};

use fabric_terms::OutOfMemory;
use frame_hold::Before;
use node_core::NodeCore;
use replica_core::{Replica, Role};
use ring_points::RangeSet;
use std::alloc::Global;
use turn_members::Member;

/// What was seen of an actor before its step.
#[derive(Drop)]
pub enum Seen {
    /// There was no actor: the step is the start of an instance.
    Nobody,
    /// Memory was short.
    Short,
    /// It had this.
    Had(Before),
}

/// Whether a replica, if there is one, is primary.
fn is_primary(replica: Option<&Replica>) -> bool
    ensures { result ≡ is_primary (option_copied replica.entry) }
{
    match replica {
        Some(replica) => replica.role() == Role::Primary,
        None => false,
    }
}

/// Whether the node's replica of the partition is primary.
fn leads(core: &NodeCore, partition: u16) -> bool
    ensures { result ≡ leads_at core.now.state.above.states partition }
{
    is_primary(core.replica(partition))
}

/// The partitions of which the node is primary.
fn led_by(alloc: Global, core: &NodeCore) -> Result<Vec<u16>, OutOfMemory>
    ensures { IfOk result (λ led. led.items ≡ led_by core.now.state.above.states) }
{
    let mut partitions = core.replica_partitions(alloc)?;
    partitions.retain(|partition| leads(core, *partition));
    Ok(partitions)
}

/// What the actor has: its points, and the partitions that it leads.
fn had(alloc: Global, actor: &Member) -> Result<Before, OutOfMemory>
    ensures { IfOk result (λ had. had ≡ had_of actor.now) }
{
    match actor {
        Member::Node(core) => Ok(Before::new(core.ranges().copy(), led_by(alloc, core)?)),
        Member::Arbiter(_, _) => Ok(nothing(alloc)),
    }
}

/// It has nothing.
pub fn nothing(alloc: Global) -> Before
    ensures { result ≡ had_nothing }
{
    Before::new(RangeSet::new(), Vec::new(alloc))
}

/// What is seen of the actor.
pub fn see(alloc: Global, actor: &Member) -> Seen
    ensures { IsSeen (had_of actor.now) result }
{
    match had(alloc, actor) {
        Ok(had) => Seen::Had(had),
        Err(_) => Seen::Short,
    }
}

ghost use Rattle.std.specs.Prelude.{◌≡◌, ◌++◌, ◌∷◌, [], OnOk};
ghost use Rattle.text_fields.specs.Texts.{Keeps};
ghost use Rattle.unit_manager.specs.Managers.{reconfigs_of};
ghost use Rattle.unit_replica.specs.Tables.{replica_at};
ghost use Rattle.state_lines.specs.Answers.{lines_text};
ghost use Rattle.state_lines.specs.States.{changing_lines, link_line, link_lines, node_lines, replica_line};
ghost use Rattle.state_lines.specs.States.{replica_lines, session_lines, state_of};

use crate::change_times::ChangeTimes;
use crate::line::{
    line_changing, line_link, line_node, line_open, line_owns, line_replica, line_up, line_watchers,
};
use crate::session_facts::SessionFacts;
use fabric_terms::OutOfMemory;
use node_core::NodeCore;
use reconfig_phases::Reconfig;
use ring_rules::Link;

/// Appends the state of a node at this reading, line by line. The last line of the answer, `done`, is the caller's.
pub fn push_node_state(
    into: &mut Vec<u8>,
    tag: Option<u32>,
    core: &NodeCore,
    now: u64,
    changes: &ChangeTimes,
    facts: SessionFacts,
) -> Result<(), OutOfMemory>
    ensures ok { OnOk result (into.new.items ≡ into.old.items
        ++ lines_text tag (state_of core.now.settings core.now.state now changes.now facts)) }
    ensures kept { Keeps into.old.items into.new.items }
{
    push_node_lines(into, tag, core, now)?;
    push_links(into, tag, core.slots())?;
    line_up(into, tag, core.ring(), now)?;
    push_replicas(into, tag, core)?;
    push_changes(into, tag, core.reconfigs(), now, changes)?;
    push_session(into, tag, facts)
}

/// Appends the node and what it owns.
fn push_node_lines(
    into: &mut Vec<u8>,
    tag: Option<u32>,
    core: &NodeCore,
    now: u64,
) -> Result<(), OutOfMemory>
    ensures ok { OnOk result (into.new.items ≡ into.old.items
        ++ lines_text tag (node_lines core.now.settings now core.now.state.ring)) }
    ensures kept { Keeps into.old.items into.new.items }
{
    line_node(into, tag, core.me(), core.ring().phase(), now, core.fence())?;
    line_owns(into, tag, core.ranges())
}

/// Appends a link. A free slot has no line.
fn push_slot(into: &mut Vec<u8>, tag: Option<u32>, slot: &Option<Link>) -> Result<(), OutOfMemory>
    ensures ok { OnOk result (into.new.items ≡ into.old.items ++ lines_text tag (link_line slot.now)) }
    ensures kept { Keeps into.old.items into.new.items }
{
    match slot {
        Some(link) => line_link(into, tag, link),
        None => Ok(()),
    }
}

/// Appends the links by their slots.
fn push_links(
    into: &mut Vec<u8>,
    tag: Option<u32>,
    slots: &[Option<Link>],
) -> Result<(), OutOfMemory>
    ensures ok { OnOk result (into.new.items ≡ into.old.items ++ lines_text tag (link_lines slots.now)) }
    ensures kept { Keeps into.old.items into.new.items }
{
    for slot in slots {
        push_slot(into, tag, slot)?;
    }
    Ok(())
}

/// Appends the node's replica of a partition, if it has one.
fn push_replica_at(
    into: &mut Vec<u8>,
    tag: Option<u32>,
    core: &NodeCore,
    partition: u16,
) -> Result<(), OutOfMemory>
    ensures ok { OnOk result (into.new.items ≡ into.old.items
        ++ lines_text tag (replica_line partition (replica_at partition core.now.state.above.states))) }
    ensures kept { Keeps into.old.items into.new.items }
{
    match core.replica(partition) {
        Some(replica) => line_replica(into, tag, partition, replica),
        None => Ok(()),
    }
}

/// Appends the replicas by rising partition.
fn push_replicas(into: &mut Vec<u8>, tag: Option<u32>, core: &NodeCore) -> Result<(), OutOfMemory>
    ensures ok { OnOk result (into.new.items ≡ into.old.items
        ++ lines_text tag (replica_lines core.now.state.above.states)) }
    ensures kept { Keeps into.old.items into.new.items }
{
    let partitions = core.replica_partitions(*into.allocator())?;
    for partition in &partitions {
        push_replica_at(into, tag, core, *partition)?;
    }
    Ok(())
}

/// Appends the reconfigurations that are under way, by rising partition.
fn push_changes(
    into: &mut Vec<u8>,
    tag: Option<u32>,
    reconfigs: &[(u16, Reconfig)],
    now: u64,
    changes: &ChangeTimes,
) -> Result<(), OutOfMemory>
    ensures ok { OnOk result (into.new.items ≡ into.old.items
        ++ lines_text tag (changing_lines now changes.now (reconfigs_of reconfigs.now))) }
    ensures kept { Keeps into.old.items into.new.items }
{
    for (partition, reconfig) in reconfigs {
        let epoch = reconfig.task().epoch;
        line_changing(
            into,
            tag,
            *partition,
            epoch,
            changes.ticks(*partition, epoch, now),
        )?;
    }
    Ok(())
}

/// Appends what is said of the door.
pub(crate) fn push_session(
    into: &mut Vec<u8>,
    tag: Option<u32>,
    facts: SessionFacts,
) -> Result<(), OutOfMemory>
    ensures ok { OnOk result (into.new.items ≡ into.old.items ++ lines_text tag (session_lines facts)) }
    ensures kept { Keeps into.old.items into.new.items }
{
    line_open(into, tag, facts.open)?;
    line_watchers(into, tag, facts.watchers)
}

// The lines of an answer, each with its tag.
ghost use Rattle.std.specs.Prelude.{◌≡◌, ◌++◌, OnOk};
ghost use Rattle.ring_node.specs.Up.{up_nodes};
ghost use Rattle.text_fields.specs.Texts.{Keeps};
ghost use Rattle.unit_rules.specs.ReplicaStates.{last_of};
ghost use Rattle.door_lines.specs.Words.{Arbiter, Changing, Link as LinkWords, Node, Open, Owns};
ghost use Rattle.door_lines.specs.Words.{Replica as ReplicaWords, Up, Watchers};
ghost use Rattle.state_lines.specs.Answers.{line_text};
ghost use Rattle.state_lines.specs.Logs.{entry_line};

use door_lines::{
    push_arbiter, push_changing, push_end, push_entry, push_link, push_node, push_open, push_owns,
    push_replica, push_tag, push_up, push_watchers,
};
use fabric_terms::OutOfMemory;
use join_phases::Phase;
use replica_core::{Entry, Replica};
use ring_node::RingNode;
use ring_points::{Epoch, RangeSet, Who};
use ring_rules::Link;

/// Appends a node: how far it has come, the reading of its clock, and its fence.
pub(crate) fn line_node(
    into: &mut Vec<u8>,
    tag: Option<u32>,
    who: Who,
    phase: &Phase,
    now: u64,
    fence: Option<u64>,
) -> Result<(), OutOfMemory>
    ensures ok { OnOk result (into.new.items ≡ into.old.items ++ line_text tag (Node who phase.now now fence)) }
    ensures kept { Keeps into.old.items into.new.items }
{
    push_tag(into, tag)?;
    push_node(into, who, phase, now, fence)?;
    push_end(into)
}

/// Appends an arbitrator, and how many entries it has.
pub(crate) fn line_arbiter(
    into: &mut Vec<u8>,
    tag: Option<u32>,
    number: u8,
    entries: u64,
) -> Result<(), OutOfMemory>
    ensures ok { OnOk result (into.new.items ≡ into.old.items ++ line_text tag (Arbiter number entries)) }
    ensures kept { Keeps into.old.items into.new.items }
{
    push_tag(into, tag)?;
    push_arbiter(into, number, entries)?;
    push_end(into)
}

/// Appends what a node owns.
pub(crate) fn line_owns(
    into: &mut Vec<u8>,
    tag: Option<u32>,
    ranges: &RangeSet,
) -> Result<(), OutOfMemory>
    ensures ok { OnOk result (into.new.items ≡ into.old.items ++ line_text tag (Owns ranges.now)) }
    ensures kept { Keeps into.old.items into.new.items }
{
    push_tag(into, tag)?;
    push_owns(into, ranges)?;
    push_end(into)
}

/// Appends a link.
pub(crate) fn line_link(
    into: &mut Vec<u8>,
    tag: Option<u32>,
    link: &Link,
) -> Result<(), OutOfMemory>
    ensures ok { OnOk result (into.new.items
        ≡ into.old.items ++ line_text tag (LinkWords link.now.peer link.now.state link.now.len)) }
    ensures kept { Keeps into.old.items into.new.items }
{
    push_tag(into, tag)?;
    push_link(into, link.peer, link.state, link.len)?;
    push_end(into)
}

/// Appends the nodes that are up at this reading.
pub(crate) fn line_up(
    into: &mut Vec<u8>,
    tag: Option<u32>,
    ring: &RingNode,
    now: u64,
) -> Result<(), OutOfMemory>
    ensures ok { OnOk result (into.new.items ≡ into.old.items ++ line_text tag (Up (up_nodes now ring.now))) }
    ensures kept { Keeps into.old.items into.new.items }
{
    push_tag(into, tag)?;
    push_up(into, ring.up_nodes(now).as_slice())?;
    push_end(into)
}

/// Appends a replica.
pub(crate) fn line_replica(
    into: &mut Vec<u8>,
    tag: Option<u32>,
    partition: u16,
    replica: &Replica,
) -> Result<(), OutOfMemory>
    ensures ok { OnOk result (into.new.items ≡ into.old.items ++ line_text tag
        (ReplicaWords partition replica.now.promised replica.now.role (last_of replica.now))) }
    ensures kept { Keeps into.old.items into.new.items }
{
    let last = replica.log().len() as u32;
    push_tag(into, tag)?;
    push_replica(into, partition, replica.promised(), replica.role(), last)?;
    push_end(into)
}

/// Appends a reconfiguration that is under way.
pub(crate) fn line_changing(
    into: &mut Vec<u8>,
    tag: Option<u32>,
    partition: u16,
    epoch: Epoch,
    ticks: u64,
) -> Result<(), OutOfMemory>
    ensures ok { OnOk result (into.new.items ≡ into.old.items ++ line_text tag (Changing partition epoch ticks)) }
    ensures kept { Keeps into.old.items into.new.items }
{
    push_tag(into, tag)?;
    push_changing(into, partition, epoch, ticks)?;
    push_end(into)
}

/// Appends how many answers are open.
pub(crate) fn line_open(
    into: &mut Vec<u8>,
    tag: Option<u32>,
    answers: u64,
) -> Result<(), OutOfMemory>
    ensures ok { OnOk result (into.new.items ≡ into.old.items ++ line_text tag (Open answers)) }
    ensures kept { Keeps into.old.items into.new.items }
{
    push_tag(into, tag)?;
    push_open(into, answers)?;
    push_end(into)
}

/// Appends how many clients watch.
pub(crate) fn line_watchers(
    into: &mut Vec<u8>,
    tag: Option<u32>,
    count: u64,
) -> Result<(), OutOfMemory>
    ensures ok { OnOk result (into.new.items ≡ into.old.items ++ line_text tag (Watchers count)) }
    ensures kept { Keeps into.old.items into.new.items }
{
    push_tag(into, tag)?;
    push_watchers(into, count)?;
    push_end(into)
}

/// Appends an entry of a log.
pub(crate) fn line_entry(
    into: &mut Vec<u8>,
    tag: Option<u32>,
    partition: u16,
    entry: &Entry,
) -> Result<(), OutOfMemory>
    ensures ok { OnOk result (into.new.items ≡ into.old.items ++ line_text tag (entry_line partition entry.now)) }
    ensures kept { Keeps into.old.items into.new.items }
{
    push_tag(into, tag)?;
    push_entry(
        into,
        partition,
        entry.epoch,
        entry.lsn,
        entry.bytes.as_slice(),
    )?;
    push_end(into)
}

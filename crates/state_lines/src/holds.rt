// What a parent may serve: for how long a point, and whether it leads a partition.
ghost use Rattle.std.specs.Prelude.{◌≡◌, ◌≤◌, ◌++◌, ◌∷◌, [], OnOk};
ghost use Rattle.std.specs.Option.{option_copied};
ghost use Rattle.fabric_terms.specs.Sound.{IsSound};
ghost use Rattle.node_core.specs.Nodes.{GoesBy};
ghost use Rattle.text_fields.specs.Texts.{Keeps};
ghost use Rattle.door_lines.specs.Words.{words_text};
ghost use Rattle.state_lines.specs.Answers.{line_text, lines_text};
ghost use Rattle.state_lines.specs.Holds.{end_by, held_of, held_words, lead_of, lead_words, leads, ticks_held};

use door_lines::{push_end, push_follows, push_held, push_leads, push_tag, push_unheld};
use fabric_terms::{FabricConfig, OutOfMemory};
use hold_span::{MAX_FENCE, span_of};
use node_core::NodeCore;
use replica_core::{Replica, Role};
use ring_points::{MAX_READING, Point};

/// The reading up to which a node with this fence surely holds what it owns at this one.
fn end_by(config: &FabricConfig, now: u64, fence: Option<u64>) -> u64
    requires sound { IsSound config.now }
    requires reading { now ≤ MAX_READING }
    ensures { result ≡ end_by config.now now fence }
{
    match fence {
        None => now + config.lease + config.answer,
        Some(fence) => fence,
    }
}

/// For how many ticks, counted from its question, a parent may serve what a node with this fence owns.
fn ticks_held(config: &FabricConfig, now: u64, fence: Option<u64>) -> u64
    requires sound { IsSound config.now }
    requires reading { now ≤ MAX_READING }
    ensures { result ≡ ticks_held config.now now fence }
{
    let end = end_by(config, now, fence).min(MAX_FENCE);
    span_of(config.bound, end, now)
}

/// Appends for how many ticks the point may be served, or that it may not.
fn put_held(into: &mut Vec<u8>, owns: bool, point: Point, ticks: u64) -> Result<(), OutOfMemory>
    ensures ok { OnOk result (into.new.items ≡ into.old.items ++ words_text (held_words owns point.0 ticks)) }
    ensures kept { Keeps into.old.items into.new.items }
{
    if owns && 0 < ticks {
        push_held(into, point, ticks)
    } else {
        push_unheld(into, point)
    }
}

/// Appends the line that says it.
fn line_held(
    into: &mut Vec<u8>,
    tag: Option<u32>,
    owns: bool,
    point: Point,
    ticks: u64,
) -> Result<(), OutOfMemory>
    ensures ok { OnOk result (into.new.items ≡ into.old.items ++ line_text tag (held_words owns point.0 ticks)) }
    ensures kept { Keeps into.old.items into.new.items }
{
    push_tag(into, tag)?;
    put_held(into, owns, point, ticks)?;
    push_end(into)
}

/// Appends for how many ticks, counted from its question, the parent of a node may serve a point, or that it may not.
/// The node goes by this configuration, and this is the reading of its clock.
#[tactic(auto, unfolding(crate::specs::Holds::held_of))]
pub fn push_hold(
    into: &mut Vec<u8>,
    tag: Option<u32>,
    config: &FabricConfig,
    core: &NodeCore,
    now: u64,
    point: Point,
) -> Result<(), OutOfMemory>
    requires sound { IsSound config.now }
    requires goes_by { GoesBy config.now core.now }
    requires reading { now ≤ MAX_READING }
    ensures ok { OnOk result (into.new.items ≡ into.old.items
        ++ lines_text tag (held_of config.now core.now.state now point ∷ [])) }
    ensures kept { Keeps into.old.items into.new.items }
{
    let ticks = ticks_held(config, now, core.fence());
    line_held(into, tag, core.ranges().contains(point), point, ticks)
}

/// Whether the replica is primary of an epoch, and has promised no greater one.
fn leads(replica: &Replica) -> bool
    ensures { result ≡ leads replica.now }
{
    replica.role() == Role::Primary && replica.at() >= replica.promised()
}

/// Appends which epoch the replica leads, if there is one and it leads.
fn put_lead(
    into: &mut Vec<u8>,
    partition: u16,
    replica: Option<&Replica>,
) -> Result<(), OutOfMemory>
    ensures ok { OnOk result (into.new.items
        ≡ into.old.items ++ words_text (lead_words partition (option_copied replica.entry))) }
    ensures kept { Keeps into.old.items into.new.items }
{
    match replica {
        Some(replica) if leads(replica) => push_leads(into, partition, replica.at()),
        _ => push_follows(into, partition),
    }
}

/// Appends whether the node's replica of a partition leads it, and in which epoch.
#[tactic(auto, unfolding(crate::specs::Holds::lead_of))]
pub fn push_lead(
    into: &mut Vec<u8>,
    tag: Option<u32>,
    core: &NodeCore,
    partition: u16,
) -> Result<(), OutOfMemory>
    ensures ok { OnOk result (into.new.items ≡ into.old.items
        ++ lines_text tag (lead_of core.now.state partition ∷ [])) }
    ensures kept { Keeps into.old.items into.new.items }
{
    push_tag(into, tag)?;
    put_lead(into, partition, core.replica(partition))?;
    push_end(into)
}

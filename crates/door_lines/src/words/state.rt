// The state of an actor, of its links, and of its door.
ghost use Rattle.std.specs.Prelude.{◌≡◌, ◌++◌, decimal, OnOk};
ghost use Rattle.text_fields.specs.Texts.{Keeps, listed};
ghost use Rattle.door_lines.specs.Words.{Arbiter, Link, Node, Open, Owns, Up, Watchers};
ghost use Rattle.door_lines.specs.Words.{link_text, phase_text, words_text};

use crate::pair::{push_number_behind, push_who_behind, push_word};
use fabric_terms::OutOfMemory;
use join_phases::Phase;
use ring_points::{RangeSet, Who};
use ring_rules::LinkState;
use text_fields::{push_bytes, push_number, push_optional, push_ranges};

/// The word of a phase.
pub fn phase_word(phase: &Phase) -> &'static [u8]
    ensures { result.now ≡ phase_text phase.now }
{
    match phase {
        Phase::Seeking(_) => b"seeking",
        Phase::Linked(_) => b"linked",
        Phase::Routing(_) => b"routing",
        Phase::Left(_) => b"left",
    }
}

/// The word of how far a link has come.
pub fn link_word(state: LinkState) -> &'static [u8]
    ensures { result.now ≡ link_text state }
{
    match state {
        LinkState::Hello => b"hello",
        LinkState::Offered => b"offered",
        LinkState::Bound => b"bound",
        LinkState::Parting => b"parting",
        LinkState::Accused => b"accused",
        LinkState::Discharged => b"discharged",
        LinkState::Heir => b"heir",
    }
}

/// Appends a node: its instance, its phase, the reading of its clock, and its fence, where it has one.
pub fn push_node(
    into: &mut Vec<u8>,
    who: Who,
    phase: &Phase,
    reading: u64,
    fence: Option<u64>,
) -> Result<(), OutOfMemory>
    ensures ok { OnOk result (into.new.items ≡ into.old.items ++ words_text (Node who phase.now reading fence)) }
    ensures kept { Keeps into.old.items into.new.items }
{
    push_who_behind(into, b"node ", who)?;
    push_word(into, phase_word(phase))?;
    push_number_behind(into, b" ", reading)?;
    push_bytes(into, b" ")?;
    push_optional(into, fence)
}

/// Appends an arbitrator, and how many entries it has.
pub fn push_arbiter(into: &mut Vec<u8>, arbiter: u8, entries: u64) -> Result<(), OutOfMemory>
    ensures ok { OnOk result (into.new.items ≡ into.old.items ++ words_text (Arbiter arbiter entries)) }
    ensures kept { Keeps into.old.items into.new.items }
{
    push_number_behind(into, b"arbiter ", u64::from(arbiter))?;
    push_number_behind(into, b" ", entries)
}

/// Appends the points that the node owns.
pub fn push_owns(into: &mut Vec<u8>, ranges: &RangeSet) -> Result<(), OutOfMemory>
    ensures ok { OnOk result (into.new.items ≡ into.old.items ++ words_text (Owns ranges.now)) }
    ensures kept { Keeps into.old.items into.new.items }
{
    push_bytes(into, b"owns ")?;
    push_ranges(into, ranges.intervals())
}

/// Appends a link: its peer, how far it has come, and its length in ticks.
pub fn push_link(
    into: &mut Vec<u8>,
    peer: Who,
    state: LinkState,
    length: u64,
) -> Result<(), OutOfMemory>
    ensures ok { OnOk result (into.new.items ≡ into.old.items ++ words_text (Link peer state length)) }
    ensures kept { Keeps into.old.items into.new.items }
{
    push_who_behind(into, b"link ", peer)?;
    push_word(into, link_word(state))?;
    push_number_behind(into, b" ", length)
}

// Nodes, joined by commas, or a dash where there are none.
fn push_nodes(into: &mut Vec<u8>, nodes: &[u16]) -> Result<(), OutOfMemory>
    ensures ok { OnOk result (into.new.items ≡ into.old.items ++ listed decimal nodes.now) }
    ensures kept { Keeps into.old.items into.new.items }
{
    match nodes {
        [] => push_bytes(into, b"-"),
        [first, more @ ..] => {
            push_number(into, u64::from(*first))?;
            for n in more {
                push_number_behind(into, b",", u64::from(*n))?;
            }
            Ok(())
        }
    }
}

/// Appends the nodes that are up, joined by commas, or a dash where none is.
pub fn push_up(into: &mut Vec<u8>, nodes: &[u16]) -> Result<(), OutOfMemory>
    ensures ok { OnOk result (into.new.items ≡ into.old.items ++ words_text (Up nodes.now)) }
    ensures kept { Keeps into.old.items into.new.items }
{
    push_bytes(into, b"up ")?;
    push_nodes(into, nodes)
}

/// Appends how many answers are open.
pub fn push_open(into: &mut Vec<u8>, answers: u64) -> Result<(), OutOfMemory>
    ensures ok { OnOk result (into.new.items ≡ into.old.items ++ words_text (Open answers)) }
    ensures kept { Keeps into.old.items into.new.items }
{
    push_number_behind(into, b"open ", answers)
}

/// Appends how many clients watch.
pub fn push_watchers(into: &mut Vec<u8>, count: u64) -> Result<(), OutOfMemory>
    ensures ok { OnOk result (into.new.items ≡ into.old.items ++ words_text (Watchers count)) }
    ensures kept { Keeps into.old.items into.new.items }
{
    push_number_behind(into, b"watchers ", count)
}

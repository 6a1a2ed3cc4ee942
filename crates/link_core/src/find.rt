ghost use Rattle.std.specs.Prelude.{◌≡◌, ◌<◌, IfSome, length};
ghost use Rattle.ring_rules.specs.Slots.{slot_where, bars_link, greets_by, greets_node_by, is_free, is_hello, may_part};
ghost use Rattle.ring_rules.specs.Slots.{of_instance, of_node, of_session};

use ring_points::Who;
use ring_rules::{Link, LinkState};

fn is_hello(state: LinkState) -> bool
    ensures { result ≡ is_hello state }
{
    matches!(state, LinkState::Hello)
}

fn may_part(state: LinkState) -> bool
    ensures { result ≡ may_part state }
{
    matches!(state, LinkState::Offered | LinkState::Bound)
}

fn bars_link(state: LinkState) -> bool
    ensures { result ≡ bars_link state }
{
    !matches!(state, LinkState::Discharged | LinkState::Heir)
}

fn is_free(slot: &Option<Link>) -> bool
    ensures { result ≡ is_free slot.now }
{
    slot.is_none()
}

fn is_session(slot: &Option<Link>, peer: Who, mine: u32, yours: u32) -> bool
    ensures { result ≡ of_session peer mine yours slot.now }
{
    match slot {
        Some(link) => link.peer == peer && link.mine == mine && link.yours == yours,
        None => false,
    }
}

fn is_of_instance(slot: &Option<Link>, peer: Who) -> bool
    ensures { result ≡ of_instance peer slot.now }
{
    match slot {
        Some(link) => link.peer == peer,
        None => false,
    }
}

fn bars_node(slot: &Option<Link>, node: u16) -> bool
    ensures { result ≡ of_node bars_link node slot.now }
{
    match slot {
        Some(link) => link.peer.actor == node && bars_link(link.state),
        None => false,
    }
}

fn greets_node(slot: &Option<Link>, node: u16) -> bool
    ensures { result ≡ of_node is_hello node slot.now }
{
    match slot {
        Some(link) => link.peer.actor == node && is_hello(link.state),
        None => false,
    }
}

fn may_part_from(slot: &Option<Link>, node: u16) -> bool
    ensures { result ≡ of_node may_part node slot.now }
{
    match slot {
        Some(link) => link.peer.actor == node && may_part(link.state),
        None => false,
    }
}

fn greets_by(slot: &Option<Link>, mine: u32) -> bool
    ensures { result ≡ greets_by mine slot.now }
{
    match slot {
        Some(link) => link.mine == mine && is_hello(link.state),
        None => false,
    }
}

fn greets_node_by(slot: &Option<Link>, node: u16, mine: u32) -> bool
    ensures { result ≡ greets_node_by node mine slot.now }
{
    match slot {
        Some(link) => link.peer.actor == node && link.mine == mine && is_hello(link.state),
        None => false,
    }
}

/// The first free place.
pub(crate) fn free_place(slots: &[Option<Link>]) -> Option<usize>
    ensures place { result ≡ slot_where is_free slots.now }
    ensures inside { IfSome result (λ i. i < length slots.now) }
{
    slots.iter().position(|slot| is_free(slot))
}

/// The place of the session with this peer that has both these numbers.
pub(crate) fn session(slots: &[Option<Link>], peer: Who, mine: u32, yours: u32) -> Option<usize>
    ensures place { result ≡ slot_where (of_session peer mine yours) slots.now }
    ensures inside { IfSome result (λ i. i < length slots.now) }
{
    slots
        .iter()
        .position(|slot| is_session(slot, peer, mine, yours))
}

/// The place of a link with this instance.
pub(crate) fn instance(slots: &[Option<Link>], peer: Who) -> Option<usize>
    ensures place { result ≡ slot_where (of_instance peer) slots.now }
    ensures inside { IfSome result (λ i. i < length slots.now) }
{
    slots.iter().position(|slot| is_of_instance(slot, peer))
}

/// The place of a link with this node that bars another.
pub(crate) fn bar(slots: &[Option<Link>], node: u16) -> Option<usize>
    ensures place { result ≡ slot_where (of_node bars_link node) slots.now }
    ensures inside { IfSome result (λ i. i < length slots.now) }
{
    slots.iter().position(|slot| bars_node(slot, node))
}

/// The place of a greeting to this node.
pub(crate) fn greeting(slots: &[Option<Link>], node: u16) -> Option<usize>
    ensures place { result ≡ slot_where (of_node is_hello node) slots.now }
    ensures inside { IfSome result (λ i. i < length slots.now) }
{
    slots.iter().position(|slot| greets_node(slot, node))
}

/// The place of a link with this node that may part.
pub(crate) fn parting(slots: &[Option<Link>], node: u16) -> Option<usize>
    ensures place { result ≡ slot_where (of_node may_part node) slots.now }
    ensures inside { IfSome result (λ i. i < length slots.now) }
{
    slots.iter().position(|slot| may_part_from(slot, node))
}

/// The place of a greeting by this number.
pub(crate) fn greeting_by(slots: &[Option<Link>], mine: u32) -> Option<usize>
    ensures place { result ≡ slot_where (greets_by mine) slots.now }
    ensures inside { IfSome result (λ i. i < length slots.now) }
{
    slots.iter().position(|slot| greets_by(slot, mine))
}

/// The place of a greeting to this node by this number.
pub(crate) fn greeting_of(slots: &[Option<Link>], node: u16, mine: u32) -> Option<usize>
    ensures place { result ≡ slot_where (greets_node_by node mine) slots.now }
    ensures inside { IfSome result (λ i. i < length slots.now) }
{
    slots
        .iter()
        .position(|slot| greets_node_by(slot, node, mine))
}

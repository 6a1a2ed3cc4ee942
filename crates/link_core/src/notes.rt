ghost use Rattle.std.specs.Prelude.{◌≡◌, [], ◌∷◌};

use bounded_list::Bounded;
use fabric_terms::Why;
use ring_points::Who;
use std::default::Default;

/// What a row of the links leaves to the node. A `usize` is the place of a slot.
#[derive(Drop)]
pub enum LinkNote {
    /// A link is bound: a seeking node is linked.
    BoundNow,
    /// The peer wants ranges: where the node may, it freezes the nearer part for the slot.
    Wanted(usize),
    /// The flight of the frame has arrived: where the token takes it, `took` follows.
    Arrived(usize),
    /// The peer did not get the slot's flight: where the token takes it back, a freeze for the slot is undone, and
    /// `close` follows with the Gone's flag.
    Return(usize),
    /// A freeze for the slot, if there is one, is undone.
    Undo(usize),
    /// This instance is accused.
    AccusedNow(Who),
    /// The arbitrators freed the node from this instance.
    DischargedNow(Who),
    /// The node is the heir of this instance, and takes over at this reading.
    HeirNow(Who, u64),
    /// The heir may take over: where the token inherits, `drop_slot` follows.
    Ripe(usize),
    /// The node leaves.
    Leave(Why),
}

impl Default for LinkNote {
    fn default() -> Self {
        LinkNote::BoundNow
    }
}

/// The most notes of one row.
pub const MAX_NOTES: usize = 4;

/// What a row leaves to the node, in the row's order.
pub type LinkNotes = Bounded<LinkNote, MAX_NOTES>;

/// Nothing is left to do.
pub(crate) fn no_notes() -> LinkNotes
    ensures { result ≡ [] }
{
    Bounded::new()
}

/// One thing is left to do.
pub(crate) fn one_note(note: LinkNote) -> LinkNotes
    ensures { result ≡ note ∷ [] }
{
    let mut notes = Bounded::new();
    notes.push(note);
    notes
}

/// Two things are left to do, in this order.
pub(crate) fn two_notes(first: LinkNote, second: LinkNote) -> LinkNotes
    ensures { result ≡ first ∷ second ∷ [] }
{
    let mut notes = Bounded::new();
    notes.push(first);
    notes.push(second);
    notes
}

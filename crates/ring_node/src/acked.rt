ghost use Rattle.std.specs.Prelude.{◌≡◌};
ghost use Rattle.ring_rules.specs.Firing.{all_acked, has_acked};

use link_core::{Link, LinkState, SLOTS};

/// Whether the slot has acknowledged this version, where it guards.
fn has_acked(slot: &Option<Link>, version: u32) -> bool
    ensures { result ≡ has_acked version slot.now }
{
    match slot {
        Some(link) => match link.state {
            LinkState::Offered | LinkState::Bound | LinkState::Parting | LinkState::Accused => {
                version <= link.acked
            }
            LinkState::Hello | LinkState::Discharged | LinkState::Heir => true,
        },
        None => true,
    }
}

/// Whether every slot that guards has acknowledged this version.
pub(crate) fn all_acked(slots: &[Option<Link>; SLOTS], version: u32) -> bool
    ensures { result ≡ all_acked version slots.now }
{
    for slot in slots {
        if !has_acked(slot, version) {
            return false;
        }
    }
    true
}

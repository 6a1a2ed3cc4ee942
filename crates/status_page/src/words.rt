// The words of labels, in the order of their numbers.
ghost use Rattle.std.specs.Prelude.{◌≡◌, map};
ghost use Rattle.status_page.specs.Metrics.{asker_words, fault_words, junk_words, link_words, role_words};

use crate::counts::{LINK_STATES, ROLES};
use door_lines::{Fault, fault_word, link_word, role_word};
use replica_core::Role;
use ring_rules::LinkState;

pub fn link_words() -> [&'static [u8]; LINK_STATES]
    ensures { map (λ w. w.now) result ≡ link_words }
{
    [
        link_word(LinkState::Hello),
        link_word(LinkState::Offered),
        link_word(LinkState::Bound),
        link_word(LinkState::Parting),
        link_word(LinkState::Accused),
        link_word(LinkState::Discharged),
        link_word(LinkState::Heir),
    ]
}

pub fn role_words() -> [&'static [u8]; ROLES]
    ensures { map (λ w. w.now) result ≡ role_words }
{
    [
        role_word(Role::None),
        role_word(Role::IdleSecondary),
        role_word(Role::ActiveSecondary),
        role_word(Role::Primary),
    ]
}

pub fn fault_words() -> [&'static [u8]; 4]
    ensures { map (λ w. w.now) result ≡ fault_words }
{
    [
        fault_word(Fault::Line),
        fault_word(Fault::NoSuch),
        fault_word(Fault::Large),
        fault_word(Fault::Busy),
    ]
}

pub fn asker_words() -> [&'static [u8]; 3]
    ensures { map (λ w. w.now) result ≡ asker_words }
{
    [b"door", b"parent", b"policy"]
}

pub fn junk_words() -> [&'static [u8]; 2]
    ensures { map (λ w. w.now) result ≡ junk_words }
{
    [b"junk", b"seal"]
}

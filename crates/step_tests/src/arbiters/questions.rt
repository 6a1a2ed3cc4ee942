ghost use Rattle.std.specs.Prelude.{◌≡◌, ◌≤◌};

use fabric_terms::{Body, Message};
use ring_points::Who;

pub(crate) fn node(actor: u16) -> Who
    ensures { result ≡ record { actor = actor; instance = 1 } }
{
    Who { actor, instance: 1 }
}

pub(crate) fn arbitrator(number: u16) -> Who
    requires { number ≤ 9 }
{
    Who {
        actor: 32768 + number,
        instance: 0,
    }
}

pub(crate) fn accusation(accuser: Who, to: Who, victim: Who) -> Message {
    Message {
        from: accuser,
        to,
        body: Body::Accuse { victim },
    }
}

/// A claim about 1.1.
pub(crate) fn claim(claimer: Who, round: u8) -> Message {
    Message {
        from: claimer,
        to: arbitrator(1),
        body: Body::Claim {
            victim: node(1),
            round,
        },
    }
}

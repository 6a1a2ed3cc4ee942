ghost use Rattle.std.specs.Prelude.{◌≡◌};
ghost use Rattle.arbiter_tables.specs.Keys.{round_of};

use ring_points::Who;

/// A round about a victim, as the table's key.
#[derive(Clone, Copy, PartialEq, Eq, Hash)]
pub struct Round {
    actor: u16,
    instance: u32,
    round: u8,
}

impl Round {
    pub fn new(victim: Who, round: u8) -> Self
        ensures { result ≡ round_of victim round }
    {
        Round {
            actor: victim.actor,
            instance: victim.instance,
            round,
        }
    }
}

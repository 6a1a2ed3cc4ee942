ghost use Rattle.std.specs.Prelude.{◌≡◌};
ghost use Rattle.arbiter_tables.specs.Keys.{key_of};

use ring_points::Who;

/// An accused instance, as the table's key.
#[derive(Clone, Copy, PartialEq, Eq, Hash)]
pub struct Accused {
    actor: u16,
    instance: u32,
}

impl Accused {
    pub fn new(victim: Who) -> Self
        ensures { result ≡ key_of victim }
    {
        Accused {
            actor: victim.actor,
            instance: victim.instance,
        }
    }
}

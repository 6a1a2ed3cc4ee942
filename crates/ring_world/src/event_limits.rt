ghost use Rattle.std.specs.Prelude.{◌≡◌, false, true};
ghost use Rattle.world_rules.specs.EventLimits.{is_room};

use crate::world::World;

/// How many events a schedule may have.
const MAX_EVENTS: u64 = 1_000_000;

/// After so many frames no actor may act any more.
const MAX_FRAMES: u32 = 200_000;

impl World {
    /// Whether one more event is within the limit of events.
    pub(crate) fn may_come(&self) -> bool
        ensures { result ≡ is_room false self.now.events self.now.sent }
    {
        self.events < MAX_EVENTS
    }

    /// Whether one more event at which an actor acts is within the limits of events and frames.
    pub(crate) fn may_act(&self) -> bool
        ensures { result ≡ is_room true self.now.events self.now.sent }
    {
        self.events < MAX_EVENTS && self.sent < MAX_FRAMES
    }
}

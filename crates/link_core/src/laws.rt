ghost use Rattle.std.specs.Prelude.{◌≡◌};
ghost use Rattle.link_core.specs.Laws.{Firing, Greeting, Hearing, Parting};
ghost use Rattle.ring_rules.specs.Rings.{accused_limit, slot_count};

use crate::links::{MAX_ACCUSED, SLOTS};

/// A frame's row of links, once its notes are done, is the row of the ring's rules.
pub fn a_frame_is_its_row()
    ensures { Hearing }
{}

/// So is what a firing does at one slot.
pub fn a_firing_is_its_row()
    ensures { Firing }
{}

/// A greeting is that of the ring's rules, and is refused where they refuse it.
pub fn a_greeting_is_its_row()
    ensures { Greeting }
{}

/// To part is the row of that command, once a freeze for the slot is undone.
pub fn parting_is_its_row()
    ensures { Parting }
{}

/// The constants are the limits of the ring's rules.
pub fn constants_are_the_limits_of_the_rules()
    ensures slots { SLOTS ≡ slot_count }
    ensures accused { MAX_ACCUSED ≡ accused_limit }
{}

// The links of an instance that begins in the place of one that has ended.
ghost use Rattle.std.specs.Prelude.{◌≡◌, None};
ghost use Rattle.ring_rules.specs.Rings.{no_slots};
ghost use Rattle.link_core.specs.Calls.{no_links};
ghost use Rattle.link_core.specs.Settings.{AreSoundSettings};

use crate::links::{Links16, SLOTS};
use crate::settings::LinkSettings;
use ring_points::Who;
use ring_rules::Link;

/// Makes a slot free. One that is free is left alone: a slot has a kilobyte, which is not written over then.
fn free(slot: &mut Option<Link>)
    ensures { slot.new ≡ None }
{
    if slot.is_some() {
        *slot = None;
    }
}

/// Makes every slot free.
pub(super) fn free_each(slots: &mut [Option<Link>; SLOTS])
    ensures { slots.new ≡ no_slots }
{
    for i in 0..SLOTS {
        free(&mut slots[i]);
    }
}

impl Links16 {
    /// No links, as `new` makes them, in the place of those of an instance that has ended.
    pub fn begin_again(&mut self, me: Who, settings: LinkSettings)
        requires { AreSoundSettings settings }
        ensures { self.new ≡ no_links me settings.lease settings.longest settings.answer settings.bound
            settings.arbitrators settings.rounds }
    {
        self.me = me;
        self.lease = settings.lease;
        self.longest = settings.longest;
        self.answer = settings.answer;
        self.bound = settings.bound;
        self.arbitrators = settings.arbitrators;
        self.rounds = settings.rounds;
        free_each(&mut self.slots);
        self.deadlines.clear();
        self.last_session = 0;
        self.accused.clear();
    }
}

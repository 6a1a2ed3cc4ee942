ghost use Rattle.std.specs.Prelude.{◌≡◌, ◌≤◌, ◌<◌, ◌+◌, ◌^◌, ℕ, All, IsTrue, length};
ghost use Rattle.point_places.specs.Spots.{place_at};
ghost use Rattle.fabric_terms.specs.Messages.{is_sound};
ghost use Rattle.world_rules.specs.EventLimits.{most_events};
ghost use Rattle.ring_world.specs.Moves.{placed_by};
ghost use Rattle.ring_world.specs.Commits.{posted_all, numbers_after};

use crate::world::{Acted, World};
use fabric_terms::{Message, Report};
use frame_bag::FrameBag;
use node_core::Batch;
use point_places::Places;
use ring_points::Who;

fn post_all(bag: &mut FrameBag, messages: &[Message])
    requires room { length messages.now ≤ bag.old.room }
    requires sound { All (λ m. IsTrue (is_sound m)) messages.now }
    ensures { bag.new.frames ≡ posted_all messages.now bag.old.frames }
{
    for m in messages {
        bag.post(m);
    }
}

fn move_all(places: &mut Places, who: Who, reports: &[Report])
    requires room { length reports.now ≤ places.old.room }
    ensures { (p : ℕ) → p < 2 ^ 64 → place_at places.new p ≡ placed_by who reports.now p (place_at places.old p) }
{
    for r in reports {
        places.moved(who, r);
    }
}

/// The numbers of the first and the last of so many frames after so many.
pub(crate) fn numbers_after(before: u32, count: u32) -> (u32, u32)
    requires { before + count < 2 ^ 32 }
    ensures { result ≡ numbers_after before count }
{
    if count == 0 {
        (0, 0)
    } else {
        (before + 1, before + count)
    }
}

impl World {
    /// An actor did this: its frames are sent, and its reports move points. There is room for both.
    pub(crate) fn commit(
        &mut self,
        line: u64,
        who: Who,
        reading: Option<u64>,
        frames: &[Message],
        reports: Batch<Report>,
    ) -> Acted
        requires events { self.old.events < most_events }
        requires small { self.old.sent + length frames.now < 2 ^ 32 }
        requires frames { length frames.now ≤ self.old.frames.room }
        requires sound { All (λ m. IsTrue (is_sound m)) frames.now }
        requires reports { length reports ≤ self.old.places.room }
        ensures rest { self.new ≡ record self.old {
          events = self.old.events + 1;
          sent = self.old.sent + length frames.now;
          frames = self.new.frames;
          places = self.new.places;
        } }
        ensures frames { self.new.frames.frames ≡ posted_all frames.now self.old.frames.frames }
        ensures places { (p : ℕ) → p < 2 ^ 64 →
            place_at self.new.places p ≡ placed_by who reports p (place_at self.old.places p) }
        ensures acted { result ≡ record {
          line = line;
          time = self.old.time;
          who = who;
          reading = reading;
          sent = numbers_after self.old.sent (length frames.now);
          reports = reports;
        } }
    {
        let count = frames.len() as u32;
        let sent = numbers_after(self.sent, count);
        post_all(&mut self.frames, frames);
        move_all(&mut self.places, who, reports.as_slice());
        self.events += 1;
        self.sent += count;
        Acted {
            line,
            time: self.time,
            who,
            reading,
            sent,
            reports,
        }
    }
}

ghost use Rattle.std.specs.Prelude.{◌≡◌, ◌≢◌, ◌≤◌, ◌*◌, ◌^◌, ℕ, All, Err, is_some, not, true};
ghost use Rattle.fabric_terms.specs.Ranges.{Fits};
ghost use Rattle.unit_rules.specs.Fabric.{fabric};
ghost use Rattle.world_rules.specs.Schedules.{are_of, readings_fit};
ghost use Rattle.world_rules.specs.Worlds.{World as RuledWorld};
ghost use Rattle.ring_world.specs.Drifts.{first_broken};
ghost use Rattle.ring_world.specs.Moves.{ComesTick};
ghost use Rattle.world_rules.specs.EventLimits.{most_time};
ghost use Rattle.ring_world.specs.Stands.{Stands};
ghost use Rattle.ring_world.specs.Ticks.{Shows, are_of_clocks};

use crate::world::{EventRefusal, World};
use drift_clock::{DriftBroken, MAX_TRUE_TIME};
use fabric_terms::Event;
use ring_points::{MAX_READING, Who};

/// Whether the readings are of exactly these nodes, in their order.
fn are_of(readings: &[(u16, u64)], clocks: &[(Who, u64)]) -> bool
    ensures { result ≡ are_of_clocks readings.now clocks.now }
{
    if readings.len() != clocks.len() {
        return false;
    }
    for i in 0..readings.len() {
        if readings[i].0 != clocks[i].0.actor {
            return false;
        }
    }
    true
}

impl World {
    /// The first clock that leaves its bound at these readings, if one does.
    fn first_broken(&self, time: u64, readings: &[(u16, u64)]) -> Option<DriftBroken>
        requires can { (w : RuledWorld fabric) × Stands self.now w × (are_of readings.now w.nodes ≡ true) }
        requires later { self.now.time ≤ time }
        requires time { time ≤ MAX_TRUE_TIME }
        requires readings { All (λ r. r.1 ≤ most_time) readings.now }
        ensures broken { (w : RuledWorld fabric) → Stands self.now w → are_of readings.now w.nodes ≡ true →
            result ≡ first_broken self.now.config w time readings.now }
        ensures fits { (w : RuledWorld fabric) → Stands self.now w → are_of readings.now w.nodes ≡ true →
            not (is_some result) ≡ readings_fit self.now.config w time readings.now }
    {
        for i in 0..readings.len() {
            let mut drift = self.running[i].drift;
            match drift.admit(time, readings[i].1) {
                Ok(()) => {}
                Err(broken) => return Some(broken),
            }
        }
        None
    }

    /// Each running node's clock shows its reading.
    fn show(&mut self, time: u64, readings: &[(u16, u64)])
        requires can { (w : RuledWorld fabric) × Stands self.old w × (are_of readings.now w.nodes ≡ true) }
        requires later { self.old.time ≤ time }
        requires time { time ≤ MAX_TRUE_TIME }
        requires readings { All (λ r. r.1 ≤ most_time) readings.now }
        requires fit { (w : RuledWorld fabric) → Stands self.old w →
            readings_fit self.old.config w time readings.now ≡ true }
        ensures rest { self.new ≡ record self.old { running = self.new.running; clocks = self.new.clocks } }
        ensures shown { (w : RuledWorld fabric) → Stands self.old w → are_of readings.now w.nodes ≡ true →
            Shows self.old.config time self.new.running.items self.new.clocks.items readings.now w.nodes }
    {
        for i in 0..readings.len() {
            let reading = readings[i].1;
            let running = &mut self.running[i];
            match running.drift.admit(time, reading) {
                Ok(()) => {}
                Err(_) => unreachable!(),
            }
            self.clocks[i].1 = reading;
        }
    }

    /// Takes a tick.
    pub(crate) fn take_tick(
        &mut self,
        advance: u64,
        readings: &[(u16, u64)],
    ) -> Result<(), EventRefusal>
        requires can { (w : RuledWorld fabric) × Stands self.old w }
        requires fits { Fits (Event.Tick advance readings.now) }
        ensures comes { (w : RuledWorld fabric) (line : ℕ) → Stands self.old w →
            ComesTick self.old self.new w line (Event.Tick advance readings.now) result }
        ensures memory { result ≢ Err EventRefusal.OutOfMemory }
    {
        if !are_of(readings, &self.clocks) {
            return Err(EventRefusal::NoSuch);
        }
        let time = self.time + advance;
        if let Some(broken) = self.first_broken(time, readings) {
            return Err(EventRefusal::DriftBroken(broken));
        }
        if !self.may_come() || time > MAX_READING {
            return Err(EventRefusal::TooLarge);
        }
        self.show(time, readings);
        self.time = time;
        self.events += 1;
        Ok(())
    }
}

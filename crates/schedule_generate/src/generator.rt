// The generator of a schedule: its world, and what is still to be considered.
ghost use Rattle.std.specs.Prelude.{◌≡◌, ◌≤◌, ◌∷◌, [], ℕ, List, All, IfOk};
ghost use Rattle.fabric_terms.specs.Ranges.{Fits};
ghost use Rattle.schedule_generate.specs.Course.{Course, begun, is_full, taken, taken_all};
ghost use Rattle.schedule_generate.specs.Due.{ShowsTime};
ghost use Rattle.schedule_generate.specs.Goes.{At, Goes, IsDue, Went};
ghost use Rattle.schedule_generate.specs.Moves.{event_for, events_for};
ghost use Rattle.schedule_generate.specs.Settings.{generated_config, most_generated_nodes};

use crate::course_halt::{CourseHalt, halt_of};
use crate::course_observer::CourseObserver;
use crate::moves::Move;
use crate::settings::config_of;
use fabric_terms::OutOfMemory;
use rand_core::SeedableRng;
use rand_pcg::Pcg32;
use ring_world::World;
use std::alloc::Global;

/// No round begins where more frames were sent.
const MANY_FRAMES: u32 = 190_000;

/// No round begins where more events were taken.
const MANY_EVENTS: u64 = 900_000;

/// Stands where a course has come to.
#[derive(Drop)]
pub struct Generator {
    pub(crate) world: World,
    /// The nodes have the numbers from 1 to this, which is at most 16.
    pub(crate) nodes: u16,
    /// The line of the next event.
    pub(crate) line: u64,
    /// The true time, in ticks.
    pub(crate) time: u64,
    /// How many of the frames were considered.
    pub(crate) considered: u32,
    pub(crate) draws: Pcg32,
    /// The running nodes with the readings of the last tick: made once for all rounds.
    pub(crate) readings: Vec<(u16, u64)>,
}

impl Generator {
    /// It stands before the first event.
    #[tactic(auto, using(crate::proofs::Truly::first_true))]
    pub fn new(alloc: Global, seed: u64, nodes: u16) -> Result<Generator, OutOfMemory>
        requires some { 1 ≤ nodes }
        requires few { nodes ≤ most_generated_nodes }
        ensures goes { IfOk result (λ a. Goes nodes a (begun seed)) }
        ensures time { IfOk result (λ a. a.time ≡ 0) }
    {
        Ok(Generator {
            world: World::new(alloc, config_of(alloc, nodes)?)?,
            nodes,
            line: 2,
            time: 0,
            considered: 0,
            draws: Pcg32::seed_from_u64(seed),
            readings: Vec::new(alloc),
        })
    }

    /// Whether no more round may begin.
    pub fn is_full(&self) -> bool
        ensures { (n : ℕ) (g : Course) → Goes n self.now g → result ≡ is_full (generated_config n) g }
    {
        let (events, frames) = self.world.counts();
        frames > MANY_FRAMES || events > MANY_EVENTS
    }

    /// The world takes an event, and the listener is told. Memory is short only at an event that the limits let come.
    pub fn take<L: CourseObserver>(
        &mut self,
        made: Move,
        listener: &mut L,
        text: &mut Vec<u8>,
    ) -> Result<(), CourseHalt>
        requires due { IsDue L.writing (L.knows listener.old) self.old text.old.items (event_for made ∷ []) }
        requires fits { Fits (event_for made) }
        requires shows { ShowsTime self.old.time (event_for made) }
        ensures went { (g : Course) (sent : List ℕ) →
            At L.writing (L.knows listener.old) self.old.nodes self.old text.old.items g sent →
            Went L.writing (L.knows listener.new) self.old.nodes result self.new text.new.items
            (taken (generated_config self.old.nodes) (event_for made) g) sent }
        ensures rest { self.new ≡ record self.old { world = self.new.world; line = self.new.line } }
    {
        let line = self.line;
        match self.world.apply(line, &made.event()) {
            Ok(acted) => {
                listener.took(&self.world, line, made, &acted, text)?;
                self.world.recycle(acted);
                self.line = line + 1;
                Ok(())
            }
            Err(refusal) => Err(halt_of(refusal, line)),
        }
    }

    /// The world takes these events, one after the other.
    pub fn take_all<L: CourseObserver>(
        &mut self,
        moves: &[Move],
        listener: &mut L,
        text: &mut Vec<u8>,
    ) -> Result<(), CourseHalt>
        requires due { IsDue L.writing (L.knows listener.old) self.old text.old.items (events_for moves.now) }
        requires fit { All Fits (events_for moves.now) }
        requires shows { All (ShowsTime self.old.time) (events_for moves.now) }
        ensures went { (g : Course) (sent : List ℕ) →
            At L.writing (L.knows listener.old) self.old.nodes self.old text.old.items g sent →
            Went L.writing (L.knows listener.new) self.old.nodes result self.new text.new.items
            (taken_all (generated_config self.old.nodes) (events_for moves.now) g) sent }
        ensures rest { self.new ≡ record self.old { world = self.new.world; line = self.new.line } }
    {
        for i in 0..moves.len() {
            match self.take(moves[i], listener, text) {
                Ok(()) => {}
                Err(halt) => return Err(halt),
            }
        }
        Ok(())
    }
}

ghost use Rattle.std.specs.Prelude.{◌≡◌, ◌≢◌, ◌≤◌, ℕ, [], Err, IfOk, OnOk, OnErr, length, replicate};
ghost use Rattle.node_core.specs.Nodes.{nothing_kept};
ghost use Rattle.fabric_terms.specs.Places.{place_of};
ghost use Rattle.fabric_terms.specs.Reports.{told};
ghost use Rattle.fabric_terms.specs.Runs.{clocks_of};
ghost use Rattle.fabric_terms.specs.Sound.{IsSound};
ghost use Rattle.fabric_terms.specs.declared.config.FabricConfig.{FabricConfig as Configuration};
ghost use Rattle.point_places.specs.Lines.{IsAppended};
ghost use Rattle.ring_points.specs.Whos.{node_instance};
ghost use Rattle.ring_world.specs.Answers.{Answers, AnswersTick, IsWorld, StandsFor};
ghost use Rattle.unit_rules.specs.Ruled.{ruled};
ghost use Rattle.point_places.specs.Holders.{holders_in, holds_in};
ghost use Rattle.ring_world.specs.ConfiguredArbiters.{AreEmpty};
ghost use Rattle.fabric_terms.specs.Ranges.{Fits};
ghost use Rattle.unit_rules.specs.Fabric.{fabric};
ghost use Rattle.world_rules.specs.Runs.{History, run_of};

use crate::configured_arbiter::ConfiguredArbiter;
use crate::frame_place::FramePlace;
use crate::running::Running;
use arbiter_core::Arbiter;
use drift_clock::DriftBroken;
use fabric_terms::{Event, FabricConfig, OutOfMemory, Report};
use frame_bag::FrameBag;
use node_core::{Batch, NodeCore, NodeEffects, NodeKept};
use point_places::Places;
use ring_points::{MAX_ARBITRATORS, MAX_NODE_NUMBER, Who};
use std::alloc::Global;

/// Why an event is refused. Each comes where no earlier one does.
#[derive(Clone, Copy, Debug, PartialEq, Eq)]
pub enum EventRefusal {
    /// What the event names is not there.
    NoSuch,
    /// A clock leaves its bound: the lowest such node's, and the pair that shows it.
    DriftBroken(DriftBroken),
    /// A limit of schedules is passed.
    TooLarge,
    /// There is not enough memory.
    OutOfMemory,
}

impl From<OutOfMemory> for EventRefusal {
    ghost use Rattle.std.specs.Prelude.{◌≡◌};
    ghost use Rattle.ring_world.specs.declared.world.EventRefusal.TheVariants.{OutOfMemory as NoMemory};

    ghost from_gives = { λ _ refusal. refusal ≡ NoMemory };

    fn from(_refused: OutOfMemory) -> EventRefusal {
        EventRefusal::OutOfMemory
    }
}

/// What one actor did at an event: at which line and true time, in ticks; its reading, if it has a clock; the numbers
/// of the first and the last frame that it sent, 0 and 0 where it sent none; and its reports in order.
#[derive(Drop)]
pub struct Acted {
    pub line: u64,
    pub time: u64,
    pub who: Who,
    pub reading: Option<u64>,
    pub sent: (u32, u32),
    pub reports: Batch<Report>,
}

/// Nodes have the numbers below this.
const NODE_NUMBERS: usize = MAX_NODE_NUMBER as usize + 1;

/// Nothing is kept of so many nodes.
fn nothing_kept(alloc: Global, count: usize) -> Result<Vec<NodeKept>, OutOfMemory>
    ensures { IfOk result (λ kept. kept.items ≡ replicate count nothing_kept) }
{
    let mut kept = Vec::new(alloc);
    for _ in 0..count {
        kept.push(NodeKept::new(alloc))?;
    }
    Ok(kept)
}

/// So many arbitrators that have recorded nothing and do not run.
fn empty_seats(alloc: Global, count: u16) -> Result<Vec<ConfiguredArbiter>, OutOfMemory>
    requires { count ≤ MAX_ARBITRATORS }
    ensures { IfOk result (λ seats. AreEmpty count seats.items) }
{
    let mut seats = Vec::new(alloc);
    for i in 0..count {
        seats.push(ConfiguredArbiter {
            arbiter: Arbiter::new(alloc, i + 1),
            runs: false,
        })?;
    }
    Ok(seats)
}

/// The world of a schedule.
#[derive(Drop)]
pub struct World {
    pub(crate) alloc: Global,
    pub(crate) config: FabricConfig,
    /// The true time, in ticks.
    pub(crate) time: u64,
    /// How many events were taken.
    pub(crate) events: u64,
    /// The running nodes rise by number; the clock of each stands at its place in `clocks`.
    pub(crate) running: Vec<Running>,
    pub(crate) clocks: Vec<(Who, u64)>,
    /// What is kept of each node that does not run, by its number.
    pub(crate) kept: Vec<NodeKept>,
    /// The arbitrators, from number 1.
    pub(crate) seats: Vec<ConfiguredArbiter>,
    pub(crate) frames: FrameBag,
    /// How many frames were sent.
    pub(crate) sent: u32,
    pub(crate) places: Places,
    /// Where each node's step leaves what it does. There are none before the first step.
    pub(crate) effects: Option<Box<NodeEffects>>,
    /// Nodes that have stopped: a start begins in the place of one of them, where there is one.
    pub(crate) ended: Vec<Box<NodeCore>>,
}

impl World {
    /// No time has passed, and nothing runs. It is an error where memory is short, and then the configuration is
    /// dropped.
    pub fn new(alloc: Global, config: FabricConfig) -> Result<World, OutOfMemory>
        requires { IsSound config }
        ensures { IfOk result (λ w. StandsFor w config []) }
    {
        let first = Who {
            actor: config.first,
            instance: 1,
        };
        let kept = nothing_kept(alloc, NODE_NUMBERS)?;
        let seats = empty_seats(alloc, config.arbiters.as_slice().len() as u16)?;
        let places = Places::new(alloc, first)?;
        Ok(World {
            alloc,
            config,
            time: 0,
            events: 0,
            running: Vec::new(alloc),
            clocks: Vec::new(alloc),
            kept,
            seats,
            frames: FrameBag::new(alloc),
            sent: 0,
            places,
            effects: None,
            ended: Vec::new(alloc),
        })
    }

    /// Takes one event of this line. It is refused where what it names is not there; else where a clock leaves its
    /// bound; else where a limit is passed; and for want of memory. A refused event changes nothing.
    pub fn apply(&mut self, line: u64, event: &Event) -> Result<Option<Acted>, EventRefusal>
        requires world { IsWorld self.old }
        requires fits { Fits event.now }
        ensures { (c : Configuration) (h : History) → StandsFor self.old c h →
            Answers self.new c h line event.now result }
    {
        match event {
            Event::Start { actor, reading } => self.start(line, *actor, *reading),
            Event::Stop { actor } => self.stop(line, *actor),
            Event::Tick { advance, readings } => {
                self.take_tick(*advance, readings.as_slice())?;
                Ok(None)
            }
            Event::Fire { node } => self.take_fire(line, *node),
            Event::Give { frame } => self.give_once(line, *frame),
            Event::Do { node, command } => self.command(line, *node, command),
            Event::Junk { actor, bytes } => self.junk(*actor, bytes.as_slice()),
        }
    }

    /// Takes a tick: what `apply` does of it at any line, with the readings where they lie. It takes no memory, and is
    /// refused for one of the other three reasons alone.
    pub fn tick(&mut self, advance: u64, readings: &[(u16, u64)]) -> Result<(), EventRefusal>
        requires world { IsWorld self.old }
        requires fits { Fits (Event.Tick advance readings.now) }
        ensures answers { (c : Configuration) (h : History) (line : ℕ) → StandsFor self.old c h →
            AnswersTick self.new c h line (Event.Tick advance readings.now) result }
        ensures memory { result ≢ Err EventRefusal.OutOfMemory }
    {
        self.take_tick(advance, readings)
    }

    /// Takes a firing of a node's timer: what `apply` does of it. No event is made for it, which takes a kilobyte whatever
    /// its kind.
    pub fn fire(&mut self, line: u64, node: u16) -> Result<Option<Acted>, EventRefusal>
        requires world { IsWorld self.old }
        requires fits { Fits (Event.Fire node) }
        ensures { (c : Configuration) (h : History) → StandsFor self.old c h →
            Answers self.new c h line (Event.Fire node) result }
    {
        self.take_fire(line, node)
    }

    /// Takes a frame that comes to its addressee: what `apply` does of it. No event is made for it, and it is read into
    /// the caller's place.
    pub fn give(
        &mut self,
        line: u64,
        frame: u64,
        place: &mut FramePlace,
    ) -> Result<Option<Acted>, EventRefusal>
        requires world { IsWorld self.old }
        requires fits { Fits (Event.Give frame) }
        ensures { (c : Configuration) (h : History) → StandsFor self.old c h →
            Answers self.new c h line (Event.Give frame) result }
    {
        self.take_give(line, frame, place)
    }

    /// Takes back what `apply` gave, once it is read: the next step makes its reports in the memory of these. The world
    /// stays as it is.
    #[tactic(auto, using(crate::proofs::Beside::stands_beside))]
    pub fn recycle(&mut self, acted: Option<Acted>)
        ensures rest { self.new ≡ record self.old { effects = self.new.effects } }
        ensures stands { (c : Configuration) (h : History) → StandsFor self.old c h → StandsFor self.new c h }
    {
        let Some(acted) = acted else {
            return;
        };
        let Some(effects) = &mut self.effects else {
            return;
        };
        effects.reuse_reports(acted.reports);
    }

    /// Appends the lines of the points that are with an instance which does not hold them, and of those in flight. It
    /// is an error where memory is short, and then nothing is appended.
    pub fn place_lines(&self, into: &mut Vec<u8>) -> Result<(), OutOfMemory>
        ensures ok { (c : Configuration) (h : History) → StandsFor self.now c h →
            OnOk result (IsAppended (place_of (node_instance c.first 1) (told (run_of fabric c h)))
            (holds_in (run_of fabric c h)) into.old.items into.new.items) }
        ensures refused { OnErr result (into.new.items ≡ into.old.items) }
    {
        self.push_place_lines(into)
    }

    /// How many events were taken, and how many frames were sent.
    pub fn counts(&self) -> (u64, u32)
        ensures { (c : Configuration) (h : History) → StandsFor self.now c h → (result.0 ≡ length h) ×
            (result.1 ≡ (ruled c h).count) }
    {
        (self.events, self.sent)
    }

    /// The running node instances, rising by node, each with its present reading in ticks.
    pub fn clocks(&self) -> &[(Who, u64)]
        ensures { (c : Configuration) (h : History) → StandsFor self.now c h →
            result.now ≡ clocks_of (run_of fabric c h) }
    {
        self.clocks.as_slice()
    }

    /// How many running instances hold a point.
    pub fn held(&self) -> u32
        ensures { (c : Configuration) (h : History) → StandsFor self.now c h → result ≡ holders_in (run_of fabric c h) }
    {
        self.count_holders()
    }
}

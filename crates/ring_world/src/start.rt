ghost use Rattle.std.specs.Prelude.{◌≡◌, ◌≤◌, ◌<◌, ◌∷◌, List, [], None, IfOk, OnErr, OnOk, insert, length, true};
ghost use Rattle.std.specs.Prelude.{vec_capacity, vec_len};
ghost use Rattle.fabric_terms.specs.Sound.{IsSound};
ghost use Rattle.fabric_terms.specs.declared.record.Record.{Record};
ghost use Rattle.node_core.specs.Nodes.{Amounts, Does, GoesBy, IsSmall, most_reports, nothing_kept};
ghost use Rattle.fabric_terms.specs.Ranges.{Fits};
ghost use Rattle.fabric_lemmas.specs.Maps.{at};
ghost use Rattle.world_rules.specs.Nodes.{node_begun};
ghost use Rattle.unit_rules.specs.Fabric.{fabric};
ghost use Rattle.world_rules.specs.Schedules.{is_configured_node};
ghost use Rattle.world_rules.specs.Worlds.{World as RuledWorld, kept_of, node_acted};
ghost use Rattle.ring_world.specs.Moves.{Comes, Same, Steps};
ghost use Rattle.world_rules.specs.EventLimits.{most_events, most_frames};
ghost use Rattle.ring_world.specs.Running.{last_node};
ghost use Rattle.ring_world.specs.Stands.{Stands};
ghost use Rattle.ring_world.specs.Starts.{place_for};

use crate::running::Running;
use crate::world::{Acted, EventRefusal, World};
use drift_clock::Drift;
use fabric_terms::{Event, FabricConfig, OutOfMemory};
use node_core::{NodeCore, NodeKept, Outcome};
use ring_points::{MAX_READING, Who};
use std::alloc::Global;
use world_rules::is_configured_node;

/// Where the clock of this node has to stand.
fn place_for(clocks: &[(Who, u64)], node: u16) -> usize
    ensures place { result ≡ place_for node clocks.now }
    ensures within { result ≤ length clocks.now }
{
    for (i, k) in clocks.iter().enumerate() {
        if node < k.0.actor {
            return i;
        }
    }
    clocks.len()
}

/// Puts an item in where there is room for it.
fn put_in<T: Drop>(items: &mut Vec<T>, place: usize, item: T)
    requires place { place ≤ vec_len items.old }
    requires room { vec_len items.old < vec_capacity items.old }
    ensures { items.new.items ≡ insert items.old.items place item }
{
    match items.insert(place, item) {
        Ok(()) => {}
        Err(_) => unreachable!(),
    }
}

/// Begins the next instance of the node, in the place of a node that has ended where there is one: a node is 36 KB in all,
/// and most of it stays where it lies then. It is an error where memory is short, and then nothing is changed.
fn begin_node(
    alloc: Global,
    ended: &mut Vec<Box<NodeCore>>,
    config: &FabricConfig,
    node: u16,
    kept: &mut NodeKept,
    reading: u64,
) -> Result<(Box<NodeCore>, Outcome), OutOfMemory>
    requires sound { IsSound config.now }
    requires node { is_configured_node config.now node ≡ true }
    ensures begins { IfOk result (λ r. (records : List Record) → Amounts records kept.old →
        Does (node_begun fabric config.now node records) r.0.value r.1) }
    ensures goes_by { IfOk result (λ r. GoesBy config.now r.0.value) }
    ensures small { IfOk result (λ r. IsSmall r.0.value.state r.1) }
    ensures taken { OnOk result (kept.new ≡ nothing_kept) }
    ensures refused { OnErr result (kept.new ≡ kept.old) }
{
    let Some(mut core) = ended.pop() else {
        return NodeCore::begin(alloc, config, node, kept, reading);
    };
    match core.begin_again(config, node, kept) {
        Ok(outcome) => Ok((core, outcome)),
        Err(refused) => {
            ended.push_reserved(core);
            Err(refused)
        }
    }
}

impl World {
    /// Makes room for one more running node, and for what its start tells.
    fn make_place(&mut self) -> Result<(), OutOfMemory>
        ensures same { Same self.old self.new }
        ensures clocks { OnOk result (vec_len self.new.clocks < vec_capacity self.new.clocks) }
        ensures running { OnOk result (vec_len self.new.running < vec_capacity self.new.running) }
        ensures reports { OnOk result (most_reports ≤ self.new.places.room) }
    {
        self.make_room(0)?;
        self.clocks.reserve(1)?;
        self.running.reserve(1)?;
        Ok(())
    }

    /// The next instance of the node runs: its clock counts, and its reports move points.
    fn enter(&mut self, line: u64, node: u16, reading: u64) -> Result<Acted, OutOfMemory>
        requires can { (w : RuledWorld fabric) × Stands self.old w × (at node w.nodes ≡ None) }
        requires node { node ≤ last_node }
        requires configured { is_configured_node self.old.config node ≡ true }
        requires reading { reading ≤ MAX_READING }
        requires events { self.old.events < most_events }
        requires sent { self.old.sent < most_frames }
        requires clocks { vec_len self.old.clocks < vec_capacity self.old.clocks }
        requires running { vec_len self.old.running < vec_capacity self.old.running }
        requires reports { most_reports ≤ self.old.places.room }
        ensures { (w : RuledWorld fabric) → Stands self.old w → at node w.nodes ≡ None →
            Steps self.old self.new (node_acted fabric w node reading ((w.time, reading) ∷ []) (node_begun fabric self.old.config node (kept_of w node))) line result }
    {
        let kept = &mut self.kept[usize::from(node)];
        let ended = &mut self.ended;
        let (core, outcome) = begin_node(self.alloc, ended, &self.config, node, kept, reading)?;
        let who = core.me();
        let drift = Drift::new(self.config.bound, self.time, reading);
        let place = place_for(&self.clocks, node);
        put_in(&mut self.clocks, place, (who, reading));
        put_in(&mut self.running, place, Running { drift, node: core });
        let reports = outcome.reports;
        Ok(self.commit(line, who, Some(reading), outcome.frames.as_slice(), reports))
    }

    /// Starts a configured node that does not run.
    fn start_node(
        &mut self,
        line: u64,
        node: u16,
        reading: u64,
    ) -> Result<Option<Acted>, EventRefusal>
        requires can { (w : RuledWorld fabric) × Stands self.old w }
        requires node { node ≤ last_node }
        requires reading { reading ≤ MAX_READING }
        ensures { (w : RuledWorld fabric) → Stands self.old w →
            Comes self.old self.new w line (Event.Start node (Some reading)) result }
    {
        if !is_configured_node(&self.config, node) {
            return Err(EventRefusal::NoSuch);
        }
        if self.place_of(node).is_some() {
            return Err(EventRefusal::NoSuch);
        }
        if !self.may_act() {
            return Err(EventRefusal::TooLarge);
        }
        self.make_place()?;
        Ok(Some(self.enter(line, node, reading)?))
    }

    /// An actor's process begins: a node's with the reading of its clock, an arbitrator's without one. It is never
    /// inlined into the taking of an event, which would then pay for its room.
    #[inline(never)]
    pub(crate) fn start(
        &mut self,
        line: u64,
        actor: u16,
        reading: Option<u64>,
    ) -> Result<Option<Acted>, EventRefusal>
        requires can { (w : RuledWorld fabric) × Stands self.old w }
        requires fits { Fits (Event.Start actor reading) }
        ensures { (w : RuledWorld fabric) → Stands self.old w →
            Comes self.old self.new w line (Event.Start actor reading) result }
    {
        match reading {
            Some(reading) => self.start_node(line, actor, reading),
            None => self.start_arbiter(line, actor),
        }
    }
}

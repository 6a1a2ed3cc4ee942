ghost use Rattle.std.specs.Prelude.{◌≡◌, IfOk, option_map, vec_items};
ghost use Rattle.status_page.specs.Answers.{answer_for};
ghost use Rattle.serve_top.specs.Pages.{Answers, AreCounts, AreCountsOf, AreNodeCounts, IsMetricsOf, IsStateOf, asked_of, routes};

use crate::board::BoardFacts;
use crate::node_counts::{change_gauges, counts_of_links, counts_of_roles, entry_gauges};
use crate::node_facts::facts_of;
use crate::tally::Tally;
use crate::texts::VERSION;
use fabric_terms::OutOfMemory;
use node_core::NodeCore;
use replica_core::Role;
use ring_points::Point;
use serve_turns::Shown;
use status_page::{
    Answer, Counts, DoorFacts, LINK_STATES, NodeFacts, ROLES, Wanted, answer_for, arbiter_answer,
    metrics_answer, node_answer, plain_answer, share_of,
};
use std::alloc::{AllocError, Global};
use turn_members::Member;

/// What the page is made of.
#[derive(Clone, Copy)]
pub(crate) struct PageOf<'a> {
    pub(crate) alloc: Global,
    pub(crate) facts: &'a BoardFacts,
    pub(crate) tally: &'a Tally,
    pub(crate) shown: &'a Shown<'a>,
}

/// Whether the actor does its part: an arbitrator always does.
fn routes(actor: &Member) -> bool
    ensures { result ≡ routes actor.now }
{
    match actor {
        Member::Node(core) => core.ring().is_routing(),
        Member::Arbiter(_, _) => true,
    }
}

impl PageOf<'_> {
    /// What the door knows.
    fn door(&self) -> DoorFacts
        ensures { result ≡ (asked_of self.now).door }
    {
        DoorFacts {
            open: self.shown.sessions.open,
            watchers: self.shown.sessions.watchers,
            checksum: self.facts.checksum,
        }
    }

    /// The whole answer with the state of the actor.
    fn state(&self) -> Result<Vec<u8>, OutOfMemory>
        ensures { IfOk result (λ text. IsStateOf (asked_of self.now) (asked_of self.now).actor text.items) }
    {
        let shown = self.shown;
        match shown.actor {
            Member::Node(core) => {
                let facts = facts_of(self.alloc, core, shown.changes, shown.now)?;
                node_answer(self.alloc, core.ring().phase(), &facts, &self.door())
            }
            Member::Arbiter(_, arbiter) => {
                let entries = arbiter.entries() as u64;
                arbiter_answer(self.alloc, self.facts.arbiter, entries, &self.door())
            }
        }
    }

    /// The numbers of the process, where nothing is known of the actor.
    fn plain_counts(&self) -> Result<Counts, OutOfMemory>
        ensures { IfOk result (AreCounts (asked_of self.now)) }
    {
        Ok(Counts {
            counters: self.tally.counters(),
            links: [0; LINK_STATES],
            share: 0,
            fence_left: None,
            routing: false,
            manages: false,
            sealed: self.facts.sealed,
            record_bytes: self.tally.record_bytes(),
            replicas: [0; ROLES],
            entries: Vec::new(self.alloc),
            committed: Vec::new(self.alloc),
            changing: Vec::new(self.alloc),
            without_manager: 0,
            connections: self.tally.connections(),
            watchers: self.shown.sessions.watchers,
            held_frames: self.tally.held_frames(),
            checksum: self.facts.checksum,
            version: Vec::from_slice(self.alloc, VERSION.as_bytes())?,
            instance: 0,
        })
    }

    /// The numbers of a node.
    fn node_counts(&self, core: &NodeCore) -> Result<Counts, OutOfMemory>
        ensures { IfOk result (AreNodeCounts (asked_of self.now) core.now.settings core.now.state) }
    {
        let now = self.shown.now;
        let facts = facts_of(self.alloc, core, self.shown.changes, now)?;
        let mut counts = self.plain_counts()?;
        counts.links = counts_of_links(&facts.links);
        counts.replicas = counts_of_roles(&facts.replicas);
        counts.share = share_of(core.ranges().intervals());
        counts.fence_left = core.fence().map(|fence| fence.saturating_sub(now));
        counts.routing = core.ring().is_routing();
        counts.manages = counts.routing && core.ring().holds(now, Point(0));
        counts.entries = entry_gauges(self.alloc, &facts.replicas, &self.facts.declared)?;
        let primaries = primaries_of(self.alloc, &facts, &self.facts.declared)?;
        counts.committed = self.tally.committed_of(self.alloc, &primaries)?;
        counts.changing = change_gauges(self.alloc, &facts.changing)?;
        counts.without_manager = self.tally.without_manager(now);
        counts.instance = core.me().instance;
        Ok(counts)
    }

    /// The numbers of the process and of its actor.
    fn counts(&self) -> Result<Counts, OutOfMemory>
        ensures { IfOk result (AreCountsOf (asked_of self.now) (asked_of self.now).actor) }
    {
        match self.shown.actor {
            Member::Node(core) => self.node_counts(core),
            Member::Arbiter(_, _) => self.plain_counts(),
        }
    }

    /// The whole answer with the numbers of the process.
    fn metrics(&self) -> Result<Vec<u8>, OutOfMemory>
        ensures { IfOk result (λ text. IsMetricsOf (asked_of self.now) text.items) }
    {
        let counts = self.counts()?;
        metrics_answer(self.alloc, &counts)
    }

    /// The whole answer to a client that wants this; None where it waits.
    pub(crate) fn answer(&self, wanted: Wanted) -> Result<Option<Vec<u8>>, OutOfMemory>
        ensures { IfOk result (λ given. Answers (asked_of self.now)
            (answer_for wanted (routes (asked_of self.now).actor)) (option_map vec_items given)) }
    {
        match answer_for(wanted, routes(self.shown.actor)) {
            Answer::Wait => Ok(None),
            Answer::Metrics => Ok(Some(self.metrics()?)),
            Answer::State => Ok(Some(self.state()?)),
            Answer::Says(plain) => Ok(Some(plain_answer(self.alloc, plain)?)),
        }
    }
}

/// The declared partitions whose primary the node is.
fn primaries_of(
    alloc: Global,
    facts: &NodeFacts,
    declared: &[u16],
) -> Result<Vec<u16>, AllocError> {
    let mut partitions = Vec::new(alloc);
    for replica in &facts.replicas {
        if replica.role == Role::Primary && declared.contains(&replica.partition) {
            partitions.push(replica.partition)?;
        }
    }
    Ok(partitions)
}

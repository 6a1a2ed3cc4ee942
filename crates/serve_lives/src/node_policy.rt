ghost use Rattle.std.specs.Prelude.{◌≡◌, IfOk, None};
ghost use Rattle.fabric_terms.specs.Sound.{IsSound};
ghost use Rattle.serve_lives.specs.Courses.{advice_of, course_after, due_by, fresh_course, leaves_by, noted_by};
ghost use Rattle.serve_lives.specs.Courses.{pause_by, steward_advice, until_of};
ghost use Rattle.serve_turns.specs.Policies.{Advises};
ghost use Rattle.service_file.specs.Sound.{IsSoundService};

use crate::known_node::KnownNode;
use crate::leaving_words::parting_advice;
use crate::read_steward::ReadSteward;
use crate::returning::Returning;
use fabric_steward::{Departure, Parting};
use fabric_terms::{Command, FabricConfig, Report};
use node_core::NodeCore;
use ring_rules::Input;
use serve_turns::{Advice, Policy};
use service_file::ServiceSettings;
use std::alloc::{AllocError, Global};
use std::marker::Model;

/// The policy of a node: its steward, and from the time that it was told to leave its plan to leave. It does not tell
/// what it has said. Contracts see it as its `Course`.
#[derive(Drop)]
pub struct NodePolicy {
    /// None once the node was told to leave.
    steward: Option<ReadSteward>,
    /// None until the node is told to leave.
    plan: Option<Departure>,
    /// The reading of its last turn, in ticks.
    seen: u64,
    /// The reading at which a node that leaves looks again.
    until: u64,
}

impl Model for NodePolicy {
    ghost use Rattle.serve_lives.specs.Courses.{Course};

    ghost Value = { Course };

    ghost view = { λ p. record { steward = p.steward; plan = p.plan; seen = p.seen; until = p.until } };
}

fn steward_advice(command: Option<Command>) -> Advice
    ensures { result ≡ steward_advice command }
{
    match command {
        None => Advice::Nothing,
        Some(command) => Advice::Say(command),
    }
}

/// When a node that leaves looks again: after a command at once, since another one may come.
fn until_of(now: u64, parting: &Parting) -> u64
    ensures { result ≡ until_of now parting.now }
{
    match parting {
        Parting::Wait(reading) => *reading,
        _ => now,
    }
}

impl NodePolicy {
    /// The policy of node `me`, of which nothing has come yet. The settings are those that were read for the
    /// configuration.
    pub fn new(
        alloc: Global,
        config: &FabricConfig,
        settings: &ServiceSettings,
        me: u16,
    ) -> Result<NodePolicy, AllocError>
        requires config { IsSound config.now }
        requires settings { IsSoundService config.now settings.now }
        ensures { IfOk result (λ p. p ≡ fresh_course config.now settings.now me) }
    {
        let steward = ReadSteward::new(alloc, config, settings, me)?;
        Ok(NodePolicy {
            steward: Some(steward),
            plan: None,
            seen: 0,
            until: 0,
        })
    }
}

impl Policy for NodePolicy {
    ghost advised = { λ p. None };

    fn advise(&mut self, node: &NodeCore, now: u64) -> Advice
        ensures says { result ≡ advice_of node.now now self.old }
        ensures course { self.new ≡ course_after node.now now self.old }
        ensures advises { Advises None result None }
    {
        self.seen = now;
        let known = KnownNode { core: node };
        if let Some(steward) = &mut self.steward {
            return steward_advice(steward.advise(&known, now));
        }
        if let Some(plan) = &mut self.plan {
            let parting = plan.advise(&known, now);
            self.until = until_of(now, &parting);
            return parting_advice(parting);
        }
        Advice::Nothing
    }

    fn note(&mut self, input: &Input, told: &[Report], _now: u64)
        ensures { self.new ≡ record self.old { steward = noted_by input.now told.now self.old.steward } }
    {
        if let Some(steward) = &mut self.steward {
            steward.note(input, told);
        }
    }

    fn leave(&mut self, now: u64)
        ensures { self.new ≡ leaves_by now self.old.steward self.old }
    {
        if let Some(steward) = self.steward.take() {
            self.plan = Some(steward.leave(now));
            self.until = now;
        }
    }

    fn due(&self) -> u64
        ensures { result ≡ due_by self.now.steward self.now }
    {
        match &self.steward {
            None => self.until,
            Some(steward) => steward.due(self.seen),
        }
    }
}

impl Returning for NodePolicy {
    ghost pause = { λ p. pause_by p.steward };

    fn join_pause(&self) -> u64 {
        match &self.steward {
            None => 0,
            Some(steward) => steward.join_pause(),
        }
    }
}

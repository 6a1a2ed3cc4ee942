ghost use Rattle.std.specs.Prelude.{◌≡◌, ◌+◌, ◌<◌, ◌≤◌, OnErr, OnOk, false, length};
ghost use Rattle.ring_node.specs.Greetings.{length_for, wire_for};
ghost use Rattle.ring_node.specs.Nodes.{IsPatched, by, step};
ghost use Rattle.ring_rules.specs.Commands.{join_commanded, link_commanded, part_commanded};
ghost use Rattle.ring_rules.specs.Deeds.{has_numbers};
ghost use Rattle.ring_rules.specs.Steps.{command_received, command_row};

use crate::leave::whole_row;
use crate::node::RingNode;
use crate::refusals::{refuse, refuse_for};
use crate::reports::Reports;
use crate::tokens::Spent;
use fabric_terms::{Command, Outbox, Reason, Verb};
use ring_points::{MAX_READING, MAX_RING_REPORTS, OUTBOX_LIMIT};

impl RingNode {
    /// The command to link with a node.
    #[tactic(auto, unfolding(ring_rules::specs::Commands::link_commanded))]
    pub(crate) fn link(
        &mut self,
        node: u16,
        now: u64,
        span: Option<u64>,
        out: &mut Outbox,
        told: &mut Reports,
    ) -> Result<(), Spent>
        requires now { now ≤ MAX_READING }
        requires room { length out.old < OUTBOX_LIMIT }
        requires place { length told.old < MAX_RING_REPORTS }
        ensures ok { OnOk result (step self.new out.new told.new ≡ by
            (λ c. link_commanded c now node (wire_for span) (length_for c span)) (step self.old out.old told.old)) }
        ensures err { OnErr result (has_numbers
            (link_commanded self.old.settings now node (wire_for span) (length_for self.old.settings span)
            (step self.old out.old told.old).work).ring ≡ false) }
        ensures kept { OnErr result (step self.new out.new told.new ≡ step self.old out.old told.old) }
        ensures few { length told.new ≤ length told.old + 1 }
        ensures short { length out.new ≤ length out.old + 1 }
    {
        match self.greet(node, now, span, out) {
            Ok(()) => Ok(()),
            Err(refusal) => refuse_for(Verb::Link, refusal, told),
        }
    }

    /// The command to join the ring through a member.
    #[tactic(auto, unfolding(ring_rules::specs::Commands::join_commanded))]
    pub(crate) fn join(&mut self, member: u16, out: &mut Outbox, told: &mut Reports)
        requires room { length out.old < OUTBOX_LIMIT }
        requires place { length told.old < MAX_RING_REPORTS }
        ensures row { step self.new out.new told.new ≡ by (λ c. join_commanded member) (step self.old out.old told.old) }
        ensures few { length told.new ≤ length told.old + 1 }
        ensures short { length out.new ≤ length out.old + 1 }
    {
        if self.is_routing() {
            refuse(Verb::Join, Reason::Busy, told);
            return;
        }
        self.target = Some(member);
        self.seek_place(member, out);
    }

    /// The command to part with a node.
    #[tactic(auto, unfolding(ring_rules::specs::Commands::part_commanded))]
    pub(crate) fn part(
        &mut self,
        node: u16,
        out: &mut Outbox,
        told: &mut Reports,
    ) -> Result<(), Spent>
        requires room { length out.old < OUTBOX_LIMIT }
        requires place { length told.old < MAX_RING_REPORTS }
        ensures ok { OnOk result (step self.new out.new told.new ≡ by (λ c. part_commanded node)
            (step self.old out.old told.old)) }
        ensures err { OnErr result (has_numbers (part_commanded node (step self.old out.old told.old).work).ring
            ≡ false) }
        ensures kept { OnErr result (IsPatched (step self.old out.old told.old) (step self.new out.new told.new)) }
        ensures few { length told.new ≤ length told.old + 1 }
        ensures short { length out.new ≤ length out.old + 1 }
    {
        let place = self.links.parting(node);
        match self.links.part(node, out) {
            Ok(()) => match place {
                Some(i) => self.undo(i),
                None => Ok(()),
            },
            Err(refusal) => refuse_for(Verb::Part, refusal, told),
        }
    }

    /// The row of a command; another command is not the ring's.
    #[tactic(auto, unfolding(ring_rules::specs::Seeks::find_commanded))]
    fn command_row(
        &mut self,
        now: u64,
        command: &Command,
        out: &mut Outbox,
        told: &mut Reports,
    ) -> Result<(), Spent>
        requires now { now ≤ MAX_READING }
        requires room { length out.old < OUTBOX_LIMIT }
        requires place { length told.old < MAX_RING_REPORTS }
        ensures ok { OnOk result (step self.new out.new told.new ≡ by (λ c. command_row c now command.now)
            (step self.old out.old told.old)) }
        ensures err { OnErr result (has_numbers
            (command_row self.old.settings now command.now (step self.old out.old told.old).work).ring ≡ false) }
        ensures kept { OnErr result (IsPatched (step self.old out.old told.old) (step self.new out.new told.new)) }
        ensures few { length told.new ≤ length told.old + 1 }
        ensures short { length out.new ≤ length out.old + 1 }
    {
        match command {
            Command::Link(node) => self.link(*node, now, None, out, told),
            Command::LinkFor(node, length) => self.link(*node, now, Some(*length), out, told),
            Command::Part(node) => self.part(*node, out, told),
            Command::GiveNear(node) => self.give(false, *node, told),
            Command::GiveAll(node) => self.give(true, *node, told),
            Command::Join(member) => {
                self.join(*member, out, told);
                Ok(())
            }
            Command::Find(key) => {
                self.find(*key, out, told);
                Ok(())
            }
            _ => Ok(()),
        }
    }

    /// A command.
    #[tactic(auto, unfolding(ring_rules::specs::Steps::command_received))]
    pub(crate) fn command(
        &mut self,
        now: u64,
        command: &Command,
        out: &mut Outbox,
        told: &mut Reports,
    )
        requires now { now ≤ MAX_READING }
        requires room { length out.old < OUTBOX_LIMIT }
        requires place { length told.old + 1 < MAX_RING_REPORTS }
        ensures row { step self.new out.new told.new ≡ by (λ c. command_received c now command.now)
            (step self.old out.old told.old) }
        ensures few { length told.new ≤ length told.old + 1 }
        ensures short { length out.new ≤ length out.old + 1 }
    {
        whole_row!(self, out, told, self.command_row(now, command, out, told))
    }
}

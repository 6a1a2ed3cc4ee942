ghost use Rattle.std.specs.Prelude.{◌≡◌};

use crate::commanders::Commanders;
use crate::tally::Tally;
use fabric_terms::{Command, Report};
use node_core::NodeCore;
use ring_node::Input;
use ring_points::Point;
use serve_lives::Returning;
use serve_turns::{Advice, Policy};
use status_page::Asker;
use std::alloc::Global;

/// A policy whose commands are counted, and what it sees of the steps.
#[derive(Drop)]
pub struct TalliedPolicy<'a, P: Policy> {
    inner: P,
    tally: &'a Tally,
    commanders: Commanders,
    /// Whether the next step by a command is one of the policy.
    said: bool,
}

impl<'a, P: Policy> TalliedPolicy<'a, P> {
    /// The commands of this policy.
    pub fn new(alloc: Global, inner: P, tally: &'a Tally) -> Self {
        TalliedPolicy {
            inner,
            tally,
            commanders: Commanders::new(alloc),
            said: false,
        }
    }
}

impl<P: Policy> TalliedPolicy<'_, P> {
    /// Who has given the command of this step.
    fn asker(&self) -> Asker {
        if self.said {
            Asker::Policy
        } else if self.tally.parent_asks() {
            Asker::Parent
        } else {
            Asker::Door
        }
    }

    /// Counts a command, and says who has given it.
    fn count_command(&mut self, command: &Command) -> Asker
        ensures { self.new.inner ≡ self.old.inner }
    {
        let asker = self.asker();
        self.tally.count(|counters| counters.count_command(asker));
        self.commanders.note(command, asker);
        asker
    }

    /// Counts what a step takes, and says who is answered by a refusal in it.
    fn count_input(&mut self, input: &Input) -> Option<Asker>
        ensures { self.new.inner ≡ self.old.inner }
    {
        match input {
            Input::Do(command) => Some(self.count_command(command)),
            Input::Fire => {
                self.tally.count(|counters| counters.count_firing());
                None
            }
            Input::Frame(_) => self.commanders.answered(input),
        }
    }

    fn count_report(&self, report: &Report, asker: Option<Asker>, now: u64) {
        match report {
            Report::Committed(partition, _, last) => self.tally.committed(*partition, *last),
            Report::Found(Point(0), _) => self.tally.manager_seen(now),
            Report::Refused(_, _) => {
                if let Some(asker) = asker {
                    self.tally.count(|counters| counters.count_refusal(asker));
                }
            }
            _ => {}
        }
    }
}

impl<P: Policy> Policy for TalliedPolicy<'_, P> {
    ghost advised = { λ p. P.advised p.inner };

    fn advise(&mut self, node: &NodeCore, now: u64) -> Advice {
        if node.ring().is_routing() && node.ring().holds(now, Point(0)) {
            self.tally.manager_seen(now);
        }
        let advice = self.inner.advise(node, now);
        self.said = matches!(advice, Advice::Say(_));
        advice
    }

    fn note(&mut self, input: &Input, told: &[Report], now: u64) {
        let asker = self.count_input(input);
        self.said = false;
        for report in told {
            self.count_report(report, asker, now);
        }
        self.inner.note(input, told, now);
    }

    fn leave(&mut self, now: u64) {
        self.tally.leave();
        self.inner.leave(now);
    }

    fn due(&self) -> u64 {
        self.inner.due()
    }
}

impl<P: Policy + Returning> Returning for TalliedPolicy<'_, P> {
    ghost pause = { λ p. P.pause p.inner };

    fn join_pause(&self) -> u64 {
        self.inner.join_pause()
    }
}

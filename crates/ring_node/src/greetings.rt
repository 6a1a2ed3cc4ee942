ghost use Rattle.std.specs.Prelude.{◌≡◌, ◌+◌, ◌<◌, ◌≤◌, List, OnErr, OnOk, false, length};
ghost use Rattle.fabric_terms.specs.declared.report.Report.{Report};
ghost use Rattle.link_core.specs.Calls.{call_after, hello_call, outcome};
ghost use Rattle.ring_node.specs.Nodes.{by, links_of, step, with_links};
ghost use Rattle.ring_rules.specs.Deeds.{has_numbers};
ghost use Rattle.ring_rules.specs.Handshakes.{greet_plainly};

use crate::node::RingNode;
use crate::refusals::pass_over;
use crate::tokens::Spent;
use fabric_terms::Outbox;
use link_core::LinkRefusal;
use ring_points::{MAX_READING, OUTBOX_LIMIT};

impl RingNode {
    /// Greets a node.
    pub(crate) fn greet(
        &mut self,
        node: u16,
        now: u64,
        span: Option<u64>,
        out: &mut Outbox,
    ) -> Result<(), LinkRefusal>
        requires now { now ≤ MAX_READING }
        requires room { length out.old < OUTBOX_LIMIT }
        ensures outcome { outcome result (links_of self.new) out.new ≡ call_after out.old
            (hello_call now node span (links_of self.old)) }
        ensures kept { self.new ≡ with_links (links_of self.new) self.old }
        ensures err { OnErr result (self.new ≡ self.old) }
        ensures silent { OnErr result (out.new ≡ out.old) }
        ensures few { length out.new ≤ length out.old + 1 }
    {
        self.links.hello(node, now, span, out)
    }

    /// Greets a node by frame version 1, for the configured lease; a refusal is silent.
    pub(crate) fn greet_plainly(
        &mut self,
        node: u16,
        now: u64,
        out: &mut Outbox,
    ) -> Result<(), Spent>
        requires now { now ≤ MAX_READING }
        requires room { length out.old < OUTBOX_LIMIT }
        ensures ok { OnOk result ((told : List Report) →
            step self.new out.new told ≡ by (λ c. greet_plainly c now node) (step self.old out.old told)) }
        ensures err { OnErr result ((told : List Report) →
            has_numbers (greet_plainly self.old.settings now node (step self.old out.old told).work).ring ≡ false) }
        ensures kept { OnErr result (self.new ≡ self.old) }
        ensures silent { OnErr result (out.new ≡ out.old) }
        ensures few { length out.new ≤ length out.old + 1 }
    {
        match self.greet(node, now, None, out) {
            Ok(()) => Ok(()),
            Err(refusal) => pass_over(refusal),
        }
    }
}

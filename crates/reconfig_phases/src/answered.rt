ghost use Rattle.std.specs.Prelude.{◌≡◌, ◌≤◌, ◌+◌, length};
ghost use Rattle.reconfig_phases.specs.Answers.{received};
ghost use Rattle.reconfig_phases.specs.Views.{Does, IfFinished, reconfig_of, step_of, step_with};
ghost use Rattle.unit_rules.specs.Reconfigs.{task_of};
ghost use Rattle.unit_rules.specs.Transitions.{goes_on};

use crate::answers::{answered_unit, carried};
use crate::reconfig::Reconfig;
use crate::step::{Progress, Step};
use crate::transitions::source_by;
use fabric_terms::{Message, Outbox};
use replica_place::NodeLoad;
use ring_points::{MAX_ARBITRATORS, OUTBOX_LIMIT};

impl Reconfig {
    /// Counts an answer in the phase in which it is, and enters the next one where that ends.
    fn go_on(&mut self, answer: &Message, nodes: &[NodeLoad], out: &mut Outbox) -> Progress
        requires { length out.old + MAX_ARBITRATORS ≤ OUTBOX_LIMIT }
        ensures does { Does (goes_on nodes.now answer.now.from.actor answer.now.body (reconfig_of self.old))
            (step_with self.new result) out.old out.new }
        ensures task { task_of (reconfig_of self.new) ≡ task_of (reconfig_of self.old) }
        ensures finished { IfFinished result ((self.new ≡ self.old) × (out.new ≡ out.old)) }
    {
        let task = self.task();
        match self {
            Reconfig::Prepare(phase) => {
                if let Some(old) = phase.count(answer) {
                    return self.prepared(task, old, nodes, out);
                }
            }
            Reconfig::Phase0(phase) => {
                if let Some(standing) = phase.standing(answer) {
                    let old = phase.old.copy();
                    let primary = phase.primary;
                    return self.moved(task, &old, primary, standing, out);
                }
            }
            Reconfig::Phase1(phase) => {
                if let Some(choice) = phase.count(answer) {
                    self.propose(task, choice.config, choice.source, out);
                }
            }
            Reconfig::Decide(phase) => match phase.count(answer) {
                Some(Some(config)) => {
                    let source = source_by(task.kind, &config, phase.source);
                    self.copy_log(task, config, source, out);
                }
                Some(None) => return Progress::Superseded(task.epoch),
                None => {}
            },
            Reconfig::Phase2(phase) => {
                if let Some(()) = phase.count(answer) {
                    let config = phase.config.copy();
                    self.store(task, config, out);
                }
            }
            Reconfig::Phase3(phase) => {
                if let Some(()) = phase.count(answer) {
                    let config = phase.config.copy();
                    self.activate(task, config, out);
                }
            }
            Reconfig::Phase4(phase) => {
                if let Some(()) = phase.count(answer) {
                    return Progress::Finished(phase.config.copy());
                }
            }
        }
        Progress::Stays
    }

    /// Takes an answer for its partition, in place. An answer to another epoch changes nothing, and neither does a
    /// message that is no answer. A carried epoch is tested first: one that is not below its own supersedes it. After
    /// any progress but `Stays` it is over; where it is finished it is left as it was. At most `MAX_ARBITRATORS`
    /// messages are sent.
    #[tactic(auto, unfolding(unit_rules::specs::Transitions::answer_received))]
    pub fn answer(&mut self, answer: &Message, nodes: &[NodeLoad], out: &mut Outbox) -> Progress
        requires { length out.old + MAX_ARBITRATORS ≤ OUTBOX_LIMIT }
        ensures does { Does (received nodes.now answer.now (reconfig_of self.old)) (step_with self.new result)
            out.old out.new }
        ensures task { task_of (reconfig_of self.new) ≡ task_of (reconfig_of self.old) }
        ensures finished { IfFinished result ((self.new ≡ self.old) × (out.new ≡ out.old)) }
    {
        let Some((_, epoch)) = answered_unit(&answer.body) else {
            return Progress::Stays;
        };
        let own = self.task().epoch;
        if epoch != own {
            return Progress::Stays;
        }
        match carried(&answer.body) {
            Some(kept) if kept < own => Progress::Stays,
            Some(kept) => Progress::Superseded(kept),
            None => self.go_on(answer, nodes, out),
        }
    }

    /// Takes an answer for its partition, by value: see `answer`.
    pub fn on(self, answer: &Message, nodes: &[NodeLoad], out: &mut Outbox) -> Step
        requires { length out.old + MAX_ARBITRATORS ≤ OUTBOX_LIMIT }
        ensures { Does (received nodes.now answer.now (reconfig_of self)) (step_of result) out.old out.new }
    {
        let mut reconfig = self;
        match reconfig.answer(answer, nodes, out) {
            Progress::Stays => Step::Stay(reconfig),
            Progress::Finished(config) => Step::Finished(config),
            Progress::Superseded(epoch) => Step::Superseded(epoch),
            Progress::Refused(refusal) => Step::Refused(refusal),
        }
    }
}

ghost use Rattle.std.specs.Prelude.{◌≡◌, ◌≤◌, ◌<◌, ◌+◌, true, length, is_some, IsTrue, Some};
ghost use Rattle.fabric_lemmas.specs.Maps.{at, rises};
ghost use Rattle.failover_units.specs.Units.{changed, noted, seen_at};
ghost use Rattle.fabric_terms.specs.Messages.{is_sound_body};
ghost use Rattle.ring_points.specs.declared.unit.Epoch.{Epoch as UnitEpoch};
ghost use Rattle.reconfig_phases.specs.Answers.{answered_unit, received};
ghost use Rattle.reconfig_phases.specs.Views.{IfFinished, reconfig_of, step_with};
ghost use Rattle.reconfig_phases.specs.Views as phases;
ghost use Rattle.unit_desk.specs.UnitEffects.{Does, HasRoom};
ghost use Rattle.unit_rules.specs.Manager.{reason_of, table_or, verb_of};
ghost use Rattle.unit_rules.specs.Reconfigs.{task_of};
ghost use Rattle.unit_manager.specs.Managers.{Few, IsManaged, IsOwnEnd, answer_taken, concluded, loaded, managed};
ghost use Rattle.unit_manager.specs.Managers.{manager_received, place, reconfigs_of};

use crate::entries::{find, take_out};
use crate::loads::fill;
use crate::manager::Manager;
use fabric_terms::{Message, Outbox, Reason, Report, Verb};
use failover_units::{UnitRefusal, Units};
use reconfig_phases::{Progress, Reconfig, answered_unit};
use replica_place::NodeLoad;
use ring_points::{Config, Epoch, MAX_ARBITRATORS, OUTBOX_LIMIT};
use unit_desk::{MAX_ROW_REPORTS, UnitEffects};
use unit_rules::{Kind, Task};

/// The first word of the command that began a reconfiguration.
pub(crate) fn verb_of(kind: Kind) -> Verb
    ensures { result ≡ verb_of kind }
{
    match kind {
        Kind::Create(_) => Verb::Create,
        Kind::Swap(_) => Verb::Swap,
        Kind::Heal(_) => Verb::Heal,
        Kind::Lose(_) => Verb::Lose,
    }
}

/// The reason that is reported for a refusal.
pub(crate) fn reason_of(refusal: UnitRefusal) -> Reason
    ensures { result ≡ reason_of refusal }
{
    match refusal {
        UnitRefusal::Exists => Reason::Exists,
        UnitRefusal::NoUnit => Reason::NoUnit,
        UnitRefusal::Full => Reason::Full,
        UnitRefusal::NotMember => Reason::NotMember,
        UnitRefusal::TooFewDomains(domains) => Reason::TooFew(domains),
        UnitRefusal::OutOfMemory => Reason::Full,
    }
}

/// Notes an active configuration of a known partition, which takes no memory.
fn note(units: &mut Units, config: &Config)
    requires { is_some (at config.now.partition units.old) ≡ true }
    ensures { units.new ≡ table_or units.old (changed config.now.partition (noted config.now) units.old) }
{
    match units.note(config) {
        Ok(()) => {}
        Err(_) => unreachable!(),
    }
}

/// Notes an epoch of a known partition, which takes no memory.
fn see(units: &mut Units, partition: u16, epoch: Epoch)
    requires { is_some (at partition units.old) ≡ true }
    ensures { units.new ≡ table_or units.old (changed partition (seen_at epoch) units.old) }
{
    match units.seen(partition, epoch) {
        Ok(()) => {}
        Err(_) => unreachable!(),
    }
}

/// A reconfiguration takes an answer. Only its first phase reads the loads of the nodes.
#[tactic(auto, using(crate::proofs::Asking::received_alike, crate::proofs::Loading::loaded_again))]
fn go_on(
    units: &Units,
    reconfig: &mut Reconfig,
    answer: &Message,
    nodes: &mut [NodeLoad],
    out: &mut Outbox,
) -> Progress
    requires { length out.old + MAX_ARBITRATORS ≤ OUTBOX_LIMIT }
    ensures does { phases.Does (received (loaded units.now nodes.old) answer.now (reconfig_of reconfig.old))
        (step_with reconfig.new result) out.old out.new }
    ensures task { task_of (reconfig_of reconfig.new) ≡ task_of (reconfig_of reconfig.old) }
    ensures nodes { loaded units.now nodes.new ≡ loaded units.now nodes.old }
    ensures finished { IfFinished result ((reconfig.new ≡ reconfig.old) × (out.new ≡ out.old)) }
{
    if let Reconfig::Prepare(_) = reconfig {
        fill(units, nodes);
    }
    reconfig.answer(answer, nodes, out)
}

/// Does what the progress of the reconfiguration at place `i` calls for: an end is noted and reported.
fn conclude(
    units: &mut Units,
    reconfigs: &mut Vec<(u16, Reconfig)>,
    i: usize,
    task: Task,
    progress: Progress,
    effects: &mut UnitEffects,
)
    requires room { length effects.old.told < MAX_ROW_REPORTS }
    requires place { i ≡ place task.partition reconfigs.old.items }
    requires inside { i < length reconfigs.old.items }
    requires rise { rises (reconfigs_of reconfigs.old.items) ≡ true }
    requires known { is_some (at task.partition units.old) ≡ true }
    requires own { IsOwnEnd task progress }
    ensures does { Does (concluded task (managed units.old reconfigs.old.items) progress)
        (managed units.new reconfigs.new.items) effects.old effects.new }
    ensures few { Few effects.old effects.new }
    ensures sent { effects.new.out ≡ effects.old.out }
{
    match progress {
        Progress::Stays => {}
        Progress::Finished(config) => {
            note(units, &config);
            take_out(reconfigs, i, task.partition);
            effects
                .told
                .push(Report::Configured(task.partition, config.epoch));
        }
        Progress::Superseded(epoch) => {
            see(units, task.partition, epoch);
            take_out(reconfigs, i, task.partition);
            effects.told.push(Report::Superseded(task.partition, epoch));
        }
        Progress::Refused(refusal) => {
            take_out(reconfigs, i, task.partition);
            effects
                .told
                .push(Report::Refused(verb_of(task.kind), reason_of(refusal)));
        }
    }
}

/// The partition's reconfiguration, if there is one, takes an answer, and ends if that was the last one it needs.
fn answered_by(
    units: &mut Units,
    reconfigs: &mut Vec<(u16, Reconfig)>,
    partition: u16,
    answer: &Message,
    nodes: &mut [NodeLoad],
    effects: &mut UnitEffects,
)
    requires sound { IsTrue (is_sound_body answer.now.body) }
    requires unit { (epoch : UnitEpoch) × (answered_unit answer.now.body ≡ Some (partition, epoch)) }
    requires room { HasRoom effects.old }
    requires whole { IsManaged (managed units.old reconfigs.old.items) }
    ensures does { Does (answer_taken (loaded units.old nodes.old) answer.now (managed units.old reconfigs.old.items)
        (at partition (reconfigs_of reconfigs.old.items))) (managed units.new reconfigs.new.items)
        effects.old effects.new }
    ensures whole { IsManaged (managed units.new reconfigs.new.items) }
    ensures nodes { loaded units.old nodes.new ≡ loaded units.old nodes.old }
    ensures few { Few effects.old effects.new }
{
    let Some(i) = find(reconfigs, partition) else {
        return;
    };
    let reconfig = &mut reconfigs[i].1;
    let task = reconfig.task();
    let progress = go_on(units, reconfig, answer, nodes, &mut effects.out);
    conclude(units, reconfigs, i, task, progress, effects);
}

impl Manager {
    /// Takes a message: an answer goes to the reconfiguration of its partition and epoch, and every other message
    /// changes nothing. `nodes` are all configured nodes, as placement sees them. Their loads are filled in here if
    /// they are needed. At most `MAX_ARBITRATORS` messages are sent, and one report is made. It takes no memory,
    /// because each configuration that it notes is of a known partition.
    #[tactic(auto, using(crate::proofs::Taking::received_is))]
    pub fn answered(&mut self, answer: &Message, nodes: &mut [NodeLoad], effects: &mut UnitEffects)
        requires sound { IsTrue (is_sound_body answer.now.body) }
        requires room { HasRoom effects.old }
        ensures does { Does (manager_received (loaded self.old.units nodes.old) answer.now self.old)
            self.new effects.old effects.new }
        ensures nodes { loaded self.old.units nodes.new ≡ loaded self.old.units nodes.old }
        ensures few { Few effects.old effects.new }
    {
        if let Some((partition, _)) = answered_unit(&answer.body) {
            answered_by(
                &mut self.units,
                &mut self.reconfigs,
                partition,
                answer,
                nodes,
                effects,
            );
        }
    }
}

ghost use Rattle.std.specs.Prelude.{◌≡◌, ◌≤◌, ◌+◌, length};
ghost use Rattle.reconfig_phases.specs.Tasks.{IsTask};
ghost use Rattle.reconfig_phases.specs.Views.{Does, IfFinished, reconfig_of, step_with};
ghost use Rattle.unit_rules.specs.Reconfigs.{Stay, task_of};
ghost use Rattle.unit_rules.specs.Transitions.{activates, after_promise, asks_promises, copies, create_placed, enters};
ghost use Rattle.unit_rules.specs.Transitions.{first_of, heal_placed, lose_begun, prepared_as, proposes, source_by};
ghost use Rattle.unit_rules.specs.Transitions.{stores, swap_begun};
ghost use Rattle.unit_rules.specs.Phases.{promised_with};
ghost use Rattle.replica_place.specs.Placement.{placement};

use crate::activate::ActivatePhase;
use crate::arbiters::arbiters;
use crate::copy::CopyPhase;
use crate::done::DonePhase;
use crate::members::{members_of, rising_members};
use crate::promise::PromisePhase;
use crate::reconfig::Reconfig;
use crate::step::{OriginLog, Progress};
use crate::swap::SwapPhase;
use crate::vote::VotePhase;
use fabric_terms::Outbox;
use failover_units::UnitRefusal;
use replica_place::{NodeLoad, place};
use ring_points::{Config, MAX_ARBITRATORS, MAX_MEMBERS, OUTBOX_LIMIT};
use unit_rules::{Kind, Standing, Task};

/// The first of these nodes, 0 where there is none.
fn first_of(nodes: &[u16]) -> u16
    ensures { result ≡ first_of nodes.now }
{
    match nodes.first() {
        Some(node) => *node,
        None => 0,
    }
}

/// The log that the members of a decided configuration take: of a new partition none, from the primary.
pub(crate) fn source_by(kind: Kind, config: &Config, source: OriginLog) -> OriginLog
    ensures { result ≡ source_by kind config.now source }
{
    match kind {
        Kind::Create(_) => OriginLog {
            origin: config.primary,
            last: 0,
        },
        _ => source,
    }
}

impl Reconfig {
    /// The arbitrators are asked to vote for this configuration, with the log of this source.
    pub(crate) fn propose(
        &mut self,
        task: Task,
        config: Config,
        source: OriginLog,
        out: &mut Outbox,
    )
        requires task { IsTask task }
        requires room { length out.old + MAX_ARBITRATORS ≤ OUTBOX_LIMIT }
        ensures does { Does (proposes task config source) (Stay (reconfig_of self.new)) out.old out.new }
        ensures task { task_of (reconfig_of self.new) ≡ task }
    {
        *self = Reconfig::Decide(VotePhase::new(task, config, source));
        self.ask(arbiters(task.arbitrators).as_slice(), out);
    }

    /// The members of the decided configuration are asked to take the log.
    pub(crate) fn copy_log(
        &mut self,
        task: Task,
        config: Config,
        source: OriginLog,
        out: &mut Outbox,
    )
        requires task { IsTask task }
        requires room { length out.old + MAX_ARBITRATORS ≤ OUTBOX_LIMIT }
        ensures does { Does (copies task config source) (Stay (reconfig_of self.new)) out.old out.new }
        ensures task { task_of (reconfig_of self.new) ≡ task }
    {
        let members = config.members.copy();
        *self = Reconfig::Phase2(CopyPhase::new(task, config, source));
        self.ask(members.as_slice(), out);
    }

    /// The arbitrators are asked to keep the configuration as done.
    pub(crate) fn store(&mut self, task: Task, config: Config, out: &mut Outbox)
        requires task { IsTask task }
        requires room { length out.old + MAX_ARBITRATORS ≤ OUTBOX_LIMIT }
        ensures does { Does (stores task config) (Stay (reconfig_of self.new)) out.old out.new }
        ensures task { task_of (reconfig_of self.new) ≡ task }
    {
        *self = Reconfig::Phase3(DonePhase::new(task, config));
        self.ask(arbiters(task.arbitrators).as_slice(), out);
    }

    /// The members are asked to take their roles.
    pub(crate) fn activate(&mut self, task: Task, config: Config, out: &mut Outbox)
        requires task { IsTask task }
        requires room { length out.old + MAX_ARBITRATORS ≤ OUTBOX_LIMIT }
        ensures does { Does (activates task config) (Stay (reconfig_of self.new)) out.old out.new }
        ensures task { task_of (reconfig_of self.new) ≡ task }
    {
        let members = config.members.copy();
        *self = Reconfig::Phase4(ActivatePhase::new(task, config));
        self.ask(members.as_slice(), out);
    }

    /// Create: the members are placed, and the primary is the first of them.
    fn create(&mut self, task: Task, count: u8, nodes: &[NodeLoad], out: &mut Outbox) -> Progress
        requires own { task_of (reconfig_of self.old) ≡ task }
        requires task { IsTask task }
        requires count { count ≤ MAX_MEMBERS }
        requires room { length out.old + MAX_ARBITRATORS ≤ OUTBOX_LIMIT }
        ensures does { Does (create_placed task (placement nodes.now count)) (step_with self.new result)
            out.old out.new }
        ensures task { task_of (reconfig_of self.new) ≡ task }
        ensures over { IfFinished result ⊥ }
    {
        match place(nodes, count) {
            Ok(placed) => {
                let primary = first_of(placed.as_slice());
                let config = Config {
                    partition: task.partition,
                    epoch: task.epoch,
                    primary,
                    members: rising_members(placed.as_slice()),
                };
                let source = OriginLog {
                    origin: primary,
                    last: 0,
                };
                self.propose(task, config, source, out);
                Progress::Stays
            }
            Err(few) => Progress::Refused(UnitRefusal::TooFewDomains(few.0)),
        }
    }

    /// Swap: the node is a member, and the old primary promises first.
    fn swap(&mut self, task: Task, old: Config, node: u16, out: &mut Outbox) -> Progress
        requires own { task_of (reconfig_of self.old) ≡ task }
        requires task { IsTask task }
        requires room { length out.old + MAX_ARBITRATORS ≤ OUTBOX_LIMIT }
        ensures does { Does (swap_begun task old node) (step_with self.new result) out.old out.new }
        ensures task { task_of (reconfig_of self.new) ≡ task }
        ensures over { IfFinished result ⊥ }
    {
        if !old.members.as_slice().contains(&node) {
            return Progress::Refused(UnitRefusal::NotMember);
        }
        let primary = old.primary;
        *self = Reconfig::Phase0(SwapPhase {
            task,
            old,
            primary: node,
        });
        self.ask(&[primary], out);
        Progress::Stays
    }

    /// Heal: the members are placed anew, and the old ones promise.
    fn heal(
        &mut self,
        task: Task,
        old: Config,
        count: u8,
        nodes: &[NodeLoad],
        out: &mut Outbox,
    ) -> Progress
        requires own { task_of (reconfig_of self.old) ≡ task }
        requires task { IsTask task }
        requires count { count ≤ MAX_MEMBERS }
        requires room { length out.old + MAX_ARBITRATORS ≤ OUTBOX_LIMIT }
        ensures does { Does (heal_placed task old (placement nodes.now count)) (step_with self.new result)
            out.old out.new }
        ensures task { task_of (reconfig_of self.new) ≡ task }
        ensures over { IfFinished result ⊥ }
    {
        match place(nodes, count) {
            Ok(placed) => {
                let first = first_of(placed.as_slice());
                let members = rising_members(placed.as_slice());
                let asked = old.members.as_slice();
                *self = Reconfig::Phase1(PromisePhase::new(task, asked, members, first));
                self.ask(asked, out);
                Progress::Stays
            }
            Err(few) => Progress::Refused(UnitRefusal::TooFewDomains(few.0)),
        }
    }

    /// Lose: the node's replica promises, and goes on alone.
    fn lose(&mut self, task: Task, node: u16, out: &mut Outbox) -> Progress
        requires own { task_of (reconfig_of self.old) ≡ task }
        requires task { IsTask task }
        requires room { length out.old + MAX_ARBITRATORS ≤ OUTBOX_LIMIT }
        ensures does { Does (lose_begun task node) (step_with self.new result) out.old out.new }
        ensures task { task_of (reconfig_of self.new) ≡ task }
        ensures over { IfFinished result ⊥ }
    {
        let asked = [node];
        *self = Reconfig::Phase1(PromisePhase::new(task, &asked, members_of(&asked), node));
        self.ask(&asked, out);
        Progress::Stays
    }

    /// After Prepare it goes on by what was commanded, and by what was done before.
    pub(crate) fn prepared(
        &mut self,
        task: Task,
        old: Option<Config>,
        nodes: &[NodeLoad],
        out: &mut Outbox,
    ) -> Progress
        requires own { task_of (reconfig_of self.old) ≡ task }
        requires task { IsTask task }
        requires room { length out.old + MAX_ARBITRATORS ≤ OUTBOX_LIMIT }
        ensures does { Does (prepared_as nodes.now task task.kind old) (step_with self.new result) out.old out.new }
        ensures task { task_of (reconfig_of self.new) ≡ task }
        ensures over { IfFinished result ⊥ }
    {
        match (task.kind, old) {
            (Kind::Create(_), Some(_)) => Progress::Refused(UnitRefusal::Exists),
            (Kind::Create(count), None) => self.create(task, count, nodes, out),
            (Kind::Swap(node), Some(old)) => self.swap(task, old, node, out),
            (Kind::Heal(count), Some(old)) => self.heal(task, old, count, nodes, out),
            (Kind::Lose(node), Some(_)) => self.lose(task, node, out),
            (_, None) => Progress::Refused(UnitRefusal::NoUnit),
        }
    }

    /// After phase 0 all old members are asked, and the promise that ended it counts; it may be a majority alone, and
    /// then nobody is asked.
    pub(crate) fn moved(
        &mut self,
        task: Task,
        old: &Config,
        primary: u16,
        standing: Standing,
        out: &mut Outbox,
    ) -> Progress
        requires own { task_of (reconfig_of self.old) ≡ task }
        requires task { IsTask task }
        requires room { length out.old + MAX_ARBITRATORS ≤ OUTBOX_LIMIT }
        ensures does { Does (after_promise task (λ r. enters r old.now.members)
            (promised_with old.now.primary standing (asks_promises task old.now.members old.now.members primary)))
            (step_with self.new result) out.old out.new }
        ensures task { task_of (reconfig_of self.new) ≡ task }
        ensures over { IfFinished result ⊥ }
    {
        let asked = old.members.as_slice();
        let mut phase = PromisePhase::new(task, asked, old.members.copy(), primary);
        match phase.promised(old.primary, standing) {
            Some(choice) => self.propose(task, choice.config, choice.source, out),
            None => {
                *self = Reconfig::Phase1(phase);
                self.ask(asked, out);
            }
        }
        Progress::Stays
    }
}

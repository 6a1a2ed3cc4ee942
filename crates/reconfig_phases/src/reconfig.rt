ghost use Rattle.std.specs.Prelude.{◌≡◌, ◌≤◌, ◌+◌, ◌++◌, length};
ghost use Rattle.reconfig_phases.specs.Tasks.{IsTask};
ghost use Rattle.reconfig_phases.specs.Views.{reconfig_of};
ghost use Rattle.unit_rules.specs.Deeds.{frames_of};
ghost use Rattle.fabric_terms.specs.declared.message.Body.TheVariants.{Promise};
ghost use Rattle.unit_rules.specs.Manager.{task};
ghost use Rattle.unit_rules.specs.Polls.{arbiters_to};
ghost use Rattle.unit_rules.specs.Questions.{asks, awaited, question, reconfig_fired};
ghost use Rattle.unit_rules.specs.Reconfigs.{task_of};
ghost use Rattle.unit_rules.specs.Transitions.{begun};

use crate::activate::ActivatePhase;
use crate::arbiters::arbiters;
use crate::copy::CopyPhase;
use crate::done::DonePhase;
use crate::prepare::PreparePhase;
use crate::promise::PromisePhase;
use crate::swap::SwapPhase;
use crate::vote::VotePhase;
use arrayvec::ArrayVec;
use fabric_terms::{Body, Outbox};
use ring_points::{Epoch, MAX_ARBITRATORS, OUTBOX_LIMIT, Who};
use unit_rules::{Kind, Task};

/// A reconfiguration on its way: the phase in which it is. Contracts see it by `reconfig_of`.
#[derive(Drop)]
pub enum Reconfig {
    /// The arbitrators prepare the epoch.
    Prepare(PreparePhase),
    /// Of a swap: the old primary promises.
    Phase0(SwapPhase),
    /// The replicas of the old configuration promise.
    Phase1(PromisePhase),
    /// The arbitrators vote for a configuration.
    Decide(VotePhase),
    /// Its members take the log.
    Phase2(CopyPhase),
    /// The arbitrators keep it as done.
    Phase3(DonePhase),
    /// Its members take their roles.
    Phase4(ActivatePhase),
}

impl Reconfig {
    /// What it is for.
    pub fn task(&self) -> Task
        ensures task { result ≡ task_of (reconfig_of self.now) }
        ensures sound { IsTask result }
    {
        match self {
            Reconfig::Prepare(phase) => phase.task,
            Reconfig::Phase0(phase) => phase.task,
            Reconfig::Phase1(phase) => phase.task,
            Reconfig::Decide(phase) => phase.task,
            Reconfig::Phase2(phase) => phase.task,
            Reconfig::Phase3(phase) => phase.task,
            Reconfig::Phase4(phase) => phase.task,
        }
    }

    /// What the phase asks.
    fn question(&self) -> Body
        ensures { result ≡ question (reconfig_of self.now) }
    {
        match self {
            Reconfig::Prepare(phase) => Body::Prepare {
                partition: phase.task.partition,
                epoch: phase.task.epoch,
            },
            Reconfig::Phase0(phase) => promise_of(phase.task),
            Reconfig::Phase1(phase) => promise_of(phase.task),
            Reconfig::Decide(phase) => Body::Vote {
                config: phase.config.copy(),
            },
            Reconfig::Phase2(phase) => Body::Sync {
                partition: phase.task.partition,
                epoch: phase.task.epoch,
                origin: phase.source.origin,
                last: phase.source.last,
            },
            Reconfig::Phase3(phase) => Body::DoneAsk {
                config: phase.config.copy(),
            },
            Reconfig::Phase4(phase) => Body::Activate {
                config: phase.config.copy(),
            },
        }
    }

    /// Asks these actors, whichever instance runs.
    #[tactic(auto, using(crate::proofs::Asked::asked_more, crate::proofs::Asked::asked_all, crate::proofs::Asked::asked_many))]
    pub(crate) fn ask(&self, actors: &[u16], out: &mut Outbox)
        requires { length out.old + length actors.now ≤ OUTBOX_LIMIT }
        ensures sent { out.new ≡ out.old ++ frames_of (asks (reconfig_of self.now) actors.now) }
        ensures many { length out.new ≡ length out.old + length actors.now }
    {
        for actor in actors {
            let to = Who {
                actor: *actor,
                instance: 0,
            };
            out.send(to, self.question());
        }
    }

    /// Those that the phase asks and that have not answered, rising.
    fn awaited(&self) -> ArrayVec<u16, MAX_ARBITRATORS>
        ensures { result.items ≡ awaited (reconfig_of self.now) }
    {
        match self {
            Reconfig::Prepare(phase) => phase.awaited(),
            Reconfig::Phase0(phase) => phase.awaited(),
            Reconfig::Phase1(phase) => phase.awaited(),
            Reconfig::Decide(phase) => phase.awaited(),
            Reconfig::Phase2(phase) => phase.awaited(),
            Reconfig::Phase3(phase) => phase.awaited(),
            Reconfig::Phase4(phase) => phase.awaited(),
        }
    }

    /// Begins what is commanded of a partition: all arbitrators are asked to prepare the epoch, in at most
    /// `MAX_ARBITRATORS` messages. They go out in the name of `me`, who is to send what the outbox gets.
    pub fn begin(
        partition: u16,
        epoch: Epoch,
        kind: Kind,
        _me: Who,
        arbitrators: u8,
        out: &mut Outbox,
    ) -> Reconfig
        requires task { IsTask (task arbitrators partition epoch kind) }
        requires room { length out.old + MAX_ARBITRATORS ≤ OUTBOX_LIMIT }
        ensures begun { reconfig_of result ≡ begun (task arbitrators partition epoch kind) }
        ensures sent { out.new ≡ out.old ++ frames_of
            (asks (begun (task arbitrators partition epoch kind)) (arbiters_to arbitrators)) }
        ensures few { length out.new ≤ length out.old + MAX_ARBITRATORS }
    {
        let begun = Reconfig::Prepare(PreparePhase::new(Task {
            partition,
            epoch,
            kind,
            arbitrators,
        }));
        begun.ask(arbiters(arbitrators).as_slice(), out);
        begun
    }

    /// A firing: asks those again that have not answered, in at most `MAX_ARBITRATORS` messages.
    #[tactic(auto, unfolding(unit_rules::specs::Questions::reconfig_fired))]
    pub fn fire(&self, out: &mut Outbox)
        requires { length out.old + MAX_ARBITRATORS ≤ OUTBOX_LIMIT }
        ensures sent { out.new ≡ out.old ++ frames_of (reconfig_fired (reconfig_of self.now)) }
        ensures few { length out.new ≤ length out.old + MAX_ARBITRATORS }
    {
        self.ask(self.awaited().as_slice(), out);
    }
}

/// Asks a replica to take no write of an older epoch.
fn promise_of(task: Task) -> Body
    ensures { result ≡ Promise task.partition task.epoch }
{
    Body::Promise {
        partition: task.partition,
        epoch: task.epoch,
    }
}

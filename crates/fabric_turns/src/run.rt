ghost use Rattle.std.specs.Prelude.{◌≡◌, ◌<◌, ◌≤◌, ◌++◌, ◌∷◌, [], List, length, IfOk, IfSome, OnErr, OnOk, IsErrOf};
ghost use Rattle.std.specs.Prelude.{Some, None, slice_get};
ghost use Rattle.fabric_terms.specs.Ranges.{most};
ghost use Rattle.fabric_terms.specs.declared.record.Record.{Record};
ghost use Rattle.fabric_turns.specs.Runs.{AreMembers, IsKeptAt};
ghost use Rattle.fabric_turns.specs.Steps.{StepsAt, RefusedAt, JoinsAt, NotJoinsAt, left_at};
ghost use Rattle.node_core.specs.NodeEffects.{left_in};
ghost use Rattle.node_core.specs.Nodes.{FitsInput};
ghost use Rattle.turn_rules.specs.Plans.{IsPlan, Plan as PlanOf};
ghost use Rattle.turn_rules.specs.Steps.{present};

use crate::workspace::Workspace;
use fabric_terms::{Head, OutOfMemory, Why};
use keep_log::Kept;
use ring_node::Input;
use std::alloc::Global;
use std::marker::Model;
use turn_members::{ArbiterError, Deed, Member};
use turn_rules::Plan;

/// The running actors by their places, and the last reading of the clock, in ticks.
#[derive(Drop)]
pub struct Run {
    members: Vec<Member>,
    last: Option<u64>,
}

impl Model for Run {
    ghost use Rattle.fabric_turns.specs.Runs.{Run};

    ghost Value = { Run };

    ghost view = { λ r. record { members = r.members.items; last = r.last } };
}

impl Run {
    /// Nobody runs yet.
    pub fn new(alloc: Global) -> Self
        ensures { result ≡ record { members = []; last = None } }
    {
        Run {
            members: Vec::new(alloc),
            last: None,
        }
    }

    /// The last reading of the clock.
    pub fn last(&self) -> Option<u64>
        ensures { result ≡ self.now.last }
    {
        self.last
    }

    /// The reading at which actors act.
    fn present(&self) -> u64
        ensures { result ≡ present self.now.last }
    {
        self.last.unwrap_or(0)
    }

    /// This is the last reading of the clock.
    pub fn note(&mut self, reading: u64)
        ensures { self.new ≡ record { members = self.old.members; last = Some reading } }
    {
        self.last = Some(reading);
    }

    /// The step of the actor at a place in a turn.
    pub fn step(
        &mut self,
        alloc: Global,
        turn: u64,
        place: usize,
        input: &Input,
    ) -> Result<Deed, ArbiterError>
        requires place { place < length self.old.members }
        requires members { (plan : PlanOf) × AreMembers plan self.old.members }
        requires last { IfSome self.old.last (λ reading. reading ≤ most) }
        requires input { FitsInput input.now }
        ensures does { IfOk result (λ deed. (plan : PlanOf) → AreMembers plan self.old.members →
            StepsAt plan turn place input.now self.old deed self.new) }
        ensures refused { OnErr result (self.new ≡ self.old) }
        ensures full { IsErrOf result ArbiterError.TableFull → (plan : PlanOf) → AreMembers plan self.old.members →
            RefusedAt plan turn place input.now self.old }
        ensures same { length self.new.members ≡ length self.old.members }
    {
        let now = self.present();
        self.members[place].step(alloc, turn, now, input)
    }

    /// The step of the actor at a place in a turn as `step` does it, left in the workspace. It gives the head of the
    /// actor's reports.
    pub(crate) fn step_into(
        &mut self,
        turn: u64,
        place: usize,
        input: &Input,
        work: &mut Workspace,
    ) -> Result<Head, ArbiterError>
        requires place { place < length self.old.members }
        requires members { (plan : PlanOf) × AreMembers plan self.old.members }
        requires last { IfSome self.old.last (λ reading. reading ≤ most) }
        requires input { FitsInput input.now }
        ensures does { IfOk result (λ head. (plan : PlanOf) → AreMembers plan self.old.members →
            StepsAt plan turn place input.now self.old
            (record { head = head; outcome = left_in work.new.effects.value }) self.new) }
        ensures refused { OnErr result (self.new ≡ self.old) }
        ensures full { IsErrOf result ArbiterError.TableFull → (plan : PlanOf) → AreMembers plan self.old.members →
            RefusedAt plan turn place input.now self.old }
        ensures same { length self.new.members ≡ length self.old.members }
    {
        let now = self.present();
        self.members[place].step_into(work.alloc, turn, now, input, &mut work.effects)
    }

    /// Puts an actor behind those that run.
    fn add(&mut self, member: Member) -> Result<(), OutOfMemory>
        ensures { OnOk result (self.new ≡ record { members = self.old.members ++ member ∷ []; last = self.old.last }) }
    {
        self.members.push(member)?;
        Ok(())
    }

    /// Starts the actor of the plan at a place, behind those that run.
    pub fn join(
        &mut self,
        alloc: Global,
        plan: &Plan,
        kept: Kept,
        place: usize,
    ) -> Result<Deed, ArbiterError>
        requires place { place < length plan.now.actors }
        requires plan { IsPlan plan.now }
        requires last { IfSome self.old.last (λ reading. reading ≤ most) }
        requires kept { (records : List Record) × IsKeptAt plan.now place records kept }
        ensures does { IfOk result (λ deed. (records : List Record) → IsKeptAt plan.now place records kept →
            JoinsAt plan.now records place self.old deed self.new) }
        ensures full { IsErrOf result ArbiterError.TableFull → (records : List Record) →
            IsKeptAt plan.now place records kept → NotJoinsAt plan.now records place self.old }
    {
        let now = self.present();
        let actor = plan.actor_at(place);
        let (member, deed) = Member::begin(alloc, plan.config(), plan.whole(), actor, kept, now)?;
        self.add(member)?;
        Ok(deed)
    }

    /// The actor at a place.
    pub fn member_at(&self, place: usize) -> &Member
        requires { place < length self.now.members }
        ensures { slice_get self.now.members place ≡ Some result.now }
    {
        &self.members[place]
    }

    /// Why the actor at a place has left the ring, if it has.
    pub fn left_at(&self, place: usize) -> Option<Why>
        requires { place < length self.now.members }
        ensures { result ≡ left_at self.now.members place }
    {
        self.members[place].left()
    }
}

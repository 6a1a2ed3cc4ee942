// The command of the policy in a turn of a node.
ghost use Rattle.std.specs.Prelude.{◌≡◌, [], length, true};
ghost use Rattle.fabric_terms.specs.Ranges.{FitsCommand};
ghost use Rattle.fabric_turns.specs.Moves.{at_place};
ghost use Rattle.serve_turns.specs.Live.{around};
ghost use Rattle.serve_turns.specs.Moves.{Moves};
ghost use Rattle.serve_turns.specs.Policies.{Advises, MovesBySaying};
ghost use Rattle.serve_turns.specs.Steps.{CanGoOn};
ghost use Rattle.turn_rules.specs.Order.{Busy};
ghost use Rattle.turn_rules.specs.Plans.{is_node_at};

use crate::audience::Audience;
use crate::handover::Handover;
use crate::live::Live;
use crate::policy::{Advice, Policy};
use crate::service::Service;
use crate::stepping::act_told;
use door_io::Clients;
use fabric_terms::Command;
use ring_node::Input;
use turn_members::Member;
use turn_rules::StopCause;

/// What the policy says of the node; of an arbitrator it says nothing.
fn advice_for<P: Policy>(policy: &mut P, live: &Live) -> Advice
    requires { length live.now.run.members ≡ 1 }
    ensures { Advises (P.advised policy.old) result (P.advised policy.new) }
{
    let now = live.run.last().unwrap_or(0);
    match live.run.member_at(0) {
        Member::Node(core) => policy.advise(core, now),
        Member::Arbiter(_, _) => Advice::Nothing,
    }
}

/// Does what the policy has said, if it names nodes that are there.
fn do_advice<O: Handover, C: Clients, P: Policy>(
    outside: &mut O,
    audience: &mut Audience<C, P>,
    service: &Service,
    live: &mut Live,
    turn: u64,
    command: Command,
) -> Result<(), StopCause>
    requires can { CanGoOn service.now.plan live.old (O.told outside.old) }
    requires node { is_node_at service.now.plan 0 ≡ true }
    requires command { FitsCommand command }
    ensures done { MovesBySaying service.now.plan command
        (around (O.told outside.old) (C.told audience.old.clients) (P.advised audience.old.policy)) live.old
        (at_place turn 0 (Busy [] 0))
        (around (O.told outside.new) (C.told audience.new.clients) (P.advised audience.new.policy)) live.new
        (at_place turn 0 (Busy [] 0)) result }
    ensures can { CanGoOn service.now.plan live.new (O.told outside.new) }
{
    if service.names(&command) {
        act_told(outside, audience, service, live, turn, &Input::Do(command))
    } else {
        Ok(())
    }
}

/// Takes what the policy says. Says whether the process is to end.
pub(crate) fn take_advice<O: Handover, C: Clients, P: Policy>(
    outside: &mut O,
    audience: &mut Audience<C, P>,
    service: &Service,
    live: &mut Live,
    turn: u64,
) -> Result<bool, StopCause>
    requires can { CanGoOn service.now.plan live.old (O.told outside.old) }
    requires node { is_node_at service.now.plan 0 ≡ true }
    ensures done { Moves service.now.plan
        (around (O.told outside.old) (C.told audience.old.clients) (P.advised audience.old.policy)) live.old
        (at_place turn 0 (Busy [] 0))
        (around (O.told outside.new) (C.told audience.new.clients) (P.advised audience.new.policy)) live.new
        (at_place turn 0 (Busy [] 0)) result }
    ensures can { CanGoOn service.now.plan live.new (O.told outside.new) }
{
    match advice_for(&mut audience.policy, live) {
        Advice::Nothing => Ok(false),
        Advice::Gone => Ok(true),
        Advice::Say(command) => {
            do_advice(outside, audience, service, live, turn, command)?;
            Ok(false)
        }
    }
}

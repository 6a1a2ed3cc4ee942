// The end of a node's turn: it fires where a firing is due.
ghost use Rattle.std.specs.Prelude.{◌≡◌, length, map, slice_get};
ghost use Rattle.fabric_turns.specs.Moves.{at_place};
ghost use Rattle.fabric_turns.specs.Runs.{AreMembers};
ghost use Rattle.serve_rules.specs.Served.{Served as ServedProcess, fence_in, next_firing};
ghost use Rattle.serve_rules.specs.Services.{IsService};
ghost use Rattle.serve_turns.specs.Live.{around};
ghost use Rattle.serve_turns.specs.Moves.{Moves};
ghost use Rattle.serve_turns.specs.Steps.{CanGoOn};
ghost use Rattle.serve_turns.specs.Telling.{Shows};
ghost use Rattle.turn_members.specs.Members.{seen};
ghost use Rattle.turn_rules.specs.Order.{Firing, onward};
ghost use Rattle.turn_rules.specs.Plans.{Plan as PlanOf};

use crate::audience::Audience;
use crate::handover::Handover;
use crate::live::Live;
use crate::policy::Policy;
use crate::service::Service;
use crate::stepping::act_told;
use door_io::Clients;
use fire_pace::left_of;
use ring_node::Input;
use turn_members::Member;
use turn_rules::StopCause;

/// The reading from which the node holds nothing, if there is one; an arbitrator has none.
fn fence(live: &Live) -> Option<u64>
    requires { length live.now.run.members ≡ 1 }
    ensures { (plan : PlanOf) → AreMembers plan live.now.run.members →
        result ≡ fence_in plan.config (slice_get (map seen live.now.run.members) 0) }
{
    match live.run.member_at(0) {
        Member::Node(core) => core.fence(),
        Member::Arbiter(_, _) => None,
    }
}

/// The reading from which on the next firing of the node is due.
pub(crate) fn next_firing(service: &Service, live: &Live) -> u64
    requires service { IsService service.now.plan }
    requires runs { length live.now.run.members ≡ 1 }
    requires members { AreMembers service.now.plan live.now.run.members }
    ensures { (v : ServedProcess) → Shows v live.now → result ≡ next_firing service.now.plan v }
{
    let config = service.config();
    let now = live.present();
    let left = left_of(config.lease, config.answer, fence(live), now);
    live.pace.due(config.lease, left)
}

/// The node fires if a firing is due, and else its turn ends.
pub(crate) fn end_turn<O: Handover, C: Clients, P: Policy>(
    outside: &mut O,
    audience: &mut Audience<C, P>,
    service: &Service,
    live: &mut Live,
    turn: u64,
) -> Result<(), StopCause>
    requires can { CanGoOn service.now.plan live.old (O.told outside.old) }
    ensures done { Moves service.now.plan
        (around (O.told outside.old) (C.told audience.old.clients) (P.advised audience.old.policy)) live.old
        (at_place turn 0 Firing)
        (around (O.told outside.new) (C.told audience.new.clients) (P.advised audience.new.policy)) live.new
        (onward service.now.plan turn 0) result }
    ensures can { CanGoOn service.now.plan live.new (O.told outside.new) }
{
    if next_firing(service, live) <= live.present() {
        act_told(outside, audience, service, live, turn, &Input::Fire)
    } else {
        Ok(())
    }
}

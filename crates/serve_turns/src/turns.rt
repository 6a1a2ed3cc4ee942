// The turns of the actor.
ghost use Rattle.std.specs.Prelude.{◌≡◌, ◌<◌, ◌+◌, [], OnOk, false, length, slice_get, true, ℕ};
ghost use Rattle.fabric_turns.specs.Moves.{at_place};
ghost use Rattle.serve_turns.specs.Live.{around};
ghost use Rattle.serve_turns.specs.Moves.{Moves};
ghost use Rattle.serve_turns.specs.Steps.{CanGoOn};
ghost use Rattle.serve_turns.specs.Turns.{CanTurnOn, TurnsTo, changes_of};
ghost use Rattle.turn_rules.specs.Order.{Busy, Turning, arrive};
ghost use Rattle.turn_rules.specs.Plans.{Plan as PlanOf, is_node_at};

use crate::advice::take_advice;
use crate::audience::Audience;
use crate::datagrams::hear;
use crate::firing::end_turn;
use crate::handover::Handover;
use crate::lines::take_lines;
use crate::live::Live;
use crate::policy::Policy;
use crate::service::Service;
use door_io::Clients;
use edge_io::DATAGRAM_BYTES;
use fabric_turns::read_clock;
use turn_members::Member;
use turn_rules::StopCause;

/// The reconfigurations are seen that the actor has under way at this reading; an arbitrator has none.
fn see_changes(live: &mut Live, now: u64)
    requires runs { length live.old.run.members ≡ 1 }
    ensures changes { live.new.changes ≡ changes_of now live.old.changes (slice_get live.old.run.members 0) }
    ensures rest { live.new ≡ record live.old { changes = live.new.changes } }
{
    if let Member::Node(core) = live.run.member_at(0) {
        live.changes.note(core, now);
    }
}

/// The clock is read, answers whose time is over end, and the reconfigurations that are under way are seen.
fn read_turn<O: Handover, C: Clients, P: Policy>(
    outside: &mut O,
    audience: &mut Audience<C, P>,
    live: &mut Live,
) -> Result<(), StopCause>
    requires runs { length live.old.run.members ≡ 1 }
    ensures done { (plan : PlanOf) (turn : ℕ) → CanGoOn plan live.old (O.told outside.old) →
        Moves plan
        (around (O.told outside.old) (C.told audience.old.clients) (P.advised audience.old.policy)) live.old
        (at_place turn 0 Turning)
        (around (O.told outside.new) (C.told audience.new.clients) (P.advised audience.new.policy)) live.new
        (at_place turn 0 (Busy [] 0)) result }
    ensures can { (plan : PlanOf) → CanGoOn plan live.old (O.told outside.old) →
        OnOk result (CanGoOn plan live.new (O.told outside.new)) }
{
    read_clock(outside, &mut live.run)?;
    let now = live.present();
    live.sessions.pass(&mut audience.clients, now);
    see_changes(live, now);
    Ok(())
}

/// A turn of a node begins. What the parent has sent is taken in before the clock is read, so that each line of it that is
/// answered in the turn is older than the reading.
fn begin_turn<O: Handover, C: Clients, P: Policy>(
    outside: &mut O,
    audience: &mut Audience<C, P>,
    live: &mut Live,
) -> Result<(), StopCause>
    requires runs { length live.old.run.members ≡ 1 }
    ensures done { (plan : PlanOf) (turn : ℕ) → CanGoOn plan live.old (O.told outside.old) →
        Moves plan
        (around (O.told outside.old) (C.told audience.old.clients) (P.advised audience.old.policy)) live.old
        (at_place turn 0 Turning)
        (around (O.told outside.new) (C.told audience.new.clients) (P.advised audience.new.policy)) live.new
        (at_place turn 0 (Busy [] 0)) result }
    ensures can { (plan : PlanOf) → CanGoOn plan live.old (O.told outside.old) →
        OnOk result (CanGoOn plan live.new (O.told outside.new)) }
{
    outside.gather();
    read_turn(outside, audience, live)
}

/// What comes of clients and of the policy in a turn of a node. Says whether the process is to end: a client has told
/// it to end, or it has told it to leave and the policy is done with that.
fn take_orders<O: Handover, C: Clients, P: Policy>(
    outside: &mut O,
    audience: &mut Audience<C, P>,
    service: &Service,
    live: &mut Live,
    turn: u64,
) -> Result<bool, StopCause>
    requires can { CanGoOn service.now.plan live.old (O.told outside.old) }
    requires node { is_node_at service.now.plan 0 ≡ true }
    ensures done { TurnsTo service.now.plan
        (around (O.told outside.old) (C.told audience.old.clients) (P.advised audience.old.policy)) live.old
        (at_place turn 0 (Busy [] 0))
        (around (O.told outside.new) (C.told audience.new.clients) (P.advised audience.new.policy)) live.new
        (at_place turn 0 (Busy [] 0)) result }
    ensures can { CanTurnOn service.now.plan live.new (O.told outside.new) result }
{
    take_lines(outside, audience, service, live, turn)?;
    if live.ending {
        return Ok(true);
    }
    if !take_advice(outside, audience, service, live, turn)? {
        return Ok(false);
    }
    Ok(live.leaving)
}

/// A turn of a node. Says whether the process is to end.
fn node_turn<O: Handover, C: Clients, P: Policy>(
    outside: &mut O,
    audience: &mut Audience<C, P>,
    service: &Service,
    live: &mut Live,
    turn: u64,
    buffer: &mut [u8; DATAGRAM_BYTES],
) -> Result<bool, StopCause>
    requires can { CanGoOn service.now.plan live.old (O.told outside.old) }
    requires node { is_node_at service.now.plan 0 ≡ true }
    requires counted { 0 < turn }
    ensures done { TurnsTo service.now.plan
        (around (O.told outside.old) (C.told audience.old.clients) (P.advised audience.old.policy)) live.old
        (arrive service.now.plan turn 0)
        (around (O.told outside.new) (C.told audience.new.clients) (P.advised audience.new.policy)) live.new
        (arrive service.now.plan (turn + 1) 0) result }
    ensures can { CanTurnOn service.now.plan live.new (O.told outside.new) result }
{
    begin_turn(outside, audience, live)?;
    if take_orders(outside, audience, service, live, turn)? {
        return Ok(true);
    }
    hear(outside, audience, service, live, turn, buffer)?;
    end_turn(outside, audience, service, live, turn)?;
    Ok(false)
}

/// A turn of an arbitrator. Says whether the process is to end.
fn arbiter_turn<O: Handover, C: Clients, P: Policy>(
    outside: &mut O,
    audience: &mut Audience<C, P>,
    service: &Service,
    live: &mut Live,
    turn: u64,
    buffer: &mut [u8; DATAGRAM_BYTES],
) -> Result<bool, StopCause>
    requires can { CanGoOn service.now.plan live.old (O.told outside.old) }
    requires arbiter { is_node_at service.now.plan 0 ≡ false }
    requires counted { 0 < turn }
    ensures done { TurnsTo service.now.plan
        (around (O.told outside.old) (C.told audience.old.clients) (P.advised audience.old.policy)) live.old
        (arrive service.now.plan turn 0)
        (around (O.told outside.new) (C.told audience.new.clients) (P.advised audience.new.policy)) live.new
        (arrive service.now.plan (turn + 1) 0) result }
    ensures can { CanTurnOn service.now.plan live.new (O.told outside.new) result }
{
    take_lines(outside, audience, service, live, turn)?;
    if live.is_told_to_end() {
        return Ok(true);
    }
    hear(outside, audience, service, live, turn, buffer)?;
    Ok(false)
}

/// A turn of the actor. Turns count from 1. Says whether the process is to end.
pub(crate) fn take_turn<O: Handover, C: Clients, P: Policy>(
    outside: &mut O,
    audience: &mut Audience<C, P>,
    service: &Service,
    live: &mut Live,
    turn: u64,
    buffer: &mut [u8; DATAGRAM_BYTES],
) -> Result<bool, StopCause>
    requires can { CanGoOn service.now.plan live.old (O.told outside.old) }
    requires counted { 0 < turn }
    ensures done { TurnsTo service.now.plan
        (around (O.told outside.old) (C.told audience.old.clients) (P.advised audience.old.policy)) live.old
        (arrive service.now.plan turn 0)
        (around (O.told outside.new) (C.told audience.new.clients) (P.advised audience.new.policy)) live.new
        (arrive service.now.plan (turn + 1) 0) result }
    ensures can { CanTurnOn service.now.plan live.new (O.told outside.new) result }
{
    if service.is_node() {
        node_turn(outside, audience, service, live, turn, buffer)
    } else {
        arbiter_turn(outside, audience, service, live, turn, buffer)
    }
}

// A served process, from its start to its end: life after life.
ghost use Rattle.std.specs.Prelude.{◌≡◌, List, None, OnOk, nat_le};
ghost use Rattle.fabric_terms.specs.declared.record.Record.{Record};
ghost use Rattle.fabric_turns.specs.Runs.{AllListen, IsKeptAt};
ghost use Rattle.serve_lives.specs.Rows.{IsServed};
ghost use Rattle.serve_lives.specs.Steps.{GoesOnce, LivesFrom};
ghost use Rattle.serve_rules.specs.Services.{IsService};
ghost use Rattle.serve_turns.specs.Live.{around, fresh_live};
ghost use Rattle.serve_turns.specs.Lives.{CanLive};
ghost use Rattle.token_core.specs.Tokens.{last_number};

use crate::ending::{ServeEnd, end_of, follows};
use crate::pausing::pass_time;
use crate::returning::Returning;
use client_sessions::Sessions;
use door_io::Clients;
use fabric_turns::recall;
use keep_log::Kept;
use serve_turns::{Audience, Board, Handover, Live, Policy, Service, live_on};
use state_lines::ChangeTimes;
use turn_rules::StopCause;

/// Whether all numbers of instances are used up, so that the actor can begin by its last one again alone.
fn is_spent(kept: &Kept) -> bool
    ensures { result ≡ nat_le last_number kept.now.boots }
{
    kept.boots == u32::MAX
}

/// A life from these records and sessions. The sessions stand for the next one; or the process ends.
fn live_from<O: Handover, C: Clients, P: Policy, B: Board>(
    outside: &mut O,
    audience: &mut Audience<C, P>,
    service: &Service,
    board: &mut B,
    mut live: Live,
    kept: Kept,
) -> Result<Sessions, ServeEnd>
    requires can { CanLive service.now.plan live (O.told outside.old) }
    requires kept { (records : List Record) × IsKeptAt service.now.plan 0 records kept }
    ensures { (records : List Record) → IsKeptAt service.now.plan 0 records kept →
        LivesFrom service.now.plan live.sessions records
        (around (O.told outside.old) (C.told audience.old.clients) (P.advised audience.old.policy)) result
        (around (O.told outside.new) (C.told audience.new.clients) (P.advised audience.new.policy)) }
{
    let spent = is_spent(&kept);
    let end = live_on(outside, audience, service, board, &mut live, kept);
    let leaving = live.is_leaving();
    if follows(end, leaving, spent) {
        Ok(live.into_sessions())
    } else {
        Err(end_of(end, leaving))
    }
}

/// A life with these sessions, from the records that are kept of the actor.
fn live_once<O: Handover, C: Clients, P: Policy, B: Board>(
    outside: &mut O,
    audience: &mut Audience<C, P>,
    service: &Service,
    board: &mut B,
    live: Live,
) -> Result<Sessions, ServeEnd>
    requires service { IsService service.now.plan }
    requires listens { AllListen service.now.plan (O.told outside.old).opened }
    requires silent { (o : O) → (O.told o).held ≡ None }
    requires fresh { live ≡ fresh_live live.sessions }
    ensures goes { GoesOnce service.now.plan live.sessions
        (around (O.told outside.old) (C.told audience.old.clients) (P.advised audience.old.policy)) result
        (around (O.told outside.new) (C.told audience.new.clients) (P.advised audience.new.policy)) }
    ensures listens { OnOk result (AllListen service.now.plan (O.told outside.new).opened) }
{
    match recall(outside, service.alloc, service.actor()) {
        Err(cause) => Err(ServeEnd::NotBegun(cause)),
        Ok(kept) => live_from(outside, audience, service, board, live, kept),
    }
}

/// The next life, with these sessions.
fn live_next<O: Handover, C: Clients, P: Policy, B: Board>(
    outside: &mut O,
    audience: &mut Audience<C, P>,
    service: &Service,
    board: &mut B,
    sessions: Sessions,
) -> Result<Sessions, ServeEnd>
    requires service { IsService service.now.plan }
    requires listens { AllListen service.now.plan (O.told outside.old).opened }
    requires silent { (o : O) → (O.told o).held ≡ None }
    ensures goes { GoesOnce service.now.plan sessions
        (around (O.told outside.old) (C.told audience.old.clients) (P.advised audience.old.policy)) result
        (around (O.told outside.new) (C.told audience.new.clients) (P.advised audience.new.policy)) }
    ensures listens { OnOk result (AllListen service.now.plan (O.told outside.new).opened) }
{
    match ChangeTimes::new(service.alloc) {
        Err(_) => Err(ServeEnd::NotBegun(StopCause::OutOfMemory)),
        Ok(changes) => {
            let live = Live::new(service.alloc, sessions, changes);
            live_once(outside, audience, service, board, live)
        }
    }
}

/// Serves its actor, which listens, until the process ends. Where the instance of a node has left, the next one begins
/// after the pause that the policy says, with what the process keeps for its clients; it does not where the process was
/// told to leave, or all numbers of instances are used up.
pub fn serve<O: Handover, C: Clients, P: Policy + Returning, B: Board>(
    outside: &mut O,
    audience: &mut Audience<C, P>,
    service: &Service,
    board: &mut B,
    sessions: Sessions,
) -> ServeEnd
    requires service { IsService service.now.plan }
    requires listens { AllListen service.now.plan (O.told outside.old).opened }
    requires silent { (o : O) → (O.told o).held ≡ None }
    ensures { IsServed service.now.plan sessions
        (around (O.told outside.old) (C.told audience.old.clients) (P.advised audience.old.policy)) result
        (around (O.told outside.new) (C.told audience.new.clients) (P.advised audience.new.policy)) }
{
    let mut standing = sessions;
    for _life in 0..u32::MAX {
        match live_next(outside, audience, service, board, standing) {
            Err(end) => return end,
            Ok(left) => standing = left,
        }
        pass_time(outside, board, audience.policy.join_pause());
    }
    ServeEnd::Spent
}

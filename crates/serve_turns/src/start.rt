// The start of the actor.
ghost use Rattle.std.specs.Prelude.{◌≡◌, ℕ, [], List, None, OnOk, Option, length, true};
ghost use Rattle.edge_io.specs.Told.{Told};
ghost use Rattle.fabric_terms.specs.declared.record.Record.{Record};
ghost use Rattle.fabric_turns.specs.Runs.{IsKeptAt, IsReady};
ghost use Rattle.serve_rules.specs.Services.{IsService};
ghost use Rattle.serve_turns.specs.Live.{around};
ghost use Rattle.serve_turns.specs.Steps.{CanGoOn};
ghost use Rattle.serve_turns.specs.Turns.{BeginsBy, CanStart, MovesFrom};
ghost use Rattle.turn_rules.specs.Order.{arrive};
ghost use Rattle.turn_rules.specs.Plans.{is_node_at};

use crate::actor_step::join;
use crate::audience::Audience;
use crate::handover::Handover;
use crate::live::Live;
use crate::policy::Policy;
use crate::service::Service;
use crate::stepping::go_on;
use crate::telling::tell_start;
use door_io::Clients;
use fabric_turns::{Run, read_clock};
use keep_log::Kept;
use turn_members::Deed;
use turn_rules::StopCause;

/// The start of a node, carried out but for what is told of it: it reads the clock first.
fn begin_node<O: Handover>(
    outside: &mut O,
    service: &Service,
    run: &mut Run,
    kept: Kept,
) -> Result<Deed, StopCause>
    requires service { IsService service.now.plan }
    requires ready { IsReady service.now.plan run.old (O.told outside.old) }
    requires node { is_node_at service.now.plan 0 ≡ true }
    requires nobody { run.old ≡ record { members = []; last = None } }
    requires silent { (O.told outside.old).held ≡ None }
    requires kept { (records : List Record) × IsKeptAt service.now.plan 0 records kept }
    ensures done { BeginsBy service.now.plan kept (O.told outside.old) run.old (O.told outside.new) run.new result }
    ensures ready { OnOk result (IsReady service.now.plan run.new (O.told outside.new)) }
    ensures runs { OnOk result (length run.new.members ≡ 1) }
    ensures silent { (O.told outside.new).held ≡ None }
{
    match read_clock(outside, run) {
        Err(stop) => Err(stop),
        Ok(_) => join(outside, service, run, kept),
    }
}

/// The start of the actor, carried out but for what is told of it.
fn begin<O: Handover>(
    outside: &mut O,
    service: &Service,
    run: &mut Run,
    kept: Kept,
) -> Result<Deed, StopCause>
    requires service { IsService service.now.plan }
    requires ready { IsReady service.now.plan run.old (O.told outside.old) }
    requires nobody { run.old ≡ record { members = []; last = None } }
    requires silent { (O.told outside.old).held ≡ None }
    requires kept { (records : List Record) × IsKeptAt service.now.plan 0 records kept }
    ensures done { BeginsBy service.now.plan kept (O.told outside.old) run.old (O.told outside.new) run.new result }
    ensures ready { OnOk result (IsReady service.now.plan run.new (O.told outside.new)) }
    ensures runs { OnOk result (length run.new.members ≡ 1) }
    ensures silent { (O.told outside.new).held ≡ None }
{
    if service.is_node() {
        begin_node(outside, service, run, kept)
    } else {
        join(outside, service, run, kept)
    }
}

/// Starts the actor from what is kept of it, and tells its start.
pub(crate) fn start<O: Handover, C: Clients, P: Policy>(
    outside: &mut O,
    audience: &mut Audience<C, P>,
    service: &Service,
    live: &mut Live,
    kept: Kept,
) -> Result<(), StopCause>
    requires can { CanStart service.now.plan live.old (O.told outside.old) }
    requires kept { (records : List Record) × IsKeptAt service.now.plan 0 records kept }
    ensures done { MovesFrom kept service.now.plan
        (around (O.told outside.old) (C.told audience.old.clients) (P.advised audience.old.policy)) live.old
        (arrive service.now.plan 0 0)
        (around (O.told outside.new) (C.told audience.new.clients) (P.advised audience.new.policy)) live.new
        (arrive service.now.plan 1 0) result }
    ensures can { OnOk result (CanGoOn service.now.plan live.new (O.told outside.new)) }
{
    let deed = begin(outside, service, &mut live.run, kept)?;
    tell_start(audience, live, &deed);
    go_on(live)
}

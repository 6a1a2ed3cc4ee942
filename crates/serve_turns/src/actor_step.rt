// A step of the actor: its records are kept, what it gives up is handed over, then its frames are sent; what it reports
// is told after that.
ghost use Rattle.std.specs.Prelude.{◌≡◌, ◌∷◌, [], ℕ, List, None, OnOk, length};
ghost use Rattle.edge_io.specs.Arrivals.{IsListening};
ghost use Rattle.edge_io.specs.Told.{Told};
ghost use Rattle.fabric_terms.specs.declared.record.Record.{Record};
ghost use Rattle.fabric_turns.specs.Runs.{IsKeptAt, IsReady, IsStep, MeetsBy, MeetsStartBy};
ghost use Rattle.fabric_turns.specs.Steps.{work_in};
ghost use Rattle.node_core.specs.Nodes.{FitsInput};
ghost use Rattle.serve_rules.specs.Services.{IsService, life_of};
ghost use Rattle.serve_turns.specs.Steps.{CarriesAll, CarriesTo};
ghost use Rattle.turn_members.specs.Members.{IsDeedOf};
ghost use Rattle.turn_effects.specs.Carried.{SendsAll};
ghost use Rattle.turn_rules.specs.Effects.{own_sends};
ghost use Rattle.turn_rules.specs.Happenings.{Happening, History};
ghost use Rattle.turn_rules.specs.Order.{GoesServed, TurnPosition};

use crate::handover::Handover;
use crate::service::Service;
use fabric_terms::OutOfMemory;
use fabric_turns::Run;
use keep_log::Kept;
use ring_node::Input;
use turn_effects::{keep_all, send_all};
use turn_members::{ArbiterError, Deed};
use turn_rules::StopCause;

/// Hands over what a deed gives up at this reading, and then sends its frames.
fn hand_and_send<O: Handover>(
    outside: &mut O,
    service: &Service,
    deed: &Deed,
    now: u64,
) -> Result<(), StopCause>
    requires listens { IsListening deed.now.head.who.actor (O.told outside.old).opened }
    requires deed { (actor : ℕ) × IsDeedOf actor deed.now }
    ensures { SendsAll (own_sends (work_in service.now.plan.config deed.now)) (O.told outside.old)
        (O.told outside.new) result }
{
    match outside.hand_over(deed, now) {
        Err(OutOfMemory) => Err(StopCause::OutOfMemory),
        Ok(()) => {
            let frames = deed.outcome.frames.as_slice();
            send_all(outside, service.config(), deed.head.who.actor, frames)
        }
    }
}

/// Keeps the records of a deed, and then hands it over at this reading and sends its frames.
fn carry<O: Handover>(
    outside: &mut O,
    service: &Service,
    deed: &Deed,
    now: u64,
) -> Result<(), StopCause>
    requires listens { IsListening deed.now.head.who.actor (O.told outside.old).opened }
    requires deed { (actor : ℕ) × IsDeedOf actor deed.now }
    requires silent { (O.told outside.old).held ≡ None }
    ensures carries { CarriesAll (work_in service.now.plan.config deed.now) (O.told outside.old) (O.told outside.new)
        result }
    ensures silent { (O.told outside.new).held ≡ None }
{
    let records = deed.outcome.records.as_slice();
    keep_all(outside, deed.head.who.actor, records)?;
    hand_and_send(outside, service, deed, now)
}

/// The step of the actor in a turn, which the outside has seen, carried out but for what is told of it.
fn act_seen<O: Handover>(
    outside: &mut O,
    service: &Service,
    run: &mut Run,
    turn: u64,
    input: &Input,
) -> Result<Deed, StopCause>
    requires ready { IsReady service.now.plan run.old (O.told outside.old) }
    requires runs { length run.old.members ≡ 1 }
    requires silent { (O.told outside.old).held ≡ None }
    requires input { FitsInput input.now }
    ensures done { (kept : List Record) (a : Told) (h : History) (x : Happening) (p : TurnPosition) →
        MeetsBy GoesServed (life_of service.now.plan kept) a (O.told outside.old) run.old h x p →
        IsStep (life_of service.now.plan kept) h x turn 0 input.now →
        CarriesTo (life_of service.now.plan kept) a (O.told outside.new) run.new h x p result }
    ensures ready { IsReady service.now.plan run.new (O.told outside.new) }
    ensures runs { length run.new.members ≡ 1 }
    ensures last { run.new.last ≡ run.old.last }
    ensures silent { (O.told outside.new).held ≡ None }
{
    let now = run.last().unwrap_or(0);
    match run.step(service.alloc, turn, 0, input) {
        Err(ArbiterError::OutOfMemory) => Err(StopCause::OutOfMemory),
        Err(ArbiterError::TableFull) => Err(StopCause::TableFull),
        Ok(deed) => {
            carry(outside, service, &deed, now)?;
            Ok(deed)
        }
    }
}

/// The step of the actor in a turn, carried out but for what is told of it.
pub(crate) fn act<O: Handover>(
    outside: &mut O,
    service: &Service,
    run: &mut Run,
    turn: u64,
    input: &Input,
) -> Result<Deed, StopCause>
    requires ready { IsReady service.now.plan run.old (O.told outside.old) }
    requires runs { length run.old.members ≡ 1 }
    requires silent { (O.told outside.old).held ≡ None }
    requires input { FitsInput input.now }
    ensures done { (kept : List Record) (a : Told) (h : History) (x : Happening) (p : TurnPosition) →
        MeetsBy GoesServed (life_of service.now.plan kept) a (O.told outside.old) run.old h x p →
        IsStep (life_of service.now.plan kept) h x turn 0 input.now →
        CarriesTo (life_of service.now.plan kept) a (O.told outside.new) run.new h x p result }
    ensures ready { IsReady service.now.plan run.new (O.told outside.new) }
    ensures runs { length run.new.members ≡ 1 }
    ensures last { run.new.last ≡ run.old.last }
    ensures silent { (O.told outside.new).held ≡ None }
{
    outside.see(run.member_at(0));
    act_seen(outside, service, run, turn, input)
}

/// The start of the actor from what is kept of it, carried out but for what is told of it.
pub(crate) fn join<O: Handover>(
    outside: &mut O,
    service: &Service,
    run: &mut Run,
    kept: Kept,
) -> Result<Deed, StopCause>
    requires service { IsService service.now.plan }
    requires ready { IsReady service.now.plan run.old (O.told outside.old) }
    requires nobody { run.old.members ≡ [] }
    requires silent { (O.told outside.old).held ≡ None }
    requires kept { (records : List Record) × IsKeptAt service.now.plan 0 records kept }
    ensures done { (records : List Record) (a : Told) (h : History) (x : Happening) (p : TurnPosition) →
        IsKeptAt service.now.plan 0 records kept →
        MeetsStartBy GoesServed (life_of service.now.plan records) a (O.told outside.old) run.old h x p 0 →
        CarriesTo (life_of service.now.plan records) a (O.told outside.new) run.new h x p result }
    ensures ready { OnOk result (IsReady service.now.plan run.new (O.told outside.new)) }
    ensures runs { OnOk result (length run.new.members ≡ 1) }
    ensures silent { (O.told outside.new).held ≡ None }
{
    let now = run.last().unwrap_or(0);
    match run.join(service.alloc, &service.plan, kept, 0) {
        Err(ArbiterError::OutOfMemory) => Err(StopCause::OutOfMemory),
        Err(ArbiterError::TableFull) => Err(StopCause::TableFull),
        Ok(deed) => {
            carry(outside, service, &deed, now)?;
            Ok(deed)
        }
    }
}

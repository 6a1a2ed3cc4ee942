ghost use Rattle.std.specs.Prelude.{◌≡◌, ◌<◌, ℕ, List, Option, IfOk, IsErrOf, IsTrue, [], true, false};
ghost use Rattle.arbiter_tables.specs.Registers.{are_placed};
ghost use Rattle.fabric_lemmas.specs.Maps.{rises};
ghost use Rattle.fabric_terms.specs.Sound.{IsSound};
ghost use Rattle.fabric_terms.specs.declared.config.FabricConfig.{FabricConfig as Configuration};
ghost use Rattle.fabric_terms.specs.declared.record.Record.{Record};
ghost use Rattle.keep_log.specs.Amounts.{Holds};
ghost use Rattle.keep_log.specs.Places.{is_once};
ghost use Rattle.ring_points.specs.Whos.{arbiter_actor};
ghost use Rattle.ring_points.specs.declared.who.Who.{Who as Whole};
ghost use Rattle.ring_rules.specs.Arbiters.{no_table};
ghost use Rattle.turn_members.specs.Members.{Does, GoesOn, IsDeedOf, IsKept, IsOf, seen};
ghost use Rattle.turn_rules.specs.Plans.{IsConfigured};
ghost use Rattle.turn_rules.specs.Recalled.{AreOf};
ghost use Rattle.turn_rules.specs.Steps.{begun, begun_as, exceeds, present};
ghost use Rattle.unit_replica.specs.Starts.{states_of};
ghost use Rattle.world_rules.specs.Schedules.{is_configured_node};

use crate::arbiter_steps::{arbiter_head, nothing};
use crate::deed::Deed;
use crate::member::{Member, node_head};
use arbiter_core::{Arbiter, ArbiterError};
use fabric_terms::{FabricConfig, OutOfMemory};
use keep_log::Kept;
use node_core::NodeCore;
use ring_points::{ARBITRATORS, Who};
use std::alloc::Global;

/// Starts a node.
#[tactic(auto, unfolding(turn_rules::specs::Steps::exceeds))]
fn begin_node(
    alloc: Global,
    config: &FabricConfig,
    whole: Who,
    actor: u16,
    kept: Kept,
    now: u64,
) -> Result<(Member, Deed), OutOfMemory>
    requires sound { IsSound config.now }
    requires node { is_configured_node config.now actor ≡ true }
    requires replicas { IsTrue (rises (states_of kept.replicas)) }
    ensures does { IfOk result (λ r. (records : List Record) (last : Option ℕ) → Holds records kept →
        present last ≡ now → Does (begun_as config.now whole 0 last actor records false) (seen r.0) r.1) }
    ensures goes_on { IfOk result (λ r. GoesOn config.now r.0) }
{
    let (core, outcome) = NodeCore::start_in(alloc, config, whole, actor, kept)?;
    let head = node_head(0, core.me(), now);
    let core = Box::new(alloc, core)?;
    Ok((Member::Node(core), Deed { head, outcome }))
}

/// Starts an arbitrator.
fn begin_arbiter(alloc: Global, actor: u16, kept: Kept) -> Result<(Member, Deed), ArbiterError>
    requires arbiter { arbiter_actor 0 < actor }
    requires once { is_once no_table kept.arbiter ≡ true }
    requires placed { are_placed [] kept.arbiter ≡ true }
    ensures does { IfOk result (λ r. (c : Configuration) (whole : Whole) (records : List Record) (last : Option ℕ) →
        AreOf true records → Holds records kept → Does (begun_as c whole 0 last actor records true) (seen r.0) r.1) }
    ensures goes_on { IfOk result (λ r. (c : Configuration) → GoesOn c r.0) }
    ensures full { IsErrOf result ArbiterError.TableFull →
        (c : Configuration) (whole : Whole) (records : List Record) (last : Option ℕ) → AreOf true records →
        Holds records kept → exceeds (begun_as c whole 0 last actor records true).member ≡ true }
{
    let arbiter = Arbiter::restore(alloc, actor - ARBITRATORS, kept.arbiter.as_slice())?;
    let deed = Deed {
        head: arbiter_head(0, actor),
        outcome: nothing(alloc),
    };
    Ok((Member::Arbiter(actor, arbiter), deed))
}

/// Starts an actor, whatever kind it is of.
fn begin_any(
    alloc: Global,
    config: &FabricConfig,
    whole: Who,
    actor: u16,
    kept: Kept,
    now: u64,
) -> Result<(Member, Deed), ArbiterError>
    requires sound { IsSound config.now }
    requires configured { IsConfigured config.now actor }
    requires once { is_once no_table kept.arbiter ≡ true }
    requires placed { are_placed [] kept.arbiter ≡ true }
    requires replicas { IsTrue (rises (states_of kept.replicas)) }
    ensures does { IfOk result (λ r. (records : List Record) (last : Option ℕ) → IsKept actor records kept →
        present last ≡ now → Does (begun config.now whole 0 last actor records) (seen r.0) r.1) }
    ensures goes_on { IfOk result (λ r. GoesOn config.now r.0) }
    ensures full { IsErrOf result ArbiterError.TableFull → (records : List Record) (last : Option ℕ) →
        IsKept actor records kept → exceeds (begun config.now whole 0 last actor records).member ≡ true }
{
    if actor > ARBITRATORS {
        begin_arbiter(alloc, actor, kept)
    } else {
        match begin_node(alloc, config, whole, actor, kept, now) {
            Ok(begun) => Ok(begun),
            Err(_) => Err(ArbiterError::OutOfMemory),
        }
    }
}

impl Member {
    /// Starts an actor from what is kept of it, at this reading of the clock, in ticks; for an arbitrator the reading
    /// does not matter. A node begins with the whole ring if its instance is `whole`, and else with nothing. `TableFull` comes exactly where an arbitrator's records make more than 1,000,000 entries.
    pub fn begin(
        alloc: Global,
        config: &FabricConfig,
        whole: Who,
        actor: u16,
        kept: Kept,
        now: u64,
    ) -> Result<(Member, Deed), ArbiterError>
        requires sound { IsSound config.now }
        requires configured { IsConfigured config.now actor }
        requires kept { (records : List Record) × IsKept actor records kept }
        ensures does { IfOk result (λ r. (records : List Record) (last : Option ℕ) → IsKept actor records kept →
            present last ≡ now → Does (begun config.now whole 0 last actor records) (seen r.0) r.1) }
        ensures deed { IfOk result (λ r. IsDeedOf actor r.1) }
        ensures runs { IfOk result (λ r. IsOf config.now actor r.0) }
        ensures full { IsErrOf result ArbiterError.TableFull → (records : List Record) (last : Option ℕ) →
            IsKept actor records kept → exceeds (begun config.now whole 0 last actor records).member ≡ true }
    {
        begin_any(alloc, config, whole, actor, kept, now)
    }
}

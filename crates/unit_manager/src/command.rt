ghost use Rattle.std.specs.Prelude.{◌≡◌, ◌≤◌, ◌<◌, ◌+◌, ◌∷◌, [], None, Ok, length, vec_len, vec_capacity, IfOk, OnErr};
ghost use Rattle.std.specs.Prelude.{OnOk, true};
ghost use Rattle.fabric_lemmas.specs.Maps.{at};
ghost use Rattle.failover_units.specs.Units.{Answers, unit_of};
ghost use Rattle.fabric_terms.specs.declared.report.Report.TheVariants.{Refused};
ghost use Rattle.reconfig_phases.specs.Tasks.{replicas_of};
ghost use Rattle.unit_desk.specs.UnitEffects.{Does, HasRoom, HasRoomFor, Left};
ghost use Rattle.unit_rules.specs.Deeds.{Tell};
ghost use Rattle.unit_rules.specs.Manager.{begins_in, entered, reconfig_commanded, task_commanded, verb_of};
ghost use Rattle.unit_manager.specs.Managers.{Begins, Few, IsManaged, begins_one, managed, no_place};
ghost use Rattle.unit_manager.specs.Managers.{reason_at_end, reconfigs_of, refusal_in};

use crate::answer::verb_of;
use crate::entries::{enter, find};
use crate::epoch::epoch_after;
use crate::manager::Manager;
use fabric_terms::{OutOfMemory, Outbox, Reason, Report};
use failover_units::{UnitRefusal, Units};
use reconfig_phases::Reconfig;
use ring_points::{Epoch, MAX_ARBITRATORS, MAX_MEMBERS, MAX_PARTITIONS, OUTBOX_LIMIT, Who};
use unit_desk::UnitEffects;
use unit_rules::Kind;

/// The epoch that every partition starts from.
const FIRST_EPOCH: Epoch = Epoch {
    data_loss: 0,
    configuration: 0,
};

/// Why the units have no place for a partition, if they have none.
fn no_place(units: &Units, partition: u16) -> Option<Reason>
    ensures { result ≡ no_place partition units.now }
{
    if units.is_full_for(partition) {
        Some(Reason::Full)
    } else {
        None
    }
}

/// Why a partition cannot enter the units, if it cannot: a create finds a known configuration, or there is no place.
fn refusal_in(units: &Units, partition: u16, kind: Kind) -> Option<Reason>
    ensures { result ≡ refusal_in (entered kind partition units.now) }
{
    match kind {
        Kind::Create(_) => match units.get(partition) {
            Ok(_) => Some(Reason::Exists),
            Err(_) => no_place(units, partition),
        },
        Kind::Swap(_) | Kind::Heal(_) | Kind::Lose(_) => no_place(units, partition),
    }
}

/// Enters the partition in the units. A create must find no known configuration there.
fn enter_units(units: &mut Units, partition: u16, kind: Kind) -> Result<(), UnitRefusal>
    ensures { Answers (entered kind partition units.old) units.old units.new result }
{
    match kind {
        Kind::Create(_) => units.create(partition),
        Kind::Swap(_) | Kind::Heal(_) | Kind::Lose(_) => units.seen(partition, FIRST_EPOCH),
    }
}

/// Enters a partition that nothing refuses in the units, and makes room for its reconfiguration. It is an error if
/// memory is short, and then the units stay.
fn take_place(
    units: &mut Units,
    reconfigs: &mut Vec<(u16, Reconfig)>,
    partition: u16,
    kind: Kind,
) -> Result<(), OutOfMemory>
    requires free { refusal_in (entered kind partition units.old) ≡ None }
    ensures entered { OnOk result (entered kind partition units.old ≡ Ok units.new) }
    ensures room { OnOk result (vec_len reconfigs.new < vec_capacity reconfigs.new) }
    ensures few { OnOk result (length reconfigs.old.items < MAX_PARTITIONS) }
    ensures same { reconfigs.new.items ≡ reconfigs.old.items }
    ensures refused { OnErr result (units.new ≡ units.old) }
{
    // This never happens: with all partitions under way, this one is too.
    if reconfigs.len() >= MAX_PARTITIONS {
        return Err(OutOfMemory);
    }
    reconfigs.reserve(1)?;
    match enter_units(units, partition, kind) {
        Ok(()) => Ok(()),
        Err(_) => Err(OutOfMemory),
    }
}

/// Why a command is refused that would need an epoch past the last one.
fn reason_at_end(units: &Units, partition: u16, kind: Kind) -> Reason
    ensures { result ≡ reason_at_end kind (unit_of partition units.now).config }
{
    match kind {
        Kind::Create(_) => match units.get(partition) {
            Ok(_) => Reason::Exists,
            Err(_) => Reason::Counters,
        },
        Kind::Swap(_) | Kind::Heal(_) | Kind::Lose(_) => Reason::Counters,
    }
}

/// A reconfiguration that is commanded.
#[derive(Clone, Copy)]
pub struct Wanted {
    pub partition: u16,
    pub kind: Kind,
    /// How many arbitrators there are.
    pub arbitrators: u8,
    /// In whose name they are asked.
    pub me: Who,
}

/// Begins the wanted reconfiguration of a partition that has none under way, or gives the reason why it is refused. A
/// refusal changes nothing. It is an error if memory is short for what begins, and then nothing changes either.
#[tactic(auto, using(crate::proofs::Beginning::refused_at_end, crate::proofs::Beginning::refused_in))]
fn begin(
    units: &mut Units,
    reconfigs: &mut Vec<(u16, Reconfig)>,
    wanted: Wanted,
    out: &mut Outbox,
) -> Result<Option<Reason>, OutOfMemory>
    requires arbitrators { wanted.arbitrators ≤ MAX_ARBITRATORS }
    requires replicas { replicas_of wanted.kind ≤ MAX_MEMBERS }
    requires room { length out.old + MAX_ARBITRATORS ≤ OUTBOX_LIMIT }
    requires none { at wanted.partition (reconfigs_of reconfigs.old.items) ≡ None }
    requires whole { IsManaged (managed units.old reconfigs.old.items) }
    ensures begins { IfOk result (λ reason. Begins wanted.kind
        (begins_in (task_commanded wanted.arbitrators wanted.partition wanted.kind units.old)
        (managed units.old reconfigs.old.items) (entered wanted.kind wanted.partition units.old))
        (managed units.old reconfigs.old.items) (managed units.new reconfigs.new.items) out.old out.new reason) }
    ensures whole { IsManaged (managed units.new reconfigs.new.items) }
    ensures refused { OnErr result ((units.new ≡ units.old) × (reconfigs.new.items ≡ reconfigs.old.items) ×
        (out.new ≡ out.old)) }
    ensures memory { OnErr result (begins_one (managed units.old reconfigs.old.items)
        (begins_in (task_commanded wanted.arbitrators wanted.partition wanted.kind units.old)
        (managed units.old reconfigs.old.items) (entered wanted.kind wanted.partition units.old)) ≡ true) }
    ensures few { length out.new ≤ length out.old + MAX_ARBITRATORS }
{
    let Some(epoch) = epoch_after(wanted.kind, units.highest(wanted.partition)) else {
        return Ok(Some(reason_at_end(units, wanted.partition, wanted.kind)));
    };
    if let Some(reason) = refusal_in(units, wanted.partition, wanted.kind) {
        return Ok(Some(reason));
    }
    take_place(units, reconfigs, wanted.partition, wanted.kind)?;
    let begun = Reconfig::begin(
        wanted.partition,
        epoch,
        wanted.kind,
        wanted.me,
        wanted.arbitrators,
        out,
    );
    enter(reconfigs, wanted.partition, begun);
    Ok(None)
}

/// Refuses a command for this reason.
fn refuse(kind: Kind, reason: Reason, effects: &mut UnitEffects)
    requires { HasRoomFor 0 0 1 effects.old }
    ensures { Left (Tell (Refused (verb_of kind) reason) ∷ []) effects.old effects.new }
{
    effects.told.push(Report::Refused(verb_of(kind), reason));
}

impl Manager {
    /// A command to the manager: begins the wanted reconfiguration of a partition, and asks all arbitrators to prepare
    /// its epoch. The command is refused if the node is not the manager; if a reconfiguration of the partition is under
    /// way; if a create finds a known configuration; if a new partition finds no place; or if the epoch would be past
    /// the last one. The first of these that holds is reported, and nothing else changes. At most `MAX_ARBITRATORS`
    /// messages are sent, and one report is made. It is an error if memory is short for the new reconfiguration, and
    /// then nothing changes. No refusal needs memory.
    #[tactic(auto, unfolding(unit_rules::specs::Manager::reconfig_commanded))]
    pub fn commanded(
        &mut self,
        is_manager: bool,
        wanted: Wanted,
        effects: &mut UnitEffects,
    ) -> Result<(), OutOfMemory>
        requires arbitrators { wanted.arbitrators ≤ MAX_ARBITRATORS }
        requires replicas { replicas_of wanted.kind ≤ MAX_MEMBERS }
        requires room { HasRoom effects.old }
        ensures does { IfOk result (λ _. Does
            (reconfig_commanded is_manager wanted.arbitrators wanted.partition wanted.kind self.old)
            self.new effects.old effects.new) }
        ensures refused { OnErr result ((self.new ≡ self.old) × (effects.new ≡ effects.old)) }
        ensures memory { OnErr result (begins_one self.old
            (reconfig_commanded is_manager wanted.arbitrators wanted.partition wanted.kind self.old) ≡ true) }
        ensures few { Few effects.old effects.new }
    {
        if !is_manager {
            refuse(wanted.kind, Reason::NotManager, effects);
            return Ok(());
        }
        if find(&self.reconfigs, wanted.partition).is_some() {
            refuse(wanted.kind, Reason::Busy, effects);
            return Ok(());
        }
        let begun = begin(
            &mut self.units,
            &mut self.reconfigs,
            wanted,
            &mut effects.out,
        )?;
        if let Some(reason) = begun {
            refuse(wanted.kind, reason, effects);
        }
        Ok(())
    }
}

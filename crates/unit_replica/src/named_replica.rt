ghost use Rattle.std.specs.Prelude.{◌≡◌, ◌≤◌, ◌⊎◌, ◌+◌, ◌==◌, ◌∷◌, ◌++◌, [], List, IfOk, if◌then◌else◌, length, take};
ghost use Rattle.std.specs.FinMap.{get};
ghost use Rattle.name_rules.specs.Names.{name_list, names_of};
ghost use Rattle.replica_core.specs.Calls.{Answers, activate_call, adopt_call, adopt_own_call, append_call, idle_call};
ghost use Rattle.replica_core.specs.Calls.{promise_call};
ghost use Rattle.replica_core.specs.declared.entry.Entry.{Entry as LogEntry};
ghost use Rattle.replica_core.specs.Memory.{StoresIfShort};
ghost use Rattle.replica_core.specs.Replicas.{IsSound, begun_again, first_replica, uncollected};
ghost use Rattle.unit_replica.specs.Names.{AreOf};

use crate::log_names::LogNames;
use fabric_terms::{NameTexts, NameValue, OutOfMemory};
use replica_core::{Done, Entry, Replica, ReplicaRefusal, Role};
use ring_points::{Config, Epoch, Interval, MAX_LOG_ENTRIES, MAX_WRITE};
use std::alloc::Global;
use std::marker::Model;
use std::mem;

/// A replica, and the names that its log defines. They are kept along as entries are taken, so no answer walks the log.
/// Those of entries that are collected stand ready for when these become the log. Contracts see the replica alone.
///
/// Names that are kept along want no memory of the step: where it is short they stay behind, and a later step or a
/// question goes on.
#[derive(Drop)]
pub(crate) struct NamedReplica {
    replica: Replica,
    /// The names of first entries of the log.
    names: LogNames,
    /// The names of first entries that are collected.
    coming: LogNames,
}

impl Model for NamedReplica {
    ghost use Rattle.replica_core.specs.Replicas.{Replica};
    ghost use Rattle.unit_replica.specs.Names.{AreOf};

    ghost Value = { Replica };

    ghost view = { λ r. r.replica };

    ghost invariant = { λ r. (AreOf r.replica.log r.names.count r.names.names)
        × (AreOf r.replica.collected r.coming.count r.coming.names) };
}

/// Applies an entry that was collected to the names of these. With the last entry they are the names of the log.
fn take_in(names: &mut LogNames, coming: &mut LogNames, lsn: u32, bytes: &[u8], last: u32)
    ensures { (log old : List LogEntry) (entry : LogEntry) → entry.bytes ≡ bytes.now → lsn ≡ length old + 1
        → AreOf log names.old.count names.old.names → (lsn ≡ 1) ⊎ AreOf old coming.old.count coming.old.names
        → AreOf (if lsn == last then old ++ entry ∷ [] else log) names.new.count names.new.names
        × AreOf (if lsn == last then [] else old ++ entry ∷ []) coming.new.count coming.new.names }
{
    coming.take_in(lsn, bytes);
    if lsn == last {
        mem::swap(names, coming);
        coming.forget();
    }
}

impl NamedReplica {
    /// A new replica. Its log grows by this allocator.
    pub(crate) fn new(alloc: Global, partition: u16) -> Self
        ensures { result ≡ first_replica partition }
    {
        NamedReplica::of(alloc, Replica::new(alloc, partition))
    }

    /// This replica. The names of its log are applied at once, as far as memory reaches.
    #[tactic(auto, using(crate::proofs::Naming::none_named))]
    pub(crate) fn of(alloc: Global, replica: Replica) -> Self
        ensures { result ≡ replica }
    {
        let mut names = LogNames::new(alloc);
        names.go_through(replica.log());
        NamedReplica {
            replica,
            names,
            coming: LogNames::new(alloc),
        }
    }

    /// The replica alone.
    pub(crate) fn into_replica(self) -> Replica
        ensures { result ≡ self }
    {
        self.replica
    }

    pub(crate) fn replica(&self) -> &Replica
        ensures { result.now ≡ self.now }
    {
        &self.replica
    }

    pub(crate) fn partition(&self) -> u16
        ensures { result ≡ self.now.partition }
    {
        self.replica.partition()
    }

    pub(crate) fn promised(&self) -> Epoch
        ensures { result ≡ self.now.promised }
    {
        self.replica.promised()
    }

    pub(crate) fn at(&self) -> Epoch
        ensures { result ≡ self.now.at }
    {
        self.replica.at()
    }

    pub(crate) fn log(&self) -> &[Entry]
        ensures log { result.now ≡ self.now.log }
        ensures sound { IsSound self.now }
    {
        self.replica.log()
    }

    pub(crate) fn role(&self) -> Role
        ensures { result ≡ self.now.role }
    {
        self.replica.role()
    }

    pub(crate) fn collected(&self) -> u32
        ensures count { result ≡ length self.now.collected }
        ensures sound { IsSound self.now }
    {
        self.replica.collected()
    }

    pub(crate) fn promise(&mut self, e: Epoch) -> Result<Done, ReplicaRefusal>
        ensures { (result, self.new) ≡ promise_call e self.old }
    {
        let done = self.replica.promise(e);
        self.coming.follow(self.replica.collected() as usize);
        done
    }

    pub(crate) fn idle(&mut self, e: Epoch) -> Result<Done, ReplicaRefusal>
        ensures { (result, self.new) ≡ idle_call e self.old }
    {
        let done = self.replica.idle(e);
        self.coming.follow(self.replica.collected() as usize);
        done
    }

    pub(crate) fn activate(&mut self, me: u16, config: &Config) -> Result<Role, ReplicaRefusal>
        ensures { (result, self.new) ≡ activate_call me config.now self.old }
    {
        let done = self.replica.activate(me, config);
        self.coming.follow(self.replica.collected() as usize);
        done
    }

    pub(crate) fn adopt_own(&mut self, e: Epoch, last: u32) -> Result<Done, ReplicaRefusal>
        ensures { (result, self.new) ≡ adopt_own_call e last self.old }
    {
        let done = self.replica.adopt_own(e, last);
        self.names.follow(self.replica.log().len());
        self.coming.follow(self.replica.collected() as usize);
        done
    }

    pub(crate) fn adopt_bytes(
        &mut self,
        e: Epoch,
        epoch: Epoch,
        lsn: u32,
        bytes: &[u8],
        last: u32,
    ) -> Result<Done, ReplicaRefusal>
        requires room { lsn ≤ MAX_LOG_ENTRIES }
        requires short { length bytes.now ≤ MAX_WRITE }
        ensures answers { Answers (adopt_call e (record { epoch = epoch; lsn = lsn; bytes = bytes.now }) last self.old)
            self.old self.new result }
        ensures memory { StoresIfShort (adopt_call e (record { epoch = epoch; lsn = lsn; bytes = bytes.now })
            last self.old) result }
    {
        match self.replica.adopt_bytes(e, epoch, lsn, bytes, last) {
            Ok(Done::New) => {
                take_in(&mut self.names, &mut self.coming, lsn, bytes, last);
                Ok(Done::New)
            }
            Ok(Done::Held) => Ok(Done::Held),
            Err(refusal) => Err(refusal),
        }
    }

    /// Appends an entry. Its names are applied by `go_along`, once no question leaves it out.
    pub(crate) fn append(
        &mut self,
        e: Epoch,
        lsn: u32,
        bytes: &[u8],
    ) -> Result<Done, ReplicaRefusal>
        requires { length bytes.now ≤ MAX_WRITE }
        ensures answers { Answers (append_call e lsn bytes.now self.old) self.old self.new result }
        ensures memory { StoresIfShort (append_call e lsn bytes.now self.old) result }
    {
        self.replica.append(e, lsn, bytes)
    }

    pub(crate) fn drop_collected(&mut self)
        ensures { self.new ≡ uncollected self.old }
    {
        self.replica.drop_collected();
        self.coming.forget();
    }

    pub(crate) fn begin_again(&mut self)
        ensures { self.new ≡ begun_again self.old }
    {
        self.replica.begin_again();
        self.coming.forget();
    }

    /// Whether entries or names that were let go are not freed yet.
    pub(crate) fn has_released(&self) -> bool {
        self.replica.has_released() || self.names.has_released() || self.coming.has_released()
    }

    /// Frees some of the entries and of the names that were let go.
    pub(crate) fn free_released(&mut self)
        ensures { self.new ≡ self.old }
    {
        self.replica.free_released();
        self.names.free_released();
        self.coming.free_released();
    }

    /// Applies entries up to number `count` to the kept names, if any are missing. A question that asks after fewer
    /// entries begins anew, so none should come.
    pub(crate) fn go_along(&mut self, count: usize)
        ensures { self.new ≡ self.old }
    {
        self.names.go_along(self.replica.log(), count);
    }

    /// The value of a name after the first `count` entries of the log. It is an error if memory is short.
    pub(crate) fn resolve(
        &mut self,
        alloc: Global,
        count: usize,
        name: &[u8],
    ) -> Result<Option<NameValue>, OutOfMemory>
        ensures same { self.new ≡ self.old }
        ensures found { IfOk result (λ value. value ≡ get (names_of (take count self.old.log)) name.now) }
    {
        self.names.resolve(alloc, self.replica.log(), count, name)
    }

    /// The first names with a point in the range, after the first `count` entries of the log. It is an error if memory
    /// is short.
    pub(crate) fn list(
        &mut self,
        alloc: Global,
        count: usize,
        range: &Interval,
    ) -> Result<NameTexts, OutOfMemory>
        ensures same { self.new ≡ self.old }
        ensures listed { IfOk result (λ names. names ≡ name_list (names_of (take count self.old.log)) range.now) }
    {
        self.names.list(alloc, self.replica.log(), count, range)
    }
}

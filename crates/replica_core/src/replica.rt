ghost use Rattle.std.specs.Prelude.{◌≡◌, ◌≤◌, false, length};
ghost use Rattle.ring_points.specs.Epochs.{is_older};
ghost use Rattle.replica_core.specs.Replicas.{first_replica, raised, begun_again, IsSound};
ghost use Rattle.replica_core.specs.Calls.{Answers, admission, promise_call, append_call, adopt_own_call, idle_call};
ghost use Rattle.replica_core.specs.Calls.{activate_call};
ghost use Rattle.replica_core.specs.Memory.{StoresIfShort};

mod collecting;

use crate::entry::{Entry, EntryBytes};
use crate::epoch::first_epoch;
use crate::refusal::{Done, ReplicaRefusal};
use crate::released::Released;
use crate::role::Role;
use ring_points::{Config, Epoch, MAX_LOG_ENTRIES, MAX_WRITE};
use std::alloc::Global;
use std::marker::Model;
use std::mem;

/// A partition's replica at a node. Contracts see the promised epoch, the log and the epoch of which it is, the role,
/// and the entries that are collected for the promised epoch.
#[derive(Drop)]
pub struct Replica {
    alloc: Global,
    partition: u16,
    /// No call of an epoch below this one is taken. It only rises.
    promised: Epoch,
    /// The epoch in which a log was last adopted: never above the promised one.
    at: Epoch,
    /// Entry number n is the n-th.
    log: Vec<Entry>,
    role: Role,
    /// The first entries of a log that is to be adopted for the promised epoch.
    collected: Vec<Entry>,
    /// What was let go and is not freed yet. Contracts do not see it.
    released: Released,
}

impl Model for Replica {
    ghost use Rattle.replica_core.specs.Replicas.{Replica, IsSound};

    ghost Value = { Replica };

    ghost use Rattle.replica_core.specs.Views.{seen};

    ghost view = { seen };

    ghost invariant = { λ a. IsSound (seen a) };
}

impl Replica {
    /// A replica that has promised the first epoch, 0.0, has its log of it, the empty one, and has no role. Its log
    /// grows by this allocator.
    pub fn new(alloc: Global, partition: u16) -> Self
        ensures { result ≡ first_replica partition }
    {
        Replica {
            alloc,
            partition,
            promised: first_epoch(),
            at: first_epoch(),
            log: Vec::new(alloc),
            role: Role::None,
            collected: Vec::new(alloc),
            released: Released::new(alloc),
        }
    }

    pub fn partition(&self) -> u16
        ensures { result ≡ self.now.partition }
    {
        self.partition
    }

    /// The greatest epoch of all calls that were taken.
    pub fn promised(&self) -> Epoch
        ensures { result ≡ self.now.promised }
    {
        self.promised
    }

    /// The epoch in which a log was last adopted.
    pub fn at(&self) -> Epoch
        ensures { result ≡ self.now.at }
    {
        self.at
    }

    /// The entries, by number from 1 without gaps.
    pub fn log(&self) -> &[Entry]
        ensures log { result.now ≡ self.now.log }
        ensures sound { IsSound self.now }
    {
        self.log.as_slice()
    }

    pub fn role(&self) -> Role
        ensures { result ≡ self.now.role }
    {
        self.role
    }

    /// A call of an epoch below the promised one is refused.
    fn admit(&self, e: Epoch) -> Result<(), ReplicaRefusal>
        ensures { result ≡ admission e self.now }
    {
        if e < self.promised {
            return Err(ReplicaRefusal::Older(self.promised));
        }
        Ok(())
    }

    /// Promises an epoch that is not below the promised one.
    fn raise(&mut self, e: Epoch)
        requires { is_older e self.old.promised ≡ false }
        ensures { self.new ≡ raised e self.old }
    {
        if self.promised < e {
            self.role = self.role.demoted();
            self.let_go_collected();
        }
        self.promised = e;
    }

    /// Promises an epoch: entries that are collected for a lower one are forgotten, and a primary of a lower one is an
    /// active secondary. It is `Held` where the epoch is promised already, and `Older` exactly where a greater one is.
    pub fn promise(&mut self, e: Epoch) -> Result<Done, ReplicaRefusal>
        ensures { (result, self.new) ≡ promise_call e self.old }
    {
        self.admit(e)?;
        if self.promised == e {
            return Ok(Done::Held);
        }
        self.raise(e);
        Ok(Done::New)
    }

    /// Promises an epoch, and is an idle secondary from then on. The answers are those of `promise`, but `Held` where
    /// the role is that already too.
    pub fn idle(&mut self, e: Epoch) -> Result<Done, ReplicaRefusal>
        ensures { (result, self.new) ≡ idle_call e self.old }
    {
        self.admit(e)?;
        if self.promised == e && self.role == Role::IdleSecondary {
            return Ok(Done::Held);
        }
        self.raise(e);
        self.role = Role::IdleSecondary;
        Ok(Done::New)
    }

    /// Takes its role of a configuration, the epoch of which has to be that of the log. It is `Older` where a greater
    /// epoch is promised; else `NotMember` where the node is no member; else `Gap` with the last number of the log
    /// where the log is of another epoch.
    pub fn activate(&mut self, me: u16, config: &Config) -> Result<Role, ReplicaRefusal>
        ensures { (result, self.new) ≡ activate_call me config.now self.old }
    {
        self.admit(config.epoch)?;
        if !config.members.as_slice().contains(&me) {
            return Err(ReplicaRefusal::NotMember);
        }
        if self.at != config.epoch {
            return Err(ReplicaRefusal::Gap(self.log.len() as u32));
        }
        let role = Role::of_member(me, config);
        self.raise(config.epoch);
        self.role = role;
        Ok(role)
    }

    /// Adds an entry of the epoch of the log. It is `Older` where a greater epoch is promised; else `Gap` with the last
    /// number of the log where the log is of another epoch or entries before this one are missing; `Held` where the
    /// number is in the log; else `LogFull` where it would be 100,001.
    pub fn append(&mut self, e: Epoch, lsn: u32, bytes: &[u8]) -> Result<Done, ReplicaRefusal>
        requires { length bytes.now ≤ MAX_WRITE }
        ensures answers { Answers (append_call e lsn bytes.now self.old) self.old self.new result }
        ensures memory { StoresIfShort (append_call e lsn bytes.now self.old) result }
    {
        self.admit(e)?;
        let next = self.log.len() as u32 + 1;
        if self.at != e || next < lsn {
            return Err(ReplicaRefusal::Gap(next - 1));
        }
        if lsn < next {
            return Ok(Done::Held);
        }
        if self.log.len() == MAX_LOG_ENTRIES as usize {
            return Err(ReplicaRefusal::LogFull);
        }
        let bytes = EntryBytes::from_slice(self.alloc, bytes)?;
        self.log.push(Entry {
            epoch: e,
            lsn,
            bytes,
        })?;
        Ok(Done::New)
    }

    /// Makes the own log up to `last` that of the epoch: all of it, or nothing where `last` is 0. It is `Older` where a
    /// greater epoch is promised; `Held` where the log is of the epoch already; else `Gap` with the last number of the
    /// log where `last` is neither that nor 0.
    pub fn adopt_own(&mut self, e: Epoch, last: u32) -> Result<Done, ReplicaRefusal>
        ensures { (result, self.new) ≡ adopt_own_call e last self.old }
    {
        self.admit(e)?;
        if self.at == e {
            return Ok(Done::Held);
        }
        if last == 0 {
            self.raise(e);
            let nothing = Vec::new(self.alloc);
            let former = mem::replace(&mut self.log, nothing);
            self.released.take_in(former);
            self.at = e;
            return Ok(Done::New);
        }
        if last as usize != self.log.len() {
            return Err(ReplicaRefusal::Gap(self.log.len() as u32));
        }
        self.raise(e);
        self.at = e;
        Ok(Done::New)
    }

    /// Begins again with the next instance of its node: the role is lost, and what was collected. The promise and the
    /// log, which are recorded, stay.
    pub fn begin_again(&mut self)
        ensures { self.new ≡ begun_again self.old }
    {
        self.role = Role::None;
        self.drop_collected();
    }

    /// Whether entries that were let go are not freed yet.
    pub fn has_released(&self) -> bool {
        !self.released.is_empty()
    }

    /// Frees some of the entries that were let go: at most `MAX_FREED_ENTRIES`. A step that touches the replica calls
    /// it, so that no step frees a long log at once.
    pub fn free_released(&mut self)
        ensures { self.new ≡ self.old }
    {
        self.released.free_some();
    }
}

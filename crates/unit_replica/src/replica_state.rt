ghost use Rattle.std.specs.Prelude.{◌≡◌, ◌≤◌};
ghost use Rattle.replica_core.specs.Replicas.{IsSound};
ghost use Rattle.unit_rules.specs.ReplicaStates.{first_state, last_of};
ghost use Rattle.unit_replica.specs.Starts.{state_again, state_uncollected};

use crate::named_replica::NamedReplica;
use crate::progress::ReplicationProgress;
use replica_core::Role;
use ring_points::MAX_LOG_ENTRIES;
use std::alloc::Global;
use std::marker::Model;
use unit_rules::CatchUp;

/// A replica at its node, with what the node knows for it. Contracts see the record that the rules call `ReplicaState`.
#[derive(Drop)]
pub(crate) struct ReplicaState {
    pub(crate) replica: NamedReplica,
    /// The Sync that the replica took last.
    pub(crate) catch_up: Option<CatchUp>,
    /// What the replica knows as a primary.
    pub(crate) progress: Option<ReplicationProgress>,
}

impl Model for ReplicaState {
    ghost use Rattle.std.specs.Prelude.{◌≤◌, IfSome};
    ghost use Rattle.unit_rules.specs.ReplicaStates.{ReplicaState};
    ghost use Rattle.ring_points.specs.Limits.{most_log_entries};

    ghost Value = { ReplicaState };

    ghost view = { λ s. record { replica = s.replica; catch_up = s.catch_up; progress = s.progress } };

    ghost invariant = { λ s. IfSome s.catch_up (λ t. t.last ≤ most_log_entries) };
}

impl ReplicaState {
    /// The state of a new replica. Its log grows by this allocator.
    pub(crate) fn new(alloc: Global, partition: u16) -> Self
        ensures { result ≡ first_state partition }
    {
        ReplicaState {
            replica: NamedReplica::new(alloc, partition),
            catch_up: None,
            progress: None,
        }
    }

    /// Applies taken entries to the kept names: at a primary those that are committed, since it answers by these, and
    /// elsewhere all. A new primary answers only once it has committed more than it begins with.
    pub(crate) fn name_entries(&mut self)
        ensures { self.new ≡ self.old }
    {
        let count = match &self.progress {
            Some(progress) if self.replica.role() == Role::Primary => progress.committed() as usize,
            _ => self.replica.log().len(),
        };
        self.replica.go_along(count);
    }

    /// Whether something that the replica let go is not freed yet.
    pub(crate) fn has_released(&self) -> bool {
        self.replica.has_released()
    }

    /// Frees some of what the replica let go.
    pub(crate) fn free_released(&mut self)
        ensures { self.new ≡ self.old }
    {
        self.replica.free_released();
    }

    /// Forgets the collected entries.
    pub(crate) fn drop_collected(&mut self)
        ensures { self.new ≡ state_uncollected self.old }
    {
        self.replica.drop_collected();
    }

    /// Begins again with the next instance of the node: the role, the collected entries, the Sync and the progress are
    /// lost.
    pub(crate) fn begin_again(&mut self)
        ensures { self.new ≡ state_again self.old }
    {
        self.replica.begin_again();
        self.catch_up = None;
        self.progress = None;
    }
}

/// The number of a replica's last entry, or 0 if the log is empty.
pub(crate) fn last_of(replica: &NamedReplica) -> u32
    ensures last { result ≡ last_of replica.now }
    ensures few { result ≤ MAX_LOG_ENTRIES }
    ensures sound { IsSound replica.now }
{
    replica.log().len() as u32
}

ghost use Rattle.std.specs.Prelude.{◌≡◌};
ghost use Rattle.unit_replica.specs.Starts.{is_recorded, states_again};

use crate::named_replica::NamedReplica;
use crate::replica_states::ReplicaStates;
use ring_points::Epoch;

/// Whether the records of a node mention this replica: it has promised an epoch, or has an entry.
fn is_recorded(replica: &NamedReplica) -> bool
    ensures { result ≡ is_recorded replica.now }
{
    let first = Epoch {
        data_loss: 0,
        configuration: 0,
    };
    replica.promised() != first || !replica.log().is_empty()
}

impl ReplicaStates {
    /// Makes these the replicas with which the next instance of the node begins. Roles, collected entries and the
    /// progress of primaries are lost, and so is a replica that no record mentions. It takes no memory.
    pub fn begin_again(&mut self)
        ensures { self.new ≡ states_again self.old }
    {
        self.map.retain(|_, state| {
            state.begin_again();
            true
        });
        self.map.retain(|_, state| is_recorded(&state.replica));
    }
}

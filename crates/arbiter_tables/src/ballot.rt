ghost use Rattle.std.specs.Prelude.{◌≡◌};
ghost use Rattle.arbiter_tables.specs.Ballots.{ballot_of};

use ring_points::Epoch;

/// An epoch of a partition, as the key of its vote.
#[derive(Clone, Copy, PartialEq, Eq, Hash)]
pub struct Ballot {
    partition: u16,
    data_loss: u32,
    configuration: u32,
}

impl Ballot {
    pub fn new(partition: u16, epoch: Epoch) -> Self
        ensures { result ≡ ballot_of partition epoch }
    {
        Ballot {
            partition,
            data_loss: epoch.data_loss,
            configuration: epoch.configuration,
        }
    }
}

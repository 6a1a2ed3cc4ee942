ghost use Rattle.std.specs.Prelude.{◌≡◌};
ghost use Rattle.replica_core.specs.Replicas.{first_epoch};

use ring_points::Epoch;

/// The epoch before all others.
pub fn first_epoch() -> Epoch
    ensures { result ≡ first_epoch }
{
    Epoch {
        data_loss: 0,
        configuration: 0,
    }
}

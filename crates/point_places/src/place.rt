ghost use Rattle.std.specs.Prelude.{◌≡◌};
ghost use Rattle.point_places.specs.Order.{seen, is_before, is_same};

use ring_points::Who;
use std::cmp::Ordering;

/// Where a point is. An instance's places come first, by node and instance; then the flights, by giver, number
/// and receiver.
#[derive(Clone, Copy, Debug, PartialEq, Eq, PartialOrd, Ord)]
pub enum Place {
    /// With an instance.
    With(Who),
    /// On the way. The number is the giver's.
    Flying {
        giver: Who,
        number: u32,
        receiver: Who,
    },
}

impl Place {
    /// Whether this place comes first.
    pub fn is_before(self, other: Place) -> bool
        ensures { result ≡ is_before (seen self) (seen other) }
    {
        self.cmp(&other) == Ordering::Less
    }

    /// Whether it is the same place.
    pub fn is(self, other: Place) -> bool
        ensures { result ≡ is_same (seen self) (seen other) }
    {
        self.cmp(&other) == Ordering::Equal
    }
}

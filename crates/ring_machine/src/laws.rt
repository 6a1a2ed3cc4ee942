ghost use Rattle.ring_machine.specs.Laws.{Exclusion, Uniqueness, RingSafe, TakenAfterLeave, OwnsItsPlaces};
ghost use Rattle.ring_machine.specs.Laws.{EachMovesFromItsPlace, NumberedOnce, InvariantHolds};

/// After every valid history the invariant holds; all other laws follow from it.
pub fn invariant_holds()
    ensures { InvariantHolds }
{}

/// Exclusion: never has a majority of arbitrators answered x about y, and a majority y about x, where an
/// answer is Granted or Taken.
pub fn arbitrators_exclude()
    ensures { Exclusion }
{}

/// Uniqueness: never does a majority of arbitrators keep one instance, and a majority another, about one
/// instance, each in some round, whatever the rounds. Of the first round they keep whom they granted.
pub fn one_heir_at_most()
    ensures { Uniqueness }
{}

/// No two instances that run below their fences own one point.
pub fn ring_is_safe()
    ensures { RingSafe }
{}

/// From the moment an heir takes over from an instance, that instance holds nothing.
pub fn taken_after_leave()
    ensures { TakenAfterLeave }
{}

/// An instance that runs below its fence owns exactly the points that are at it.
pub fn owns_its_places()
    ensures { OwnsItsPlaces }
{}

/// A part that is given leaves its giver; a flight that is taken or returned is that flight, whole; and
/// what is taken over leaves the accused instance or the heir's flight to it. Nothing else moves a point.
pub fn each_moves_from_its_place()
    ensures { EachMovesFromItsPlace }
{}

/// No instance gives two flights of one number.
pub fn flights_are_numbered_once()
    ensures { NumberedOnce }
{}

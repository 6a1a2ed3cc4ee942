ghost use Rattle.epoch_machine.specs.Laws.{OnePrimary, NoOlder, WritesKept, CommittedStands, AnswersCovered};
ghost use Rattle.epoch_machine.specs.Laws.{InvariantHolds};

/// After every valid history the invariant holds; all other laws follow from it.
pub fn invariant_holds()
    ensures { InvariantHolds }
{}

/// Any two reports IsPrimary of one epoch come from one node.
pub fn one_primary()
    ensures { OnePrimary }
{}

/// No node accepts a write of an epoch below one that it promised or accepted in before, whatever restarts.
pub fn no_older()
    ensures { NoOlder }
{}

/// What was reported committed stands in the log of each primary of a later epoch of the same data loss
/// number, whichever report is the earlier one.
pub fn writes_kept()
    ensures { WritesKept }
{}

/// The same of any two places of a history, with the logs as they stand there: whichever comes first, the
/// log of a primary as it becomes one begins with what was committed in a lower epoch.
pub fn committed_stands()
    ensures { CommittedStands }
{}

/// What a primary has reported committed since its activation begins with all that was reported committed in
/// lower epochs of the same data loss number, and in its own by earlier instances too.
pub fn answers_covered()
    ensures { AnswersCovered }
{}

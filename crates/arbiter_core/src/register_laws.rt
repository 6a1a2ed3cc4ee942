ghost use Rattle.arbiter_core.specs.RegisterLaws.{IsItsRecords, OneDecision, OneVote};

/// An arbitrator is at every moment what its records amount to, so it answers by them, before and after a restart.
pub fn an_arbitrator_is_its_records()
    ensures { IsItsRecords }
{}

/// The first vote of an epoch of a partition never changes: whoever asks is told the same configuration.
pub fn one_vote_of_an_epoch()
    ensures { OneVote }
{}

/// Two tallies of what the same arbitrators answered about an epoch of a partition never decide two configurations.
pub fn one_decision_of_an_epoch()
    ensures { OneDecision }
{}

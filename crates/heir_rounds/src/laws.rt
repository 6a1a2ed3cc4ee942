ghost use Rattle.heir_rounds.specs.Laws.{OneHeir, OneWinner, WinnerIsHeir};

/// No two instances are heirs of one victim, whatever the rounds, where each arbitrator keeps one claimer of a round
/// for good, and a claim of a later round is made only by an instance whose own tally came to that round.
pub fn one_heir_at_most()
    ensures { OneHeir }
{}

/// Whoever's tally answers `Won` is kept by a majority of arbitrators, and no two tallies about one victim do so, where
/// they are told only what arbitrators keep.
pub fn one_tally_is_won_at_most()
    ensures heir { WinnerIsHeir }
    ensures one { OneWinner }
{}

ghost use Rattle.failover_units.specs.Laws.{NotingKeepsTheNewest, SeeingKeepsTheHighest, CreatingTellsNothing};

/// What is known of a partition only rises, whatever is noted or seen: a law of the definitions.
pub fn what_is_known_only_rises()
    ensures noting { NotingKeepsTheNewest }
    ensures seeing { SeeingKeepsTheHighest }
    ensures creating { CreatingTellsNothing }
{}

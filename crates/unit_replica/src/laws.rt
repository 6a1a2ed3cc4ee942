ghost use Rattle.unit_replica.specs.Laws.{StartsAreOfRecords, StopsAreTaken};

/// A node that starts with the replicas to which its records amount has the replica states of the rules.
pub fn starts_are_of_records()
    ensures { StartsAreOfRecords }
{}

/// So has a node that starts with the replicas that a stop gave, if the stop kept only what records say.
pub fn stops_are_taken()
    ensures { StopsAreTaken }
{}

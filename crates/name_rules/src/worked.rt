ghost use Rattle.name_rules.specs.Worked.{PointOfA, PointOfNothing, FiveChanges, NoChanges, ADeletedName};
ghost use Rattle.name_rules.specs.Worked.{ListedInTheirOrder};

/// Points, changes and lists that are computed.
pub fn worked_names()
    ensures point { PointOfA }
    ensures nothing { PointOfNothing }
    ensures changes { FiveChanges }
    ensures none { NoChanges }
    ensures deleted { ADeletedName }
    ensures listed { ListedInTheirOrder }
{}

ghost use Rattle.rule_examples.specs.Joins.{Joins, TakesOnce};
ghost use Rattle.rule_examples.specs.Lengths.{AgreesLength, CutsLength, TakesOverSooner};
ghost use Rattle.rule_examples.specs.Rounds.{SettlesSplit, StaysSplit};
ghost use Rattle.rule_examples.specs.Searches.{FindsItself, FindsPeer, JoinsThrough};
ghost use Rattle.rule_examples.specs.TakeOvers.{BothLeave, LeavesBefore, RestartsEmpty, TakesNothing, TakesOver};

/// A node joins a ring of one, and gets the half that is nearer to it.
pub fn joins()
    ensures { Joins }
{}

/// A flight that comes again is not taken again, and not past the fence.
pub fn takes_once()
    ensures { TakesOnce }
{}

/// A node falls silent; its peer accuses it, becomes its heir, waits, and takes over.
pub fn takes_over()
    ensures { TakesOver }
{}

/// A late acknowledgement prolongs a lease from the Renew's stamp only: the node leaves before its heir is ripe.
pub fn leaves_before()
    ensures { LeavesBefore }
{}

/// Who holds no record of a silent node is discharged, and takes over nothing.
pub fn takes_nothing()
    ensures { TakesNothing }
{}

/// Where each accuses the other, nobody takes over.
pub fn both_leave()
    ensures { BothLeave }
{}

/// A restarted first node begins with nothing.
pub fn restarts_empty()
    ensures { RestartsEmpty }
{}

/// A point that a peer holds is found through it.
pub fn finds_peer()
    ensures { FindsPeer }
{}

/// A point of the node's own is found at once.
pub fn finds_itself()
    ensures { FindsItself }
{}

/// A node joins through a member that does not hold its point.
pub fn joins_through()
    ensures { JoinsThrough }
{}

/// A link has the length that both sides agree.
pub fn agrees_length()
    ensures { AgreesLength }
{}

/// No link is longer than a node's longest.
pub fn cuts_length()
    ensures { CutsLength }
{}

/// The heir of a shorter link waits a shorter time.
pub fn takes_over_sooner()
    ensures { TakesOverSooner }
{}

/// Where arbitrators split their grants, the second round has one heir.
pub fn settles_split()
    ensures { SettlesSplit }
{}

/// With one round, split grants stay split.
pub fn stays_split()
    ensures { StaysSplit }
{}

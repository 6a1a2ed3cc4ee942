ghost use Rattle.run_facts.specs.RingStaysApart.{StartsStayApart, StepsStayApart};

/// No step of the ring sends a frame of a partition, or tells of a promise, an entry or a primary.
pub fn steps_stay_apart()
    ensures { StepsStayApart }
{}

/// Nor does its start.
pub fn starts_stay_apart()
    ensures { StartsStayApart }
{}

ghost use Rattle.trace_audit.specs.SafeRuns.{RunsAreSafe};

/// Every valid run of a sound configuration is safe: no two instances hold one point, who is told to be taken over
/// holds nothing from then on, a partition has at most one primary in an epoch, and no node accepts a write of an older
/// epoch than one that it promised or accepted before.
pub fn runs_are_safe()
    ensures { RunsAreSafe }
{}

ghost use Rattle.lane_scan.specs.Nearest.{FindsTheNearest};

/// No point of a list is nearer to the key than the one at the place that is found, and each before it
/// is further away.
pub fn no_other_is_nearer()
    ensures { FindsTheNearest }
{}

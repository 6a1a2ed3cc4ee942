ghost use Rattle.drift_clock.specs.Laws.{KeepsTheNewest, NamesTheBroken, TestsDecide, WaitCovers};

/// While one clock within the bound advances by the wait for `x` ticks, every other clock within the
/// bound advances by at least `x`.
pub fn wait_covers()
    ensures { WaitCovers }
{}

/// The tests that other definitions compute with say the same as the facts.
pub fn tests_decide()
    ensures { TestsDecide }
{}

/// A new pair is refused exactly where it breaks a rule with an earlier pair, and the pair that the
/// refusal names is one of those.
pub fn refusals_name_a_broken_pair()
    ensures { NamesTheBroken }
{}

/// What a drift keeps as the latest is the newest of the pairs that it stands for.
pub fn the_latest_is_the_newest()
    ensures { KeepsTheNewest }
{}

// The clocks of a moment.
ghost use Rattle.std.specs.Prelude.{◌≡◌};
ghost use Rattle.std.specs.Bool.{OnTrue};
ghost use Rattle.fabric_terms.specs.Runs.{reading_of};
ghost use Rattle.run_audit.specs.Clocks.{comes_after, EachIsFirst};

use ring_points::Who;

/// The reading of an instance: that of its first clock.
pub fn reading_of(who: Who, clocks: &[(Who, u64)]) -> Option<u64>
    ensures { result ≡ reading_of who clocks.now }
{
    clocks
        .iter()
        .find(|clock| clock.0 == who)
        .map(|clock| clock.1)
}

/// Whether an instance comes after the last, if there is one.
pub fn comes_after(last: Option<Who>, who: Who) -> bool
    ensures { result ≡ comes_after last who }
{
    match last {
        Some(last) => last < who,
        None => true,
    }
}

/// True only where each clock is the first of its instance, so that no reading need be searched for. It looks whether
/// they rise.
pub fn rise(clocks: &[(Who, u64)]) -> bool
    ensures { OnTrue result (EachIsFirst clocks.now) }
{
    let mut last = None;
    for clock in clocks {
        if !comes_after(last, clock.0) {
            return false;
        }
        last = Some(clock.0);
    }
    true
}

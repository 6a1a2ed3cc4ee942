ghost use Rattle.std.specs.Prelude.{◌≡◌, fold};
ghost use Rattle.status_page.specs.Shares.{share_of, share_with};

use ring_points::Interval;

/// How many points a millionth of the ring has, rounded down.
const MILLIONTH: u64 = 18_446_744_073_709;

/// The share with an interval more, and at most the whole ring.
fn share_with(share: u64, i: &Interval) -> u64
    ensures { result ≡ share_with share i.now }
{
    share
        .saturating_add(i.hi.saturating_sub(i.lo) / MILLIONTH)
        .min(1_000_000)
}

/// The share of the ring that these intervals are, in millionths, each rounded down.
pub fn share_of(ranges: &[Interval]) -> u64
    ensures { result ≡ share_of ranges.now }
{
    ranges.iter().fold(0, |share, i| share_with(share, i))
}

ghost use Rattle.std.specs.Prelude.{◌≡◌};

use ring_points::RangeSet;
use std::marker::Model;

/// What a node says of itself in a Renew: the version of its announced ranges, the ranges, and whether it wants some.
#[derive(Drop)]
pub struct Announce {
    pub version: u32,
    pub ranges: RangeSet,
    pub want: bool,
}

/// The same with the ranges where they lie, so that they are copied where a Renew says them and nowhere else. Contracts
/// see it as an `Announce`.
#[derive(Drop)]
pub struct Announced<'a> {
    pub(crate) version: u32,
    pub(crate) ranges: &'a RangeSet,
    pub(crate) want: bool,
}

impl<'a> Model for Announced<'a> {
    ghost use Rattle.link_core.specs.declared.announce.Announce.{Announce};

    ghost Value = { Announce };

    ghost view = { λ a. record { version = a.version; ranges = a.ranges.now; want = a.want } };
}

impl<'a> Announced<'a> {
    pub fn new(version: u32, ranges: &'a RangeSet, want: bool) -> Announced<'a>
        ensures { result ≡ record { version = version; ranges = ranges.now; want = want } }
    {
        Announced {
            version,
            ranges,
            want,
        }
    }

    /// What is announced there.
    pub fn of(announce: &'a Announce) -> Announced<'a>
        ensures { result ≡ announce.now }
    {
        Announced::new(announce.version, &announce.ranges, announce.want)
    }
}

ghost use Rattle.std.specs.Prelude.{◌≡◌};
ghost use Rattle.ring_points.specs.Distances.{distance_of, is_nearer};

/// Half of the ring, in points.
pub const HALF_RING: u64 = 1 << 63;

/// A point of the ring.
#[derive(Clone, Copy, Debug, PartialEq, Eq, PartialOrd, Ord, Default)]
pub struct Point(pub u64);

/// How far two points are from each other, in points: the shorter way round the ring.
pub fn distance(a: Point, b: Point) -> u64
    ensures { result ≡ distance_of a.0 b.0 }
{
    a.0.wrapping_sub(b.0).min(b.0.wrapping_sub(a.0))
}

/// Whether the point `p` is nearer to `a` than to `b`. Of two that are equally far the lower one is nearer.
pub fn nearer(p: Point, a: Point, b: Point) -> bool
    ensures { result ≡ is_nearer p.0 a.0 b.0 }
{
    (distance(p, a), a) < (distance(p, b), b)
}

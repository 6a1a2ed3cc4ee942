ghost use Rattle.std.specs.Prelude.{◌≤◌};
ghost use Rattle.edge_io.specs.Edge.{HasRisen};

/// One more. Counts end at the greatest number of 64 bits.
pub fn risen(count: u64) -> u64
    ensures later { count ≤ result }
    ensures risen { HasRisen count result }
{
    count.saturating_add(1)
}

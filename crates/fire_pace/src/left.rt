ghost use Rattle.std.specs.Prelude.{◌≡◌, ◌≤◌};
ghost use Rattle.fire_pace.specs.Pace;

/// How many ticks are left of the lease: all of it without a fence, and else those until the node must have been
/// answered, and no more than the lease.
pub fn left_of(lease: u64, answer: u64, fence: Option<u64>, now: u64) -> u64
    ensures left { result ≡ Pace.left_of lease answer fence now }
    ensures within { result ≤ lease }
{
    match fence {
        None => lease,
        Some(fence) => lease.min(fence.saturating_sub(answer).saturating_sub(now)),
    }
}

ghost use Rattle.std.specs.Prelude.{◌≡◌};
ghost use Rattle.arbiter_quorum.specs.Tallies.{is_majority};

/// Whether this many are more than half of `arbitrators`.
pub fn is_majority(arbitrators: u8, count: usize) -> bool
    ensures { result ≡ is_majority arbitrators count }
{
    count > usize::from(arbitrators / 2)
}

ghost use Rattle.world_rules.specs.Uppers.{Upper};
ghost use Rattle.world_rules.specs.Above.{StaysAbove};
ghost use Rattle.world_rules.specs.Nothing.{nothing_stays, nothing};

/// What runs above the ring at a node and beside the accusations at an arbitrator, and that it does nothing of the
/// ring.
pub trait Above {
    ghost upper: { Upper };

    ghost stays: { StaysAbove upper };
}

/// Nothing runs above.
pub struct Nothing;

impl Above for Nothing {
    ghost upper = { nothing };

    ghost stays = { nothing_stays };
}

ghost use Rattle.frames_fit.specs.Above.{SendsInFormat};
ghost use Rattle.frames_fit.specs.Nothing.{nothing_sends};
ghost use Rattle.world_rules.specs.Nothing.{nothing};
ghost use Rattle.world_rules.specs.Uppers.{Upper};

use world_rules::Nothing;

/// What runs above the ring at a node and beside the accusations at an arbitrator, and that it keeps to the ranges of
/// frames.
pub trait InFormat {
    ghost upper: { Upper };

    ghost sends: { SendsInFormat upper };
}

impl InFormat for Nothing {
    ghost upper = { nothing };

    ghost sends = { nothing_sends };
}

use fabric_status::Refusal;
use fabric_terms::OutOfMemory;

/// Why there is no plan.
#[derive(Clone, Copy, Debug, PartialEq, Eq)]
pub enum PlanError {
    /// A line is refused: the first that is.
    Refused(Refusal),
    /// The source failed, and no line before was refused.
    SourceFailed,
    /// There was not enough memory. It may come in place of any other answer.
    OutOfMemory,
}

impl From<OutOfMemory> for PlanError {
    ghost use Rattle.std.specs.Prelude.{◌≡◌};
    ghost use Rattle.turn_plans.specs.declared.error.PlanError.TheVariants.{OutOfMemory as NoMemory};

    ghost from_gives = { λ _ error. error ≡ NoMemory };

    fn from(_refused: OutOfMemory) -> PlanError {
        PlanError::OutOfMemory
    }
}

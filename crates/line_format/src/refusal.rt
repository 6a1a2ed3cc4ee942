ghost use Rattle.std.specs.Prelude.{◌≡◌};
ghost use Rattle.line_format.specs.declared.refusal.LineRefusal.{LineRefusal};

use crate::bad_line::BadLine;
use std::alloc::{AllocError, AllocFailed};
use text_fields::BadField;

/// Why no report was read of a line.
#[derive(Clone, Copy, Debug, PartialEq, Eq)]
pub enum LineRefusal {
    /// The bytes are no line of a report.
    BadLine,
    /// No memory was left for what the line tells.
    OutOfMemory,
}

impl From<BadLine> for LineRefusal {
    ghost from_gives = { λ _ refusal. refusal ≡ LineRefusal.BadLine };

    fn from(_line: BadLine) -> Self {
        LineRefusal::BadLine
    }
}

impl From<BadField> for LineRefusal {
    ghost from_gives = { λ _ refusal. refusal ≡ LineRefusal.BadLine };

    fn from(_field: BadField) -> Self {
        LineRefusal::BadLine
    }
}

impl From<AllocError> for LineRefusal {
    ghost from_gives = { λ _ refusal. refusal ≡ LineRefusal.OutOfMemory };

    fn from(_refused: AllocError) -> Self {
        LineRefusal::OutOfMemory
    }
}

impl<T: Drop> From<AllocFailed<T>> for LineRefusal {
    ghost from_gives = { λ _ refusal. refusal ≡ LineRefusal.OutOfMemory };

    fn from(_refused: AllocFailed<T>) -> Self {
        LineRefusal::OutOfMemory
    }
}

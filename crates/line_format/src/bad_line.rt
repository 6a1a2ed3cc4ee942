use text_fields::BadField;

/// The bytes are no line of the kind that was to be read: of a schedule, a report, a command alone, or a line of a
/// plan.
#[derive(Clone, Copy, Debug, PartialEq, Eq)]
pub struct BadLine;

impl From<BadField> for BadLine {
    fn from(_field: BadField) -> Self {
        BadLine
    }
}

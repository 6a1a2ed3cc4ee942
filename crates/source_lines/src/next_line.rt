/// What a reader of lines answers.
#[derive(Clone, Copy, Debug, PartialEq, Eq)]
pub enum NextLine {
    /// A line was taken.
    Line,
    /// The next line is longer than was allowed. Nothing was taken.
    TooLong,
    /// No line is left.
    End,
}

/// What the next of a stream's lines is.
#[derive(Clone, Copy, Debug, PartialEq, Eq)]
pub enum Cut {
    /// A line was cut.
    Line,
    /// A line is longer than is allowed. The rest of it is skipped.
    TooLong,
    /// No whole line is inside: more bytes must come first.
    More,
}

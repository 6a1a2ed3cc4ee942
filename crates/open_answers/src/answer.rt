/// What becomes of an answer in the step of its own command.
#[derive(Clone, Copy, Debug, PartialEq, Eq)]
pub enum Answer {
    /// It ends with the reports of this step.
    Done,
    /// It ends, and nothing is said of what becomes of the command.
    Unknown,
    /// It stays open.
    Open,
}

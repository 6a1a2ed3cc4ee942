use fabric_status::Refusal;

/// Why a run over the lines of a source halts before the source ends.
#[derive(Clone, Copy)]
pub enum Halt {
    /// A line is refused.
    Refused(Refusal),
    /// The source failed.
    SourceFailed,
    /// There was not enough memory.
    OutOfMemory,
    /// The sink failed.
    SinkFailed,
}

use fabric_terms::Why;

/// Why a run ends before its last turn. Each is the status with which the program ends, unless its last line cannot be
/// written.
#[derive(Clone, Copy, Debug, PartialEq, Eq)]
pub enum StopCause {
    /// There was not enough memory.
    OutOfMemory,
    /// The sink failed.
    WriteFault,
    /// The keeper failed.
    KeepFault,
    /// The links failed as an endpoint was opened.
    LinkFault,
    /// The clock fell, from the first reading to the second.
    ClockBack(u64, u64),
    /// A node left the ring.
    Left(Why),
    /// This kept record, counted from 1, is bad.
    BadKeep(usize),
    /// An arbitrator can keep no more.
    TableFull,
}

ghost use Rattle.std.specs.Prelude.{◌≡◌};
ghost use Rattle.fabric_status.specs.Codes.{code_of, status_of};

use fabric_config::ConfigError;
use fabric_terms::Why;

/// Why a schedule is refused, and at which line. The remedy is always to mend that line.
#[derive(Clone, Copy, Debug, PartialEq, Eq)]
pub enum Refusal {
    /// Line 1 is no configuration.
    BadConfig(ConfigError),
    /// The line is none of a schedule.
    BadLine(u64),
    /// At this line a clock left its bound.
    DriftBroken(u64),
    /// What the line names is not there.
    NoSuch(u64),
    /// The line passes a limit.
    TooLarge(u64),
}

impl Refusal {
    /// The status with which the program ends.
    pub fn status(self) -> Status
        ensures { result ≡ status_of self }
    {
        match self {
            Refusal::BadConfig(error) => Status::BadConfig(error),
            Refusal::BadLine(line) => Status::BadLine(line),
            Refusal::DriftBroken(line) => Status::DriftBroken(line),
            Refusal::NoSuch(line) => Status::NoSuch(line),
            Refusal::TooLarge(line) => Status::TooLarge(line),
        }
    }
}

/// How the program ends. Each status but Ok, OutOfMemory, WriteFault and Left writes a last line that
/// names it.
#[derive(Clone, Copy, Debug, PartialEq, Eq)]
pub enum Status {
    /// All was done.
    Ok,
    /// There was not enough memory.
    OutOfMemory,
    /// The words are none of the program's forms.
    Usage,
    /// The source failed.
    ReadFault,
    /// The sink failed.
    WriteFault,
    /// Line 1 is no configuration.
    BadConfig(ConfigError),
    /// This line is none of a schedule.
    BadLine(u64),
    /// At this line a clock left its bound.
    DriftBroken(u64),
    /// What this line names is not there.
    NoSuch(u64),
    /// This line passes a limit.
    TooLarge(u64),
    /// The keeper failed.
    KeepFault,
    /// The links failed.
    LinkFault,
    /// The clock fell, from the first reading to the second.
    ClockBack(u64, u64),
    /// The node left the ring.
    Left(Why),
    /// This kept record is bad.
    BadKeep(usize),
    /// An arbitrator's table is full.
    TableFull,
}

impl Status {
    /// The exit status of the program: the place in the list, from 0.
    pub fn code(&self) -> u8
        ensures { result ≡ code_of self.now }
    {
        match self {
            Status::Ok => 0,
            Status::OutOfMemory => 1,
            Status::Usage => 2,
            Status::ReadFault => 3,
            Status::WriteFault => 4,
            Status::BadConfig(_) => 5,
            Status::BadLine(_) => 6,
            Status::DriftBroken(_) => 7,
            Status::NoSuch(_) => 8,
            Status::TooLarge(_) => 9,
            Status::KeepFault => 10,
            Status::LinkFault => 11,
            Status::ClockBack(_, _) => 12,
            Status::Left(_) => 13,
            Status::BadKeep(_) => 14,
            Status::TableFull => 15,
        }
    }
}

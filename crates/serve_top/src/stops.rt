ghost use Rattle.std.specs.Prelude.{◌≡◌};
ghost use Rattle.serve_top.specs.Stops.{status_by, status_of};

use fabric_status::Status;
use serve_lives::ServeEnd;
use turn_rules::StopCause;

/// The status of a process that stopped so.
pub fn status_of(cause: StopCause) -> Status
    ensures { result ≡ status_of cause }
{
    match cause {
        StopCause::OutOfMemory => Status::OutOfMemory,
        StopCause::WriteFault => Status::WriteFault,
        StopCause::KeepFault => Status::KeepFault,
        StopCause::LinkFault => Status::LinkFault,
        StopCause::ClockBack(former, latter) => Status::ClockBack(former, latter),
        StopCause::Left(why) => Status::Left(why),
        StopCause::BadKeep(index) => Status::BadKeep(index),
        StopCause::TableFull => Status::TableFull,
    }
}

/// The status of a process that was served to this end.
pub fn status_by(end: ServeEnd) -> Status
    ensures { result ≡ status_by end }
{
    match end {
        ServeEnd::Told | ServeEnd::Spent => Status::Ok,
        ServeEnd::Stopped(cause) | ServeEnd::NotBegun(cause) => status_of(cause),
    }
}

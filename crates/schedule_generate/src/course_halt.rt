ghost use Rattle.std.specs.Prelude.{◌≡◌};
ghost use Rattle.schedule_generate.specs.Goes.{IsLimit, halt_at};

use fabric_terms::OutOfMemory;
use ring_world::EventRefusal;

/// Why a course ends before its last round.
#[derive(Clone, Copy)]
pub enum CourseHalt {
    /// The event at this line passes a limit.
    TooLarge(u64),
    /// There was not enough memory.
    OutOfMemory,
    /// The sink failed.
    SinkFailed,
}

impl From<OutOfMemory> for CourseHalt {
    ghost use Rattle.std.specs.Prelude.{◌≡◌};
    ghost use Rattle.schedule_generate.specs.declared.course_halt.CourseHalt.TheVariants.{OutOfMemory as NoMemory};

    ghost from_gives = { λ _ halt. halt ≡ NoMemory };

    fn from(_refused: OutOfMemory) -> CourseHalt {
        CourseHalt::OutOfMemory
    }
}

/// Why a course halts where an event is refused at this line. An event is made of what is there, and every clock shows
/// the true time, so that it is refused for a limit or for want of memory alone.
pub fn halt_of(refusal: EventRefusal, line: u64) -> CourseHalt
    requires { IsLimit refusal }
    ensures { result ≡ halt_at refusal line }
{
    match refusal {
        EventRefusal::NoSuch => unreachable!(),
        EventRefusal::DriftBroken(_) => unreachable!(),
        EventRefusal::TooLarge => CourseHalt::TooLarge(line),
        EventRefusal::OutOfMemory => CourseHalt::OutOfMemory,
    }
}

ghost use Rattle.std.specs.Prelude.{◌≡◌, Some, IfOk, OnErr};
ghost use Rattle.schedule_replay.specs.Refusals.{refusal_at};

use fabric_status::Refusal;
use fabric_terms::OutOfMemory;
use ring_world::EventRefusal;

/// How an event at this line is refused, or that memory was short.
pub fn refusal_of(refusal: EventRefusal, number: u64) -> Result<Refusal, OutOfMemory>
    ensures ok { IfOk result (λ r. refusal_at refusal number ≡ Some r) }
    ensures err { OnErr result (refusal ≡ EventRefusal.OutOfMemory) }
{
    match refusal {
        EventRefusal::NoSuch => Ok(Refusal::NoSuch(number)),
        EventRefusal::DriftBroken(_) => Ok(Refusal::DriftBroken(number)),
        EventRefusal::TooLarge => Ok(Refusal::TooLarge(number)),
        EventRefusal::OutOfMemory => Err(OutOfMemory),
    }
}

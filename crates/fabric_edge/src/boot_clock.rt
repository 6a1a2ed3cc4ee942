use std::time::Duration;

/// Linux's number of the clock that goes on while the machine is suspended.
const CLOCK_BOOTTIME: i32 = 7;

/// A machine that gives the time since it was started, with the time in which it was suspended. The standard library's
/// `Instant` leaves that time out: a node that wakes would hold its ranges under an old fence, although its heir has
/// taken them over.
pub trait BootClock {
    /// None where the machine cannot read its clock.
    fn since_boot(&self) -> Option<Duration>;
}

impl BootClock for HostRuntime {
    fn since_boot(&self) -> Option<Duration> {
        let mut time = libc::types::timespec {
            tv_sec: 0,
            tv_nsec: 0,
        };
        if libc::clock_gettime(CLOCK_BOOTTIME, &mut time) != 0 {
            return None;
        }
        let seconds = Duration::from_secs(u64::try_from(time.tv_sec).ok()?);
        let rest = Duration::from_nanos(u64::try_from(time.tv_nsec).ok()?);
        Some(seconds.saturating_add(rest))
    }
}

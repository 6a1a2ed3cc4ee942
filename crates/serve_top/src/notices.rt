use crate::tally::Tally;
use door_io::ReportLog;
use fabric_terms::OutOfMemory;
use serve_turns::Shown;
use std::alloc::Global;
use text_fields::{push_bytes, push_number};
use turn_members::Member;

/// For how many ticks the log says nothing of slow turns that follow another one.
const SLOW_PAUSE: u64 = 60_000;

/// For how many leases a partition is healed before the log says that it cannot be.
const UNHEALED_LEASES: u64 = 10;

/// What the log has said of a process, beside its reports.
#[derive(Drop)]
pub(crate) struct Notices {
    alloc: Global,
    /// The reading of the last slow turn.
    slow_at: Option<u64>,
    has_said_deaf: bool,
    has_said_leaving: bool,
    /// The partitions of which it was said that they cannot be healed, as long as that goes on.
    unhealed: Vec<u16>,
}

/// Appends words, a number and a line feed.
fn push_count(into: &mut Vec<u8>, words: &[u8], number: u64) -> Result<(), OutOfMemory> {
    push_bytes(into, words)?;
    push_number(into, number)?;
    push_bytes(into, b"\n")
}

/// Puts words and a number into the log.
fn log_count<L: ReportLog>(log: &mut L, alloc: Global, words: &[u8], number: u64) {
    let mut line = Vec::new(alloc);
    match push_count(&mut line, words, number) {
        Ok(()) => log.log(&line),
        Err(_) => log.lose(),
    }
}

impl Notices {
    /// Nothing was said.
    pub(crate) fn new(alloc: Global) -> Notices {
        Notices {
            alloc,
            slow_at: None,
            has_said_deaf: false,
            has_said_leaving: false,
            unhealed: Vec::new(alloc),
        }
    }

    /// A turn that ended at this reading took so many ticks, which are too many. The log says so, unless another such
    /// turn was not long ago.
    pub(crate) fn slow<L: ReportLog>(&mut self, log: &mut L, ticks: u64, now: u64) {
        let is_new = match self.slow_at {
            None => true,
            Some(at) => now.saturating_sub(at) >= SLOW_PAUSE,
        };
        self.slow_at = Some(now);
        if is_new {
            log_count(log, self.alloc, b"slow ", ticks);
        }
    }

    /// The log says once that the endpoint is deaf, and once that the actor leaves.
    pub(crate) fn tell<L: ReportLog>(&mut self, log: &mut L, tally: &Tally) {
        if tally.is_deaf() && !self.has_said_deaf {
            self.has_said_deaf = true;
            log.log(b"deaf\n");
        }
        if tally.is_leaving() && !self.has_said_leaving {
            self.has_said_leaving = true;
            log.log(b"leaving\n");
        }
    }

    /// The log says of each declared partition that is not healed for long that it cannot be, once each time.
    pub(crate) fn look<L: ReportLog>(
        &mut self,
        log: &mut L,
        declared: &[u16],
        lease: u64,
        shown: &Shown<'_>,
    ) {
        let limit = lease.saturating_mul(UNHEALED_LEASES);
        for partition in declared {
            let known = self.unhealed.iter().position(|one| one == partition);
            match (known, is_unhealed(*partition, limit, shown)) {
                (None, true) => self.begin_unhealed(log, *partition),
                (Some(place), false) => {
                    self.unhealed.swap_remove(place);
                }
                _ => {}
            }
        }
    }

    fn begin_unhealed<L: ReportLog>(&mut self, log: &mut L, partition: u16) {
        if self.unhealed.push(partition).is_ok() {
            log_count(log, self.alloc, b"cannot heal ", u64::from(partition));
        }
    }
}

/// Whether a reconfiguration of the partition is under way for so many ticks.
fn is_unhealed(partition: u16, limit: u64, shown: &Shown<'_>) -> bool {
    match shown.actor {
        Member::Arbiter(_, _) => false,
        Member::Node(core) => core.reconfigs().iter().any(|(of, reconfig)| {
            let epoch = reconfig.task().epoch;
            *of == partition && shown.changes.ticks(*of, epoch, shown.now) >= limit
        }),
    }
}

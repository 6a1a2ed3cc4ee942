// Lines of schedules and of reports. Each is the only spelling of what it says, so a word says no more than whether it
// is one.
ghost use Rattle.std.specs.Prelude.{◌≡◌};
ghost use Rattle.fabric_c.specs.Words.{IsReportCode, event_code};

use crate::code::{NOT_READ, OK, OUT_OF_MEMORY};
use line_format::LineRefusal;
use report_lines::read_report;
use sched_text::read_event;
use std::alloc::Global;

/// Whether the bytes are a line of a schedule.
pub fn event_code(line: &[u8]) -> u8
    ensures { result ≡ event_code line.now }
{
    match read_event(line) {
        Ok(_) => OK,
        Err(_) => NOT_READ,
    }
}

/// Whether the bytes are a line of a report.
pub fn report_code(alloc: Global, line: &[u8]) -> u8
    ensures { IsReportCode line.now result }
{
    match read_report(alloc, line) {
        Ok(_) => OK,
        Err(LineRefusal::BadLine) => NOT_READ,
        Err(LineRefusal::OutOfMemory) => OUT_OF_MEMORY,
    }
}

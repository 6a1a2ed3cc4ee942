// The reports of a step.
ghost use Rattle.std.specs.Prelude.{◌≡◌, OnOk};
ghost use Rattle.turn_effects.specs.Carried.{WritesAll};
ghost use Rattle.line_format.specs.Reports.{lines_of_reports};

use edge_io::{EdgeRefusal, Outside};
use fabric_terms::{Head, OutOfMemory, Report};
use report_lines::print_report;
use turn_rules::StopCause;

/// Writes text.
pub fn write_lines<O: Outside>(outside: &mut O, text: &[u8]) -> Result<(), StopCause>
    ensures { WritesAll text.now (O.told outside.old) (O.told outside.new) result }
{
    match outside.write_all(text) {
        Ok(()) => Ok(()),
        Err(EdgeRefusal::Failed) => Err(StopCause::WriteFault),
        Err(EdgeRefusal::OutOfMemory) => Err(StopCause::OutOfMemory),
    }
}

/// Puts the lines of reports under a head into the text, in the place of what is there.
fn put_lines(head: &Head, reports: &[Report], text: &mut Vec<u8>) -> Result<(), OutOfMemory>
    ensures { OnOk result (text.new.items ≡ lines_of_reports head.now reports.now) }
{
    text.clear();
    for report in reports {
        print_report(head, report, text)?;
    }
    Ok(())
}

/// Writes the lines of reports under a head. They are made in the text.
pub(crate) fn write_reports<O: Outside>(
    outside: &mut O,
    head: &Head,
    reports: &[Report],
    text: &mut Vec<u8>,
) -> Result<(), StopCause>
    ensures { WritesAll (lines_of_reports head.now reports.now) (O.told outside.old) (O.told outside.new) result }
{
    match put_lines(head, reports, text) {
        Ok(()) => write_lines(outside, text.as_slice()),
        Err(_) => Err(StopCause::OutOfMemory),
    }
}

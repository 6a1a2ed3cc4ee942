// A group, read again.
ghost use Rattle.std.specs.Prelude.{◌≡◌, [], None, Some, IfOk, OnOk};
ghost use Rattle.line_format.specs.Lines.{lines_of};
ghost use Rattle.transcript_audit.specs.Groups.{Group};
ghost use Rattle.transcript_audit.specs.Places.{goes_on, grows, group_in, GoesOn, IsEntry, IsSeen, TellsAs};

use crate::said::read_clocks;
use crate::told_line::read_telling;
use fabric_terms::{OutOfMemory, Report};
use line_format::LineRefusal;
use ring_points::Who;
use run_audit::Moment;
use source_lines::{cut_line, is_ignored};
use std::alloc::Global;

/// What is told in a group so far: by whom, and the reports.
#[derive(Drop)]
pub struct Told {
    who: Option<Who>,
    reports: Vec<Report>,
}

/// Takes a line. Gives whether it goes on with the group.
fn take_line(alloc: Global, told: &mut Told, line: &[u8]) -> Result<bool, OutOfMemory>
    ensures { (g : Group) → TellsAs told.old g → IfOk result (λ ok. GoesOn (goes_on line.now) told.new ok g) }
{
    if is_ignored(line) {
        return Ok(true);
    }
    match read_telling(alloc, line) {
        Ok((head, Some(report))) => {
            told.reports.push(report)?;
            told.who = Some(head.who);
            Ok(true)
        }
        Ok((head, None)) => {
            told.who = Some(head.who);
            Ok(true)
        }
        Err(LineRefusal::OutOfMemory) => Err(OutOfMemory),
        Err(LineRefusal::BadLine) => Ok(false),
    }
}

/// What is told in the lines up to the first that does not go on with the group.
fn read_told(alloc: Global, bytes: &[u8]) -> Result<Told, OutOfMemory>
    ensures { (g : Group) → g.who ≡ None → g.reports ≡ [] →
        IfOk result (λ t. TellsAs t (grows (lines_of bytes.now) g)) }
{
    let mut told = Told {
        who: None,
        reports: Vec::new(alloc),
    };
    let mut rest = bytes;
    while !rest.is_empty() {
        let (line, after) = cut_line(rest);
        let goes_on = take_line(alloc, &mut told, line)?;
        if !goes_on {
            return Ok(told);
        }
        rest = after;
    }
    Ok(told)
}

/// The entry of a moment: none where no report was told.
fn entry_of(told: Told) -> Option<(Who, Vec<Report>)>
    ensures { (g : Group) → TellsAs told g → IsEntry g result }
{
    if told.reports.as_slice().is_empty() {
        return None;
    }
    match told.who {
        Some(who) => Some((who, told.reports)),
        None => None,
    }
}

/// The group that begins with these bytes, put into the moment.
pub fn read_group(alloc: Global, bytes: &[u8], moment: &mut Moment) -> Result<(), OutOfMemory>
    ensures { (g : Group) → group_in (lines_of bytes.now) ≡ Some g → OnOk result (IsSeen g moment.new) }
{
    if bytes.is_empty() {
        return Ok(());
    }
    let (line, rest) = cut_line(bytes);
    match read_clocks(line, &mut moment.clocks) {
        Ok(number) => moment.line = number,
        Err(LineRefusal::OutOfMemory) => return Err(OutOfMemory),
        Err(LineRefusal::BadLine) => return Ok(()),
    }
    let told = read_told(alloc, rest)?;
    moment.entry = entry_of(told);
    Ok(())
}

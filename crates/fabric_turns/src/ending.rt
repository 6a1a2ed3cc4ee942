ghost use Rattle.std.specs.Prelude.{◌≡◌, IfOk};
ghost use Rattle.turn_rules.specs.Whole.{Finishes, last_line, status_of};

use edge_io::Outside;
use fabric_status::{Status, push_fault, push_numbered};
use fabric_terms::OutOfMemory;
use std::alloc::Global;
use turn_effects::write_lines;
use turn_rules::StopCause;

/// The status with which a run ends.
fn status_of(ended: Result<(), StopCause>) -> Status
    ensures { result ≡ status_of ended }
{
    match ended {
        Ok(()) => Status::Ok,
        Err(StopCause::OutOfMemory) => Status::OutOfMemory,
        Err(StopCause::WriteFault) => Status::WriteFault,
        Err(StopCause::KeepFault) => Status::KeepFault,
        Err(StopCause::LinkFault) => Status::LinkFault,
        Err(StopCause::ClockBack(former, latter)) => Status::ClockBack(former, latter),
        Err(StopCause::Left(why)) => Status::Left(why),
        Err(StopCause::BadKeep(i)) => Status::BadKeep(i),
        Err(StopCause::TableFull) => Status::TableFull,
    }
}

/// The last line: where all turns are taken it says how many, and else it names the fault, where there is one.
fn last_line(
    alloc: Global,
    turns: u64,
    ended: Result<(), StopCause>,
) -> Result<Vec<u8>, OutOfMemory>
    ensures { IfOk result (λ text. text.items ≡ last_line turns ended) }
{
    let mut text = Vec::new(alloc);
    match ended {
        Ok(()) => push_numbered(&mut text, b"end ", turns)?,
        Err(_) => push_fault(alloc, &mut text, status_of(ended))?,
    }
    Ok(text)
}

/// Writes the last line, and gives the status.
pub(crate) fn finish<O: Outside>(
    outside: &mut O,
    alloc: Global,
    turns: u64,
    ended: Result<(), StopCause>,
) -> Status
    ensures { Finishes turns ended (O.told outside.old) result (O.told outside.new) }
{
    let Ok(text) = last_line(alloc, turns, ended) else {
        return Status::OutOfMemory;
    };
    match write_lines(outside, text.as_slice()) {
        Ok(()) => status_of(ended),
        Err(StopCause::WriteFault) => Status::WriteFault,
        Err(_) => Status::OutOfMemory,
    }
}

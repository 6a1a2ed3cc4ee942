ghost use Rattle.std.specs.Prelude.{[], None, option_map};
ghost use Rattle.ring_points.specs.Limits.{most_nodes};
ghost use Rattle.text_fields.specs.Fields.{Gives};
ghost use Rattle.line_format.specs.Readers.{Reads};
ghost use Rattle.transcript_audit.specs.Places.{summary_of};
ghost use Rattle.transcript_audit.specs.Said.{clock_at, clocks_on, shown_of, section_at, said_of};

use crate::told_line::read_telling;
use line_format::{BadLine, LineRefusal};
use ring_points::{MAX_NODES, Who};
use run_audit::comes_after;
use std::alloc::Global;
use text_fields::{after_word, instance_at, last_number, number_in, number_word};

/// The greatest number of a section.
const MAX_SECTION: u64 = 999;

/// What a line says, without its clocks and its report.
#[derive(Clone, Copy)]
pub enum Said {
    /// A section opens.
    Opens,
    /// A group begins, at this LINE.
    Shows(u64),
    /// In the group of this LINE an instance tells something.
    Tells(u64, Who),
}

// The section that opens.
fn section_at(line: &[u8]) -> Result<u64, BadLine>
    ensures { Gives (λ x. x) result (section_at line.now) }
{
    let rest = after_word(b"transcript ", line)?;
    Ok(last_number(0, MAX_SECTION, rest)?)
}

// A clock behind a blank, and what follows it.
#[tactic(auto, unfolding(crate::specs::Said::clock_at))]
fn clock_at(bytes: &[u8]) -> Result<((Who, u64), &[u8]), BadLine>
    ensures { Gives (λ x. (x.0, x.1.now)) result (clock_at bytes.now) }
{
    let (who, rest) = instance_at(after_word(b" ", bytes)?)?;
    let (reading, rest) = number_in(0, u64::MAX, after_word(b":", rest)?)?;
    Ok(((who, reading), rest))
}

// The clocks to the end of the line.
fn fill(bytes: &[u8], clocks: &mut Vec<(Who, u64)>) -> Result<(), LineRefusal>
    ensures { Reads (λ u. clocks.new.items) result (clocks_on most_nodes None [] bytes.now) }
{
    clocks.clear();
    let mut rest = bytes;
    let mut above = None;
    while !rest.is_empty() {
        if clocks.len() == MAX_NODES {
            return Err(LineRefusal::BadLine);
        }
        let (clock, after) = clock_at(rest)?;
        if !comes_after(above, clock.0) {
            return Err(LineRefusal::BadLine);
        }
        clocks.push(clock)?;
        above = Some(clock.0);
        rest = after;
    }
    Ok(())
}

/// The LINE of a group's first line, whose clocks are put into the list. BadLine comes exactly where the bytes are no
/// such line. At a refusal the list may be as it was, empty or half filled.
#[tactic(auto, unfolding(crate::specs::Said::shown_of))]
pub fn read_clocks(line: &[u8], clocks: &mut Vec<(Who, u64)>) -> Result<u64, LineRefusal>
    ensures { Reads (λ n. (n, clocks.new.items)) result (shown_of line.now) }
{
    let (number, rest) = number_word(0, u64::MAX, line)?;
    let rest = after_word(b"clocks", rest)?;
    fill(rest, clocks)?;
    Ok(number)
}

/// What a line says. BadLine comes exactly where it is none of a transcript. The list serves each line of clocks.
#[tactic(auto, using(crate::proofs::SaidSteps::said_telling, crate::proofs::SaidSteps::said_untold))]
pub fn read_said(
    alloc: Global,
    line: &[u8],
    clocks: &mut Vec<(Who, u64)>,
) -> Result<Said, LineRefusal>
    ensures { Reads (λ x. x) result (option_map summary_of (said_of line.now)) }
{
    match read_telling(alloc, line) {
        Ok((head, _)) => return Ok(Said::Tells(head.line, head.who)),
        Err(LineRefusal::OutOfMemory) => return Err(LineRefusal::OutOfMemory),
        Err(LineRefusal::BadLine) => {}
    }
    match read_clocks(line, clocks) {
        Ok(number) => return Ok(Said::Shows(number)),
        Err(LineRefusal::OutOfMemory) => return Err(LineRefusal::OutOfMemory),
        Err(LineRefusal::BadLine) => {}
    }
    let _section = section_at(line)?;
    Ok(Said::Opens)
}

// A line on which an instance tells something.
ghost use Rattle.line_format.specs.Readers.{Reads};
ghost use Rattle.text_fields.specs.Fields.{Gives};
ghost use Rattle.transcript_audit.specs.Said.{Tells, span_of, telling_of};

use fabric_terms::{Head, Report};
use line_format::{BadLine, LineRefusal};
use report_lines::{head_at, report_of};
use ring_points::MAX_COUNTER;
use std::alloc::Global;
use text_fields::{after_word, last_number, number_in};

// Numbers of frames, from 1 and not falling.
fn span_of(bytes: &[u8]) -> Result<u64, BadLine>
    ensures { Gives (λ x. x) result (span_of bytes.now) }
{
    let (first, rest) = number_in(1, MAX_COUNTER, bytes)?;
    let rest = after_word(b"-", rest)?;
    Ok(last_number(first, MAX_COUNTER, rest)?)
}

/// The head of the line, and its report where it has one: a line that tells frames which were sent has none. BadLine
/// comes exactly where an instance tells nothing, unless memory was short before that was seen. The head is read once.
#[tactic(auto, using(crate::proofs::SentLines::sent_is_no_report), unfolding(crate::specs::Said::sent_of, line_format::specs::Readers::line_of))]
pub fn read_telling(alloc: Global, line: &[u8]) -> Result<(Head, Option<Report>), LineRefusal>
    ensures { Reads (λ x. Tells x.0.line x.0.who x.1) result (telling_of line.now) }
{
    let (head, rest) = head_at(line)?;
    if let Ok(span) = after_word(b"sent ", rest) {
        let _last = span_of(span)?;
        return Ok((head, None));
    }
    let report = report_of(alloc, rest)?;
    Ok((head, Some(report)))
}

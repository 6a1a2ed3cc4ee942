ghost use Rattle.std.specs.Prelude.{◌≡◌, ◌≤◌, ◌<◌, ◌+◌, ◌∷◌, ◌++◌, ℕ, List, true, false, Some, Ok, IfOk, OnOk, OnErr};
ghost use Rattle.std.specs.Prelude.{drop, length, vec_capacity, vec_len};
ghost use Rattle.edge_io.specs.Edge.{HasCauseOf};
ghost use Rattle.line_format.specs.Lines.{lines_of};
ghost use Rattle.source_lines.specs.Lines.{is_ignored};
ghost use Rattle.transcript_audit.specs.Said.{said_of};
ghost use Rattle.transcript_audit.specs.Statuses.{MayRead, MayRefuse};
ghost use Rattle.transcript_audit.specs.Transcript.{Reading, is_large, line_read, most_bytes, most_line, placed_if};
ghost use Rattle.transcript_audit.specs.Transcript.{short_read, transcript_of};
ghost use Rattle.transcript_audit.specs.Places.{Keeps, IsPlaced, IsRead, IsTaken, IsTranscript, LeavesNone, Stands};
ghost use Rattle.transcript_audit.specs.Places.{Within};

use crate::group_index::GroupIndex;
use crate::said::read_said;
use edge_io::{EdgeRefusal, Source};
use fabric_status::Refusal;
use fabric_terms::OutOfMemory;
use line_format::LineRefusal;
use ring_points::Who;
use source_lines::{LineReader, MAX_LINES, NextLine, is_ignored};
use std::alloc::Global;

/// How many bytes a line of a transcript may have.
const MAX_TRANSCRIPT_LINE: usize = 65_536;

/// How many bytes a transcript may have.
const MAX_TRANSCRIPT: usize = 1_073_741_824;

/// Whether line `number`, which ends with this byte, passes a limit.
fn is_large(number: u64, end: usize, line: &[u8]) -> bool
    ensures { result ≡ is_large number end line.now }
{
    line.len() > MAX_TRANSCRIPT_LINE || number > MAX_LINES || end > MAX_TRANSCRIPT
}

/// A transcript that was read, or how it is refused.
#[derive(Drop)]
pub enum Transcript {
    /// Its text, and where its groups stand there.
    Good(Vec<u8>, GroupIndex),
    Refused(Refusal),
}

/// Takes a line that is not ignored. Gives whether it is one of a transcript, and in its place.
fn take_words(
    alloc: Global,
    places: &mut GroupIndex,
    clocks: &mut Vec<(Who, u64)>,
    at: usize,
    line: &[u8],
) -> Result<bool, OutOfMemory>
    ensures placed { (bytes : List ℕ) (ls : List (List ℕ)) (r : Reading) → is_ignored line.now ≡ false →
        lines_of (drop at bytes) ≡ line.now ∷ ls → Keeps bytes (line.now ∷ ls) places.old r →
        IfOk result (λ ok. IsPlaced bytes ls places.new ok (placed_if (said_of line.now) r)) }
    ensures within { (n : ℕ) → at ≤ n → Within n places.old → IfOk result (λ ok. Within n places.new) }
{
    match read_said(alloc, line, clocks) {
        Ok(said) => places.place(said, at),
        Err(LineRefusal::BadLine) => Ok(false),
        Err(LineRefusal::OutOfMemory) => Err(OutOfMemory),
    }
}

/// Takes line `number`, which begins at `at` and passes no limit. Gives how it is refused, if it is. A line that is
/// ignored takes no memory.
fn take_line(
    alloc: Global,
    places: &mut GroupIndex,
    clocks: &mut Vec<(Who, u64)>,
    number: u64,
    at: usize,
    line: &[u8],
) -> Result<Option<Refusal>, OutOfMemory>
    ensures read { (bytes : List ℕ) (ls : List (List ℕ)) (r : Reading) → lines_of (drop at bytes) ≡ line.now ∷ ls →
        Keeps bytes (line.now ∷ ls) places.old r →
        IfOk result (λ refused. IsRead bytes ls places.new refused (short_read number line.now r)) }
    ensures within { (n : ℕ) → at ≤ n → Within n places.old → IfOk result (λ refused. Within n places.new) }
    ensures memory { OnErr result (is_ignored line.now ≡ false) }
    ensures refusal { IfOk result MayRefuse }
{
    if is_ignored(line) {
        return Ok(None);
    }
    let placed = take_words(alloc, places, clocks, at, line)?;
    if placed {
        Ok(None)
    } else {
        Ok(Some(Refusal::BadLine(number)))
    }
}

/// Puts a line behind the text. Where its room is used up it grows by a thirty-second, so that little of it stays
/// unused however long the text is. Where memory is out, nothing is put.
fn keep_line(text: &mut Vec<u8>, line: &[u8]) -> Result<(), OutOfMemory>
    ensures ok { OnOk result (text.new.items ≡ text.old.items ++ line.now) }
    ensures err { OnErr result (text.new.items ≡ text.old.items) }
    ensures memory { OnErr result (vec_capacity text.old < vec_len text.old + length line.now) }
{
    if text.capacity() - text.len() < line.len() {
        text.reserve_exact(line.len().max(text.len() / 32))?;
    }
    text.extend_from_slice(line)?;
    Ok(())
}

/// Takes line `number`, which the reader took last: its limits are tested, then it is put behind the text, and then it
/// is taken. Gives how it is refused, if it is. A line that passes a limit takes no memory.
fn take_next(
    alloc: Global,
    text: &mut Vec<u8>,
    places: &mut GroupIndex,
    clocks: &mut Vec<(Who, u64)>,
    number: u64,
    reader: &LineReader,
) -> Result<Option<Refusal>, OutOfMemory>
    requires line { length reader.now.line ≤ most_line }
    requires text { length text.old.items ≤ most_bytes }
    ensures large { is_large number (length text.old.items + length reader.now.whole) reader.now.line ≡ true →
        result ≡ Ok (Some (Refusal.TooLarge number)) }
    ensures taken { IfOk result (λ refused. IsTaken refused number reader.now text.old.items text.new.items) }
    ensures read { (bytes : List ℕ) (ls : List (List ℕ)) (r : Reading) →
        lines_of (drop (length text.old.items) bytes) ≡ reader.now.line ∷ ls →
        Keeps bytes (reader.now.line ∷ ls) places.old r →
        let end = length text.old.items + length reader.now.whole in
        IfOk result (λ refused. IsRead bytes ls places.new refused (line_read number end reader.now.line r)) }
    ensures within { (n : ℕ) → length text.old.items ≤ n → Within n places.old →
        IfOk result (λ refused. Within n places.new) }
    ensures refusal { IfOk result MayRefuse }
{
    let at = text.len();
    let line = reader.line();
    let whole = reader.whole_line();
    if is_large(number, at + whole.len(), line) {
        return Ok(Some(Refusal::TooLarge(number)));
    }
    keep_line(text, whole)?;
    take_line(alloc, places, clocks, number, at, line)
}

/// Reads a transcript to its end, or up to the line that is refused. `Failed` comes only where the source's count of
/// faults rose.
pub fn read_transcript<S: Source>(alloc: Global, source: &mut S) -> Result<Transcript, EdgeRefusal>
    ensures read { (bytes : List ℕ) → S.left source.old ≡ Some bytes →
        IfOk result (λ t. IsTranscript bytes t (transcript_of bytes) × LeavesNone t (S.left source.new)) }
    ensures stands { IfOk result Stands }
    ensures refusal { IfOk result MayRead }
    ensures cause { HasCauseOf EdgeRefusal.Failed (S.faults source.old) (S.faults source.new) result }
{
    let mut reader = match LineReader::new(alloc) {
        Ok(reader) => reader,
        Err(_) => return Err(EdgeRefusal::OutOfMemory),
    };
    let mut text = Vec::new(alloc);
    let mut places = GroupIndex::new(alloc);
    let mut clocks = Vec::new(alloc);
    for number in 1..=MAX_LINES + 1 {
        match reader.next(source, MAX_TRANSCRIPT_LINE) {
            Err(_) => return Err(EdgeRefusal::Failed),
            Ok(NextLine::End) => return Ok(Transcript::Good(text, places)),
            Ok(NextLine::TooLong) => return Ok(Transcript::Refused(Refusal::TooLarge(number))),
            Ok(NextLine::Line) => {
                match take_next(alloc, &mut text, &mut places, &mut clocks, number, &reader) {
                    Ok(None) => {}
                    Ok(Some(refusal)) => return Ok(Transcript::Refused(refusal)),
                    Err(_) => return Err(EdgeRefusal::OutOfMemory),
                }
            }
        }
    }
    unreachable!()
}

ghost use Rattle.std.specs.Prelude.{◌≡◌, ◌++◌, take, OnOk, OnErr};
ghost use Rattle.text_fields.specs.Fields.{Gives};
ghost use Rattle.text_fields.specs.Texts.{Keeps};
ghost use Rattle.line_format.specs.Readers.{Reads, plain_report_of, report_of, line_of};
ghost use Rattle.line_format.specs.Reports.{report_text, report_line, sent_line};

mod head;
mod list;
mod pair;
mod refused;
mod ring;
mod unit;

use fabric_terms::{Head, OutOfMemory, Report};
pub use head::head_at;
use head::push_head;
use line_format::{BadLine, LineRefusal};
use list::{
    name_list_of, partitions_of, push_name_list, push_resolved, push_units, push_unresolved,
    resolved_of, unresolved_of,
};
use pair::{push_number_behind, push_who_behind};
use refused::{push_left, push_refused, refused_of};
use ring::{own_of, push_flight, push_found, push_heir, push_nowhere, push_own, push_ranges_of};
use std::alloc::Global;
use text_fields::{after_word, push_bytes};
use unit::{push_entry, push_in, unit_report_of};

// A report that takes no memory. It is never inlined, as is each reader below: the room of one kind is not cleared for
// another.
#[inline(never)]
#[tactic(auto, unfolding(line_format::specs::Readers::plain_report_of))]
fn plain_report_of(words: &[u8]) -> Result<Report, BadLine>
    ensures { Gives (λ x. x) result (plain_report_of words.now) }
{
    if let Ok(rest) = after_word(b"unresolved ", words) {
        unresolved_of(rest)
    } else if let Ok(rest) = after_word(b"refused ", words) {
        refused_of(rest)
    } else {
        unit_report_of(words)
    }
}

// A report of any kind. It is never inlined: it clears the room of each kind, whichever comes.
#[inline(never)]
#[tactic(auto, unfolding(line_format::specs::Readers::report_of))]
fn any_report_of(alloc: Global, words: &[u8]) -> Result<Report, LineRefusal>
    ensures { Reads (λ x. x) result (report_of words.now) }
{
    if let Ok(rest) = after_word(b"units ", words) {
        Ok(Report::UnitList(partitions_of(alloc, rest)?))
    } else if let Ok(rest) = after_word(b"resolved ", words) {
        resolved_of(alloc, rest)
    } else if let Ok(rest) = after_word(b"names ", words) {
        name_list_of(alloc, rest)
    } else {
        Ok(plain_report_of(words)?)
    }
}

/// The report behind a head. BadLine comes exactly where the bytes are none, unless memory was short before that was
/// seen. What a node owns is told most often, and is tried first.
#[tactic(auto, using(crate::proofs::OwnLines::own_is_told))]
pub fn report_of(alloc: Global, words: &[u8]) -> Result<Report, LineRefusal>
    ensures { Reads (λ x. x) result (report_of words.now) }
{
    if let Ok(rest) = after_word(b"own ", words) {
        return Ok(own_of(rest)?);
    }
    any_report_of(alloc, words)
}

/// The head and the report of a line, without its line feed. BadLine comes exactly where the bytes are no
/// report's line, unless memory was short before that was seen.
#[tactic(auto, unfolding(line_format::specs::Readers::line_of))]
pub fn read_report(alloc: Global, line: &[u8]) -> Result<(Head, Report), LineRefusal>
    ensures { Reads (λ x. x) result (line_of line.now) }
{
    let (head, rest) = head_at(line)?;
    let report = report_of(alloc, rest)?;
    Ok((head, report))
}

// The words of a report.
fn push_report(into: &mut Vec<u8>, report: &Report) -> Result<(), OutOfMemory>
    ensures ok { OnOk result (into.new.items ≡ into.old.items ++ report_text report.now) }
    ensures kept { Keeps into.old.items into.new.items }
{
    match report {
        Report::Own(ranges, fence) => push_own(into, ranges, *fence),
        Report::Accused(who) => push_who_behind(into, b"accused ", *who),
        Report::Discharged(who) => push_who_behind(into, b"discharged ", *who),
        Report::Heir(who, ripe) => push_heir(into, *who, *ripe),
        Report::TookOver(who, ranges) => push_ranges_of(into, b"tookover ", *who, ranges),
        Report::Gave(to, flight, ranges) => push_flight(into, b"gave ", *to, *flight, ranges),
        Report::Took(from, flight, ranges) => push_flight(into, b"took ", *from, *flight, ranges),
        Report::Returned(to, flight, ranges) => {
            push_flight(into, b"returned ", *to, *flight, ranges)
        }
        Report::LeftRing(why) => push_left(into, *why),
        Report::Stopped => push_bytes(into, b"stopped"),
        Report::Found(key, who) => push_found(into, *key, *who),
        Report::Nowhere(key) => push_nowhere(into, *key),
        Report::Promised(partition, epoch) => push_in(into, b"promised ", *partition, *epoch),
        Report::Adopted(partition, epoch, last) => {
            push_entry(into, b"adopted ", *partition, *epoch, *last)
        }
        Report::Accepted(partition, epoch, lsn) => {
            push_entry(into, b"accepted ", *partition, *epoch, *lsn)
        }
        Report::IsPrimary(partition, epoch) => push_in(into, b"primary ", *partition, *epoch),
        Report::Committed(partition, epoch, lsn) => {
            push_entry(into, b"committed ", *partition, *epoch, *lsn)
        }
        Report::Configured(partition, epoch) => push_in(into, b"configured ", *partition, *epoch),
        Report::Superseded(partition, epoch) => push_in(into, b"superseded ", *partition, *epoch),
        Report::UnitList(partitions) => push_units(into, partitions.as_slice()),
        Report::Resolved(partition, name, value) => push_resolved(into, *partition, name, value),
        Report::Unresolved(partition, name) => push_unresolved(into, *partition, name),
        Report::NameList(partition, names) => push_name_list(into, *partition, names.as_slice()),
        Report::Refused(verb, reason) => push_refused(into, *verb, *reason),
    }
}

fn push_report_line(into: &mut Vec<u8>, head: &Head, report: &Report) -> Result<(), OutOfMemory>
    ensures ok { OnOk result (into.new.items ≡ into.old.items ++ report_line head.now report.now) }
    ensures kept { Keeps into.old.items into.new.items }
{
    push_head(into, head)?;
    push_bytes(into, b" ")?;
    push_report(into, report)?;
    push_bytes(into, b"\n")
}

fn push_sent_line(into: &mut Vec<u8>, head: &Head, sent: (u32, u32)) -> Result<(), OutOfMemory>
    ensures ok { OnOk result (into.new.items ≡ into.old.items ++ sent_line head.now sent) }
    ensures kept { Keeps into.old.items into.new.items }
{
    push_head(into, head)?;
    push_number_behind(into, b" sent ", u64::from(sent.0))?;
    push_number_behind(into, b"-", u64::from(sent.1))?;
    push_bytes(into, b"\n")
}

// Where a line was refused, what was printed of it is cut off again.
fn cut_back(
    into: &mut Vec<u8>,
    before: usize,
    printed: Result<(), OutOfMemory>,
) -> Result<(), OutOfMemory>
    ensures same { result ≡ printed }
    ensures ok { OnOk result (into.new.items ≡ into.old.items) }
    ensures err { OnErr result (into.new.items ≡ take before into.old.items) }
{
    if printed.is_err() {
        into.truncate(before);
    }
    printed
}

/// Appends a report's line. Where memory is short it appends nothing.
pub fn print_report(head: &Head, report: &Report, into: &mut Vec<u8>) -> Result<(), OutOfMemory>
    ensures ok { OnOk result (into.new.items ≡ into.old.items ++ report_line head.now report.now) }
    ensures err { OnErr result (into.new.items ≡ into.old.items) }
{
    let before = into.len();
    let printed = push_report_line(into, head, report);
    cut_back(into, before, printed)
}

/// Appends the line that says which frames a step sent: the numbers of the first and the last. Where
/// memory is short it appends nothing.
pub fn print_sent(head: &Head, sent: (u32, u32), into: &mut Vec<u8>) -> Result<(), OutOfMemory>
    ensures ok { OnOk result (into.new.items ≡ into.old.items ++ sent_line head.now sent) }
    ensures err { OnErr result (into.new.items ≡ into.old.items) }
{
    let before = into.len();
    let printed = push_sent_line(into, head, sent);
    cut_back(into, before, printed)
}

ghost use Rattle.std.specs.Prelude.{◌≡◌, ◌++◌, List, [], OnOk, IfOk, codes, decimal, length};
ghost use Rattle.run_audit.specs.Auditing.{StandsFor};
ghost use Rattle.transcript_audit.specs.Audits.{IsJudged};
ghost use Rattle.transcript_audit.specs.Groups.{Group, Rise};
ghost use Rattle.transcript_audit.specs.Places.{Finds, Stand, lines_in};
ghost use Rattle.transcript_audit.specs.Verdicts.{ring_text, early_text, primary_text, older_text, breach_text};
ghost use Rattle.transcript_audit.specs.Verdicts.{verdict_line};

use crate::group::read_group;
use crate::group_index::GroupIndex;
use fabric_status::push_numbered;
use fabric_terms::OutOfMemory;
use ring_points::{Epoch, Point, Who};
use run_audit::{Auditor, Breach, Moment};
use std::alloc::Global;
use text_fields::{push_bytes, push_epoch, push_number, push_point, push_who};

// `ring POINT A B`
fn push_ring(text: &mut Vec<u8>, point: Point, a: Who, b: Who) -> Result<(), OutOfMemory>
    ensures { OnOk result (text.new.items ≡ text.old.items ++ ring_text point a b) }
{
    push_bytes(text, b"ring ")?;
    push_point(text, point.0)?;
    push_bytes(text, b" ")?;
    push_who(text, a)?;
    push_bytes(text, b" ")?;
    push_who(text, b)
}

// `early VICTIM POINT`
fn push_early(text: &mut Vec<u8>, victim: Who, point: Point) -> Result<(), OutOfMemory>
    ensures { OnOk result (text.new.items ≡ text.old.items ++ early_text victim point) }
{
    push_bytes(text, b"early ")?;
    push_who(text, victim)?;
    push_bytes(text, b" ")?;
    push_point(text, point.0)
}

// A number and a blank.
fn push_first(text: &mut Vec<u8>, n: u16) -> Result<(), OutOfMemory>
    ensures { OnOk result (text.new.items ≡ text.old.items ++ (decimal n ++ codes " ")) }
{
    push_number(text, u64::from(n))?;
    push_bytes(text, b" ")
}

// `primary P E A B`
fn push_primary(
    text: &mut Vec<u8>,
    partition: u16,
    epoch: Epoch,
    a: u16,
    b: u16,
) -> Result<(), OutOfMemory>
    ensures { OnOk result (text.new.items ≡ text.old.items ++ primary_text partition epoch a b) }
{
    push_bytes(text, b"primary ")?;
    push_first(text, partition)?;
    push_epoch(text, epoch)?;
    push_bytes(text, b" ")?;
    push_first(text, a)?;
    push_number(text, u64::from(b))
}

// `older NODE P HAD GOT`
fn push_older(
    text: &mut Vec<u8>,
    node: u16,
    partition: u16,
    had: Epoch,
    got: Epoch,
) -> Result<(), OutOfMemory>
    ensures { OnOk result (text.new.items ≡ text.old.items ++ older_text node partition had got) }
{
    push_bytes(text, b"older ")?;
    push_first(text, node)?;
    push_first(text, partition)?;
    push_epoch(text, had)?;
    push_bytes(text, b" ")?;
    push_epoch(text, got)
}

// `breach LINE `
fn push_line(text: &mut Vec<u8>, line: u64) -> Result<(), OutOfMemory>
    ensures { OnOk result (text.new.items ≡ text.old.items ++ (codes "breach " ++ (decimal line ++ codes " "))) }
{
    push_bytes(text, b"breach ")?;
    push_number(text, line)?;
    push_bytes(text, b" ")
}

fn push_breach(text: &mut Vec<u8>, breach: Breach) -> Result<(), OutOfMemory>
    ensures { OnOk result (text.new.items ≡ text.old.items ++ breach_text breach) }
{
    match breach {
        Breach::Ring { line, point, a, b } => {
            push_line(text, line)?;
            push_ring(text, point, a, b)
        }
        Breach::Early {
            line,
            victim,
            point,
        } => {
            push_line(text, line)?;
            push_early(text, victim, point)
        }
        Breach::Primary {
            line,
            partition,
            epoch,
            a,
            b,
        } => {
            push_line(text, line)?;
            push_primary(text, partition, epoch, a, b)
        }
        Breach::Older {
            line,
            node,
            partition,
            had,
            got,
        } => {
            push_line(text, line)?;
            push_older(text, node, partition, had, got)
        }
    }
}

/// The verdict on a run of so many moments, as a line.
pub fn push_verdict(
    text: &mut Vec<u8>,
    breach: Option<Breach>,
    moments: usize,
) -> Result<(), OutOfMemory>
    ensures { OnOk result (text.new.items ≡ text.old.items ++ verdict_line breach moments) }
{
    match breach {
        None => push_numbered(text, b"safe ", moments as u64),
        Some(breach) => {
            push_breach(text, breach)?;
            push_bytes(text, b"\n")
        }
    }
}

// The first breach of the groups, if there is one, as an auditor of nothing yet finds it.
fn judge_each(
    alloc: Global,
    bytes: &[u8],
    places: &GroupIndex,
    auditor: &mut Auditor,
    moment: &mut Moment,
) -> Result<Option<Breach>, OutOfMemory>
    requires { Stand bytes.now places.now }
    ensures { (groups : List Group) → StandsFor auditor.old [] → Finds bytes.now places.now groups →
        Rise (lines_in places.now) → IfOk result (λ b. IsJudged groups (length places.now.table.entries) b) }
{
    for index in 0..places.count() {
        let Some((_, at)) = places.entry(index) else {
            return Ok(None);
        };
        read_group(alloc, &bytes[at..], moment)?;
        let breach = auditor.moment(moment)?;
        if breach.is_some() {
            return Ok(breach);
        }
    }
    Ok(None)
}

/// The verdict on the groups of a transcript, which stand in the order of their LINEs.
pub fn judge(
    alloc: Global,
    bytes: &[u8],
    places: &GroupIndex,
) -> Result<Option<Breach>, OutOfMemory>
    requires { Stand bytes.now places.now }
    ensures { (groups : List Group) → Finds bytes.now places.now groups → Rise (lines_in places.now) →
        IfOk result (λ b. IsJudged groups (length places.now.table.entries) b) }
{
    let mut auditor = Auditor::new(alloc);
    let mut moment = Moment {
        line: 0,
        clocks: Vec::new(alloc),
        entry: None,
    };
    judge_each(alloc, bytes, places, &mut auditor, &mut moment)
}

// Why a node left the ring, and why a command was refused.
ghost use Rattle.std.specs.Prelude.{◌≡◌, [], ◌∷◌, ◌++◌, codes, OnOk};
ghost use Rattle.text_fields.specs.Fields.{Gives, first_of};
ghost use Rattle.text_fields.specs.Texts.{Keeps, spaced};
ghost use Rattle.line_format.specs.Readers.{refused_of};
ghost use Rattle.line_format.specs.Refusals.{why_text, all_whys, why_of, verb_text, verb_at, reason_word, reason_text};
ghost use Rattle.line_format.specs.Refusals.{plain_reasons, reason_of};

use super::pair::{push_behind, push_number_behind};
use fabric_terms::{OutOfMemory, Reason, Report, Verb, Why};
use line_format::BadLine;
use text_fields::{after_word, last_number, push_bytes};

/// The greatest number of fault domains that a reason tells.
const MAX_DOMAIN_COUNT: u64 = 255;

const WHYS: [Why; 4] = [Why::Fence, Why::Lost, Why::Counters, Why::AccusedFull];

const VERBS: [Verb; 11] = [
    Verb::Link,
    Verb::Part,
    Verb::Give,
    Verb::Join,
    Verb::Create,
    Verb::Swap,
    Verb::Heal,
    Verb::Lose,
    Verb::Write,
    Verb::Resolve,
    Verb::Names,
];

/// The reasons of one word: all but `TooFew`.
const PLAIN_REASONS: [Reason; 14] = [
    Reason::NotRouting,
    Reason::Full,
    Reason::Linked,
    Reason::NotLinked,
    Reason::Busy,
    Reason::TooMany,
    Reason::Empty,
    Reason::NotManager,
    Reason::Exists,
    Reason::NoUnit,
    Reason::NotMember,
    Reason::NotPrimary,
    Reason::NotReady,
    Reason::Counters,
];

fn why_text(why: Why) -> &'static [u8]
    ensures { result.now ≡ why_text why }
{
    match why {
        Why::Fence => b"fence",
        Why::Lost => b"lost",
        Why::Counters => b"counters",
        Why::AccusedFull => b"accused",
    }
}

// Why a node left, and what follows it.
fn why_at(words: &[u8]) -> Result<(Why, &[u8]), BadLine>
    ensures { Gives (λ x. (x.0, x.1.now)) result (first_of why_text all_whys words.now) }
{
    for why in &WHYS {
        if let Ok(rest) = after_word(why_text(*why), words) {
            return Ok((*why, rest));
        }
    }
    Err(BadLine)
}

/// Why a node left, to the end of the line.
pub fn why_of(words: &[u8]) -> Result<Why, BadLine>
    ensures { Gives (λ x. x) result (why_of words.now) }
{
    match why_at(words)? {
        (why, []) => Ok(why),
        _ => Err(BadLine),
    }
}

/// Appends that a node left, and why.
pub fn push_left(into: &mut Vec<u8>, why: Why) -> Result<(), OutOfMemory>
    ensures ok { OnOk result (into.new.items ≡ into.old.items ++ spaced (codes "left" ∷ why_text why ∷ [])) }
    ensures kept { Keeps into.old.items into.new.items }
{
    push_behind(into, b"left ", why_text(why))
}

fn verb_text(verb: Verb) -> &'static [u8]
    ensures { result.now ≡ verb_text verb }
{
    match verb {
        Verb::Link => b"link",
        Verb::Part => b"part",
        Verb::Give => b"give",
        Verb::Join => b"join",
        Verb::Create => b"create",
        Verb::Swap => b"swap",
        Verb::Heal => b"heal",
        Verb::Lose => b"lose",
        Verb::Write => b"write",
        Verb::Resolve => b"resolve",
        Verb::Names => b"names",
    }
}

fn verb_at(words: &[u8]) -> Result<(Verb, &[u8]), BadLine>
    ensures { Gives (λ x. (x.0, x.1.now)) result (verb_at words.now) }
{
    for verb in &VERBS {
        if let Ok(rest) = after_word(verb_text(*verb), words) {
            return Ok((*verb, rest));
        }
    }
    Err(BadLine)
}

// The first word of a reason.
fn reason_word(reason: Reason) -> &'static [u8]
    ensures { result.now ≡ reason_word reason }
{
    match reason {
        Reason::NotRouting => b"notrouting",
        Reason::Full => b"full",
        Reason::Linked => b"linked",
        Reason::NotLinked => b"notlinked",
        Reason::Busy => b"busy",
        Reason::TooMany => b"toomany",
        Reason::Empty => b"empty",
        Reason::NotManager => b"notmanager",
        Reason::Exists => b"exists",
        Reason::NoUnit => b"nounit",
        Reason::NotMember => b"notmember",
        Reason::NotPrimary => b"notprimary",
        Reason::NotReady => b"notready",
        Reason::Counters => b"counters",
        Reason::TooFew(_) => b"toofew",
    }
}

// A reason of one word, and what follows it.
fn plain_reason_at(words: &[u8]) -> Result<(Reason, &[u8]), BadLine>
    ensures { Gives (λ x. (x.0, x.1.now)) result (first_of reason_word plain_reasons words.now) }
{
    for reason in &PLAIN_REASONS {
        if let Ok(rest) = after_word(reason_word(*reason), words) {
            return Ok((*reason, rest));
        }
    }
    Err(BadLine)
}

fn reason_of(words: &[u8]) -> Result<Reason, BadLine>
    ensures { Gives (λ x. x) result (reason_of words.now) }
{
    if let Ok(rest) = after_word(b"toofew ", words) {
        return Ok(Reason::TooFew(last_number(0, MAX_DOMAIN_COUNT, rest)? as u8));
    }
    match plain_reason_at(words)? {
        (reason, []) => Ok(reason),
        _ => Err(BadLine),
    }
}

/// The refusal of a command, behind its first word.
#[tactic(auto, unfolding(line_format::specs::Readers::refused_of))]
pub fn refused_of(words: &[u8]) -> Result<Report, BadLine>
    ensures { Gives (λ x. x) result (refused_of words.now) }
{
    let (verb, rest) = verb_at(words)?;
    let reason = reason_of(after_word(b" ", rest)?)?;
    Ok(Report::Refused(verb, reason))
}

fn push_reason(into: &mut Vec<u8>, reason: Reason) -> Result<(), OutOfMemory>
    ensures ok { OnOk result (into.new.items ≡ into.old.items ++ reason_text reason) }
    ensures kept { Keeps into.old.items into.new.items }
{
    push_bytes(into, reason_word(reason))?;
    if let Reason::TooFew(domains) = reason {
        push_number_behind(into, b" ", u64::from(domains))?;
    }
    Ok(())
}

/// Appends the refusal of a command.
pub fn push_refused(into: &mut Vec<u8>, verb: Verb, reason: Reason) -> Result<(), OutOfMemory>
    ensures ok { OnOk result (into.new.items
        ≡ into.old.items ++ spaced (codes "refused" ∷ verb_text verb ∷ reason_text reason ∷ [])) }
    ensures kept { Keeps into.old.items into.new.items }
{
    push_behind(into, b"refused ", verb_text(verb))?;
    push_bytes(into, b" ")?;
    push_reason(into, reason)
}

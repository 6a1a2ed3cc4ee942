// Which report ends what is asked.
ghost use Rattle.std.specs.Prelude.{◌≡◌};
ghost use Rattle.open_answers.specs.Endings.{accepted_in, accepted_of, change_of, end_at, ending_of, ends};
ghost use Rattle.open_answers.specs.Endings.{is_end, is_prepared, is_refused, prepared_in, question_of, same_verb};

use crate::question::{Ending, Question};
use fabric_terms::{Body, Command, Report, Verb};
use ring_rules::Input;

/// The partition of which a step takes a Prepared.
pub fn prepared_in(input: &Input) -> Option<u16>
    ensures { result ≡ prepared_in input.now }
{
    match input {
        Input::Fire | Input::Do(_) => None,
        Input::Frame(message) => match &message.body {
            Body::Prepared { partition, .. } => Some(*partition),
            _ => None,
        },
    }
}

fn is_prepared(partition: u16, prepared: Option<u16>) -> bool
    ensures { result ≡ is_prepared partition prepared }
{
    match prepared {
        None => false,
        Some(other) => other == partition,
    }
}

fn same_verb(verb: Verb, other: Verb) -> bool
    ensures { result ≡ same_verb verb other }
{
    match verb {
        Verb::Create => matches!(other, Verb::Create),
        Verb::Swap => matches!(other, Verb::Swap),
        Verb::Heal => matches!(other, Verb::Heal),
        Verb::Lose => matches!(other, Verb::Lose),
        _ => false,
    }
}

fn is_end(question: Question, prepared: Option<u16>, report: &Report) -> bool
    ensures { result ≡ is_end question prepared report.now }
{
    match question {
        Question::Finds(key) => match report {
            Report::Found(point, _) | Report::Nowhere(point) => point.0 == key.0,
            _ => false,
        },
        Question::Changes(partition, verb) => match report {
            Report::Configured(other, _) | Report::Superseded(other, _) => *other == partition,
            Report::Refused(other, _) => {
                same_verb(verb, *other) && is_prepared(partition, prepared)
            }
            _ => false,
        },
        Question::Writes(partition, epoch, lsn) => match report {
            Report::Committed(other, in_epoch, last) => {
                *other == partition && *in_epoch == epoch && lsn <= *last
            }
            Report::Promised(other, above) => *other == partition && epoch < *above,
            _ => false,
        },
    }
}

fn ending_of(index: usize, report: &Report) -> Ending
    ensures { result ≡ ending_of index report.now }
{
    match report {
        Report::Promised(_, _) => Ending::Unknown,
        _ => Ending::Told(index),
    }
}

fn end_at(
    question: Question,
    prepared: Option<u16>,
    index: usize,
    report: &Report,
) -> Option<Ending>
    ensures { result ≡ end_at question prepared index report.now }
{
    if is_end(question, prepared, report) {
        Some(ending_of(index, report))
    } else {
        None
    }
}

/// How the reports of a step end what is asked, if they do: by the first one that does.
pub fn ends(question: Question, prepared: Option<u16>, told: &[Report]) -> Option<Ending>
    ensures { result ≡ ends question prepared told.now }
{
    for (index, report) in told.iter().enumerate() {
        if let Some(ending) = end_at(question, prepared, index, report) {
            return Some(ending);
        }
    }
    None
}

fn is_refused(told: &[Report]) -> bool
    ensures { result ≡ is_refused told.now }
{
    told.iter()
        .any(|report| matches!(report, Report::Refused(_, _)))
}

fn accepted_of(partition: u16, report: &Report) -> Option<Question>
    ensures { result ≡ accepted_of partition report.now }
{
    match report {
        Report::Accepted(other, epoch, lsn) if *other == partition => {
            Some(Question::Writes(partition, *epoch, *lsn))
        }
        _ => None,
    }
}

fn accepted_in(partition: u16, told: &[Report]) -> Option<Question>
    ensures { result ≡ accepted_in partition told.now }
{
    for report in told {
        if let Some(question) = accepted_of(partition, report) {
            return Some(question);
        }
    }
    None
}

fn change_of(partition: u16, verb: Verb, told: &[Report]) -> Option<Question>
    ensures { result ≡ change_of partition verb told.now }
{
    if is_refused(told) {
        None
    } else {
        Some(Question::Changes(partition, verb))
    }
}

/// What a command asks beyond its own step, whose reports these are.
pub fn question_of(command: &Command, told: &[Report]) -> Option<Question>
    ensures { result ≡ question_of command.now told.now }
{
    match command {
        Command::Find(key) => Some(Question::Finds(*key)),
        Command::Create(partition, _) => change_of(*partition, Verb::Create, told),
        Command::Swap(partition, _) => change_of(*partition, Verb::Swap, told),
        Command::Heal(partition, _) => change_of(*partition, Verb::Heal, told),
        Command::Lose(partition, _) => change_of(*partition, Verb::Lose, told),
        Command::Write(partition, _) => {
            if is_refused(told) {
                None
            } else {
                accepted_in(*partition, told)
            }
        }
        _ => None,
    }
}

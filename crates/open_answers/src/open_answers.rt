ghost use Rattle.std.specs.Prelude.{◌≡◌, ◌≤◌, ◌<◌, ◌++◌, ◌∷◌, [], IfOk, length, filter, not, vec_capacity, vec_len};
ghost use Rattle.open_answers.specs.Answers.{answer_of, by_cause, by_end, by_step, by_time, due_of};
ghost use Rattle.open_answers.specs.Answers.{ended_by, is_full, is_of, open_after, opened, seeks, sooner, stays};
ghost use Rattle.open_answers.specs.Endings.{prepared_in, question_of};

use crate::answer::Answer;
use crate::cause::Cause;
use crate::ended::Ended;
use crate::ends::{ends, prepared_in, question_of};
use crate::question::{Ending, Question};
use fabric_terms::{Command, Report};
use ring_points::Point;
use ring_rules::Input;
use std::alloc::{AllocError, Global};
use std::marker::Model;

/// The most answers of a process that are open.
pub const MAX_OPEN_ANSWERS: usize = 256;

/// How many ticks the answer to a command of a partition has. A search has as many as the configured lease.
pub const MAX_ANSWER_TICKS: u64 = 60_000;

/// Who asked, and by which tag he knows the answer. Two answers of a client may have one tag.
#[derive(Clone, Copy, Debug, PartialEq, Eq)]
pub struct Asker {
    pub client: u32,
    pub tag: u32,
}

/// An answer that is open.
#[derive(Clone, Copy, Debug, PartialEq, Eq)]
pub struct OpenAnswer {
    asker: Asker,
    question: Question,
    /// The reading at which its time is over.
    until: u64,
}

/// The answers of a process that are open, in the order of asking: at most 256.
#[derive(Drop)]
pub struct OpenAnswers {
    waiting: Vec<OpenAnswer>,
    lease: u64,
}

impl Model for OpenAnswers {
    ghost use Rattle.std.specs.Prelude.{◌≤◌, length, vec_capacity};
    ghost use Rattle.open_answers.specs.Answers.{Answers, most_open_answers};

    ghost Value = { Answers };

    ghost view = { λ a. record { waiting = a.waiting.items; lease = a.lease } };

    ghost invariant = { λ a. (length a.waiting.items ≤ most_open_answers) ×
        (most_open_answers ≤ vec_capacity a.waiting) };
}

impl OpenAnswers {
    /// No answer is open. It takes the room for as many as can be. The lease is the configured one, in ticks.
    pub fn new(alloc: Global, lease: u64) -> Result<OpenAnswers, AllocError>
        ensures { IfOk result (λ a. a ≡ record { waiting = []; lease = lease }) }
    {
        Ok(OpenAnswers {
            waiting: Vec::with_capacity(alloc, MAX_OPEN_ANSWERS)?,
            lease,
        })
    }

    /// How many answers are open.
    pub fn len(&self) -> usize
        ensures { result ≡ length self.now.waiting }
    {
        self.waiting.len()
    }

    /// Whether no further answer can be open.
    pub fn is_full(&self) -> bool
        ensures { result ≡ is_full self.now }
    {
        self.waiting.len() >= MAX_OPEN_ANSWERS
    }

    /// Takes the answer to a command whose own step made these reports. It stays open where the step does not end it.
    /// There must be room, whatever the step makes: the caller asks before the step is taken.
    pub fn ask(&mut self, asker: Asker, command: &Command, told: &[Report], now: u64) -> Answer
        requires { length self.old.waiting < MAX_OPEN_ANSWERS }
        ensures answer { result ≡ answer_of (question_of command.now told.now) told.now }
        ensures waiting { self.new ≡ record self.old {
          waiting = self.old.waiting ++ stays self.old.lease asker now (question_of command.now told.now) told.now;
        } }
    {
        let Some(question) = question_of(command, told) else {
            return Answer::Done;
        };
        match ends(question, None, told) {
            Some(Ending::Unknown) => Answer::Unknown,
            Some(_) => Answer::Done,
            None => {
                self.add(asker, question, now);
                Answer::Open
            }
        }
    }

    /// Ends the answers that the reports of a step end.
    pub fn hear(&mut self, input: &Input, told: &[Report], ended: &mut Ended)
        ensures ended { ended.new ≡ ended_by (by_step (prepared_in input.now) told.now) self.old.waiting }
        ensures waiting { self.new ≡ record self.old {
          waiting = open_after (by_step (prepared_in input.now) told.now) self.old.waiting;
        } }
    {
        let prepared = prepared_in(input);
        self.end(&Cause::Step { prepared, told }, ended);
    }

    /// Ends the answers whose time is over at this reading.
    pub fn pass(&mut self, now: u64, ended: &mut Ended)
        ensures ended { ended.new ≡ ended_by (by_time now) self.old.waiting }
        ensures waiting { self.new ≡ record self.old { waiting = open_after (by_time now) self.old.waiting } }
    {
        self.end(&Cause::Time(now), ended);
    }

    /// Ends every answer, since the instance has ended: nothing is said of what becomes of the commands.
    #[tactic(auto, using(crate::proofs::EndedAnswers::none_stays))]
    pub fn close(&mut self, ended: &mut Ended)
        ensures ended { ended.new ≡ ended_by by_end self.old.waiting }
        ensures waiting { self.new ≡ record self.old { waiting = [] } }
    {
        self.end(&Cause::End, ended);
    }

    /// Drops the answers of a client that has gone: nobody is told of them.
    pub fn drop_client(&mut self, client: u32)
        ensures { self.new ≡ record self.old { waiting = filter (λ o. not (is_of client o)) self.old.waiting } }
    {
        keep_others(&mut self.waiting, client);
    }

    /// Whether an open answer waits to hear which node holds the point.
    pub fn seeks(&self, point: Point) -> bool
        ensures { result ≡ seeks point.0 self.now.waiting }
    {
        self.waiting.iter().any(
            |answer| matches!(answer.question, Question::Finds(key) if key.0 == point.0),
        )
    }

    /// The least reading at which the time of an answer is over; None where none is open.
    pub fn due(&self) -> Option<u64>
        ensures { result ≡ due_of self.now.waiting }
    {
        due_in(self.waiting.as_slice())
    }

    /// Ends the answers that this ends.
    fn end(&mut self, cause: &Cause, ended: &mut Ended)
        ensures ended { ended.new ≡ ended_by (by_cause cause.now) self.old.waiting }
        ensures waiting { self.new ≡ record self.old { waiting = open_after (by_cause cause.now) self.old.waiting } }
    {
        put_ended(self.waiting.as_slice(), cause, ended);
        keep_open(&mut self.waiting, cause);
    }

    /// Opens an answer.
    fn add(&mut self, asker: Asker, question: Question, now: u64)
        requires { length self.old.waiting < MAX_OPEN_ANSWERS }
        ensures { self.new ≡ record self.old {
          waiting = self.old.waiting ++ opened self.old.lease asker now question ∷ [];
        } }
    {
        let ticks = match question {
            Question::Finds(_) => self.lease,
            Question::Changes(_, _) | Question::Writes(_, _, _) => MAX_ANSWER_TICKS,
        };
        self.waiting.push_reserved(OpenAnswer {
            asker,
            question,
            until: now.saturating_add(ticks),
        });
    }
}

/// How this ends an answer, if it does.
fn ending_by(cause: &Cause, answer: &OpenAnswer) -> Option<Ending>
    ensures { result ≡ by_cause cause.now answer.now }
{
    match cause {
        Cause::Step { prepared, told } => ends(answer.question, *prepared, told),
        Cause::Time(now) if answer.until <= *now => Some(Ending::Late),
        Cause::Time(_) => None,
        Cause::End => Some(Ending::Unknown),
    }
}

fn keep_open(waiting: &mut Vec<OpenAnswer>, cause: &Cause)
    ensures kept { waiting.new.items ≡ open_after (by_cause cause.now) waiting.old.items }
    ensures few { vec_len waiting.new ≤ vec_len waiting.old }
    ensures room { vec_capacity waiting.new ≡ vec_capacity waiting.old }
{
    waiting.retain(|answer| ending_by(cause, answer).is_none());
}

fn keep_others(waiting: &mut Vec<OpenAnswer>, client: u32)
    ensures kept { waiting.new.items ≡ filter (λ o. not (is_of client o)) waiting.old.items }
    ensures few { vec_len waiting.new ≤ vec_len waiting.old }
    ensures room { vec_capacity waiting.new ≡ vec_capacity waiting.old }
{
    waiting.retain(|answer| answer.asker.client != client);
}

/// Puts the answers that this ends in the place of what the list had, in the order of asking.
fn put_ended(answers: &[OpenAnswer], cause: &Cause, ended: &mut Ended)
    requires { length answers.now ≤ MAX_OPEN_ANSWERS }
    ensures { ended.new ≡ ended_by (by_cause cause.now) answers.now }
{
    ended.clear();
    for answer in answers {
        if let Some(ending) = ending_by(cause, answer) {
            ended.push(answer.asker, ending);
        }
    }
}

fn sooner(due: Option<u64>, until: u64) -> u64
    ensures { result ≡ sooner due until }
{
    match due {
        None => until,
        Some(due) => until.min(due),
    }
}

/// The least reading at which the time of one of these is over.
fn due_in(answers: &[OpenAnswer]) -> Option<u64>
    ensures { result ≡ due_of answers.now }
{
    let mut due = None;
    let mut place = answers.len();
    while place > 0 {
        place -= 1;
        due = Some(sooner(due, answers[place].until));
    }
    due
}

// What is said to the clients and to the log, each text once it stands in the buffer.
ghost use Rattle.std.specs.Prelude.{◌≡◌, ◌||◌, ◌∷◌, [], List, ℕ, OnOk};
ghost use Rattle.line_format.specs.Reports.{report_line};
ghost use Rattle.client_sessions.specs.Utterances.{Line, Reply, Uttered};
ghost use Rattle.client_sessions.specs.Sessions.{choice_after, choice_next, ended_replies, ended_reply, is_asked};
ghost use Rattle.client_sessions.specs.Sessions.{is_logged, is_sought, line_if, of_report, of_reports, step_of};
ghost use Rattle.client_sessions.specs.Sessions.{reply_if, watch_replies, watch_reply};
ghost use Rattle.open_answers.specs.Answers.{by_step, ended_by, open_after};
ghost use Rattle.client_sessions.specs.Answers.{own_text, words_replies, words_reply};

use crate::text::{write_ended, write_own, write_words};
use crate::watchers::Watcher;
use door_io::Clients;
use fabric_terms::{Head, OutOfMemory, Report};
use log_lines::{Asking, Written};
use open_answers::{Answer, Asker, Ended, EndedAnswer, OpenAnswers};
use report_lines::print_report;
use ring_points::Point;
use ring_rules::Input;

/// A step of the actor, as its clients and the log hear of it.
#[derive(Drop)]
pub struct StepTold<'a> {
    /// What each line of its reports begins with.
    pub head: &'a Head,
    /// What the step took.
    pub input: Option<&'a Input>,
    pub reports: &'a [Report],
    /// The point that the command of the step asks about.
    pub sought: Option<Point>,
}

fn is_sought(point: Point, sought: Option<Point>) -> bool
    ensures { result ≡ is_sought point.0 sought }
{
    match sought {
        None => false,
        Some(sought) => sought.0 == point.0,
    }
}

/// The points that clients ask about: by an open answer, or by the command of this step.
#[derive(Drop)]
pub struct Asked<'a> {
    pub answers: &'a OpenAnswers,
    pub sought: Option<Point>,
}

impl Asking for Asked<'_> {
    ghost asked = { λ a point. is_asked a.answers.now.waiting a.sought point };

    fn is_asked(&self, point: Point) -> bool {
        is_sought(point, self.sought) || self.answers.seeks(point)
    }
}

/// Says a text to a client, or drops the client where the text found no memory.
pub fn say<C: Clients>(clients: &mut C, client: u32, text: &[u8], written: Result<(), OutOfMemory>)
    ensures { (whole : List ℕ) → OnOk written (text.now ≡ whole) →
        Uttered (Reply client whole ∷ []) (C.told clients.old) (C.told clients.new) }
{
    match written {
        Ok(()) => clients.say(client, text),
        Err(_) => clients.close(client),
    }
}

/// Puts a line into the log, or counts it as lost where it found no memory.
fn log<C: Clients>(clients: &mut C, line: &[u8], written: Result<(), OutOfMemory>)
    ensures { (whole : List ℕ) → OnOk written (line.now ≡ whole) →
        Uttered (Line whole ∷ []) (C.told clients.old) (C.told clients.new) }
{
    match written {
        Ok(()) => clients.log(line),
        Err(_) => clients.lose(),
    }
}

/// Whether a client that watches hears a line: what the log has, or all.
fn hears(watcher: &Watcher, logged: bool) -> bool
    ensures { result ≡ (watcher.now.all || logged) }
{
    watcher.all || logged
}

/// Says a text to a client, if it is to hear it.
fn say_if<C: Clients>(
    clients: &mut C,
    hears: bool,
    client: u32,
    text: &[u8],
    written: Result<(), OutOfMemory>,
)
    ensures { (whole : List ℕ) → OnOk written (text.now ≡ whole) →
        Uttered (reply_if hears client whole) (C.told clients.old) (C.told clients.new) }
{
    if hears {
        say(clients, client, text, written);
    }
}

/// Puts a line into the log, if the log is to have it.
fn log_if<C: Clients>(clients: &mut C, logged: bool, line: &[u8], written: Result<(), OutOfMemory>)
    ensures { (whole : List ℕ) → OnOk written (line.now ≡ whole) →
        Uttered (line_if logged whole) (C.told clients.old) (C.told clients.new) }
{
    if logged {
        log(clients, line, written);
    }
}

/// Says a line to a client that watches, if it is to hear it.
fn tell_watcher<C: Clients>(
    clients: &mut C,
    watcher: &Watcher,
    logged: bool,
    line: &[u8],
    written: Result<(), OutOfMemory>,
)
    ensures { (whole : List ℕ) → OnOk written (line.now ≡ whole) →
        Uttered (watch_reply logged whole watcher.now) (C.told clients.old) (C.told clients.new) }
{
    say_if(
        clients,
        hears(watcher, logged),
        watcher.client,
        line,
        written,
    );
}

/// Says a line to those who watch and are to hear it.
fn tell_watchers<C: Clients>(
    clients: &mut C,
    watchers: &[Watcher],
    logged: bool,
    line: &[u8],
    written: Result<(), OutOfMemory>,
)
    ensures { (whole : List ℕ) → OnOk written (line.now ≡ whole) →
        Uttered (watch_replies logged whole watchers.now) (C.told clients.old) (C.told clients.new) }
{
    for watcher in watchers {
        tell_watcher(clients, watcher, logged, line, written);
    }
}

/// Says the line of a report to the log and to those who watch.
fn tell_line<C: Clients>(
    clients: &mut C,
    watchers: &[Watcher],
    logged: bool,
    line: &[u8],
    written: Result<(), OutOfMemory>,
)
    ensures { (whole : List ℕ) → OnOk written (line.now ≡ whole) →
        Uttered (of_report logged whole watchers.now) (C.told clients.old) (C.told clients.new) }
{
    log_if(clients, logged, line, written);
    tell_watchers(clients, watchers, logged, line, written);
}

/// Writes the line of a report.
fn write_line(text: &mut Vec<u8>, head: &Head, report: &Report) -> Result<(), OutOfMemory>
    ensures { OnOk result (text.new.items ≡ report_line head.now report.now) }
{
    text.clear();
    print_report(head, report, text)
}

/// Says a report to the log, if the log is to have it, and to those who watch.
fn tell_report<C: Clients>(
    clients: &mut C,
    text: &mut Vec<u8>,
    watchers: &[Watcher],
    logged: bool,
    head: &Head,
    report: &Report,
)
    ensures { Uttered (of_report logged (report_line head.now report.now) watchers.now) (C.told clients.old)
        (C.told clients.new) }
{
    let written = write_line(text, head, report);
    tell_line(clients, watchers, logged, text.as_slice(), written);
}

/// Whether the log has the report, which is the next one.
fn choose(written: &mut Written, report: &Report, asked: &Asked<'_>) -> bool
    ensures logged { result ≡ is_logged written.old (is_asked asked.now.answers.now.waiting asked.now.sought)
        report.now }
    ensures next { written.new ≡ choice_next written.old report.now }
{
    written.is_written(report, asked)
}

/// Says the answer to a command, as far as its own step gives it.
pub fn say_own<C: Clients>(
    clients: &mut C,
    text: &mut Vec<u8>,
    asker: Asker,
    head: &Head,
    told: &[Report],
    answer: Answer,
)
    ensures { Uttered (Reply asker.client (own_text asker.tag head.now told.now answer) ∷ []) (C.told clients.old)
        (C.told clients.new) }
{
    let written = write_own(text, asker.tag, head, told, answer);
    say(clients, asker.client, text.as_slice(), written);
}

/// Says the reports of a step, in their order, and keeps what chooses the next ones.
pub fn tell_each_report<C: Clients>(
    clients: &mut C,
    written: &mut Written,
    text: &mut Vec<u8>,
    watchers: &[Watcher],
    asked: &Asked<'_>,
    step: &StepTold<'_>,
)
    ensures said { Uttered (of_reports written.old watchers.now
        (is_asked asked.now.answers.now.waiting asked.now.sought) step.now.head.now step.now.reports.now)
        (C.told clients.old) (C.told clients.new) }
    ensures after { written.new ≡ choice_after written.old step.now.reports.now }
{
    for report in step.reports {
        let logged = choose(written, report, asked);
        tell_report(clients, text, watchers, logged, step.head, report);
    }
}

/// Ends the answers that the reports of a step end.
pub fn hear(answers: &mut OpenAnswers, step: &StepTold<'_>, ended: &mut Ended)
    ensures ended { ended.new ≡ ended_by (by_step (step_of step.now).prepared step.now.reports.now)
        answers.old.waiting }
    ensures waiting { answers.new ≡ record answers.old {
      waiting = open_after (by_step (step_of step.now).prepared step.now.reports.now) answers.old.waiting;
    } }
{
    match step.input {
        Some(input) => answers.hear(input, step.reports, ended),
        None => answers.hear(&Input::Fire, step.reports, ended),
    }
}

/// Says to a client how its answer ends, by a report of this step or without one.
fn say_ended<C: Clients>(
    clients: &mut C,
    text: &mut Vec<u8>,
    head: &Head,
    told: &[Report],
    ended: EndedAnswer,
)
    ensures { Uttered (ended_reply head.now told.now ended ∷ []) (C.told clients.old) (C.told clients.new) }
{
    let written = write_ended(text, head, told, ended.asker.tag, ended.ending);
    say(clients, ended.asker.client, text.as_slice(), written);
}

/// Says to each client how its answer ends by this step.
pub fn say_each_ended<C: Clients>(
    clients: &mut C,
    text: &mut Vec<u8>,
    head: &Head,
    told: &[Report],
    ended: &[EndedAnswer],
)
    ensures { Uttered (ended_replies head.now told.now ended.now) (C.told clients.old) (C.told clients.new) }
{
    for one in ended {
        say_ended(clients, text, head, told, *one);
    }
}

/// Says these words to a client, which end its answer.
fn say_words<C: Clients>(clients: &mut C, text: &mut Vec<u8>, words: &[u8], ended: EndedAnswer)
    ensures { Uttered (words_reply words.now ended ∷ []) (C.told clients.old) (C.told clients.new) }
{
    let written = write_words(text, ended.asker.tag, words);
    say(clients, ended.asker.client, text.as_slice(), written);
}

/// Says these words to each client whose answer has ended.
pub fn say_words_to_each<C: Clients>(
    clients: &mut C,
    text: &mut Vec<u8>,
    words: &[u8],
    ended: &[EndedAnswer],
)
    ensures { Uttered (words_replies words.now ended.now) (C.told clients.old) (C.told clients.new) }
{
    for one in ended {
        say_words(clients, text, words, *one);
    }
}

ghost use Rattle.std.specs.Prelude.{◌≡◌, ◌∷◌, ◌<◌, [], IfOk, length, not};
ghost use Rattle.open_answers.specs.Answers.{by_step, due_of, ended_by, is_full, most_open_answers, open_after};
ghost use Rattle.client_sessions.specs.Utterances.{Uttered};
ghost use Rattle.client_sessions.specs.Watching.{has_place, watched};
ghost use Rattle.client_sessions.specs.Sessions.{after_step, choice_after, ended_replies, fresh_kept, is_asked};
ghost use Rattle.client_sessions.specs.Sessions.{of_reports, of_step, step_of};
ghost use Rattle.client_sessions.specs.Answers.{after_time, answered_by, late_replies, none_open, own_answer};
ghost use Rattle.client_sessions.specs.Answers.{refusal, unknown_replies, with_answer, without_client};

use crate::telling::{
    Asked, StepTold, hear, say, say_each_ended, say_own, say_words_to_each, tell_each_report,
};
use crate::text::{write_lines, write_refusal};
use crate::watchers::{MAX_WATCHERS, Watcher, add_watcher, keep_others};
use door_io::Clients;
use door_lines::Fault;
use fabric_terms::Command;
use log_lines::Written;
use open_answers::{Asker, Ended, OpenAnswers};
use ring_rules::Input;
use std::alloc::{AllocError, Global};
use std::marker::Model;

/// What a process keeps for its clients: the answers that are open, the clients that watch, what chooses the lines of
/// the log, and which client is the parent of the process. Beside these it has room that is used again.
#[derive(Drop)]
pub struct Sessions {
    answers: OpenAnswers,
    watching: Vec<Watcher>,
    written: Written,
    parent: Option<u32>,
    ended: Ended,
    text: Vec<u8>,
}

impl Model for Sessions {
    ghost use Rattle.std.specs.Prelude.{◌≤◌, length, vec_capacity};
    ghost use Rattle.client_sessions.specs.Sessions.{Kept};
    ghost use Rattle.client_sessions.specs.Watching.{most_watchers};

    ghost Value = { Kept };

    ghost view = { λ s. record {
      answers = s.answers;
      watchers = s.watching.items;
      choice = s.written;
      parent = s.parent;
    } };

    ghost invariant = { λ s. (length s.watching.items ≤ most_watchers) ×
        (most_watchers ≤ vec_capacity s.watching) };
}

impl Sessions {
    /// No answer is open and no client watches. The lease is the configured one, in ticks. The log has every report
    /// if `all_lines` says so. The parent is a client, if the process has one.
    pub fn new(
        alloc: Global,
        lease: u64,
        all_lines: bool,
        parent: Option<u32>,
    ) -> Result<Sessions, AllocError>
        ensures { IfOk result (λ s. s ≡ fresh_kept lease all_lines parent) }
    {
        Ok(Sessions {
            answers: OpenAnswers::new(alloc, lease)?,
            watching: Vec::with_capacity(alloc, MAX_WATCHERS)?,
            written: Written::new(all_lines),
            parent,
            ended: Ended::new(alloc)?,
            text: Vec::new(alloc),
        })
    }

    /// Says what a step reported: to the log, to the clients that watch, and to those whose answers the reports end.
    pub fn tell<C: Clients>(&mut self, clients: &mut C, step: &StepTold<'_>)
        ensures said { Uttered (of_step self.old (step_of step.now)) (C.told clients.old) (C.told clients.new) }
        ensures after { self.new ≡ after_step self.old (step_of step.now) }
    {
        self.tell_reports(clients, step);
        self.end_answers(clients, step);
    }

    /// Says the answer to a command, behind what was said of its step. The answer stays open where the step does not
    /// end it. There must be room, whatever the step makes: the caller asks before the step is taken.
    pub fn answer<C: Clients>(
        &mut self,
        clients: &mut C,
        asker: Asker,
        command: &Command,
        step: &StepTold<'_>,
        now: u64,
    )
        requires { length self.old.answers.waiting < most_open_answers }
        ensures said { Uttered (own_answer asker command.now (step_of step.now) ∷ []) (C.told clients.old)
            (C.told clients.new) }
        ensures after { self.new ≡ with_answer self.old asker command.now (step_of step.now) now }
    {
        let answer = self.answers.ask(asker, command, step.reports, now);
        say_own(
            clients,
            &mut self.text,
            asker,
            step.head,
            step.reports,
            answer,
        );
    }

    /// Refuses a line of a client.
    pub fn refuse<C: Clients>(
        &mut self,
        clients: &mut C,
        client: u32,
        tag: Option<u32>,
        fault: Fault,
    )
        ensures said { Uttered (refusal client tag fault ∷ []) (C.told clients.old) (C.told clients.new) }
        ensures after { self.new ≡ self.old }
    {
        let written = write_refusal(&mut self.text, tag, fault);
        say(clients, client, self.text.as_slice(), written);
    }

    /// Answers a line of a client at once, by these lines.
    pub fn finish<C: Clients>(&mut self, clients: &mut C, asker: Asker, lines: &[u8])
        ensures said { Uttered (answered_by asker lines.now ∷ []) (C.told clients.old) (C.told clients.new) }
        ensures after { self.new ≡ self.old }
    {
        let written = write_lines(&mut self.text, asker.tag, lines);
        say(clients, asker.client, self.text.as_slice(), written);
    }

    /// A client begins to watch, or changes what it hears. Where as many others watch as may, nothing changes.
    pub fn watch(&mut self, client: u32, all: bool) -> bool
        ensures has_place { result ≡ has_place self.old.watchers client }
        ensures watched { self.new ≡ record self.old {
          watchers = watched self.old.watchers (record { client = client; all = all });
        } }
    {
        add_watcher(&mut self.watching, Watcher { client, all })
    }

    /// Ends the answers whose time is over at this reading.
    pub fn pass<C: Clients>(&mut self, clients: &mut C, now: u64)
        ensures said { Uttered (late_replies self.old now) (C.told clients.old) (C.told clients.new) }
        ensures after { self.new ≡ after_time self.old now }
    {
        self.answers.pass(now, &mut self.ended);
        say_words_to_each(clients, &mut self.text, b"late", self.ended.as_slice());
    }

    /// Ends every answer, since the instance has ended. What comes is told of a new one.
    pub fn close<C: Clients>(&mut self, clients: &mut C)
        ensures said { Uttered (unknown_replies self.old) (C.told clients.old) (C.told clients.new) }
        ensures after { self.new ≡ none_open self.old }
    {
        self.answers.close(&mut self.ended);
        self.written.begin();
        say_words_to_each(clients, &mut self.text, b"unknown", self.ended.as_slice());
    }

    /// A client has gone: nothing is kept for it, and nobody is told of its answers.
    pub fn drop_client(&mut self, client: u32)
        ensures { self.new ≡ without_client self.old client }
    {
        self.answers.drop_client(client);
        keep_others(&mut self.watching, client);
    }

    /// Whether a further answer can be open.
    pub fn has_room(&self) -> bool
        ensures { result ≡ not (is_full self.now.answers) }
    {
        !self.answers.is_full()
    }

    /// The least reading at which the time of an answer is over; None where none is open.
    pub fn due(&self) -> Option<u64>
        ensures { result ≡ due_of self.now.answers.waiting }
    {
        self.answers.due()
    }

    /// The client that is the parent of the process, if it has one. It stands from life to life.
    pub fn parent(&self) -> Option<u32>
        ensures { result ≡ self.now.parent }
    {
        self.parent
    }

    /// How many answers are open.
    pub fn open(&self) -> usize
        ensures { result ≡ length self.now.answers.waiting }
    {
        self.answers.len()
    }

    /// How many clients watch.
    pub fn watching(&self) -> usize
        ensures { result ≡ length self.now.watchers }
    {
        self.watching.len()
    }

    /// Says the reports of a step to the log and to the clients that watch.
    fn tell_reports<C: Clients>(&mut self, clients: &mut C, step: &StepTold<'_>)
        ensures said { Uttered (of_reports self.old.choice self.old.watchers
            (is_asked self.old.answers.waiting step.now.sought) step.now.head.now step.now.reports.now)
            (C.told clients.old) (C.told clients.new) }
        ensures after { self.new ≡ record self.old {
          choice = choice_after self.old.choice step.now.reports.now;
        } }
    {
        let asked = Asked {
            answers: &self.answers,
            sought: step.sought,
        };
        let watching = self.watching.as_slice();
        tell_each_report(
            clients,
            &mut self.written,
            &mut self.text,
            watching,
            &asked,
            step,
        );
    }

    /// Ends the answers that the reports of a step end, and says so.
    fn end_answers<C: Clients>(&mut self, clients: &mut C, step: &StepTold<'_>)
        ensures said { Uttered (ended_replies step.now.head.now step.now.reports.now
            (ended_by (by_step (step_of step.now).prepared step.now.reports.now) self.old.answers.waiting))
            (C.told clients.old) (C.told clients.new) }
        ensures after { self.new ≡ record self.old {
          answers = record self.old.answers {
            waiting = open_after (by_step (step_of step.now).prepared step.now.reports.now) self.old.answers.waiting;
          };
        } }
    {
        hear(&mut self.answers, step, &mut self.ended);
        say_each_ended(
            clients,
            &mut self.text,
            step.head,
            step.reports,
            self.ended.as_slice(),
        );
    }
}

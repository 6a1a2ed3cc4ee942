ghost use Rattle.std.specs.Prelude.{◌≡◌, ◌≤◌, ◌<◌, ◌++◌, ◌∷◌, [], IfOk, length};

use crate::open_answers::{Asker, MAX_OPEN_ANSWERS};
use crate::question::Ending;
use std::alloc::{AllocError, Global};
use std::marker::Model;

/// An answer that has ended, and how.
#[derive(Clone, Copy, Debug, PartialEq, Eq)]
pub struct EndedAnswer {
    pub asker: Asker,
    pub ending: Ending,
}

/// The answers that a call has ended, in the order of asking. Its room is made once, and each call puts its own in the
/// place of what was there. Contracts see it as its list.
#[derive(Drop)]
pub struct Ended {
    answers: Vec<EndedAnswer>,
}

impl Model for Ended {
    ghost use Rattle.std.specs.Prelude.{◌≤◌, List, length, vec_capacity};
    ghost use Rattle.open_answers.specs.Answers.{most_open_answers};
    ghost use Rattle.open_answers.specs.declared.ended.EndedAnswer.{EndedAnswer};

    ghost Value = { List EndedAnswer };

    ghost view = { λ e. e.answers.items };

    ghost invariant = { λ e. most_open_answers ≤ vec_capacity e.answers };
}

impl Ended {
    /// No answer has ended. It takes the room for as many as can be open.
    pub fn new(alloc: Global) -> Result<Ended, AllocError>
        ensures { IfOk result (λ e. e ≡ []) }
    {
        Ok(Ended {
            answers: Vec::with_capacity(alloc, MAX_OPEN_ANSWERS)?,
        })
    }

    /// The answers, in the order of asking.
    pub fn as_slice(&self) -> &[EndedAnswer]
        ensures { result.now ≡ self.now }
    {
        self.answers.as_slice()
    }

    /// Drops all of them.
    pub(crate) fn clear(&mut self)
        ensures { self.new ≡ [] }
    {
        self.answers.clear();
    }

    /// Adds one.
    pub(crate) fn push(&mut self, asker: Asker, ending: Ending)
        requires { length self.old < MAX_OPEN_ANSWERS }
        ensures { self.new ≡ self.old ++ record { asker = asker; ending = ending } ∷ [] }
    {
        self.answers.push_reserved(EndedAnswer { asker, ending });
    }
}

//! The open answers: which report ends which line that was asked.
//!
//! A command that ends with its own step is never open. The answer to any other one is open until a report ends it,
//! its time is over, or the instance ends. This layer decides which report that is: by the report, and by the
//! partition whose Prepared the step took, since a refused reconfiguration does not name its partition. It knows no
//! client's connection and writes nothing. It stands on the reports and on the inputs of a node. It promises that
//! each answer ends once, and that those that end come out in the order of asking. The room is made once: no call
//! takes memory but `new`.
#![tactic(auto)]

mod answer;
mod cause;
mod ended;
mod ends;
mod laws;
mod open_answers;
mod question;

pub use answer::Answer;
pub use ended::{Ended, EndedAnswer};
pub use laws::each_answer_ends_or_stays;
pub use open_answers::{Asker, MAX_ANSWER_TICKS, MAX_OPEN_ANSWERS, OpenAnswers};
pub use question::{Ending, Question};

ghost use Rattle.std.specs.Prelude.{◌≡◌};
ghost use Rattle.arbiter_core.specs.declared.answer.ArbiterError.TheVariants.{OutOfMemory as NoMemory};

use fabric_terms::{Body, OutOfMemory, Record};
use ring_points::Who;

/// What an arbitrator does about a message.
#[derive(Drop)]
pub enum Answer {
    /// `body` goes to `to`, once `kept` is synced.
    Reply {
        kept: Option<Record>,
        to: Who,
        body: Body,
    },
    /// The message is no question to this arbitrator, or a claim about a victim that nobody has accused here.
    Nothing,
}

/// Why an arbitrator can not answer. A refused call changes nothing.
#[derive(Clone, Copy, Debug, PartialEq, Eq)]
pub enum ArbiterError {
    /// Memory is short. It comes only where something would be kept.
    OutOfMemory,
    /// The 1,000,001st entry would be made: the arbitrator can keep no more.
    TableFull,
}

impl From<OutOfMemory> for ArbiterError {
    ghost from_gives = { λ _ refusal. refusal ≡ NoMemory };

    fn from(_refused: OutOfMemory) -> ArbiterError {
        ArbiterError::OutOfMemory
    }
}

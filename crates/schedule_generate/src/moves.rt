ghost use Rattle.std.specs.Prelude.{◌≡◌};
ghost use Rattle.schedule_generate.specs.Moves.{event_for};

use fabric_terms::{Command, Event};

/// An event of a generated schedule that is no tick.
#[derive(Clone, Copy)]
pub enum Move {
    /// A process begins. The reading of its clock is None exactly for an arbitrator.
    Start(u16, Option<u64>),
    /// A process ends.
    Stop(u16),
    /// A node's timer fires.
    Fire(u16),
    /// The frame of this number comes to its addressee.
    Give(u64),
    /// A node is to ask another for a link.
    Link(u16, u16),
}

impl Move {
    pub fn event(self) -> Event
        ensures { result ≡ event_for self }
    {
        match self {
            Move::Start(actor, reading) => Event::Start { actor, reading },
            Move::Stop(actor) => Event::Stop { actor },
            Move::Fire(node) => Event::Fire { node },
            Move::Give(frame) => Event::Give { frame },
            Move::Link(node, other) => Event::Do {
                node,
                command: Command::Link(other),
            },
        }
    }
}

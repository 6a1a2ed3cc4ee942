ghost use Rattle.std.specs.Prelude.{◌≡◌};

use crate::ranges::RangeSet;

/// Arbitrator a is actor a above this. The actors above `MAX_NODE_NUMBER` and up to it are neither node nor arbitrator.
pub const ARBITRATORS: u16 = 32768;

/// A process: the actor, and which of its starts this is.
///
/// Node n is actor n (1 to `MAX_NODE_NUMBER`), arbitrator a is actor `ARBITRATORS` + a (1 to `MAX_ARBITRATORS`). Each
/// start of a node has an instance number one greater than the former, from 1. An arbitrator's instance is 0, and so
/// is that of "whichever instance of this node runs".
#[derive(Clone, Copy, Debug, PartialEq, Eq, PartialOrd, Ord, Default)]
pub struct Who {
    pub actor: u16,
    pub instance: u32,
}

/// What an arbitrator rules on an accusation: the accuser is the first of this victim, another was
/// first, or the accuser is accused itself. The default only fills places that hold no ruling.
#[derive(Clone, Copy, Debug, PartialEq, Eq, Default)]
pub enum Ruling {
    Granted,
    Taken,
    #[default]
    Refused,
}

/// A part of the ring on its way from a giver to a receiver. Its number, from 1, is the giver's.
#[derive(Drop)]
pub struct Flight {
    pub number: u32,
    pub part: RangeSet,
}

impl Flight {
    /// The same flight again.
    pub fn copy(&self) -> Flight
        ensures { result ≡ self.now }
    {
        Flight {
            number: self.number,
            part: self.part.copy(),
        }
    }
}

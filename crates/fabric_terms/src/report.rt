ghost use Rattle.std.specs.Prelude.{◌≡◌};

use crate::names::{NameText, NameTexts, NameValue};
use ring_points::{Epoch, Point, RangeSet, Who};
use std::default::Default;
use std::marker::Model;

/// Why a node has left the ring.
#[derive(Clone, Copy, Debug, PartialEq, Eq)]
pub enum Why {
    /// Its reading reached its fence.
    Fence,
    /// So many arbitrators refused it that it can't have a majority.
    Lost,
    /// A counter reached its last number.
    Counters,
    /// It had accused 1,024 instances.
    AccusedFull,
}

/// The first word of a command that can be refused.
#[derive(Clone, Copy, Debug, PartialEq, Eq)]
pub enum Verb {
    Link,
    Part,
    Give,
    Join,
    Create,
    Swap,
    Heal,
    Lose,
    Write,
    Resolve,
    Names,
}

/// Why a command is refused.
#[derive(Clone, Copy, Debug, PartialEq, Eq)]
pub enum Reason {
    /// The node is not routing.
    NotRouting,
    /// A table is full.
    Full,
    /// A link with the node stands already.
    Linked,
    /// No link with the node stands.
    NotLinked,
    /// Something of the kind is under way.
    Busy,
    /// The result would need more than 32 intervals.
    TooMany,
    /// No point would move.
    Empty,
    /// The node does not hold point 0.
    NotManager,
    /// The partition has a configuration.
    Exists,
    /// The partition has no configuration.
    NoUnit,
    /// The node is no member.
    NotMember,
    /// The node is not the primary.
    NotPrimary,
    /// This primary has committed nothing yet.
    NotReady,
    /// A counter reached its last number.
    Counters,
    /// Only so many fault domains have a node that is up.
    TooFew(u8),
}

/// Partitions, in the order in which they were given. Contracts see them as their list.
#[derive(Drop)]
pub struct Partitions {
    numbers: Vec<u16>,
}

impl Model for Partitions {
    ghost use Rattle.std.specs.Prelude.{List, ℕ};

    ghost Value = { List ℕ };

    ghost view = { λ a. a.numbers.items };
}

impl Partitions {
    pub fn new(numbers: Vec<u16>) -> Self
        ensures { result ≡ numbers.items }
    {
        Partitions { numbers }
    }

    pub fn as_slice(&self) -> &[u16]
        ensures { result.now ≡ self.now }
    {
        self.numbers.as_slice()
    }
}

/// What an actor tells of a step.
#[derive(Drop)]
pub enum Report {
    /// The ranges that it owns, and the reading from which on it holds none of them, if there is one.
    Own(RangeSet, Option<u64>),
    /// It accused an instance.
    Accused(Who),
    /// The arbitrators freed it from an instance that it accused.
    Discharged(Who),
    /// It will take over from an instance at this reading.
    Heir(Who, u64),
    /// It took ranges over from an instance that has left for good.
    TookOver(Who, RangeSet),
    /// It gave ranges to an instance, as the flight of this number.
    Gave(Who, u32, RangeSet),
    /// It took a flight of an instance.
    Took(Who, u32, RangeSet),
    /// Its own flight to an instance came back.
    Returned(Who, u32, RangeSet),
    /// It left the ring.
    LeftRing(Why),
    /// Its process ended.
    Stopped,
    /// The node that holds a point.
    Found(Point, Who),
    /// No way to a point is known here.
    Nowhere(Point),
    /// Its replica promised an epoch.
    Promised(u16, Epoch),
    /// Its replica has the log of an epoch, up to this entry.
    Adopted(u16, Epoch, u32),
    /// Its replica accepted an entry.
    Accepted(u16, Epoch, u32),
    /// Its replica is the primary of an epoch.
    IsPrimary(u16, Epoch),
    /// All entries up to this one are committed.
    Committed(u16, Epoch, u32),
    /// A configuration is active.
    Configured(u16, Epoch),
    /// A reconfiguration gave way to another epoch.
    Superseded(u16, Epoch),
    /// The known partitions of a range.
    UnitList(Partitions),
    /// What a name of a partition's name service stands for.
    Resolved(u16, NameText, NameValue),
    /// A name stands for nothing.
    Unresolved(u16, NameText),
    /// The first names with a point in a range, at most 64.
    NameList(u16, NameTexts),
    /// A command was refused.
    Refused(Verb, Reason),
}

impl Default for Report {
    fn default() -> Self {
        Report::Stopped
    }
}

/// Where a report comes from: the line of the event, the true time, the instance and its reading (None
/// for an arbitrator).
#[derive(Clone, Copy, Debug, PartialEq, Eq)]
pub struct Head {
    pub line: u64,
    pub time: Option<u64>,
    pub who: Who,
    pub reading: Option<u64>,
}

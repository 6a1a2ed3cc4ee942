use fabric_terms::Command;
use ring_points::Point;

/// Who says a line. It decides which requests the line may have.
#[derive(Clone, Copy, Debug, PartialEq, Eq)]
pub enum Speaker {
    /// A client at the door of a node without a parent.
    NodeClient,
    /// A client at the door of a node that has a parent. The links of this node have one length, so no link is asked
    /// for with a length of its own.
    ChildClient,
    /// The parent of a node. Beside what a client may ask, it asks what it may serve.
    Parent,
    /// A client at the door of an arbitrator, which takes no commands.
    ArbiterClient,
}

/// What a line asks for.
#[derive(Drop)]
pub enum Request {
    /// The node does what an operator commands.
    Command(Command),
    /// The state of the actor.
    State,
    /// Entries of the own replica of a partition, from the first one on, at most `count` of them.
    Log {
        partition: u16,
        first: u32,
        count: u8,
    },
    /// From now on, every report that the log has.
    Watch,
    /// From now on, every report.
    WatchAll,
    /// The actor leaves, and its process ends.
    Leave,
    /// The process ends at once.
    End,
    /// For how many ticks the parent may serve a point.
    Hold(Point),
    /// Whether the replica of a partition is its primary.
    Lead(u16),
}

/// A line that was asked.
#[derive(Drop)]
pub struct Asked {
    /// The number by which the client knows the answer. Two lines may have the same one.
    pub tag: u32,
    pub request: Request,
}

/// The bytes are no line that this speaker may ask.
#[derive(Clone, Copy, Debug, PartialEq, Eq)]
pub struct BadRequest {
    /// The tag, where the line begins with one and a blank behind it.
    pub tag: Option<u32>,
}

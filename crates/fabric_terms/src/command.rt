use crate::bytes::Payload;
use crate::names::NameText;
use ring_points::{Interval, Point};

/// What an operator tells a node to do.
#[derive(Drop)]
pub enum Command {
    /// Ask a node for a link with the configured lease.
    Link(u16),
    /// Ask a node for a link with a lease of this many ticks.
    LinkFor(u16, u64),
    /// End the link with a node.
    Part(u16),
    /// Give a node the points that are nearer to it.
    GiveNear(u16),
    /// Give a node all points.
    GiveAll(u16),
    /// Join the ring through a member.
    Join(u16),
    /// Find the node that answers for a point.
    Find(Point),
    /// Create a partition with this many replicas.
    Create(u16, u8),
    /// Move a partition's primary to a node.
    Swap(u16, u16),
    /// Place a partition's replicas anew.
    Heal(u16, u8),
    /// Go on from one node's replica, with loss of data.
    Lose(u16, u16),
    /// Write to a partition.
    Write(u16, Payload),
    /// List the known partitions of a range.
    Units(Interval),
    /// Ask a partition's name service what a name stands for.
    Resolve(u16, NameText),
    /// Ask a partition's name service for the names with a point in a range.
    Names(u16, Interval),
}

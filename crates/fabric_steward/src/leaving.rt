use fabric_terms::Command;

/// What the plan of a node that leaves wants next.
#[derive(Clone, Copy)]
pub enum Leaving {
    /// Place a partition anew with so many replicas, so that it has a majority without this node.
    Place(u16, u8),
    /// Move a partition's primary to a node.
    Swap(u16, u16),
    /// Give a node all points.
    Give(u16),
    /// End the link with a node.
    Part(u16),
    /// Wait for what was commanded.
    Rest,
    /// Nothing is left to do.
    Done,
}

/// What a node that leaves does next.
#[derive(Drop)]
pub enum Parting {
    /// It takes this command.
    Say(Command),
    /// It looks again at this reading, or earlier if something comes.
    Wait(u64),
    /// It is gone: the process ends.
    Gone,
}

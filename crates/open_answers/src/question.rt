use fabric_terms::Verb;
use ring_points::{Epoch, Point};

/// What an open answer waits for.
#[derive(Clone, Copy, Debug, PartialEq, Eq)]
pub enum Question {
    /// Which node holds a point, or that no way to it is known.
    Finds(Point),
    /// The end of a reconfiguration of a partition, which this command began.
    Changes(u16, Verb),
    /// That an entry of a partition is committed: its epoch and its number, as it was accepted.
    Writes(u16, Epoch, u32),
}

/// How an open answer ends.
#[derive(Clone, Copy, Debug, PartialEq, Eq)]
pub enum Ending {
    /// By the report at this place of its step, counted from 0. That report is the last of the answer.
    Told(usize),
    /// Nothing is said of what becomes of the command.
    Unknown,
    /// Its time is over.
    Late,
}

/// What a `state` answer says of the door.
#[derive(Clone, Copy, Debug, PartialEq, Eq)]
pub struct SessionFacts {
    /// How many answers are open.
    pub open: u64,
    /// How many clients watch.
    pub watchers: u64,
}

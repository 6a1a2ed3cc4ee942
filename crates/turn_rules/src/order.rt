use fabric_terms::Command;

/// A command of the source: in which turn, counted from 1, and to the actor at which place, counted from 0.
#[derive(Drop)]
pub struct Order {
    pub turn: u64,
    pub place: usize,
    pub command: Command,
}

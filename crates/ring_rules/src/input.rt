use fabric_terms::{Command, Message};

/// What comes to a node.
#[derive(Drop)]
pub enum Input {
    /// Its timer fires.
    Fire,
    /// A frame arrives.
    Frame(Message),
    /// An operator commands it.
    Do(Command),
}

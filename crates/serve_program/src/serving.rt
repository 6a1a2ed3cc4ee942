use serve_words::{Parent, ServeOptions};
use std::cell::Cell;

/// Which actor runs, by which FILE and options.
#[derive(Clone, Copy)]
pub struct Serving<'a> {
    pub actor: u16,
    /// The number of an arbitrator; 0 of a node.
    pub arbiter: u8,
    pub file: &'a str,
    pub options: ServeOptions<'a>,
    /// Of a node that has a parent.
    pub parent: Option<Parent>,
    /// Whether the parent was told its first line: from then on standard output has nothing but its lines.
    pub greeted: &'a Cell<bool>,
}

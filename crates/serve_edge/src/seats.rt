// Where each descriptor of a served process has its seat on the board.
use door_io::{MAX_CLIENTS, MAX_PAGE_CLIENTS};

/// The socket of the links.
pub const LINKS: usize = 0;

/// What the log is written to.
pub const OUTPUT: usize = 1;

/// The listener of the door.
pub const DOOR: usize = 2;

/// The listener of the page.
pub const PAGE: usize = 3;

/// The lines of the parent.
pub const PARENT: usize = 4;

/// What the parent reads.
pub const ANSWERS: usize = 5;

/// The first client of the door; the others follow.
pub const CLIENTS: usize = 6;

/// The first connection of the page; the others follow.
pub const READERS: usize = CLIENTS + MAX_CLIENTS;

/// How many seats there are.
pub const SEATS: usize = READERS + MAX_PAGE_CLIENTS;

/// How many clients a door has at once. A further one is closed.
pub const MAX_CLIENTS: usize = 64;

/// How many bytes a line of a client has, without its line feed.
pub const MAX_ASKED: usize = 4_096;

/// How many bytes wait for a client. A client for which more would wait is dropped.
pub const MAX_UNREAD: usize = 262_144;

/// How many clients the page has at once. A further one is closed.
pub const MAX_PAGE_CLIENTS: usize = 16;

/// How many bytes the head of a request has.
pub const MAX_HEAD: usize = 2_048;

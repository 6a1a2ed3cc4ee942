use libc::net::{POLLERR, POLLHUP, POLLIN, POLLNVAL, POLLOUT};
use libc::types::pollfd;

/// What the system says of a descriptor now, of these events and of its other side.
fn said_of(descriptor: i32, events: i16) -> i16 {
    let mut asked = [pollfd {
        fd: descriptor,
        events,
        revents: 0,
    }];
    libc::net::poll(&mut asked, 0);
    asked[0].revents
}

/// Whether the descriptor has one of the events now, or its other side is gone.
fn has(descriptor: i32, events: i16) -> bool {
    said_of(descriptor, events) != 0
}

/// Whether nobody reads any more what is written to the descriptor.
pub fn is_unread(descriptor: i32) -> bool {
    said_of(descriptor, POLLOUT) & (POLLERR | POLLHUP | POLLNVAL) != 0
}

/// Whether a read would not wait.
pub fn may_read(descriptor: i32) -> bool {
    has(descriptor, POLLIN)
}

/// Whether a write of at most `MAX_PIECE` bytes would not wait.
pub fn may_write(descriptor: i32) -> bool {
    has(descriptor, POLLOUT)
}

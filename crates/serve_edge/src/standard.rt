ghost use Rattle.std.specs.Prelude.{◌≤◌, length, IfOk};

use crate::limits::MAX_PIECE;
use crate::ready::is_unread;
use std::io;
use std::io::ErrorKind;

/// The descriptor of standard input.
pub const STANDARD_INPUT: i32 = 0;

/// The descriptor of standard output.
pub const STANDARD_OUTPUT: i32 = 1;

/// The descriptor of standard error.
pub const STANDARD_ERROR: i32 = 2;

/// How many of at most so many bytes a call of the system has moved that answered this, or why it moved none.
fn counted(answer: isize, most: usize) -> io::Result<usize>
    ensures { IfOk result (λ n. n ≤ most) }
{
    if answer < 0 {
        return Err(io::Error::from_raw_os_error(os::errno()));
    }
    Ok(most.min(answer as usize))
}

/// Takes bytes of a descriptor that is ready.
pub fn read_front(descriptor: i32, into: &mut [u8]) -> io::Result<usize>
    ensures { IfOk result (λ n. n ≤ length into.old) }
{
    let most = into.len();
    counted(libc::read(descriptor, into), most)
}

/// Writes a front of at most `MAX_PIECE` bytes to a descriptor that is ready, and says how many they were. Where nobody
/// reads the descriptor, nothing is written, since the system would end the process by a signal.
pub fn write_front(descriptor: i32, bytes: &[u8]) -> io::Result<usize>
    ensures { IfOk result (λ n. n ≤ length bytes.now) }
{
    if is_unread(descriptor) {
        return Err(io::Error::from(ErrorKind::BrokenPipe));
    }
    let front = &bytes[..bytes.len().min(MAX_PIECE)];
    counted(libc::write(descriptor, front), front.len())
}

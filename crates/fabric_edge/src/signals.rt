ghost use Rattle.std.specs.Prelude.{◌≡◌, ◌↔◌, IsTrue};
ghost use Rattle.std.specs.IoError.{error_kind};

use std::io::{Error, ErrorKind};

/// How often a call is made at most where a signal cuts it short each time.
pub const MAX_CALLS: usize = 64;

/// Whether a signal cut the call short, so that it is to be made again.
pub fn is_cut_short(error: &Error) -> bool
    ensures { IsTrue result ↔ (error_kind error.now ≡ ErrorKind.Interrupted) }
{
    error.kind() == ErrorKind::Interrupted
}

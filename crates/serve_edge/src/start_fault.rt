ghost use Rattle.std.specs.Prelude.{◌≡◌};
ghost use Rattle.std.specs.IoError.{error_kind};
ghost use Rattle.serve_edge.specs.Faults.{code_of, fault_of, line_of};

use std::io;
use std::io::ErrorKind;

/// Why a start ends before anything was sent or recorded.
#[derive(Clone, Copy, Debug, PartialEq, Eq)]
pub enum StartFault {
    /// There was not enough memory.
    OutOfMemory,
    /// FILE is no regular file, or it is not read.
    Read,
    /// The folder is not made, or it is not of this user alone.
    FolderOpen,
    /// Another process runs the actor of the folder.
    FolderLocked,
    /// The file `actor` is not made, read or kept.
    FolderKeep,
    /// The key is no regular file of the right length, or others may read it.
    Key,
    /// The door is not bound.
    Door,
    /// The page is not bound.
    Page,
}

impl StartFault {
    /// The status with which the process ends.
    pub fn code(self) -> u8
        ensures { result ≡ code_of self }
    {
        match self {
            StartFault::OutOfMemory => 1,
            StartFault::Read => 3,
            StartFault::FolderOpen | StartFault::FolderLocked | StartFault::FolderKeep => 17,
            StartFault::Key | StartFault::Door | StartFault::Page => 18,
        }
    }

    /// The last line that it writes.
    pub fn line(self) -> &'static [u8]
        ensures { result.now ≡ line_of self }
    {
        match self {
            StartFault::OutOfMemory => b"",
            StartFault::Read => b"fault read\n",
            StartFault::FolderOpen => b"fault folder open\n",
            StartFault::FolderLocked => b"fault folder locked\n",
            StartFault::FolderKeep => b"fault folder keep\n",
            StartFault::Key => b"fault key\n",
            StartFault::Door => b"fault door\n",
            StartFault::Page => b"fault page\n",
        }
    }
}

/// Why a start ends whose step has failed so: this fault, unless memory was missing.
pub fn fault_of(error: io::Error, fault: StartFault) -> StartFault
    ensures { result ≡ fault_of (error_kind error) fault }
{
    match error.kind() {
        ErrorKind::OutOfMemory => StartFault::OutOfMemory,
        _ => fault,
    }
}

use std::fs::File;
use std::io;
use std::rt::Files;

/// A machine's files, of which a process can lock one.
pub trait LockFiles: Files {
    /// Takes the lock of an open file, which ends where the file is closed. `WouldBlock` where another open of the same
    /// file has it, in this process or in another.
    fn try_lock(&self, file: &Self::File) -> io::Result<()>;
}

impl LockFiles for HostRuntime {
    fn try_lock(&self, file: &File) -> io::Result<()> {
        Ok(file.try_lock()?)
    }
}

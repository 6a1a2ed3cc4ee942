ghost use Rattle.std.specs.Prelude.{◌≤◌, ◌+◌, vec_len, IfOk};

use crate::limits::MAX_FILE;
use crate::start_fault::{StartFault, fault_of};
use frame_seal::{MAX_KEY, MIN_KEY};
use std::alloc::Global;
use std::fs::{File, Metadata, OpenFile};
use std::io::{ErrorKind, Read};
use std::os::unix::fs::MetadataExt;
use std::rt::Files;
use std::{fs, io};

/// The bits of a mode that let others than the owner do anything.
const OTHERS: u32 = 0o077;

/// Whether only its owner may do anything with it.
pub fn is_closed(found: &Metadata) -> bool {
    found.mode() & OTHERS == 0
}

/// What a reader has, up to so many bytes.
pub fn read_most<F: Read>(alloc: Global, file: &mut F, most: usize) -> io::Result<Vec<u8>>
    ensures { IfOk result (λ bytes. vec_len bytes ≤ most) }
{
    let mut bytes = Vec::new(alloc);
    file.take(most as u64).read_to_end(&mut bytes)?;
    bytes.truncate(most);
    Ok(bytes)
}

/// Opens a regular file. Anything else is not opened: to open a pipe could wait without end.
pub(crate) fn open_regular<R: Files>(rt: &R, path: &str) -> io::Result<R::File> {
    if !fs::metadata(rt, path)?.is_file() {
        return Err(io::Error::from(ErrorKind::InvalidInput));
    }
    File::open(rt, path)
}

/// The file of a configuration. Of a longer one `MAX_FILE` bytes are read.
pub fn read_file<R: Files>(rt: &R, alloc: Global, path: &str) -> Result<Vec<u8>, StartFault>
    ensures { IfOk result (λ bytes. vec_len bytes ≤ MAX_FILE) }
{
    let read = open_regular(rt, path).and_then(|mut file| read_most(alloc, &mut file, MAX_FILE));
    read.map_err(|error| fault_of(error, StartFault::Read))
}

/// The bytes of a key file that nobody but its owner may read.
fn key_bytes<R: Files>(rt: &R, alloc: Global, path: &str) -> io::Result<Vec<u8>>
    ensures { IfOk result (λ bytes. vec_len bytes ≤ MAX_KEY + 1) }
{
    let mut file = open_regular(rt, path)?;
    if !is_closed(&file.metadata()?) {
        return Err(io::Error::from(ErrorKind::PermissionDenied));
    }
    read_most(alloc, &mut file, MAX_KEY + 1)
}

/// The key of sealed frames.
pub fn read_key<R: Files>(rt: &R, alloc: Global, path: &str) -> Result<Vec<u8>, StartFault>
    ensures long { IfOk result (λ bytes. MIN_KEY ≤ vec_len bytes) }
    ensures short { IfOk result (λ bytes. vec_len bytes ≤ MAX_KEY) }
{
    match key_bytes(rt, alloc, path) {
        Ok(bytes) if bytes.len() >= MIN_KEY && bytes.len() <= MAX_KEY => Ok(bytes),
        Ok(_) => Err(StartFault::Key),
        Err(error) => Err(fault_of(error, StartFault::Key)),
    }
}

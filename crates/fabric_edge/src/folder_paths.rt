use std::alloc::Global;
use std::fs::{File, OpenFile};
use std::io::ErrorKind;
use std::rt::Files;
use std::{fs, io};

/// The name of the folder of records, under the current folder.
const FOLDER: &str = "kept";

/// The path of an actor's file.
pub fn path_of(alloc: Global, actor: u16) -> io::Result<String> {
    Ok(format!(in alloc; "{FOLDER}/{actor}")?)
}

/// The path of an actor's file under any folder.
pub fn path_in(alloc: Global, folder: &str, actor: u16) -> io::Result<String> {
    Ok(format!(in alloc; "{folder}/{FOLDER}/{actor}")?)
}

/// Makes the folder where it is missing.
pub fn make_folder<R: Files>(rt: &R) -> io::Result<()> {
    match fs::create_dir(rt, FOLDER) {
        Err(error) if error.kind() != ErrorKind::AlreadyExists => Err(error),
        _ => Ok(()),
    }
}

/// Waits until the names of the files and of the folder itself are kept for good.
pub fn sync_folders<R: Files>(rt: &R) -> io::Result<()> {
    File::open(rt, FOLDER)?.sync_all()?;
    File::open(rt, ".")?.sync_all()
}

use crate::files::is_closed;
use crate::start_fault::{StartFault, fault_of};
use std::fs::DirBuilder;
use std::io::ErrorKind;
use std::os::unix::fs::{DirBuilderExt, MetadataExt};
use std::rt::{Env, Files};
use std::{env, fs, io};

/// The mode of a folder that is made.
const FOLDER_MODE: u32 = 0o700;

/// Makes the folder where it is missing.
fn make<R: Files>(rt: &R, path: &str) -> io::Result<()> {
    match DirBuilder::new().mode(FOLDER_MODE).create(rt, path) {
        Err(error) if error.kind() != ErrorKind::AlreadyExists => Err(error),
        _ => Ok(()),
    }
}

/// Moves into the folder, which is made where it is missing, and says whether it is one of this user, closed to others.
fn entered<R: Files + Env>(rt: &R, path: &str) -> io::Result<bool> {
    make(rt, path)?;
    env::set_current_dir(rt, path)?;
    let found = fs::metadata(rt, ".")?;
    Ok(found.uid() == libc::geteuid() && is_closed(&found))
}

/// Moves into the folder of the actor. It becomes the current folder, also where it is refused.
pub fn enter_folder<R: Files + Env>(rt: &R, path: &str) -> Result<(), StartFault> {
    match entered(rt, path) {
        Ok(true) => Ok(()),
        Ok(false) => Err(StartFault::FolderOpen),
        Err(error) => Err(fault_of(error, StartFault::FolderOpen)),
    }
}

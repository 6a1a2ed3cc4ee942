use crate::start_fault::{StartFault, fault_of};
use std::fs::Permissions;
use std::io::ErrorKind;
use std::net::{Net, SocketAddr, TcpListener, TcpStream};
use std::os::unix::fs::{FileTypeExt, PermissionsExt};
use std::os::unix::net::UnixListener;
use std::rt::Files;
use std::{fs, io};

/// The name of the door in the current folder.
pub const DOOR_NAME: &str = "door";

/// The mode of the door: its owner alone may connect.
const DOOR_MODE: u32 = 0o600;

/// Removes the door of a process that is gone. Anything but a socket stays, and is an error.
fn remove_stale<R: Files>(rt: &R) -> io::Result<()> {
    match fs::symlink_metadata(rt, DOOR_NAME) {
        Ok(found) if found.file_type().is_socket() => fs::remove_file(rt, DOOR_NAME),
        Ok(_) => Err(io::Error::from(ErrorKind::AlreadyExists)),
        Err(error) if error.kind() == ErrorKind::NotFound => Ok(()),
        Err(error) => Err(error),
    }
}

fn door<R: Files + Net>(rt: &R) -> io::Result<UnixListener> {
    remove_stale(rt)?;
    let listener = UnixListener::bind(rt, DOOR_NAME)?;
    fs::set_permissions(rt, DOOR_NAME, Permissions::from_mode(DOOR_MODE))?;
    listener.set_nonblocking(true)?;
    Ok(listener)
}

/// Binds the door in the current folder, in place of a stale one. Whoever calls it has the lock of the folder's actor,
/// so no other process has the door. The folder is closed to others already while the mode is not set.
pub fn bind_door<R: Files + Net>(rt: &R) -> Result<UnixListener, StartFault> {
    door(rt).map_err(|error| fault_of(error, StartFault::Door))
}

fn page<R: Net<Listener = TcpListener, Stream = TcpStream>>(
    rt: &R,
    address: SocketAddr,
) -> io::Result<TcpListener> {
    let listener = TcpListener::bind(rt, address)?;
    listener.set_nonblocking(true)?;
    Ok(listener)
}

/// Binds the page.
pub fn bind_page<R: Net<Listener = TcpListener, Stream = TcpStream>>(
    rt: &R,
    address: SocketAddr,
) -> Result<TcpListener, StartFault> {
    page(rt, address).map_err(|error| fault_of(error, StartFault::Page))
}

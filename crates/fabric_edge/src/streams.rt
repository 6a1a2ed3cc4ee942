use std::fs::File;
use std::io;
use std::os::fd::AsRawFd;

/// The number of standard error, the last of the three standard streams.
const LAST_STREAM: i32 = 2;

/// Takes the place of each standard stream that is closed, by a folder: no byte of it can be read or written. The
/// system gives a file that is opened the lowest free number. So a file of records would else stand in the place of the
/// stream, and what is written to the stream would go into the file.
pub fn hold_streams(rt: &HostRuntime) -> io::Result<Vec<File>> {
    let mut held = Vec::new(rt.alloc());
    for _ in 0..=LAST_STREAM {
        let folder = File::open(rt, "/")?;
        if folder.as_raw_fd() > LAST_STREAM {
            break;
        }
        held.push(folder)?;
    }
    Ok(held)
}

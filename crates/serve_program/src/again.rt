use crate::recalling::recall_by;
use again_choice::Found;
use edge_io::write_all;
use fabric_edge::StdoutSink;
use fabric_status::Status;
use serve_edge::{PollBoard, read_file, see_actor, see_records};
use serve_top::{End, again_line, found_at, found_by, read_actor, read_setup};

/// What a folder is found to be. The locks that show that no process has it end with this call.
fn look_at(rt: &HostRuntime, board: &PollBoard, folder: &str) -> Result<Found, End> {
    let alloc = rt.alloc();
    let seen = match see_actor(rt, alloc, folder) {
        Ok(seen) => seen,
        Err(fault) => return found_at(fault),
    };
    let Some(file) = read_actor(alloc, seen.lines())? else {
        return Ok(Found::Unreadable);
    };
    let mut records = match see_records(rt, alloc, folder, file.actor) {
        Ok(records) => records,
        Err(fault) => return found_at(fault),
    };
    let recalled = recall_by(rt, board, &mut records, file.actor);
    found_by(file, recalled)
}

/// What each of the folders is found to be.
fn look_at_all(rt: &HostRuntime, folders: &[String]) -> Result<Vec<Found>, End> {
    let board = PollBoard::new(rt.alloc())?;
    let mut all = Vec::new(rt.alloc());
    for folder in folders {
        let found = look_at(rt, &board, folder.as_str())?;
        all.push(found)?;
    }
    Ok(all)
}

/// The line 2 of FILE by which the ring of these folders begins again.
fn line_for(rt: &HostRuntime, path: &str, folders: &[String]) -> Result<Vec<u8>, End> {
    let bytes = read_file(rt, rt.alloc(), path)?;
    let setup = read_setup(rt.alloc(), &bytes)?;
    let found = look_at_all(rt, folders)?;
    again_line(rt.alloc(), setup, &found, folders)
}

/// Reads FILE and the folders of a ring whose nodes have all stopped, and writes the line 2 by which it begins again.
pub fn tell_again(rt: &HostRuntime, path: &str, folders: &[String]) -> End {
    let line = match line_for(rt, path, folders) {
        Ok(line) => line,
        Err(end) => return end,
    };
    let mut sink = StdoutSink::new(rt);
    match write_all(&mut sink, &line) {
        Ok(()) => End::As(Status::Ok),
        Err(_) => End::As(Status::WriteFault),
    }
}

use edge_io::Clock;
use fabric_edge::MonoClock;
use fabric_status::Status;
use serve_edge::DOOR_NAME;
use serve_top::{End, Replies, push_asked};
use std::io::{Read, Write};
use std::os::unix::net::UnixStream;
use std::time::Duration;
use std::{env, io};
use stream_cut::{Cut, MAX_CUT, StreamCut};

/// For how many ticks a client waits.
const MAX_ASK_TICKS: u64 = 70_000;

/// The most pieces that a client reads.
const MAX_PIECES: u64 = 1_000_000_000;

/// Connects to the door of the folder.
fn connect(rt: &HostRuntime, folder: &str) -> io::Result<UnixStream> {
    env::set_current_dir(rt, folder)?;
    UnixStream::connect(rt, DOOR_NAME)
}

/// All lines, each with its tag.
fn asked(rt: &HostRuntime, lines: &[String]) -> Result<Vec<u8>, End> {
    let mut text = Vec::new(rt.alloc());
    let mut tag = 0u64;
    for line in lines {
        tag = tag.saturating_add(1);
        push_asked(&mut text, tag, line.as_bytes())?;
    }
    Ok(text)
}

/// Takes the lines that have come whole. One that is too long to be cut is a long answer: it says no end, and no fault.
fn take_lines(cut: &mut StreamCut, replies: &mut Replies) {
    for _ in 0..=MAX_CUT {
        match cut.next() {
            Cut::More => return,
            Cut::TooLong => {}
            Cut::Line => replies.take(cut.line()),
        }
    }
}

/// Reads and prints until each line is done.
fn hear(rt: &HostRuntime, stream: &mut UnixStream, replies: &mut Replies) -> Result<(), End> {
    let mut clock = MonoClock::new(rt);
    let until = clock.now().saturating_add(MAX_ASK_TICKS);
    let mut cut = StreamCut::new(rt.alloc(), MAX_CUT)?;
    let mut piece = [0u8; 4096];
    for _ in 0..MAX_PIECES {
        if replies.is_done() {
            return Ok(());
        }
        let left = until.saturating_sub(clock.now());
        if left == 0
            || stream
                .set_read_timeout(Some(Duration::from_millis(left)))
                .is_err()
        {
            return Err(End::NoDoor);
        }
        let room = cut.room().min(piece.len());
        match stream.read(&mut piece[..room]) {
            Ok(0) => return Err(End::NoDoor),
            Ok(count) => {
                if io::writer(rt).write_all(&piece[..count]).is_err() {
                    return Err(End::As(Status::WriteFault));
                }
                cut.take(&piece[..count]);
                take_lines(&mut cut, replies);
            }
            Err(error) if error.kind() == io::ErrorKind::Interrupted => {}
            Err(_) => return Err(End::NoDoor),
        }
    }
    Err(End::NoDoor)
}

/// Asks the process of a folder these lines, and prints what it says.
fn ask_all(rt: &HostRuntime, folder: &str, lines: &[String]) -> Result<End, End> {
    let text = asked(rt, lines)?;
    let Ok(mut stream) = connect(rt, folder) else {
        return Err(End::NoDoor);
    };
    if stream.write_all(&text).is_err() {
        return Err(End::NoDoor);
    }
    let mut replies = Replies::new(lines.len() as u64);
    hear(rt, &mut stream, &mut replies)?;
    if replies.has_undone() {
        Ok(End::Undone)
    } else {
        Ok(End::As(Status::Ok))
    }
}

/// Asks the process that runs in a folder.
pub fn ask_process(rt: &HostRuntime, folder: &str, lines: &[String]) -> End {
    match ask_all(rt, folder, lines) {
        Ok(end) => end,
        Err(end) => end,
    }
}

//! A door, a log and a rest in memory: what they give, whom they drop, and what they count.
use door_io::{
    Door, MAX_ASKED, MemClient, MemDoor, MemReportLog, MemRest, ReportLog, Rest, Said, Scripted,
};
use source_lines::MAX_LINE;
use std::alloc::{AllocError, Global};
use std::process::Abort;

// A line of a client may be as long as a line of a schedule, and no longer.
const _: () = prove!(MAX_ASKED == MAX_LINE);

/// A door to two clients. The second takes eight bytes.
fn door(alloc: Global, script: Vec<Scripted>) -> Result<MemDoor, AllocError> {
    let mut clients = Vec::new(alloc);
    clients.push(MemClient::new(alloc, 1000))?;
    clients.push(MemClient::new(alloc, 8))?;
    Ok(MemDoor::new(script, clients))
}

/// What was said to the first and to the second client.
fn said<'a>(rt: &impl Abort, door: &'a MemDoor) -> (&'a [u8], &'a [u8]) {
    match door.clients() {
        [first, second] => (first.said(), second.said()),
        _ => panic!(rt; "two clients"),
    }
}

/// A line of so many equal bytes.
fn line_of(alloc: Global, byte: u8, count: usize) -> Result<Vec<u8>, AllocError> {
    vec![in alloc; byte; count]
}

/// A line of client 0, a quiet moment, lines of 4,097 and of 4,096 bytes of client 1, one that is too long, and the end
/// of client 0.
fn script(alloc: Global) -> Result<Vec<Scripted>, AllocError> {
    let mut script = Vec::new(alloc);
    script.push(Scripted::Line(0, Vec::from_slice(alloc, b"@1 state")?))?;
    script.push(Scripted::Quiet)?;
    script.push(Scripted::Line(1, line_of(alloc, b'x', 4097)?))?;
    script.push(Scripted::Line(1, line_of(alloc, b'y', 4096)?))?;
    script.push(Scripted::TooLong(1))?;
    script.push(Scripted::Gone(0))?;
    Ok(script)
}

#[test]
fn a_door_gives_its_script(rt: HostRuntime) {
    let script = script(rt.alloc()).expect(&rt, "memory");
    let mut door = door(rt.alloc(), script).expect(&rt, "memory");
    let mut into = [0; MAX_ASKED];
    assert_eq!(rt; door.next(&mut into), Said::Line(0, 8));
    assert_eq!(rt; into[..8], b"@1 state"[..]);
    assert_eq!(rt; door.next(&mut into), Said::Quiet);
    assert_eq!(rt; door.next(&mut into), Said::TooLong(1));
    assert_eq!(rt; door.next(&mut into), Said::Line(1, 4096));
    assert_eq!(rt; into[4095], b'y');
    assert_eq!(rt; door.next(&mut into), Said::TooLong(1));
    assert_eq!(rt; door.next(&mut into), Said::Gone(0));
    assert_eq!(rt; door.next(&mut into), Said::Quiet);
    assert_eq!(rt; door.next(&mut into), Said::Quiet);
}

#[test]
fn a_full_client_is_dropped(rt: HostRuntime) {
    let mut door = door(rt.alloc(), Vec::new(rt.alloc())).expect(&rt, "memory");
    door.answer(1, b"done 1\n");
    door.answer(0, b"done 1\n");
    door.answer(1, b"done 2\n");
    door.answer(1, b"\n");
    door.answer(0, b"done 2\n");
    door.answer(2, b"done 3\n");
    let (first, second) = said(&rt, &door);
    assert_eq!(rt; first, b"done 1\ndone 2\n".as_slice());
    assert_eq!(rt; second, b"done 1\n".as_slice());
}

#[test]
fn a_full_log_counts(rt: HostRuntime) {
    let mut log = MemReportLog::new(rt.alloc(), 2);
    log.log(b"one\n");
    log.log(b"two\n");
    log.log(b"three\n");
    log.log(b"four\n");
    match log.lines() {
        [first, second] => {
            assert_eq!(rt; first.as_slice(), b"one\n".as_slice());
            assert_eq!(rt; second.as_slice(), b"two\n".as_slice());
        }
        _ => panic!(rt; "two lines"),
    }
    assert_eq!(rt; log.dropped(), 2);
}

#[test]
fn a_rest_returns_at_once(rt: HostRuntime) {
    let mut rest = MemRest::new();
    assert_eq!(rt; rest.last(), None);
    rest.rest(250);
    assert_eq!(rt; rest.last(), Some(250));
}

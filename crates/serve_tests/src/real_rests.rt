// What ends the rest of a service.
use crate::temporary::{enter, remove};
use door_io::{Door, MAX_ASKED, ReportLog, Rest};
use edge_io::Links;
use serve_edge::{
    DOOR_NAME, DoorClients, LogOutput, PARENT_CLIENT, ParentStream, PollBoard, PollRest,
    ServedDoor, ServedLinks, SocketDoor, StdoutLog, WritingRest, bind_door,
};
use std::fs::OpenOptions;
use std::io::{Read, Write};
use std::net::UdpSocket;
use std::os::fd::AsRawFd;
use std::os::unix::net::UnixStream;
use std::process::Abort;
use std::test::Fail;
use std::time::Duration;

/// The rest ends before this reading of the board.
fn ends_before<R: Rest>(rt: &impl Abort, rest: &mut R, board: &PollBoard, most: u64, before: u64) {
    rest.rest(most);
    let now = board.now();
    assert!(rt; now < before, "{now}");
}

#[test]
fn a_rest_lasts_as_long_as_it_is_told(rt: HostRuntime) -> Result<(), Fail> {
    let board = PollBoard::new(rt.alloc())?;
    let output = LogOutput::new(rt.alloc(), &board, 1)?;
    let mut rest = PollRest::new(&rt, &board, &output);
    rest.rest(60);
    assert!(rt; board.now() >= 59);
    ends_before(&rt, &mut rest, &board, 0, 5_000);
    Ok(())
}

#[test]
fn what_a_client_says_ends_a_rest(rt: HostRuntime) -> Result<(), Fail> {
    enter(&rt)?;
    let board = PollBoard::new(rt.alloc())?;
    let output = LogOutput::new(rt.alloc(), &board, 1)?;
    let mut rest = PollRest::new(&rt, &board, &output);
    let clients = DoorClients::new(rt.alloc(), &board)?;
    let mut door = SocketDoor::new(&clients, bind_door(&rt)?);
    let mut client = UnixStream::connect(&rt, DOOR_NAME)?;
    ends_before(&rt, &mut rest, &board, 60_000, 30_000);
    door.next(&mut [0; MAX_ASKED]);
    client.write_all(b"one\ntwo\n")?;
    ends_before(&rt, &mut rest, &board, 60_000, 30_000);
    door.next(&mut [0; MAX_ASKED]);
    // The second line has come already, so nothing more is waited for.
    ends_before(&rt, &mut rest, &board, 60_000, 30_000);
    remove(&rt)
}

/// How many bytes come there within so many milliseconds, at most 16.
fn comes(stream: &mut UnixStream, milliseconds: u64) -> Result<usize, Fail> {
    stream.set_read_timeout(Some(Duration::from_millis(milliseconds)))?;
    Ok(stream.read(&mut [0; 16]).unwrap_or(0))
}

// Records are synced before a rest, so nothing that rests on them is written before it.
#[test]
fn what_is_said_is_written_at_a_rest(rt: HostRuntime) -> Result<(), Fail> {
    enter(&rt)?;
    let board = PollBoard::new(rt.alloc())?;
    let output = LogOutput::new(rt.alloc(), &board, 1)?;
    let clients = DoorClients::new(rt.alloc(), &board)?;
    let (mut parent, child) = UnixStream::pair(&rt)?;
    let streams = (child.as_raw_fd(), child.as_raw_fd());
    let stream = ParentStream::new(rt.alloc(), &board, streams, 100)?;
    let rest = PollRest::new(&rt, &board, &output);
    let mut rest = WritingRest::new(rest, &clients, Some(&stream));
    let mut door = ServedDoor::new(SocketDoor::new(&clients, bind_door(&rt)?), Some(&stream));
    let mut client = UnixStream::connect(&rt, DOOR_NAME)?;
    door.next(&mut [0; MAX_ASKED]);
    door.answer(64, b"done 1\n");
    door.answer(PARENT_CLIENT, b"done 22\n");
    stream.gather();
    door.next(&mut [0; MAX_ASKED]);
    assert_eq!(rt; (comes(&mut client, 20)?, comes(&mut parent, 20)?), (0, 0));
    rest.rest(0);
    assert_eq!(rt;
        (comes(&mut client, 5_000)?, comes(&mut parent, 5_000)?),
        (7, 8)
    );
    remove(&rt)
}

#[test]
fn a_datagram_ends_a_rest(rt: HostRuntime) -> Result<(), Fail> {
    let board = PollBoard::new(rt.alloc())?;
    let output = LogOutput::new(rt.alloc(), &board, 1)?;
    let mut rest = PollRest::new(&rt, &board, &output);
    let free = UdpSocket::bind(&rt, "127.0.0.1:0")?.local_addr()?;
    let mut links = ServedLinks::new(&rt, rt.alloc(), &board, Some(free));
    assert_eq!(rt; links.listen(1, "192.0.2.1:4600"), Ok(()));
    let socket = UdpSocket::bind(&rt, "127.0.0.1:0")?;
    socket.send_to(b"hello", free)?;
    ends_before(&rt, &mut rest, &board, 60_000, 30_000);
    let mut into = [0; 1500];
    assert_eq!(rt; links.receive(1, &mut into), Ok(Some(5)));
    assert_eq!(rt; links.receive(1, &mut into), Ok(None));
    Ok(())
}

#[test]
fn a_log_that_is_read_again_ends_a_rest(rt: HostRuntime) -> Result<(), Fail> {
    let (_reader, writer) = UnixStream::pair(&rt)?;
    let board = PollBoard::new(rt.alloc())?;
    let output = LogOutput::new(rt.alloc(), &board, writer.as_raw_fd())?;
    let mut rest = PollRest::new(&rt, &board, &output);
    let mut log = StdoutLog::new(&rt, &output);
    log.log(b"one\n");
    ends_before(&rt, &mut rest, &board, 60_000, 30_000);
    Ok(())
}

// The disk of a log that is full takes nothing, although it is always ready.
#[test]
fn an_output_that_takes_nothing_is_asked_again_in_pauses(rt: HostRuntime) -> Result<(), Fail> {
    let full = OpenOptions::new().write(true).open(&rt, "/dev/full")?;
    let board = PollBoard::new(rt.alloc())?;
    let output = LogOutput::new(rt.alloc(), &board, full.as_raw_fd())?;
    let mut rest = PollRest::new(&rt, &board, &output);
    let mut log = StdoutLog::new(&rt, &output);
    log.log(b"one\n");
    for _ in 0..6 {
        rest.rest(60_000);
    }
    let now = board.now();
    assert!(rt; now >= 200 && now < 30_000, "{now}");
    assert_eq!(rt; log.dropped(), 0);
    Ok(())
}

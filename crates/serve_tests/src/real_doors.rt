// Clients of a door on a Unix socket.
use crate::temporary::{enter, remove};
use door_io::{Door, MAX_ASKED, MAX_CLIENTS, Said};
use serve_edge::{
    DOOR_NAME, DoorClients, PARENT_CLIENT, ParentStream, PollBoard, ServedDoor, SocketDoor,
    bind_door,
};
use std::io::{Read, Write};
use std::os::fd::AsRawFd;
use std::os::unix::net::UnixStream;
use std::process::Abort;
use std::test::Fail;
use std::time::Duration;

/// The door of the current folder, for these clients.
fn door<'a>(rt: &HostRuntime, clients: &'a DoorClients<'a>) -> Result<SocketDoor<'a>, Fail> {
    let listener = bind_door(rt)?;
    Ok(SocketDoor::new(clients, listener))
}

/// A client of the door, which waits for 5 seconds.
fn client(rt: &HostRuntime) -> Result<UnixStream, Fail> {
    let stream = UnixStream::connect(rt, DOOR_NAME)?;
    stream.set_read_timeout(Some(Duration::from_secs(5)))?;
    Ok(stream)
}

/// The door gives this, whose line is this.
fn gives<D: Door>(rt: &impl Abort, door: &mut D, want: Said, line: &[u8]) {
    let mut into = [0; MAX_ASKED];
    let said = door.next(&mut into);
    assert_eq!(rt; said, want);
    if let Said::Line(_, count) = said {
        assert_eq!(rt; &into[..count], line);
    }
}

/// The client reads this.
fn reads(rt: &impl Abort, client: &mut UnixStream, want: &[u8]) -> Result<(), Fail> {
    let mut into = [0; 16];
    let count = client.read(&mut into)?;
    assert_eq!(rt; &into[..count], want);
    Ok(())
}

#[test]
fn lines_of_clients_come_in_rotation(rt: HostRuntime) -> Result<(), Fail> {
    enter(&rt)?;
    let board = PollBoard::new(rt.alloc())?;
    let clients = DoorClients::new(rt.alloc(), &board)?;
    let mut door = door(&rt, &clients)?;
    let (mut first, mut second) = (client(&rt)?, client(&rt)?);
    first.write_all(b"one\ntwo\nthr")?;
    second.write_all(b"uno\n")?;
    gives(&rt, &mut door, Said::Line(64, 3), b"one");
    gives(&rt, &mut door, Said::Line(65, 3), b"uno");
    gives(&rt, &mut door, Said::Line(64, 3), b"two");
    gives(&rt, &mut door, Said::Quiet, b"");
    first.write_all(b"ee\n")?;
    gives(&rt, &mut door, Said::Line(64, 5), b"three");
    remove(&rt)
}

#[test]
fn an_answer_goes_to_its_client(rt: HostRuntime) -> Result<(), Fail> {
    enter(&rt)?;
    let board = PollBoard::new(rt.alloc())?;
    let clients = DoorClients::new(rt.alloc(), &board)?;
    let mut door = door(&rt, &clients)?;
    let (mut first, mut second) = (client(&rt)?, client(&rt)?);
    gives(&rt, &mut door, Said::Quiet, b"");
    door.answer(65, b"done 2\n");
    door.answer(64, b"done 1\n");
    door.answer(66, b"done 3\n");
    clients.write_out();
    reads(&rt, &mut first, b"done 1\n")?;
    reads(&rt, &mut second, b"done 2\n")?;
    remove(&rt)
}

#[test]
fn a_client_that_ends_is_gone_behind_its_lines(rt: HostRuntime) -> Result<(), Fail> {
    enter(&rt)?;
    let board = PollBoard::new(rt.alloc())?;
    let clients = DoorClients::new(rt.alloc(), &board)?;
    let mut door = door(&rt, &clients)?;
    let mut first = client(&rt)?;
    first.write_all(b"one\npart")?;
    drop(first);
    gives(&rt, &mut door, Said::Line(64, 3), b"one");
    gives(&rt, &mut door, Said::Gone(64), b"");
    gives(&rt, &mut door, Said::Quiet, b"");
    let mut second = client(&rt)?;
    second.write_all(b"two\n")?;
    gives(&rt, &mut door, Said::Line(128, 3), b"two");
    remove(&rt)
}

#[test]
fn a_line_that_is_too_long_is_said_once(rt: HostRuntime) -> Result<(), Fail> {
    enter(&rt)?;
    let board = PollBoard::new(rt.alloc())?;
    let clients = DoorClients::new(rt.alloc(), &board)?;
    let mut door = door(&rt, &clients)?;
    let mut first = client(&rt)?;
    first.write_all(&[b'x'; 5000])?;
    first.write_all(b"\nshort\n")?;
    gives(&rt, &mut door, Said::TooLong(64), b"");
    gives(&rt, &mut door, Said::Line(64, 5), b"short");
    remove(&rt)
}

#[test]
fn a_client_that_does_not_read_is_dropped(rt: HostRuntime) -> Result<(), Fail> {
    enter(&rt)?;
    let board = PollBoard::new(rt.alloc())?;
    let clients = DoorClients::new(rt.alloc(), &board)?;
    let mut door = door(&rt, &clients)?;
    let _client = client(&rt)?;
    gives(&rt, &mut door, Said::Quiet, b"");
    let text = vec![in rt.alloc(); b'x'; 250_000]?;
    for _ in 0..8 {
        door.answer(64, &text);
    }
    gives(&rt, &mut door, Said::Gone(64), b"");
    remove(&rt)
}

#[test]
fn a_client_more_than_there_are_places_is_closed(rt: HostRuntime) -> Result<(), Fail> {
    enter(&rt)?;
    let board = PollBoard::new(rt.alloc())?;
    let clients = DoorClients::new(rt.alloc(), &board)?;
    let mut door = door(&rt, &clients)?;
    let mut connected = Vec::new(rt.alloc());
    for _ in 0..MAX_CLIENTS {
        connected.push(client(&rt)?)?;
        gives(&rt, &mut door, Said::Quiet, b"");
    }
    let mut further = client(&rt)?;
    gives(&rt, &mut door, Said::Quiet, b"");
    assert_eq!(rt; door.clients(), MAX_CLIENTS);
    reads(&rt, &mut further, b"")?;
    remove(&rt)
}

/// The stream of a parent that has the other end of the connection.
fn stream_of<'a>(
    rt: &HostRuntime,
    board: &'a PollBoard,
    child: &UnixStream,
) -> Result<ParentStream<'a>, Fail> {
    let streams = (child.as_raw_fd(), child.as_raw_fd());
    Ok(ParentStream::new(rt.alloc(), board, streams, 100)?)
}

/// The clients of a door, and the stream of a parent.
#[derive(Clone, Copy)]
struct Parts<'a> {
    clients: &'a DoorClients<'a>,
    stream: &'a ParentStream<'a>,
}

/// The door of the current folder, for a parent and for clients.
fn served_door<'a>(rt: &HostRuntime, parts: Parts<'a>) -> Result<ServedDoor<'a>, Fail> {
    let door = door(rt, parts.clients)?;
    Ok(ServedDoor::new(door, Some(parts.stream)))
}

#[test]
fn a_parent_and_clients_come_in_turn(rt: HostRuntime) -> Result<(), Fail> {
    enter(&rt)?;
    let board = PollBoard::new(rt.alloc())?;
    let (mut parent, child) = UnixStream::pair(&rt)?;
    let stream = stream_of(&rt, &board, &child)?;
    let clients = DoorClients::new(rt.alloc(), &board)?;
    let parts = Parts {
        clients: &clients,
        stream: &stream,
    };
    let mut door = served_door(&rt, parts)?;
    let mut first = client(&rt)?;
    first.write_all(b"one\ntwo\n")?;
    parent.write_all(b"uno\ndos\n")?;
    stream.gather();
    parent.write_all(b"tres\n")?;
    gives(&rt, &mut door, Said::Line(PARENT_CLIENT, 3), b"uno");
    gives(&rt, &mut door, Said::Line(64, 3), b"one");
    gives(&rt, &mut door, Said::Line(PARENT_CLIENT, 3), b"dos");
    gives(&rt, &mut door, Said::Line(64, 3), b"two");
    gives(&rt, &mut door, Said::Quiet, b"");
    door.answer(PARENT_CLIENT, b"done 1\n");
    stream.write_out();
    reads(&rt, &mut parent, b"done 1\n")?;
    drop(parent);
    stream.gather();
    gives(&rt, &mut door, Said::Line(PARENT_CLIENT, 4), b"tres");
    stream.gather();
    gives(&rt, &mut door, Said::Line(PARENT_CLIENT, 6), b"@0 end");
    gives(&rt, &mut door, Said::Quiet, b"");
    remove(&rt)
}

#[test]
fn a_parent_may_read_late_but_not_too_late(rt: HostRuntime) -> Result<(), Fail> {
    enter(&rt)?;
    let board = PollBoard::new(rt.alloc())?;
    let (_parent, child) = UnixStream::pair(&rt)?;
    let stream = stream_of(&rt, &board, &child)?;
    let clients = DoorClients::new(rt.alloc(), &board)?;
    let parts = Parts {
        clients: &clients,
        stream: &stream,
    };
    let mut door = served_door(&rt, parts)?;
    let text = vec![in rt.alloc(); b'x'; 250_000]?;
    for _ in 0..8 {
        door.answer(PARENT_CLIENT, &text);
    }
    board.set_now(99);
    stream.gather();
    gives(&rt, &mut door, Said::Quiet, b"");
    assert!(rt; !stream.is_silent());
    board.set_now(100);
    stream.gather();
    assert!(rt; stream.is_silent());
    gives(&rt, &mut door, Said::Line(PARENT_CLIENT, 6), b"@0 end");
    remove(&rt)
}

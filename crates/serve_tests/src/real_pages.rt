// Requests to a page on TCP.
use door_io::{MAX_HEAD, PageDoor};
use serve_edge::{PageSockets, PollBoard, bind_page};
use std::io::{Read, Write};
use std::net::{SocketAddr, TcpListener, TcpStream};
use std::process::Abort;
use std::test::Fail;
use std::time::Duration;

/// A page of the machine's own, and its address.
fn page<'a>(rt: &HostRuntime, board: &'a PollBoard) -> Result<(PageSockets<'a>, SocketAddr), Fail> {
    let free = TcpListener::bind(rt, "127.0.0.1:0")?.local_addr()?;
    let listener = bind_page(rt, free)?;
    Ok((PageSockets::new(rt.alloc(), board, listener)?, free))
}

/// A client of the page, which waits for 5 seconds.
fn client(rt: &HostRuntime, at: SocketAddr) -> Result<TcpStream, Fail> {
    let stream = TcpStream::connect(rt, at)?;
    stream.set_read_timeout(Some(Duration::from_secs(5)))?;
    Ok(stream)
}

/// The page has this head of a client.
fn has(rt: &impl Abort, page: &mut PageSockets<'_>, want: Option<u32>, head: &[u8]) {
    let mut into = [0; MAX_HEAD];
    let found = page.next(&mut into);
    assert_eq!(rt; found.map(|found| found.0), want);
    if let Some((_, count)) = found {
        assert_eq!(rt; &into[..count], head);
    }
}

/// The client reads this, and then the end.
fn reads(rt: &impl Abort, client: &mut TcpStream, want: &[u8]) -> Result<(), Fail> {
    let mut into = [0; 16];
    let count = client.read(&mut into)?;
    assert_eq!(rt; &into[..count], want);
    if count > 0 {
        assert_eq!(rt; client.read(&mut into)?, 0);
    }
    Ok(())
}

#[test]
fn a_request_is_answered_and_closed(rt: HostRuntime) -> Result<(), Fail> {
    let board = PollBoard::new(rt.alloc())?;
    let (mut page, at) = page(&rt, &board)?;
    let mut client = client(&rt, at)?;
    client.write_all(b"GET /")?;
    has(&rt, &mut page, Some(64), b"GET /");
    client.write_all(b"state ")?;
    has(&rt, &mut page, Some(64), b"GET /state ");
    has(&rt, &mut page, None, b"");
    page.answer(64, b"ok\n");
    has(&rt, &mut page, None, b"");
    reads(&rt, &mut client, b"ok\n")
}

#[test]
fn a_head_that_does_not_come_is_closed_in_time(rt: HostRuntime) -> Result<(), Fail> {
    let board = PollBoard::new(rt.alloc())?;
    let (mut page, at) = page(&rt, &board)?;
    let mut client = client(&rt, at)?;
    has(&rt, &mut page, None, b"");
    board.set_now(1_999);
    client.write_all(b"GET")?;
    has(&rt, &mut page, Some(64), b"GET");
    board.set_now(2_000);
    has(&rt, &mut page, None, b"");
    reads(&rt, &mut client, b"")
}

#[test]
fn an_answer_that_is_not_taken_is_dropped_in_time(rt: HostRuntime) -> Result<(), Fail> {
    let board = PollBoard::new(rt.alloc())?;
    let (mut page, at) = page(&rt, &board)?;
    let _client = client(&rt, at)?;
    has(&rt, &mut page, None, b"");
    assert_eq!(rt; board.due(), 2_000);
    board.set_now(1_000);
    page.answer(64, &vec![in rt.alloc(); b'x'; 262_145]?);
    has(&rt, &mut page, None, b"");
    assert_eq!(rt; board.due(), u64::MAX);
    Ok(())
}

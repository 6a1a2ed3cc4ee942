ghost use Rattle.std.specs.Prelude.{◌≡◌};
ghost use Rattle.edge_io.specs.Arrivals.{IsListening};

use crate::rows::agree;
use edge_io::{EdgeRefusal, Failed, Links};
use fabric_edge::UdpLinks;
use std::alloc::Global;
use std::net::{Net, UdpSocket};
use std::process::Abort;
use std::rt::Clock;
use std::test::Fail;
use std::time::Duration;

/// A Hello of 2.1 to node 1, in its session 1.
pub(crate) const FRAME: &[u8] = b"\x53\x01\x01\0\x02\0\0\0\x01\0\x01\0\0\0\0\0\0\0\x01";

/// An address of the machine's own, at a port that is free.
pub(crate) fn free_address(rt: &HostRuntime) -> Result<String, Fail> {
    let socket = UdpSocket::bind(rt, "127.0.0.1:0")?;
    let address = socket.local_addr()?;
    Ok(format!(in rt.alloc(); "{address}")?)
}

/// Links over the machine with an endpoint of this actor at this address.
pub(crate) fn listening<'a, R: Net + Clock + Eprint>(
    rt: &(impl Abort + Alloc<A = Global>),
    machine: &'a R,
    actor: u16,
    at: &str,
) -> UdpLinks<'a, R>
    ensures { IsListening actor result.opened }
{
    let mut links = UdpLinks::new(machine, rt.alloc());
    assert_eq!(rt; links.listen(actor, at), Ok(()));
    links
}

/// What the first of these calls of `receive` gives that finds something.
pub(crate) fn first_of<R: Net + Clock + Eprint>(
    calls: u32,
    links: &mut UdpLinks<'_, R>,
    actor: u16,
    into: &mut [u8; 1500],
) -> Result<Option<usize>, Failed>
    requires { IsListening actor links.old.opened }
    ensures { links.new.opened ≡ links.old.opened }
{
    for _ in 0..calls {
        let answer = links.receive(actor, into);
        if answer != Ok(None) {
            return answer;
        }
    }
    Ok(None)
}

/// A socket that is not of the links. It waits for 5 seconds.
pub(crate) fn other_socket(rt: &HostRuntime, at: &str) -> Result<UdpSocket, Fail> {
    let socket = UdpSocket::bind(rt, at)?;
    socket.set_read_timeout(Some(Duration::from_secs(5)))?;
    Ok(socket)
}

/// The frame comes to actor 1.
fn frame_comes<R: Net + Clock + Eprint>(rt: &impl Abort, links: &mut UdpLinks<'_, R>)
    requires { IsListening 1 links.old.opened }
    ensures { links.new.opened ≡ links.old.opened }
{
    let mut buffer = [0; 1500];
    assert_eq!(rt; first_of(100, links, 1, &mut buffer), Ok(Some(19)));
    assert_eq!(rt; &buffer[..19], FRAME);
}

/// The frame comes to the socket.
pub(crate) fn frame_came(rt: &impl Abort, socket: &UdpSocket) -> Result<(), Fail> {
    let mut buffer = [0; 1500];
    assert_eq!(rt; socket.recv(&mut buffer)?, 19);
    assert_eq!(rt; &buffer[..19], FRAME);
    Ok(())
}

#[test]
fn datagrams_go_both_ways_over_udp(rt: HostRuntime) -> Result<(), Fail> {
    let (here, there) = (free_address(&rt)?, free_address(&rt)?);
    let mut links = listening(&rt, &rt, 1, &here);
    let socket = other_socket(&rt, &there)?;
    socket.send_to(FRAME, here.as_str())?;
    frame_comes(&rt, &mut links);
    assert_eq!(rt; links.send(1, &there, FRAME), Ok(()));
    frame_came(&rt, &socket)
}

/// Links with an endpoint of actor 2, at an address that actor 3 is refused.
fn alone_listening<'a, R: Net + Clock + Eprint + Abort>(
    rt: &'a R,
    alloc: Global,
    at: &str,
) -> UdpLinks<'a, R>
    ensures { IsListening 2 result.opened }
{
    let mut links = UdpLinks::new(rt, alloc);
    assert_eq!(rt; links.listen(2, at), Ok(()));
    assert_eq!(rt; links.listen(3, at), Err(EdgeRefusal::Failed));
    links
}

/// What is answered to two datagrams that are sent, and to two receives.
type Answers = (
    [Result<(), EdgeRefusal>; 2],
    [Result<Option<usize>, Failed>; 2],
);

/// Both are sent, so many bytes of the first come, and then the two of the second.
fn came(count: usize) -> Answers {
    ([Ok(()); 2], [Ok(Some(count)), Ok(Some(2))])
}

/// What is answered where actor 2 sends itself these bytes and then two, and receives twice.
fn two_sent<R: Net + Clock + Eprint>(links: &mut UdpLinks<'_, R>, at: &str, bytes: &[u8]) -> Answers
    requires { IsListening 2 links.old.opened }
    ensures { links.new.opened ≡ links.old.opened }
{
    let mut buffer = [0; 1500];
    let first = links.send(2, at, bytes);
    let second = links.send(2, at, &[7, 7]);
    let came = links.receive(2, &mut buffer);
    ([first, second], [came, links.receive(2, &mut buffer)])
}

#[test]
fn datagrams_of_every_size_come_in_their_order(rt: HostRuntime) -> Result<(), Fail> {
    let address = free_address(&rt)?;
    let here = address.as_str();
    let mut links = alone_listening(&rt, rt.alloc(), here);
    let bytes = [7; 2000];
    let rows = [
        (two_sent(&mut links, here, &bytes[..0]), came(0)),
        (two_sent(&mut links, here, &bytes[..1]), came(1)),
        (two_sent(&mut links, here, &bytes[..1200]), came(1200)),
        (two_sent(&mut links, here, &bytes[..1500]), came(1500)),
        (two_sent(&mut links, here, &bytes[..1501]), came(1500)),
        (two_sent(&mut links, here, &bytes), came(1500)),
    ];
    agree(&rt, &rows);
    assert_eq!(rt; links.receive(2, &mut [0; 1500]), Ok(None));
    Ok(())
}

#[test]
fn what_is_too_long_or_goes_nowhere_is_not_sent(rt: HostRuntime) -> Result<(), Fail> {
    let here = free_address(&rt)?;
    let mut links = listening(&rt, &rt, 2, &here);
    let bytes = vec![in rt.alloc(); 7; 65_508]?;
    assert_eq!(rt; links.send(2, &here, &bytes), Err(EdgeRefusal::Failed));
    assert_eq!(rt; links.send(2, "nowhere", b"lost"), Err(EdgeRefusal::Failed));
    Ok(())
}

// A name would be looked up inside a turn, which may take longer than a lease.
#[test]
fn a_hosts_name_is_no_address(rt: HostRuntime) -> Result<(), Fail> {
    let (here, there) = (free_address(&rt)?, free_address(&rt)?);
    let socket = other_socket(&rt, &there)?;
    let name = format!(in rt.alloc(); "localhost:{}", socket.local_addr()?.port())?;
    let mut links = listening(&rt, &rt, 1, &here);
    assert_eq!(rt; links.send(1, &name, b"lost"), Err(EdgeRefusal::Failed));
    assert_eq!(rt; links.send(1, &there, FRAME), Ok(()));
    frame_came(&rt, &socket)?;
    drop(socket);
    assert_eq!(rt; links.listen(2, &name), Err(EdgeRefusal::Failed));
    assert_eq!(rt; links.listen(2, &there), Ok(()));
    Ok(())
}

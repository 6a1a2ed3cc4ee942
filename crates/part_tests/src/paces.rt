ghost use Rattle.std.specs.Prelude.{◌≡◌, ◌+◌};
ghost use Rattle.part_tests.specs.Listeners.{AllListen};

use crate::sockets::free_address;
use edge_io::{EdgeRefusal, Failed, Links};
use fabric_edge::UdpLinks;
use std::alloc::Global;
use std::net::Net;
use std::process::Abort;
use std::rt::Clock;
use std::test::Fail;
use std::time::{Duration, Instant};

/// How many actors the process has.
const ACTORS: u16 = 12;

/// Opens the endpoint of the actor after those that listen.
#[tactic(auto, using(crate::proofs::Listening::one_more))]
fn open_next<R: Net + Clock + Eprint>(
    rt: &impl Abort,
    links: &mut UdpLinks<'_, R>,
    actor: u16,
    at: &str,
)
    requires { AllListen actor links.old.opened }
    ensures { AllListen (actor + 1) links.new.opened }
{
    assert_eq!(rt; links.listen(actor, at), Ok(()));
}

/// Links with the endpoints of all actors: that of the first is here, those of the others where a port is free.
fn all_listening<'a, R: Net + Clock + Eprint + Abort>(
    rt: &'a R,
    alloc: Global,
    here: &str,
) -> UdpLinks<'a, R>
    ensures { AllListen 12 result.opened }
{
    let mut links = UdpLinks::new(rt, alloc);
    open_next(rt, &mut links, 0, here);
    for actor in 1..ACTORS {
        open_next(rt, &mut links, actor, "127.0.0.1:0");
    }
    links
}

/// What the first two receives of an actor answer.
type Two = [Result<Option<usize>, Failed>; 2];

/// A turn of the process: the last actor sends the first a datagram, and each receives twice. What was sent, what the
/// first actor received, and whether another received anything.
fn turn<R: Net + Clock + Eprint>(
    links: &mut UdpLinks<'_, R>,
    here: &str,
) -> (Result<(), EdgeRefusal>, Two, bool)
    requires { AllListen 12 links.old.opened }
    ensures { links.new.opened ≡ links.old.opened }
{
    let mut buffer = [0; 1500];
    let sent = links.send(ACTORS - 1, here, b"ab");
    let first = links.receive(0, &mut buffer);
    let came = [first, links.receive(0, &mut buffer)];
    let mut others = false;
    for actor in 1..ACTORS {
        let quiet = links.receive(actor, &mut buffer) == Ok(None);
        others |= !quiet;
    }
    (sent, came, others)
}

/// How long ten turns last. In each the first actor finds what was sent to it and then nothing, and the others nothing.
fn ten_turns<R: Net + Clock + Eprint + Abort>(
    rt: &R,
    links: &mut UdpLinks<'_, R>,
    here: &str,
) -> Result<Duration, Fail>
    requires { AllListen 12 links.old.opened }
    ensures { links.new.opened ≡ links.old.opened }
{
    let start = Instant::now(rt)?;
    for _ in 0..10 {
        assert_eq!(rt; turn(links, here), (Ok(()), [Ok(Some(2)), Ok(None)], false));
    }
    Ok(start.elapsed(rt)?)
}

// Twelve waits a turn would be 600 ms. A busy machine may wake a process late, so the quickest of three counts.
#[test]
fn a_turn_waits_once_and_takes_what_comes(rt: HostRuntime) -> Result<(), Fail> {
    let here = free_address(&rt)?;
    let mut links = all_listening(&rt, rt.alloc(), &here);
    let first = ten_turns(&rt, &mut links, &here)?;
    let second = ten_turns(&rt, &mut links, &here)?;
    let third = ten_turns(&rt, &mut links, &here)?;
    let quickest = first.min(second).min(third);
    let (least, most) = (Duration::from_millis(50), Duration::from_millis(200));
    assert!(rt; least <= quickest && quickest < most, "{quickest:?}");
    Ok(())
}

ghost use Rattle.edge_io.specs.Arrivals.{IsListening};

use crate::records::kept_are;
use crate::rows::agree;
use edge_io::{
    Clock, Datagram, EdgeRefusal, Endpoint, Failed, Keeper, Links, MemClock, MemKeeper, MemLinks,
    MemSink, MemSource, Sink, Source, write_all,
};
use std::alloc::Global;
use std::process::Abort;

/// The numbers of the calls that fail, or readings.
fn numbers(rt: &impl Abort, alloc: Global, numbers: &[u64]) -> Vec<u64> {
    numbers.to_vec(alloc).expect(rt, "memory")
}

fn bytes(rt: &impl Abort, alloc: Global, bytes: &[u8]) -> Vec<u8> {
    bytes.to_vec(alloc).expect(rt, "memory")
}

#[test]
fn a_source_fails_at_its_listed_calls(rt: HostRuntime) {
    let fail = numbers(&rt, rt.alloc(), &[2, 3]);
    let mut source = MemSource::new(bytes(&rt, rt.alloc(), b"abcde"), fail);
    let mut buffer = [0; 3];
    let rows = [
        (source.read(&mut buffer), Ok(3)),
        (source.read(&mut buffer), Err(Failed)),
        (source.read(&mut buffer), Err(Failed)),
        (source.read(&mut buffer), Ok(2)),
        (source.read(&mut buffer), Ok(0)),
    ];
    agree(&rt, &rows);
    assert_eq!(rt; &buffer, b"dec");
}

/// The sink fails at its second and third call, each of them of another function.
fn fails_twice(rt: &impl Abort, sink: &mut MemSink) {
    let failed = Err(EdgeRefusal::Failed);
    agree(
        rt,
        &[(sink.write(b"ab"), Ok(2)), (sink.write(b"cd"), failed)],
    );
    let rows = [
        (write_all(sink, b"ef"), Err(EdgeRefusal::Failed)),
        (write_all(sink, b""), Ok(())),
        (write_all(sink, b"gh"), Ok(())),
    ];
    agree(rt, &rows);
}

#[test]
fn a_sink_fails_at_its_listed_calls(rt: HostRuntime) {
    let mut sink = MemSink::new(rt.alloc(), numbers(&rt, rt.alloc(), &[2, 3]));
    fails_twice(&rt, &mut sink);
    assert_eq!(rt; sink.held(), b"abgh".as_slice());
}

/// A keeper that has a record of actor 7, and fails at its calls 2, 3 and 5.
fn failing_keeper(rt: &impl Abort, alloc: Global) -> MemKeeper {
    let mut first = Vec::new(alloc);
    first.push(bytes(rt, alloc, b"old")).expect(rt, "memory");
    let mut lists = Vec::new(alloc);
    lists.push((7, first)).expect(rt, "memory");
    MemKeeper::new(alloc, lists, numbers(rt, alloc, &[2, 3, 5]))
}

/// Two of three appends fail: the second and the third call.
fn appends_fail(rt: &impl Abort, keeper: &mut MemKeeper) {
    let failed = Err(EdgeRefusal::Failed);
    let rows = [
        (keeper.append_synced(7, b"a"), Ok(())),
        (keeper.append_synced(8, b"b"), failed),
        (keeper.append_synced(7, b"c"), failed),
    ];
    agree(rt, &rows);
}

#[test]
fn a_failing_append_keeps_its_record_at_even_calls(rt: HostRuntime) {
    let mut keeper = failing_keeper(&rt, rt.alloc());
    appends_fail(&rt, &mut keeper);
    for (actor, want) in [
        (7, Some(b"old;a;".as_slice())),
        (8, None),
        (8, Some(b"b;".as_slice())),
        (9, Some(b"".as_slice())),
    ] {
        kept_are(&rt, rt.alloc(), &mut keeper, actor, want);
    }
}

/// Links that find nothing, then a datagram for each of two actors, and fail at these calls.
fn links(rt: &impl Abort, alloc: Global, failing: &[u64]) -> MemLinks {
    let mut arrivals = Vec::new(alloc);
    for (actor, arrival) in [
        (1, None),
        (2, Some(b"two".as_slice())),
        (1, Some(b"one".as_slice())),
    ] {
        let arrival = arrival.map(|sent| bytes(rt, alloc, sent));
        arrivals.push((actor, arrival)).expect(rt, "memory");
    }
    MemLinks::new(alloc, arrivals, numbers(rt, alloc, failing))
}

/// Actor 1 listens, which is refused so often before.
fn listens(rt: &impl Abort, links: &mut MemLinks, refusals: u32)
    ensures { IsListening 1 links.new.opened }
{
    for _ in 0..refusals {
        assert_eq!(rt; links.listen(1, "here"), Err(EdgeRefusal::Failed));
    }
    assert_eq!(rt; links.listen(1, "here"), Ok(()));
}

/// The first of two datagrams that actor 1 sends is refused.
fn sends(rt: &impl Abort, links: &mut MemLinks)
    requires { IsListening 1 links.old.opened }
{
    let rows = [
        (links.send(1, "there", b"lost"), Err(EdgeRefusal::Failed)),
        (links.send(1, "there", b"sent"), Ok(())),
    ];
    agree(rt, &rows);
}

fn one_is_open(rt: &impl Abort, opened: &[Endpoint]) {
    assert_eq!(rt; opened.len(), 1);
    assert_eq!(rt; opened[0].at.as_str(), "here");
}

fn one_is_sent(rt: &impl Abort, sent: &[Datagram]) {
    assert_eq!(rt; sent.len(), 1);
    assert_eq!(rt; sent[0].to.as_str(), "there");
    assert_eq!(rt; sent[0].bytes.as_slice(), b"sent".as_slice());
}

#[test]
fn endpoints_and_datagrams_fail_at_their_listed_calls(rt: HostRuntime) {
    let mut links = links(&rt, rt.alloc(), &[1, 3]);
    listens(&rt, &mut links, 1);
    sends(&rt, &mut links);
    one_is_open(&rt, links.opened());
    one_is_sent(&rt, links.sent());
}

/// What the next of the listed receives of actor 1 give.
fn receives(rt: &impl Abort, links: &mut MemLinks, into: &mut [u8; 1500])
    requires { IsListening 1 links.old.opened }
{
    let rows = [
        (links.receive(1, into), Err(Failed)),
        (links.receive(1, into), Ok(None)),
        (links.receive(1, into), Ok(Some(3))),
        (links.receive(1, into), Ok(None)),
    ];
    agree(rt, &rows);
}

#[test]
fn arrivals_fail_at_their_listed_calls(rt: HostRuntime) {
    let mut links = links(&rt, rt.alloc(), &[2]);
    listens(&rt, &mut links, 0);
    let mut buffer = [0; 1500];
    receives(&rt, &mut links, &mut buffer);
    assert_eq!(rt; &buffer[..3], b"one".as_slice());
}

#[test]
fn a_clock_repeats_its_last_reading(rt: HostRuntime) {
    let mut clock = MemClock::new(numbers(&rt, rt.alloc(), &[5, 3, 9]));
    let mut none = MemClock::new(Vec::new(rt.alloc()));
    let rows = [
        (clock.now(), 5),
        (clock.now(), 3),
        (clock.now(), 9),
        (clock.now(), 9),
        (clock.now(), 9),
        (none.now(), 0),
    ];
    agree(&rt, &rows);
}

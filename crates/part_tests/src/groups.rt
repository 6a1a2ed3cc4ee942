//! Records that are synced by one call, and the frames that wait for it: a turn of several steps, a sync that fails, a
//! full queue, and a crash between the steps and their sync.
ghost use Rattle.std.specs.Prelude.{◌≡◌};
ghost use Rattle.edge_io.specs.Arrivals.{IsListening};

use edge_io::{EdgeRefusal, Links, MemClock, MemLinks, MemSink, Outside};
use group_commit::{Commit, GroupDevices, MAX_QUEUED, MemGroupKeeper, Outgoing, QueuedLinks};
use std::alloc::Global;
use std::process::Abort;

const NODE: u16 = 7;

/// What a crash would leave behind the calls: how many records are kept for good, by how many syncs, and which frames
/// have left, each with a semicolon behind it.
#[derive(Drop)]
struct Left {
    kept: usize,
    syncs: u64,
    frames: Vec<u8>,
}

/// A call of the devices: a record, a frame, or a rest, with what it answers.
#[derive(Clone, Copy)]
enum Call {
    Append(&'static [u8], Result<(), EdgeRefusal>),
    Send(&'static [u8]),
    Settle(bool),
}

fn numbers(rt: &impl Abort, alloc: Global, of: &[u64]) -> Vec<u64> {
    Vec::from_slice(alloc, of).expect(rt, "memory")
}

/// The frames that have left, each with a semicolon behind it.
fn frames_of(rt: &impl Abort, alloc: Global, links: &MemLinks) -> Vec<u8> {
    let mut frames = Vec::new(alloc);
    for datagram in links.sent() {
        frames
            .extend_from_slice(datagram.bytes.as_slice())
            .expect(rt, "memory");
        frames.push(b';').expect(rt, "memory");
    }
    frames
}

/// The devices in memory over these links.
type Group<'k, 'n, 'd, 'c, L> = GroupDevices<'k, 'n, 'd, 'c, MemSink, L, MemGroupKeeper, MemClock>;

/// Makes a call, and compares its answer.
fn make<L: Outgoing>(rt: &impl Abort, outside: &mut Group<'_, '_, '_, '_, L>, call: Call)
    requires { IsListening NODE (L.opened outside.old.links.now) }
    ensures { L.opened outside.new.links.now ≡ L.opened outside.old.links.now }
{
    match call {
        Call::Append(bytes, answer) => assert_eq!(rt; outside.append_synced(NODE, bytes), answer),
        Call::Send(bytes) => assert_eq!(rt; outside.send(NODE, "127.0.0.1:1", bytes), Ok(())),
        Call::Settle(answer) => assert_eq!(rt; outside.settle(), answer),
    }
}

/// Makes these calls, one after another, over these links and this keeper.
fn make_all<L: Outgoing>(
    rt: &impl Abort,
    alloc: Global,
    links: &mut L,
    keeps: &mut MemGroupKeeper,
    calls: &[Call],
)
    requires { IsListening NODE (L.opened links.old) }
{
    let mut sink = MemSink::new(alloc, Vec::new(alloc));
    let mut clock = MemClock::new(Vec::new(alloc));
    let mut outside = GroupDevices {
        sink: &mut sink,
        links,
        keeps,
        clock: &mut clock,
        commit: Commit::new(),
    };
    for call in calls {
        make(rt, &mut outside, *call);
    }
}

/// Makes these calls over a keeper whose calls of these numbers fail, and over links of which the calls of these numbers
/// do. So many frames may wait.
fn after(
    rt: &impl Abort,
    alloc: Global,
    most: usize,
    failing: (&[u64], &[u64]),
    calls: &[Call],
) -> Left {
    let mut links = MemLinks::new(alloc, Vec::new(alloc), numbers(rt, alloc, failing.1));
    links
        .listen(NODE, "127.0.0.1:7")
        .expect(rt, "the node listens");
    let mut keeps = MemGroupKeeper::new(alloc, numbers(rt, alloc, failing.0));
    {
        let mut waiting = QueuedLinks::new(alloc, &mut links, NODE, most);
        make_all(rt, alloc, &mut waiting, &mut keeps, calls);
    }
    Left {
        kept: keeps.synced(),
        syncs: keeps.syncs(),
        frames: frames_of(rt, alloc, &links),
    }
}

/// So many records are kept, by so many syncs, and these frames have left.
fn left_is(rt: &impl Abort, left: &Left, kept: usize, syncs: u64, frames: &[u8]) {
    assert_eq!(rt; left.kept, kept);
    assert_eq!(rt; left.syncs, syncs);
    assert_eq!(rt; left.frames.as_slice(), frames);
}

/// A turn of three steps: one without a record sends at once; two with records wait, and so does what is sent behind
/// them.
const TURN: [Call; 7] = [
    Call::Send(b"a"),
    Call::Append(b"1", Ok(())),
    Call::Append(b"2", Ok(())),
    Call::Send(b"b"),
    Call::Append(b"3", Ok(())),
    Call::Send(b"c"),
    Call::Send(b"d"),
];

#[test]
fn a_turn_has_one_sync(rt: HostRuntime) {
    let before = after(&rt, rt.alloc(), MAX_QUEUED, (&[], &[]), &TURN);
    left_is(&rt, &before, 0, 0, b"a;");
    let mut calls = Vec::from_slice(rt.alloc(), &TURN).expect(&rt, "memory");
    calls.push(Call::Settle(true)).expect(&rt, "memory");
    let settled = after(&rt, rt.alloc(), MAX_QUEUED, (&[], &[]), &calls);
    left_is(&rt, &settled, 3, 1, b"a;b;c;d;");
    calls.push(Call::Settle(true)).expect(&rt, "memory");
    calls.push(Call::Send(b"e")).expect(&rt, "memory");
    let later = after(&rt, rt.alloc(), MAX_QUEUED, (&[], &[]), &calls);
    left_is(&rt, &later, 3, 1, b"a;b;c;d;e;");
}

#[test]
fn nothing_leaves_behind_a_sync_that_has_failed(rt: HostRuntime) {
    let mut calls = Vec::from_slice(rt.alloc(), &TURN).expect(&rt, "memory");
    calls.push(Call::Settle(false)).expect(&rt, "memory");
    calls.push(Call::Send(b"e")).expect(&rt, "memory");
    let refused = Call::Append(b"4", Err(EdgeRefusal::Failed));
    calls.push(refused).expect(&rt, "memory");
    calls.push(Call::Settle(false)).expect(&rt, "memory");
    let failed = after(&rt, rt.alloc(), MAX_QUEUED, (&[4], &[]), &calls);
    left_is(&rt, &failed, 0, 0, b"a;");
}

#[test]
fn nothing_leaves_behind_a_record_that_was_not_appended(rt: HostRuntime) {
    let calls = [
        Call::Append(b"1", Ok(())),
        Call::Send(b"a"),
        Call::Append(b"2", Err(EdgeRefusal::Failed)),
        Call::Send(b"b"),
        Call::Settle(false),
    ];
    for failing in [2u64, 3] {
        let fails = [failing];
        let left = after(
            &rt,
            rt.alloc(),
            MAX_QUEUED,
            (&fails, &[]),
            &calls[..if failing == 2 { 5 } else { 2 }],
        );
        left_is(&rt, &left, 0, 0, b"");
    }
}

#[test]
fn a_full_queue_leaves_behind_its_sync(rt: HostRuntime) {
    let calls = [
        Call::Append(b"1", Ok(())),
        Call::Send(b"a"),
        Call::Send(b"b"),
        Call::Send(b"c"),
        Call::Append(b"2", Ok(())),
        Call::Send(b"d"),
    ];
    let full = after(&rt, rt.alloc(), 2, (&[], &[]), &calls);
    left_is(&rt, &full, 1, 1, b"a;b;c;");
    let failed = after(&rt, rt.alloc(), 2, (&[2], &[]), &calls[..4]);
    left_is(&rt, &failed, 0, 0, b"");
}

#[test]
fn a_frame_that_the_links_lose_is_not_sent_again(rt: HostRuntime) {
    let calls = [
        Call::Append(b"1", Ok(())),
        Call::Send(b"a"),
        Call::Send(b"b"),
        Call::Send(b"c"),
        Call::Settle(true),
        Call::Settle(true),
    ];
    let left = after(&rt, rt.alloc(), MAX_QUEUED, (&[], &[3]), &calls);
    left_is(&rt, &left, 1, 1, b"a;c;");
}

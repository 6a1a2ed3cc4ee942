ghost use Rattle.std.specs.Prelude.{◌≡◌, ◌≤◌, length};

use replica_core::{Done, Entry, EntryBytes, Replica, ReplicaRefusal, Role};
use ring_points::{Config, Epoch, MAX_LOG_ENTRIES, Members};
use std::alloc::Global;
use std::process::Abort;

fn epoch(data_loss: u32, configuration: u32) -> Epoch {
    Epoch {
        data_loss,
        configuration,
    }
}

fn entry(rt: &impl Abort, alloc: Global, lsn: u32, bytes: &[u8]) -> Entry
    requires { length bytes.now ≤ 512 }
    ensures { result.lsn ≡ lsn }
{
    Entry {
        epoch: epoch(0, 7),
        lsn,
        bytes: EntryBytes::from_slice(alloc, bytes).expect(rt, "memory"),
    }
}

// A configuration of nodes 1 and 2, of which 1 is the primary.
fn config(epoch: Epoch) -> Config {
    let mut members = Members::new();
    members.push(1);
    members.push(2);
    Config {
        partition: 5,
        epoch,
        primary: 1,
        members,
    }
}

/// A call that may be refused.
#[derive(Clone, Copy)]
enum Call {
    Promise(Epoch),
    Idle(Epoch),
    /// The entry of this number, of one byte.
    Append(Epoch, u32, u8),
    /// The entry of this number out of so many.
    Adopt(Epoch, u32, u32),
    AdoptOwn(Epoch, u32),
    AdoptCollected(Epoch),
    /// The same, once what was collected is dropped.
    AdoptDropped(Epoch),
}

fn answer(
    rt: &impl Abort,
    alloc: Global,
    replica: &mut Replica,
    call: Call,
) -> Result<Done, ReplicaRefusal> {
    match call {
        Call::Promise(epoch) => replica.promise(epoch),
        Call::Idle(epoch) => replica.idle(epoch),
        Call::Append(epoch, lsn, byte) => replica.append(epoch, lsn, &[byte]),
        Call::Adopt(epoch, lsn, last) => {
            assert!(rt; lsn <= MAX_LOG_ENTRIES);
            replica.adopt(epoch, &entry(rt, alloc, lsn, b"x"), last)
        }
        Call::AdoptOwn(epoch, last) => replica.adopt_own(epoch, last),
        Call::AdoptCollected(epoch) => replica.adopt_collected(epoch),
        Call::AdoptDropped(epoch) => {
            replica.drop_collected();
            replica.adopt_collected(epoch)
        }
    }
}

/// These calls, one after another, and what the replica answers to each.
type Course<'a> = &'a [(Call, Result<Done, ReplicaRefusal>)];

fn answers(rt: &impl Abort, alloc: Global, replica: &mut Replica, course: Course<'_>) {
    for &(call, want) in course {
        assert_eq!(rt; answer(rt, alloc, replica, call), want);
    }
}

#[test]
fn a_promise_refuses_older_entries(rt: HostRuntime) {
    let (older, now, next) = (epoch(0, 6), epoch(0, 7), epoch(0, 8));
    let mut replica = Replica::new(rt.alloc(), 5);
    let course = [
        (Call::Promise(now), Ok(Done::New)),
        (Call::Promise(now), Ok(Done::Held)),
        (
            Call::Append(older, 1, b'x'),
            Err(ReplicaRefusal::Older(now)),
        ),
        (Call::AdoptOwn(now, 0), Ok(Done::New)),
        (Call::Append(now, 2, b'x'), Err(ReplicaRefusal::Gap(0))),
        (Call::Append(now, 1, b'x'), Ok(Done::New)),
        (Call::Append(now, 1, b'y'), Ok(Done::Held)),
        (Call::Adopt(next, 2, 3), Err(ReplicaRefusal::Gap(0))),
    ];
    answers(&rt, rt.alloc(), &mut replica, &course);
    assert_eq!(rt; (replica.partition(), replica.log().len()), (5, 1));
    assert_eq!(rt; (replica.promised(), replica.at()), (now, now));
}

/// An idle secondary's replica whose log is collected: three entries at this epoch.
fn collected(rt: &impl Abort, alloc: Global, new: Epoch) -> Replica {
    let mut replica = Replica::new(alloc, 5);
    for (call, want, count) in [
        (Call::Idle(new), Done::New, 0),
        (Call::Adopt(new, 1, 3), Done::New, 1),
        (Call::Adopt(new, 1, 3), Done::Held, 1),
        (Call::Adopt(new, 2, 3), Done::New, 2),
        (Call::Adopt(new, 3, 3), Done::New, 0),
    ] {
        let answered = answer(rt, alloc, &mut replica, call);
        let after = (answered, replica.role(), replica.collected());
        assert_eq!(rt; after, (Ok(want), Role::IdleSecondary, count));
    }
    replica
}

/// What a replica answers that is activated at an epoch and then promises a greater one, and its role at the end.
fn activated(
    replica: &mut Replica,
    at: Epoch,
    greater: Epoch,
) -> (
    Result<Role, ReplicaRefusal>,
    Result<Done, ReplicaRefusal>,
    Role,
) {
    let role = replica.activate(1, &config(at));
    let promised = replica.promise(greater);
    (role, promised, replica.role())
}

#[test]
fn a_log_is_collected_and_activated(rt: HostRuntime) {
    let new = epoch(0, 8);
    let mut replica = collected(&rt, rt.alloc(), new);
    assert_eq!(rt; (replica.log().len(), replica.at()), (3, new));
    let found = activated(&mut replica, new, epoch(1, 1));
    let want = (Ok(Role::Primary), Ok(Done::New), Role::ActiveSecondary);
    assert_eq!(rt; found, want);
}

// Of 100,001 entries one is collected, dropped, and collected again; then what was collected is adopted as it is.
#[test]
fn what_is_collected_is_dropped_or_adopted(rt: HostRuntime) {
    let new = epoch(1, 2);
    let mut replica = Replica::new(rt.alloc(), 5);
    let course = [
        (Call::Adopt(new, 1, 100_001), Ok(Done::New)),
        (Call::AdoptDropped(new), Err(ReplicaRefusal::Gap(0))),
        (Call::Adopt(new, 1, 100_001), Ok(Done::New)),
        (Call::AdoptCollected(new), Ok(Done::New)),
    ];
    answers(&rt, rt.alloc(), &mut replica, &course);
    assert_eq!(rt; replica.log().len(), 1);
}

// A replica whose log is full.
fn full(rt: &impl Abort, alloc: Global) -> Replica {
    let mut replica = Replica::new(alloc, 5);
    for lsn in 1..=MAX_LOG_ENTRIES {
        assert_eq!(rt; replica.append(epoch(0, 0), lsn, b""), Ok(Done::New));
    }
    replica
}

#[test]
fn refuses_what_does_not_fit(rt: HostRuntime) {
    let mut replica = full(&rt, rt.alloc());
    let (first, old, now, new) = (epoch(0, 0), epoch(0, 9), epoch(1, 0), epoch(1, 1));
    let older = Err(ReplicaRefusal::Older(now));
    let gap = Err(ReplicaRefusal::Gap(MAX_LOG_ENTRIES));
    let course = [
        (
            Call::Append(first, MAX_LOG_ENTRIES + 1, b'x'),
            Err(ReplicaRefusal::LogFull),
        ),
        (Call::Append(first, MAX_LOG_ENTRIES + 2, b'x'), gap),
        (Call::Promise(now), Ok(Done::New)),
        (Call::Promise(old), older),
        (Call::Idle(old), older),
        (Call::Append(old, 1, b'x'), older),
        (Call::AdoptOwn(old, 0), older),
        (Call::Adopt(old, 1, 1), older),
        (Call::AdoptCollected(old), older),
        (Call::Append(new, 1, b'x'), gap),
        (Call::AdoptOwn(new, 1), gap),
        (Call::AdoptCollected(new), Err(ReplicaRefusal::Gap(0))),
    ];
    answers(&rt, rt.alloc(), &mut replica, &course);
}

#[test]
fn is_activated_at_its_epoch_alone(rt: HostRuntime) {
    let mut replica = Replica::new(rt.alloc(), 5);
    let (old, now) = (epoch(0, 9), epoch(1, 0));
    assert_eq!(rt; replica.promise(now), Ok(Done::New));
    for (me, at, want) in [
        (1, old, ReplicaRefusal::Older(now)),
        (3, now, ReplicaRefusal::NotMember),
        (1, now, ReplicaRefusal::Gap(0)),
    ] {
        assert_eq!(rt; replica.activate(me, &config(at)), Err(want));
    }
}

/// Appends an entry to so many; again, where memory was wanting at first, which left nothing behind.
fn append_again(rt: &impl Abort, replica: &mut Replica, held: u8) {
    let lsn = u32::from(held) + 1;
    if replica.append(epoch(0, 0), lsn, b"xyz") == Err(ReplicaRefusal::OutOfMemory) {
        assert_eq!(rt; replica.log().len(), usize::from(held));
        assert_eq!(rt; replica.append(epoch(0, 0), lsn, b"xyz"), Ok(Done::New));
    }
}

/// Adopts an entry behind so many of ten; again, where memory was wanting at first, which left nothing behind.
fn adopt_again(rt: &impl Abort, replica: &mut Replica, next: &mut Entry, held: u8) {
    next.lsn = u32::from(held) + 1;
    if replica.adopt(epoch(0, 1), next, 10) == Err(ReplicaRefusal::OutOfMemory) {
        assert_eq!(rt; replica.collected(), u32::from(held));
        assert_eq!(rt; replica.adopt(epoch(0, 1), next, 10), Ok(Done::New));
    }
}

#[test]
fn want_of_memory_changes_nothing(rt: HostRuntime) {
    let mut replica = Replica::new(rt.alloc(), 5);
    for held in 0..9 {
        append_again(&rt, &mut replica, held);
    }
    let mut next = entry(&rt, rt.alloc(), 1, b"xyz");
    for held in 0..9 {
        adopt_again(&rt, &mut replica, &mut next, held);
    }
}

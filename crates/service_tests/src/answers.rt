//! The bytes of each line of an answer.
use door_lines::{
    Fault, push_arbiter, push_changing, push_done, push_end, push_entry, push_fault, push_follows,
    push_given_up, push_held, push_late, push_leads, push_link, push_node, push_open, push_owns,
    push_replica, push_reply, push_report, push_tag, push_unheld, push_unknown, push_up,
    push_watchers,
};
use fabric_terms::{Head, OutOfMemory, Report, Why};
use join_phases::{Booting, Phase};
use replica_core::Role;
use ring_points::{Epoch, Interval, Point, RangeSet, Who};
use ring_rules::LinkState;

const EPOCH: Epoch = Epoch {
    data_loss: 0,
    configuration: 3,
};

const WHO: Who = Who {
    actor: 1,
    instance: 2,
};

const HEAD: Head = Head {
    line: 40,
    time: None,
    who: WHO,
    reading: Some(5000),
};

const LINES: &[u8] =
    b"@4294967295 late\n@- fault line\ndone -\n@7 fault nosuch\n@7 fault large\n@7 fault busy\n\
    @7 unknown\n@7 late\n@0 40 - 1.2 5000 primary 7 0.3\ndone 0\n\
    #18446744073709551615 40 - 1.2 5000 left fence\n";

const STATE: &[u8] = b"@7 node 1.2 seeking 5000 -\nnode 1.2 left 5000 5900\nlink 2.1 hello 600\n\
    link 2.1 offered 600\nlink 2.1 bound 600\nlink 2.1 parting 600\nlink 2.1 accused 600\n\
    link 2.1 discharged 600\nlink 2.1 heir 600\narbiter 9 1000000\n\
    owns 0000000000000000-7fffffffffffffff\nup 1,20,999\nup -\n";

const PARTITIONS: &[u8] = b"replica 7 0.3 none 0\nreplica 7 0.3 idle 0\nreplica 7 0.3 secondary 0\n\
    replica 7 0.3 primary 0\nchanging 7 0.3 30\nopen 256\nwatchers 64\n\
    entry 65535 0.3 12 6120ff\nheld 00000000000000ff 500\nunheld ffffffffffffffff\n\
    leads 7 0.3\nfollows 7\n";

#[test]
fn lines_of_answers(rt: HostRuntime) {
    let mut text = Vec::new(rt.alloc());
    let said = say(&mut text);
    assert!(rt; said.is_ok());
    assert_eq!(rt; text.as_slice(), LINES);
}

fn say(text: &mut Vec<u8>) -> Result<(), OutOfMemory> {
    push_reply(text, Some(4_294_967_295), b"late")?;
    push_fault(text, None, Fault::Line)?;
    push_done(text, None)?;
    push_fault(text, Some(7), Fault::NoSuch)?;
    push_fault(text, Some(7), Fault::Large)?;
    push_fault(text, Some(7), Fault::Busy)?;
    push_unknown(text, Some(7))?;
    push_late(text, Some(7))?;
    push_report(text, Some(0), &HEAD, &Report::IsPrimary(7, EPOCH))?;
    push_done(text, Some(0))?;
    push_given_up(text, u64::MAX, &HEAD, &Report::LeftRing(Why::Fence))
}

#[test]
fn words_of_a_state(rt: HostRuntime) {
    let mut text = Vec::new(rt.alloc());
    assert!(rt; say_phases(&mut text).is_ok());
    assert!(rt; say_links(&mut text).is_ok());
    assert!(rt; say_rest(&mut text).is_ok());
    assert_eq!(rt; text.as_slice(), STATE);
}

fn say_phases(text: &mut Vec<u8>) -> Result<(), OutOfMemory> {
    push_tag(text, Some(7))?;
    let mut phase = Phase::Seeking(Booting::new(false, 2).seek());
    push_node(text, WHO, &phase, 5000, None)?;
    push_end(text)?;
    phase.leave(Why::Lost);
    push_node(text, WHO, &phase, 5000, Some(5900))?;
    push_end(text)
}

fn say_links(text: &mut Vec<u8>) -> Result<(), OutOfMemory> {
    let peer = Who {
        actor: 2,
        instance: 1,
    };
    for state in [
        LinkState::Hello,
        LinkState::Offered,
        LinkState::Bound,
        LinkState::Parting,
        LinkState::Accused,
        LinkState::Discharged,
        LinkState::Heir,
    ] {
        push_link(text, peer, state, 600)?;
        push_end(text)?;
    }
    Ok(())
}

fn half() -> RangeSet {
    let lower = Interval {
        lo: 0,
        hi: (1 << 63) - 1,
    };
    match RangeSet::from_pairs(&[lower]) {
        Some(ranges) => ranges,
        None => RangeSet::new(),
    }
}

fn say_rest(text: &mut Vec<u8>) -> Result<(), OutOfMemory> {
    push_arbiter(text, 9, 1_000_000)?;
    push_end(text)?;
    push_owns(text, &half())?;
    push_end(text)?;
    push_up(text, &[1, 20, 999])?;
    push_end(text)?;
    push_up(text, &[])?;
    push_end(text)
}

#[test]
fn words_of_partitions(rt: HostRuntime) {
    let mut text = Vec::new(rt.alloc());
    assert!(rt; say_replicas(&mut text).is_ok());
    assert!(rt; say_holds(&mut text).is_ok());
    assert_eq!(rt; text.as_slice(), PARTITIONS);
}

fn say_replicas(text: &mut Vec<u8>) -> Result<(), OutOfMemory> {
    for role in [
        Role::None,
        Role::IdleSecondary,
        Role::ActiveSecondary,
        Role::Primary,
    ] {
        push_replica(text, 7, EPOCH, role, 0)?;
        push_end(text)?;
    }
    push_changing(text, 7, EPOCH, 30)?;
    push_end(text)?;
    push_open(text, 256)?;
    push_end(text)?;
    push_watchers(text, 64)?;
    push_end(text)
}

fn say_holds(text: &mut Vec<u8>) -> Result<(), OutOfMemory> {
    push_entry(text, 65535, EPOCH, 12, b"a \xff")?;
    push_end(text)?;
    push_held(text, Point(255), 500)?;
    push_end(text)?;
    push_unheld(text, Point(u64::MAX))?;
    push_end(text)?;
    push_leads(text, 7, EPOCH)?;
    push_end(text)?;
    push_follows(text, 7)?;
    push_end(text)
}

use fabric_terms::{NameText, NameTexts, NameValue, Partitions, Why};
use ring_points::{Epoch, Point, RangeSet, Who};
use sched_text::{Head, OutOfMemory, Reason, Report, Verb, print_report, print_sent, read_report};
use std::alloc::Global;
use std::process::Abort;

const PEER: Who = Who {
    actor: 2,
    instance: 1,
};

const KEY: Point = Point(0x8000_0000_0000_0000);

const EPOCH: Epoch = Epoch {
    data_loss: 0,
    configuration: 1,
};

/// The head of a step of 1.1 at line 2.
const HEAD: Head = Head {
    line: 2,
    time: Some(0),
    who: Who {
        actor: 1,
        instance: 1,
    },
    reading: Some(0),
};

/// Two lines of these words behind that head.
fn twice(alloc: Global, words: &str) -> Result<Vec<u8>, OutOfMemory> {
    let mut lines = Vec::new(alloc);
    for _ in 0..2 {
        lines.extend_from_slice(b"2 0 1.1 0 ")?;
        lines.extend_from_slice(words.as_bytes())?;
        lines.extend_from_slice(b"\n")?;
    }
    Ok(lines)
}

/// Appends what is printed of what the first line is read as, and nothing where it is none.
fn read_and_print(alloc: Global, lines: &mut Vec<u8>) -> Result<(), OutOfMemory> {
    let line = lines.len().saturating_sub(1);
    match read_report(alloc, &lines[..line]) {
        Ok((head, report)) => print_report(&head, &report, lines),
        Err(_) => Ok(()),
    }
}

/// The line of a report behind that head, and the line of what that one is read as.
fn printed_twice(alloc: Global, report: &Report) -> Result<Vec<u8>, OutOfMemory> {
    let mut lines = Vec::new(alloc);
    print_report(&HEAD, report, &mut lines)?;
    read_and_print(alloc, &mut lines)?;
    Ok(lines)
}

/// Asserts that a report is printed as these words behind that head, and is read of them.
fn told(rt: &impl Abort, alloc: Global, report: Report, words: &str) {
    let found = printed_twice(alloc, &report).expect(rt, "memory");
    let want = twice(alloc, words).expect(rt, "memory");
    assert_eq!(rt; found.as_slice(), want.as_slice(), "{words}");
}

#[test]
fn reports_of_leases(rt: HostRuntime) {
    let alloc = rt.alloc();
    told(&rt, alloc, Report::Accused(PEER), "accused 2.1");
    told(&rt, alloc, Report::Discharged(PEER), "discharged 2.1");
    told(&rt, alloc, Report::Heir(PEER, 7183), "heir 2.1 7183");
    told(&rt, alloc, Report::Stopped, "stopped");
}

const FOUND: &str = "found 8000000000000000 2.1";

#[test]
fn reports_of_searches(rt: HostRuntime) {
    let alloc = rt.alloc();
    told(&rt, alloc, Report::Found(KEY, PEER), FOUND);
    told(&rt, alloc, Report::Nowhere(KEY), "nowhere 8000000000000000");
}

/// Why a node leaves the ring, and the words.
const LEFT: &[(Why, &str)] = &[
    (Why::Fence, "left fence"),
    (Why::Lost, "left lost"),
    (Why::Counters, "left counters"),
    (Why::AccusedFull, "left accused"),
];

#[test]
fn reports_of_leaving(rt: HostRuntime) {
    for (why, words) in LEFT {
        told(&rt, rt.alloc(), Report::LeftRing(*why), words);
    }
}

#[test]
fn reports_of_an_epoch(rt: HostRuntime) {
    let alloc = rt.alloc();
    told(&rt, alloc, Report::Promised(1, EPOCH), "promised 1 0.1");
    told(&rt, alloc, Report::IsPrimary(1, EPOCH), "primary 1 0.1");
    told(&rt, alloc, Report::Configured(1, EPOCH), "configured 1 0.1");
    told(&rt, alloc, Report::Superseded(1, EPOCH), "superseded 1 0.1");
}

#[test]
fn reports_of_an_entry(rt: HostRuntime) {
    let alloc = rt.alloc();
    told(&rt, alloc, Report::Adopted(1, EPOCH, 3), "adopted 1 0.1 3");
    told(
        &rt,
        alloc,
        Report::Accepted(1, EPOCH, 1),
        "accepted 1 0.1 1",
    );
    told(
        &rt,
        alloc,
        Report::Committed(1, EPOCH, 1),
        "committed 1 0.1 1",
    );
}

const WHOLE: &str = "own 0000000000000000-ffffffffffffffff 4000";

#[test]
fn reports_of_own_ranges(rt: HostRuntime) {
    let whole = Report::Own(RangeSet::whole(), Some(4000));
    told(&rt, rt.alloc(), whole, WHOLE);
    let none = Report::Own(RangeSet::new(), None);
    told(&rt, rt.alloc(), none, "own - -");
}

const TAKEN_OVER: &str = "tookover 2.1 0000000000000000-ffffffffffffffff";

#[test]
fn reports_of_what_was_taken(rt: HostRuntime) {
    let over = Report::TookOver(PEER, RangeSet::whole());
    told(&rt, rt.alloc(), over, TAKEN_OVER);
    let took = Report::Took(PEER, 1, RangeSet::new());
    told(&rt, rt.alloc(), took, "took 2.1 1 -");
}

#[test]
fn reports_of_what_was_given(rt: HostRuntime) {
    let gave = Report::Gave(PEER, 0, RangeSet::new());
    told(&rt, rt.alloc(), gave, "gave 2.1 0 -");
    let returned = Report::Returned(PEER, 1, RangeSet::new());
    told(&rt, rt.alloc(), returned, "returned 2.1 1 -");
}

/// The report of two partitions, the greater first.
fn two_partitions(alloc: Global) -> Result<Report, OutOfMemory> {
    let numbers = vec![in alloc; 65535u16, 1]?;
    Ok(Report::UnitList(Partitions::new(numbers)))
}

/// The report that the name a stands for `7 of 9`.
fn resolved(alloc: Global) -> Result<Report, OutOfMemory> {
    let value = Vec::from_slice(alloc, b"7 of 9")?;
    let name = NameText::from_slice(b"a");
    Ok(Report::Resolved(1, name, NameValue::new(value)))
}

/// The report of the names b and a.
fn two_names(alloc: Global) -> Result<Report, OutOfMemory> {
    let mut names = Vec::new(alloc);
    names.push(NameText::from_slice(b"b"))?;
    names.push(NameText::from_slice(b"a"))?;
    Ok(Report::NameList(1, NameTexts::new(names)))
}

#[test]
fn reports_of_lists(rt: HostRuntime) -> Result<(), OutOfMemory> {
    let alloc = rt.alloc();
    told(&rt, alloc, two_partitions(alloc)?, "units 65535,1");
    told(&rt, alloc, resolved(alloc)?, "resolved 1 a 7 of 9");
    told(&rt, alloc, two_names(alloc)?, "names 1 b,a");
    Ok(())
}

#[test]
fn reports_of_nothing(rt: HostRuntime) {
    let alloc = rt.alloc();
    let none = Partitions::new(Vec::new(alloc));
    told(&rt, alloc, Report::UnitList(none), "units -");
    let unknown = NameText::from_slice(b"b");
    told(&rt, alloc, Report::Unresolved(1, unknown), "unresolved 1 b");
    let none = NameTexts::new(Vec::new(alloc));
    told(&rt, alloc, Report::NameList(1, none), "names 1");
}

/// Commands that are refused, and the words.
const REFUSED: &[(Verb, Reason, &str)] = &[
    (Verb::Link, Reason::Full, "refused link full"),
    (Verb::Part, Reason::NotLinked, "refused part notlinked"),
    (Verb::Give, Reason::TooMany, "refused give toomany"),
    (Verb::Give, Reason::Empty, "refused give empty"),
    (Verb::Join, Reason::Linked, "refused join linked"),
    (Verb::Create, Reason::Exists, "refused create exists"),
    (Verb::Create, Reason::TooFew(2), "refused create toofew 2"),
    (Verb::Swap, Reason::NotMember, "refused swap notmember"),
    (Verb::Heal, Reason::NotManager, "refused heal notmanager"),
    (Verb::Heal, Reason::Busy, "refused heal busy"),
    (Verb::Lose, Reason::NoUnit, "refused lose nounit"),
    (Verb::Lose, Reason::Counters, "refused lose counters"),
    (Verb::Write, Reason::NotPrimary, "refused write notprimary"),
    (Verb::Write, Reason::NotRouting, "refused write notrouting"),
    (Verb::Resolve, Reason::NotReady, "refused resolve notready"),
    (Verb::Names, Reason::NotPrimary, "refused names notprimary"),
];

#[test]
fn refusals(rt: HostRuntime) {
    for (verb, reason, words) in REFUSED {
        told(&rt, rt.alloc(), Report::Refused(*verb, *reason), words);
    }
}

/// What an arbitrator sent, without a reading.
const OF_ARBITRATOR: Head = Head {
    line: 25,
    time: Some(3100),
    who: Who {
        actor: 32769,
        instance: 0,
    },
    reading: None,
};

/// A turn of a node, without a time.
const OF_TURN: Head = Head {
    line: 7,
    time: None,
    who: Who {
        actor: 999,
        instance: 4_294_967_295,
    },
    reading: Some(1_000_000_000_000_000),
};

#[test]
fn heads(rt: HostRuntime) -> Result<(), OutOfMemory> {
    let mut text = Vec::new(rt.alloc());
    print_sent(&OF_ARBITRATOR, (17, 18), &mut text)?;
    print_report(&OF_TURN, &Report::Stopped, &mut text)?;
    let wanted = "25 3100 a1 - sent 17-18\n7 - 999.4294967295 1000000000000000 stopped\n";
    assert_eq!(rt; text.as_slice(), wanted.as_bytes());
    Ok(())
}

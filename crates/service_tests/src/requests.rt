//! Each request is read from its line, and refused from another speaker; a tag is told where it can be read.
use door_lines::{Asked, BadRequest, Request, Speaker, read_asked, read_done};
use fabric_terms::Command;
use ring_points::Point;
use std::process::Abort;

const SPEAKERS: &[Speaker] = &[
    Speaker::NodeClient,
    Speaker::ChildClient,
    Speaker::Parent,
    Speaker::ArbiterClient,
];

const OF_ALL: &[&str] = &["@1 state", "@1 watch", "@1 watch all", "@1 leave", "@1 end"];

const OF_NODES: &[&str] = &[
    "@1 log 7 1 64",
    "@1 link 2",
    "@1 write 7 a",
    "@1 find 00000000000000ff",
];

const OF_PARENTS: &[&str] = &["@1 hold 00000000000000ff", "@1 lead 7"];

const OF_NOBODY: &[&str] = &[
    "",
    "@",
    "@1",
    "@1 ",
    "#",
    "@1 log 7 0 1",
    "@1 log 7 100001 1",
    "@1 log 7 1 65",
];

fn nothing() -> Asked {
    Asked {
        tag: 9,
        request: Request::Lead(3),
    }
}

/// Whether each line is one of the speakers that are marked, in their order.
fn are_asked_by(lines: &[&str], marks: &[bool]) -> bool {
    let mut right = true;
    for line in lines {
        for (speaker, mark) in SPEAKERS.iter().zip(marks) {
            let read = read_asked(*speaker, line.as_bytes(), &mut nothing());
            right = right && read.is_ok() == *mark;
        }
    }
    right
}

#[test]
fn each_speaker_has_its_requests(rt: HostRuntime) {
    assert!(rt; are_asked_by(OF_ALL, &[true, true, true, true]));
    assert!(rt; are_asked_by(OF_NODES, &[true, true, true, false]));
    assert!(rt; are_asked_by(OF_PARENTS, &[false, false, true, false]));
    assert!(rt; are_asked_by(&["@1 link 2 for 600"], &[true, false, false, false]));
    assert!(rt; are_asked_by(OF_NOBODY, &[false, false, false, false]));
}

/// What a parent asks by a line.
fn told(line: &[u8]) -> Request {
    let mut asked = nothing();
    let _ = read_asked(Speaker::Parent, line, &mut asked);
    asked.request
}

fn is_log(request: Request) -> bool {
    match request {
        Request::Log {
            partition,
            first,
            count,
        } => partition == 65535 && first == 100_000 && count == 64,
        _ => false,
    }
}

fn is_write(request: Request) -> bool {
    match request {
        Request::Command(Command::Write(7, text)) => text.as_slice() == b" a ~".as_slice(),
        _ => false,
    }
}

#[test]
fn plain_requests_say_what_their_lines_say(rt: HostRuntime) {
    assert!(rt; matches!(told(b"@1 state"), Request::State));
    assert!(rt; matches!(told(b"@1 watch"), Request::Watch));
    assert!(rt; matches!(told(b"@1 watch all"), Request::WatchAll));
    assert!(rt; matches!(told(b"@1 leave"), Request::Leave));
    assert!(rt; matches!(told(b"@1 end"), Request::End));
}

#[test]
fn requests_with_fields_say_what_their_lines_say(rt: HostRuntime) {
    assert!(rt; is_log(told(b"@1 log 65535 100000 64")));
    assert!(rt; is_write(told(b"@1 write 7  a ~")));
    assert!(rt; matches!(told(b"@1 hold 00000000000000ff"), Request::Hold(Point(255))));
    assert!(rt; matches!(told(b"@1 lead 65535"), Request::Lead(65535)));
}

/// The tag of a refusal; None where the line is read.
fn tag_of(line: &[u8]) -> Option<Option<u32>> {
    match read_asked(Speaker::NodeClient, line, &mut nothing()) {
        Ok(()) => None,
        Err(BadRequest { tag }) => Some(tag),
    }
}

const WITHOUT_TAG: &[&str] = &[
    "",
    "state",
    "@",
    "@7",
    "@07 state",
    "@4294967296 state",
    "@ 7 state",
    "@-1 state",
];

fn have_no_tag(rt: &impl Abort, lines: &[&str]) {
    for line in lines {
        assert_eq!(rt; tag_of(line.as_bytes()), Some(None));
    }
}

#[test]
fn a_refusal_has_the_tag_that_can_be_read(rt: HostRuntime) {
    assert_eq!(rt; tag_of(b"@7 state"), None);
    assert_eq!(rt; tag_of(b"@7 lead 1"), Some(Some(7)));
    assert_eq!(rt; tag_of(b"@4294967295 "), Some(Some(4_294_967_295)));
    have_no_tag(&rt, WITHOUT_TAG);
}

#[test]
fn a_refusal_changes_nothing(rt: HostRuntime) {
    let mut asked = nothing();
    assert!(rt; read_asked(Speaker::ChildClient, b"@1 link 2 for 600", &mut asked).is_err());
    assert!(rt; matches!(asked.request, Request::Lead(3)));
    assert_eq!(rt; asked.tag, 9);
}

const NOT_DONE: &[&str] = &[
    "done 0",
    "done 18446744073709551616",
    "done",
    "done ",
    "done 01",
    "@1 done 1",
];

fn are_not_done(rt: &impl Abort, lines: &[&str]) {
    for line in lines {
        assert!(rt; read_done(line.as_bytes()).is_err());
    }
}

#[test]
fn a_parent_says_what_it_let_go(rt: HostRuntime) {
    assert_eq!(rt; read_done(b"done 1").ok(), Some(1));
    assert_eq!(rt;
        read_done(b"done 18446744073709551615").ok(),
        Some(u64::MAX)
    );
    are_not_done(&rt, NOT_DONE);
}

//! The checksum of a configuration, the bytes of the file `actor`, and how a start goes on by it.
use crate::small_config::small_config;
use service_file::{
    ActorFile, ActorFileError, Again, Agains, Beginning, again_line, began_line, begins_by,
    checksum_of, head_line, read_actor_file,
};
use std::alloc::Global;
use std::process::Abort;

/// The file of a node that has begun, and was allowed to begin again twice. Its digits are those of `sha256sum` for the
/// text of the small configuration.
const FILE: &str =
    "fabricd 1 12 2dbd9ee9c511415def0a4c3b53b3e6ab0547ebf3a5fa917f4ac8a4a831a3e2a1\nbegan\n\
again 12.2\nagain 12.4294967295\n";

fn allowed(instance: u32) -> Again {
    Again { node: 12, instance }
}

#[test]
fn the_file_is_written_line_by_line(rt: HostRuntime) {
    let alloc = rt.alloc();
    let checksum = checksum_of(alloc, &small_config(&rt, alloc)).expect(&rt, "memory");
    let mut text = head_line(alloc, 12, &checksum).expect(&rt, "memory");
    text.extend_from_slice(began_line()).expect(&rt, "memory");
    for instance in [2, 4_294_967_295] {
        let line = again_line(alloc, allowed(instance)).expect(&rt, "memory");
        text.extend_from_slice(line.as_slice())
            .expect(&rt, "memory");
    }
    assert_eq!(rt; text.as_slice(), FILE.as_bytes());
    let head = head_line(alloc, 32769, &[0xf0; 32]).expect(&rt, "memory");
    let first = b"fabricd 1 a1 f0f0f0f0f0f0f0f0f0f0f0f0f0f0f0f0f0f0f0f0f0f0f0f0f0f0f0f0f0f0f0f0\n";
    assert_eq!(rt; head.as_slice(), first.as_slice());
}

#[test]
fn the_file_is_read_as_it_was_written(rt: HostRuntime) {
    let file = read_actor_file(rt.alloc(), FILE.as_bytes()).expect(&rt, "a file");
    assert_eq!(rt; file.actor, 12);
    assert_eq!(rt; file.checksum[0], 0x2d);
    assert_eq!(rt; file.checksum[31], 0xa1);
    assert!(rt; file.has_begun);
    assert_eq!(rt;
        file.again.as_slice(),
        [allowed(2), allowed(4_294_967_295)].as_slice()
    );
}

#[test]
fn what_is_cut_off_or_spelled_otherwise_is_refused(rt: HostRuntime) {
    let ends = [78, 84, 95];
    for end in 0..FILE.len() {
        let is_whole = ends.contains(&end);
        let answer = read_actor_file(rt.alloc(), &FILE.as_bytes()[..end]);
        assert_eq!(rt; answer.is_ok(), is_whole, "cut at {end}");
    }
    for other in [
        "FABRICD 1 12 ",
        "fabricd 1 012 ",
        "fabricd 1 12  ",
        "fabricd 1 a0 ",
    ] {
        let line = format!(in rt.alloc(); "{other}{}\n", &FILE[13..77]).expect(&rt, "memory");
        let answer = read_actor_file(rt.alloc(), line.as_bytes()).err();
        assert_eq!(rt; answer, Some(ActorFileError::Bad), "{other}");
    }
    let mut digits = String::from_str(rt.alloc(), FILE).expect(&rt, "memory");
    digits.make_ascii_uppercase();
    let line = format!(in rt.alloc(); "{}{}{}", &FILE[..13], &digits[13..77], &FILE[77..]).expect(
        &rt, "memory",
    );
    assert!(rt; read_actor_file(rt.alloc(), line.as_bytes()).is_err());
}

/// A file of node 12, with a line `again` of this instance if there is one.
fn file_of(rt: &impl Abort, alloc: Global, has_begun: bool, noted: Option<u32>) -> ActorFile {
    let mut again = Vec::new(alloc);
    if let Some(instance) = noted {
        again.push(allowed(instance)).expect(rt, "memory");
    }
    ActorFile {
        actor: 12,
        checksum: [0; 32],
        has_begun,
        again: Agains::new(again),
    }
}

#[test]
fn a_start_goes_on_by_the_table(rt: HostRuntime) {
    let rows = [
        (false, None, None, None, Beginning::Usual),
        (true, None, None, None, Beginning::Emptied),
        (true, None, Some(1), None, Beginning::Usual),
        (true, None, Some(4), Some(5), Beginning::NoteAnew),
        (true, Some(5), Some(4), Some(5), Beginning::Anew),
        (true, Some(5), Some(5), Some(5), Beginning::Passed),
        (true, None, Some(9), Some(5), Beginning::Passed),
        (true, Some(5), Some(3), Some(5), Beginning::Emptied),
        (true, Some(2), Some(3), Some(5), Beginning::WrongInstance),
        (false, None, None, Some(2), Beginning::WrongInstance),
    ];
    for (row, (has_begun, noted, last, again, want)) in rows.into_iter().enumerate() {
        let file = file_of(&rt, rt.alloc(), has_begun, noted);
        let found = begins_by(&file, last, again.map(allowed));
        assert_eq!(rt; found, want, "in row {row}, from 0");
    }
    let other = Again {
        node: 7,
        instance: 2,
    };
    let file = file_of(&rt, rt.alloc(), true, None);
    assert_eq!(rt; begins_by(&file, Some(1), Some(other)), Beginning::Usual);
}

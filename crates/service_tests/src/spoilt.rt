//! Lines that are asked, spoilt in each way: cut short, longer by a byte, or with one byte altered. What is read of
//! them is what regular expressions over the documented grammar match.
use door_lines::{Asked, Request, Speaker, read_asked, read_done};
use std::alloc::{AllocError, Global};
use std::process::Abort;

/// The bytes that stand in for each other one, and behind the line.
const OTHERS: &[u8] = b" 09@g";

/// Whether a line is one that this speaker asks, or for nobody: one by which a parent lets go.
fn is_read(speaker: Option<Speaker>, line: &[u8]) -> bool {
    let mut asked = Asked {
        tag: 0,
        request: Request::State,
    };
    match speaker {
        Some(speaker) => read_asked(speaker, line, &mut asked).is_ok(),
        None => read_done(line).is_ok(),
    }
}

/// Notes a line that is read.
fn note(speaker: Option<Speaker>, line: &[u8], into: &mut Vec<u8>) -> Result<(), AllocError> {
    if is_read(speaker, line) {
        into.extend_from_slice(line)?;
        into.push(b'\n')?;
    }
    Ok(())
}

/// Notes what is read of the line with its byte at this place altered.
fn note_altered(
    alloc: Global,
    speaker: Option<Speaker>,
    line: &[u8],
    place: usize,
    into: &mut Vec<u8>,
) -> Result<(), AllocError> {
    for byte in OTHERS {
        let mut other = line.to_vec(alloc)?;
        if let Some(old) = other.get_mut(place) {
            if *old == *byte {
                continue;
            }
            *old = *byte;
        }
        note(speaker, other.as_slice(), into)?;
    }
    Ok(())
}

/// What is read of a line that is spoilt in each way.
fn spoilt(alloc: Global, speaker: Option<Speaker>, line: &[u8]) -> Result<Vec<u8>, AllocError> {
    let mut all = Vec::new(alloc);
    for length in 0..line.len() {
        note(speaker, &line[..length], &mut all)?;
    }
    for byte in OTHERS {
        let mut longer = line.to_vec(alloc)?;
        longer.push(*byte)?;
        note(speaker, longer.as_slice(), &mut all)?;
    }
    for place in 0..line.len() {
        note_altered(alloc, speaker, line, place, &mut all)?;
    }
    Ok(all)
}

fn is_right(rt: &impl Abort, alloc: Global, speaker: Option<Speaker>, line: &[u8], wanted: &[u8]) {
    let read = spoilt(alloc, speaker, line).expect(rt, "memory");
    assert!(rt; is_read(speaker, line));
    assert_eq!(rt; read.as_slice(), wanted);
}

const AN_ARBITRATORS_CLIENT: &[u8] = b"@7 watch all";

const AN_ARBITRATORS_CLIENT_SPOILT: &[u8] = b"@7 watch\n\
          @0 watch all\n\
          @9 watch all\n";

#[test]
fn an_arbitrators_client(rt: HostRuntime) {
    is_right(
        &rt,
        rt.alloc(),
        Some(Speaker::ArbiterClient),
        AN_ARBITRATORS_CLIENT,
        AN_ARBITRATORS_CLIENT_SPOILT,
    );
}

const THE_GREATEST_TAG: &[u8] = b"@4294967295 end";

const THE_GREATEST_TAG_SPOILT: &[u8] = b"@4094967295 end\n\
          @4204967295 end\n\
          @4290967295 end\n\
          @4294067295 end\n\
          @4294907295 end\n\
          @4294960295 end\n\
          @4294967095 end\n\
          @4294967205 end\n\
          @4294967290 end\n";

#[test]
fn the_greatest_tag(rt: HostRuntime) {
    is_right(
        &rt,
        rt.alloc(),
        Some(Speaker::NodeClient),
        THE_GREATEST_TAG,
        THE_GREATEST_TAG_SPOILT,
    );
}

const A_LOG: &[u8] = b"@1 log 65535 100000 64";

const A_LOG_SPOILT: &[u8] = b"@1 log 65535 100000 6\n\
          @0 log 65535 100000 64\n\
          @9 log 65535 100000 64\n\
          @1 log 60535 100000 64\n\
          @1 log 65035 100000 64\n\
          @1 log 65505 100000 64\n\
          @1 log 65530 100000 64\n\
          @1 log 65535 100000 60\n";

#[test]
fn a_log(rt: HostRuntime) {
    is_right(
        &rt,
        rt.alloc(),
        Some(Speaker::NodeClient),
        A_LOG,
        A_LOG_SPOILT,
    );
}

const A_LINK_WITH_A_LENGTH: &[u8] = b"@2 link 9 for 10";

const A_LINK_WITH_A_LENGTH_SPOILT: &[u8] = b"@2 link 9\n\
          @2 link 9 for 100\n\
          @2 link 9 for 109\n\
          @0 link 9 for 10\n\
          @9 link 9 for 10\n\
          @2 link 9 for 90\n\
          @2 link 9 for 19\n";

#[test]
fn a_link_with_a_length(rt: HostRuntime) {
    is_right(
        &rt,
        rt.alloc(),
        Some(Speaker::NodeClient),
        A_LINK_WITH_A_LENGTH,
        A_LINK_WITH_A_LENGTH_SPOILT,
    );
}

const A_LINK_OF_ONE_LENGTH: &[u8] = b"@2 link 9";

const A_LINK_OF_ONE_LENGTH_SPOILT: &[u8] = b"@2 link 90\n\
          @2 link 99\n\
          @0 link 9\n\
          @9 link 9\n";

#[test]
fn a_link_of_one_length(rt: HostRuntime) {
    is_right(
        &rt,
        rt.alloc(),
        Some(Speaker::ChildClient),
        A_LINK_OF_ONE_LENGTH,
        A_LINK_OF_ONE_LENGTH_SPOILT,
    );
}

const A_WRITE: &[u8] = b"@3 write 7 ab";

const A_WRITE_SPOILT: &[u8] = b"@3 write 7 a\n\
          @3 write 7 ab \n\
          @3 write 7 ab0\n\
          @3 write 7 ab9\n\
          @3 write 7 ab@\n\
          @3 write 7 abg\n\
          @0 write 7 ab\n\
          @9 write 7 ab\n\
          @3 write 0 ab\n\
          @3 write 9 ab\n\
          @3 write 7  b\n\
          @3 write 7 0b\n\
          @3 write 7 9b\n\
          @3 write 7 @b\n\
          @3 write 7 gb\n\
          @3 write 7 a \n\
          @3 write 7 a0\n\
          @3 write 7 a9\n\
          @3 write 7 a@\n\
          @3 write 7 ag\n";

#[test]
fn a_write(rt: HostRuntime) {
    is_right(
        &rt,
        rt.alloc(),
        Some(Speaker::NodeClient),
        A_WRITE,
        A_WRITE_SPOILT,
    );
}

const A_QUESTION_OF_A_PARENT: &[u8] = b"@6 lead 10";

const A_QUESTION_OF_A_PARENT_SPOILT: &[u8] = b"@6 lead 1\n\
          @6 lead 100\n\
          @6 lead 109\n\
          @0 lead 10\n\
          @9 lead 10\n\
          @6 lead 90\n\
          @6 lead 19\n";

#[test]
fn a_question_of_a_parent(rt: HostRuntime) {
    is_right(
        &rt,
        rt.alloc(),
        Some(Speaker::Parent),
        A_QUESTION_OF_A_PARENT,
        A_QUESTION_OF_A_PARENT_SPOILT,
    );
}

const A_NUMBER_THAT_IS_LET_GO: &[u8] = b"done 10";

const A_NUMBER_THAT_IS_LET_GO_SPOILT: &[u8] = b"done 1\n\
          done 100\n\
          done 109\n\
          done 90\n\
          done 19\n";

#[test]
fn a_number_that_is_let_go(rt: HostRuntime) {
    is_right(
        &rt,
        rt.alloc(),
        None,
        A_NUMBER_THAT_IS_LET_GO,
        A_NUMBER_THAT_IS_LET_GO_SPOILT,
    );
}

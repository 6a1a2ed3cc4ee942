// Datagrams of a running node, cut at each length, a byte longer, and altered in each byte.

use crate::calls::text_of;
use crate::turns::configs::{BOOT, DUO, HELLO, PROMISED};
use crate::turns::memory::{NONE, expect_kept, keeper, run_with};
use std::alloc::Global;
use std::process::Abort;
use std::test::Fail;

/// 2.1 asks node 1 who holds a point.
const SEEK: &[u8] =
    b"\x53\x01\x08\x00\x02\x00\x00\x00\x01\x00\x01\x00\x00\x00\x00\x00\x02\x00\x00\x00\x01\x70\x00\x00\x00\x00\x00\x00\x00\x00";

/// 2.1 parts from a session that 1.1 does not know.
const GONE: &[u8] =
    b"\x53\x01\x07\x00\x02\x00\x00\x00\x01\x00\x01\x00\x00\x00\x01\x00\x00\x00\x01\x00\x00\x00\x02\x00\x00\x00\x00\x01";

/// 2.1 asks for a promise of epoch 0.1 of partition 1.
const PROMISE: &[u8] =
    b"\x53\x01\x30\x00\x02\x00\x00\x00\x01\x00\x01\x00\x00\x00\x00\x00\x01\x00\x00\x00\x00\x00\x00\x00\x01";

const WHOLE: &str = "0 - 1.1 0 own 0000000000000000-ffffffffffffffff -";

/// A datagram, the text of a turn in which it arrives, how many datagrams the node sends, and its records.
type Heard = (
    &'static [u8],
    &'static [&'static str],
    usize,
    &'static [&'static [u8]],
);

/// Node 1 answers a Hello by an Offer, and sends that again at the firing of the turn.
const HEARD: [Heard; 4] = [
    (
        HELLO,
        &[
            WHOLE,
            "1 - 1.1 0 own 0000000000000000-ffffffffffffffff 4000",
            "end 1",
        ],
        2,
        &[BOOT],
    ),
    (SEEK, &[WHOLE, "end 1"], 1, &[BOOT]),
    (GONE, &[WHOLE, "end 1"], 1, &[BOOT]),
    (
        PROMISE,
        &[WHOLE, "1 - 1.1 0 promised 1 0.1", "end 1"],
        1,
        &[BOOT, PROMISED],
    ),
];

/// The fronts of a datagram, the shortest first, and it with one more byte.
fn broken(alloc: Global, datagram: &[u8]) -> Result<Vec<Vec<u8>>, Fail> {
    let mut all = Vec::new(alloc);
    for end in 0..datagram.len() {
        all.push(datagram[..end].to_vec(alloc)?)?;
    }
    let mut longer = datagram.to_vec(alloc)?;
    longer.push(0)?;
    all.push(longer)?;
    Ok(all)
}

/// Runs node 1 for one turn in which these datagrams arrive.
fn expect_turn(
    rt: &impl Abort,
    alloc: Global,
    datagrams: Vec<Vec<u8>>,
    wanted: (&[&str], usize, &[&[u8]]),
) -> Result<(), Fail> {
    let mut keeps = keeper(alloc, NONE)?;
    let left = run_with(alloc, &mut keeps, &["node", "1", "1"], &[DUO], datagrams)?;
    let text = text_of(alloc, &[wanted.0])?;
    left.expect(rt, 0, text.as_slice(), wanted.1);
    expect_kept(rt, &mut keeps, 1, wanted.2)
}

fn expect_broken(rt: &impl Abort, alloc: Global, heard: &Heard) -> Result<(), Fail> {
    let datagrams = broken(alloc, heard.0)?;
    expect_turn(rt, alloc, datagrams, (&[WHOLE, "end 1"], 0, &[BOOT]))
}

/// The whole datagram after the broken ones has its effect.
fn expect_mended(rt: &impl Abort, alloc: Global, heard: &Heard) -> Result<(), Fail> {
    let mut datagrams = broken(alloc, heard.0)?;
    datagrams.push(heard.0.to_vec(alloc)?)?;
    expect_turn(rt, alloc, datagrams, (heard.1, heard.2, heard.3))
}

#[test]
fn a_datagram_of_another_length_changes_nothing(rt: HostRuntime) -> Result<(), Fail> {
    for heard in &HEARD {
        expect_broken(&rt, rt.alloc(), heard)?;
        expect_mended(&rt, rt.alloc(), heard)?;
    }
    Ok(())
}

/// A byte, and the places of a Hello at which it leaves a Hello for node 1 from an instance of node 2. At every other
/// place it leaves no frame, or one from a node that the configuration does not name, or one for another actor or
/// instance.
const ALTERED: [(u8, &[usize]); 3] = [
    (0xff, &[5, 6, 7, 8, 15, 16, 17, 18]),
    (0x80, &[5, 6, 7, 8, 15, 16, 17, 18]),
    (0x02, &[4, 5, 6, 7, 8, 15, 16, 17, 18]),
];

fn altered(alloc: Global, place: usize, byte: u8) -> Result<Vec<Vec<u8>>, Fail> {
    let mut hello = HELLO.to_vec(alloc)?;
    if let Some(old) = hello.get_mut(place) {
        *old = byte;
    }
    let mut all = Vec::new(alloc);
    all.push(hello)?;
    Ok(all)
}

fn expect_altered(
    rt: &impl Abort,
    alloc: Global,
    place: usize,
    byte: u8,
    is_hello: bool,
) -> Result<(), Fail> {
    let datagrams = altered(alloc, place, byte)?;
    let wanted: (&[&str], usize, &[&[u8]]) = if is_hello {
        (HEARD[0].1, 2, &[BOOT])
    } else {
        (&[WHOLE, "end 1"], 0, &[BOOT])
    };
    expect_turn(rt, alloc, datagrams, wanted)
}

#[test]
fn an_altered_datagram_is_what_its_bytes_are(rt: HostRuntime) -> Result<(), Fail> {
    for (byte, places) in &ALTERED {
        for place in 0..HELLO.len() {
            expect_altered(&rt, rt.alloc(), place, *byte, places.contains(&place))?;
        }
    }
    Ok(())
}

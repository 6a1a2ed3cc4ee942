//! Lines of a stream that comes in pieces of each length.
ghost use Rattle.std.specs.Prelude.{◌≤◌};

use std::alloc::{AllocError, Global};
use std::process::Abort;
use stream_cut::{Cut, StreamCut};

/// The bytes of a stream, whose lines may have four bytes.
const STREAM: &[u8] = b"ab\n\nabcd\nabcde\nx\nabcdefghij\nyz\npart";

/// What comes out, each line with a line feed, and a line that is too long as `!`.
fn cut_all(cutter: &mut StreamCut, said: &mut Vec<u8>) -> Result<(), AllocError> {
    for _ in 0..STREAM.len() {
        match cutter.next() {
            Cut::Line => said.extend_from_slice(cutter.line())?,
            Cut::TooLong => said.push(b'!')?,
            Cut::More => return Ok(()),
        }
        said.push(b'\n')?;
    }
    Ok(())
}

/// What comes out after this piece, of which the cutter may take a part at a time.
fn feed(cutter: &mut StreamCut, piece: &[u8], said: &mut Vec<u8>) -> Result<(), AllocError> {
    let mut rest = piece;
    for _ in 0..piece.len() {
        let count = cutter.take(rest);
        rest = &rest[count..];
        cut_all(cutter, said)?;
    }
    Ok(())
}

/// What comes out of the stream in pieces of this length.
fn cut_by(rt: &impl Abort, alloc: Global, length: usize) -> Vec<u8>
    requires { 1 ≤ length }
{
    let mut cutter = StreamCut::new(alloc, 4).expect(rt, "memory");
    let mut said = Vec::new(alloc);
    for piece in STREAM.chunks(length) {
        feed(&mut cutter, piece, &mut said).expect(rt, "memory");
    }
    said
}

#[test]
fn lines_do_not_depend_on_pieces(rt: HostRuntime) {
    for length in 1..STREAM.len() + 1 {
        let said = cut_by(&rt, rt.alloc(), length);
        assert_eq!(rt;
            said.as_slice(),
            b"ab\n\nabcd\n!\nx\n!\nyz\n".as_slice(),
            "by {length}"
        );
    }
}

#[test]
fn a_full_room_takes_nothing_more(rt: HostRuntime) {
    let mut cutter = StreamCut::new(rt.alloc(), 4).expect(&rt, "memory");
    assert_eq!(rt; cutter.take(b"a\nb\ncd\n"), 5);
    assert_eq!(rt; cutter.take(b"d\n"), 0);
    assert_eq!(rt; cutter.next(), Cut::Line);
    assert_eq!(rt; cutter.line(), b"a".as_slice());
    assert_eq!(rt; cutter.take(b"d\n"), 2);
}

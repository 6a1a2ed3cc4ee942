use crate::calls::{text_of, written};
use crate::schedules::{ONE, expect_text};
use std::alloc::Global;
use std::test::Fail;

/// The whole ring, with the one node that never started.
const NEVER_STARTED: &str = "unheld 1.1 0000000000000000-ffffffffffffffff\nend 0 0";

/// This byte so many times, and a line feed.
fn push_line(text: &mut Vec<u8>, byte: u8, count: usize) -> Result<(), Fail> {
    for _ in 0..count {
        text.push(byte)?;
    }
    text.push(b'\n')?;
    Ok(())
}

/// A configuration of one node, with blanks behind it up to this length.
fn first_line_of(alloc: Global, length: usize) -> Result<Vec<u8>, Fail> {
    let mut text = Vec::new(alloc);
    text.extend_from_slice(ONE.as_bytes())?;
    push_line(&mut text, b' ', length.saturating_sub(ONE.len()))?;
    Ok(text)
}

#[test]
fn a_first_line_has_65536_bytes_at_most(rt: HostRuntime) -> Result<(), Fail> {
    let alloc = rt.alloc();
    expect_text(
        &rt,
        alloc,
        first_line_of(alloc, 65_536)?,
        0,
        &[&[NEVER_STARTED]],
    )?;
    expect_text(
        &rt,
        alloc,
        first_line_of(alloc, 65_537)?,
        9,
        &[&["fault large 1"]],
    )
}

#[test]
fn another_line_has_4096_bytes_at_most(rt: HostRuntime) -> Result<(), Fail> {
    let alloc = rt.alloc();
    for (byte, length, code, written) in [
        (b'#', 4_096, 0, NEVER_STARTED),
        (b'#', 4_097, 9, "fault large 2"),
        (b'x', 4_097, 9, "fault large 2"),
    ] {
        let mut text = text_of(alloc, &[&[ONE]])?;
        push_line(&mut text, byte, length)?;
        expect_text(&rt, alloc, text, code, &[&[written]])?;
    }
    Ok(())
}

#[test]
fn a_line_of_a_transcript_has_65536_bytes_at_most(rt: HostRuntime) -> Result<(), Fail> {
    let alloc = rt.alloc();
    for (length, code, wanted) in [
        (65_536, 0, b"safe 0\n".as_slice()),
        (65_537, 9, b"fault large 1\n".as_slice()),
    ] {
        let mut text = Vec::new(alloc);
        push_line(&mut text, b'#', length)?;
        written(alloc, &["audit"], text, Vec::new(alloc), Vec::new(alloc))?.expect(
            &rt, code, wanted,
        );
    }
    Ok(())
}

#[test]
fn there_are_2000000_lines_at_most(rt: HostRuntime) -> Result<(), Fail> {
    let alloc = rt.alloc();
    for (lines, code, written) in [
        (1_999_999, 0, NEVER_STARTED),
        (2_000_000, 9, "fault large 2000001"),
    ] {
        let mut text = text_of(alloc, &[&[ONE]])?;
        for _ in 0..lines {
            text.push(b'\n')?;
        }
        expect_text(&rt, alloc, text, code, &[&[written]])?;
    }
    Ok(())
}

#[test]
fn a_source_of_2_megabytes_is_read(rt: HostRuntime) -> Result<(), Fail> {
    let alloc = rt.alloc();
    let mut text = text_of(alloc, &[&[ONE]])?;
    for _ in 0..520 {
        push_line(&mut text, b'#', 4_095)?;
    }
    expect_text(&rt, alloc, text, 0, &[&[NEVER_STARTED]])
}

//! Texts that repeat a piece.
use sched_text::OutOfMemory;
use std::alloc::Global;

/// A start, and so many pieces behind it.
pub(crate) fn repeated(
    alloc: Global,
    start: &str,
    piece: &str,
    times: u32,
) -> Result<Vec<u8>, OutOfMemory> {
    let mut text = Vec::from_slice(alloc, start.as_bytes())?;
    for _ in 0..times {
        text.extend_from_slice(piece.as_bytes())?;
    }
    Ok(text)
}

use door_lines::push_hex;
use edge_io::write_all;
use fabric_edge::StdoutSink;
use fabric_status::Status;
use fabric_terms::OutOfMemory;
use serve_edge::read_file;
use serve_top::{End, read_setup};
use std::alloc::Global;
use text_fields::push_bytes;

fn good_line(alloc: Global, checksum: &[u8; 32]) -> Result<Vec<u8>, OutOfMemory> {
    let mut text = Vec::new(alloc);
    push_bytes(&mut text, b"good ")?;
    push_hex(&mut text, checksum)?;
    push_bytes(&mut text, b"\n")?;
    Ok(text)
}

/// The line for a FILE that a start would take.
fn judge_file(rt: &HostRuntime, path: &str) -> Result<Vec<u8>, End> {
    let bytes = read_file(rt, rt.alloc(), path)?;
    let setup = read_setup(rt.alloc(), &bytes)?;
    Ok(good_line(rt.alloc(), &setup.checksum)?)
}

/// Reads FILE as a start does, and writes its checksum.
pub fn check_file(rt: &HostRuntime, path: &str) -> End {
    let text = match judge_file(rt, path) {
        Ok(text) => text,
        Err(end) => return end,
    };
    let mut sink = StdoutSink::new(rt);
    match write_all(&mut sink, &text) {
        Ok(()) => End::As(Status::Ok),
        Err(_) => End::As(Status::WriteFault),
    }
}

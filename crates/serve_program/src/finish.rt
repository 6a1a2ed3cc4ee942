use edge_io::write_all;
use fabric_edge::StdoutSink;
use fabric_status::Status;
use serve_top::{End, HELP, push_last_line};
use std::str;

/// Writes the last line where the log is: on standard error if standard output has the lines of a parent, else on
/// standard output.
fn tell_last(rt: &HostRuntime, text: &[u8], greeted: bool) {
    if !greeted {
        let mut sink = StdoutSink::new(rt);
        let _ = write_all(&mut sink, text);
    } else if let Ok(line) = str::from_utf8(text) {
        let _ = rt.eprint(line);
    }
}

/// Writes the last line, and gives the exit status. It stays, whether or not the line is taken.
pub fn tell_end(rt: &HostRuntime, end: &End, greeted: bool) -> u8 {
    let mut text = Vec::new(rt.alloc());
    if push_last_line(rt.alloc(), &mut text, end).is_ok() {
        tell_last(rt, &text, greeted);
    }
    if let End::As(Status::Usage) = end {
        let _ = rt.eprint(HELP);
    }
    end.code()
}

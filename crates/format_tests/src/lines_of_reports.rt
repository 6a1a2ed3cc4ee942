//! Which bytes are a line of a report.
use crate::pieces::repeated;
use sched_text::{LineRefusal, OutOfMemory, read_report};
use std::alloc::Global;

fn is_line(alloc: Global, line: &[u8]) -> bool {
    read_report(alloc, line).is_ok()
}

/// Whether a line is refused as one that is none.
fn is_refused(alloc: Global, line: &[u8]) -> bool {
    matches!(read_report(alloc, line), Err(LineRefusal::BadLine))
}

/// The worked lines that are read, between bars: a node, an arbitrator, a turn, and the greatest numbers.
const LINES: &str = "\
15 0 1.1 0 resolved 1 a 7|16 0 1.1 0 unresolved 1 b|17 0 1.1 0 names 1 a|\
17 100 1.1 100 gave 2.1 1 4000000000000001-bfffffffffffffff|28 3100 1.1 3100 heir 2.1 7183|\
15 0 1.1 0 committed 1 0.1 1|25 3100 a1 - stopped|7 - 2.1 5 accused a9|\
18446744073709551615 18446744073709551615 999.4294967295 18446744073709551615 own - 18446744073709551615";

#[test]
fn lines(rt: HostRuntime) {
    for line in LINES.split('|') {
        assert!(rt; is_line(rt.alloc(), line.as_bytes()), "{line}");
    }
}

/// What is no line of a report, between bars.
const BAD_LINES: &str = "\
|2 0 1.1 0|2 0 1.1 0 |2 0 1.1 0 stopped |2 0 1.1 0 stopped\n|2  0 1.1 0 stopped|02 0 1.1 0 stopped|\
- 0 1.1 0 stopped|2 0 1.1 - stopped|2 0 a1 0 stopped|2 0 1.0 0 stopped|2 0 1 0 stopped|\
18446744073709551616 0 1.1 0 stopped|2 0 1.1 0 sent 1-1|2 0 1.1 0 Stopped|2 0 1.1 0 own -|\
2 0 1.1 0 own - - -|2 0 1.1 0 own 0-1 -|2 0 1.1 0 left|2 0 1.1 0 left home|\
2 0 1.1 0 gave 2.1 4294967296 -|2 0 1.1 0 heir 2.1|2 0 1.1 0 primary 65536 0.1|\
2 0 1.1 0 primary 1 0.4294967296|2 0 1.1 0 units|2 0 1.1 0 units 1,|2 0 1.1 0 units 65536|\
2 0 1.1 0 resolved 1 a|2 0 1.1 0 resolved 1 a |2 0 1.1 0 resolved 1 a,b 7|2 0 1.1 0 names 1 |\
2 0 1.1 0 names 1 a,|2 0 1.1 0 refused find full|2 0 1.1 0 refused link toofew 256|\
2 0 1.1 0 refused link fuller";

#[test]
fn bad_lines(rt: HostRuntime) {
    for line in BAD_LINES.split('|') {
        assert!(rt; is_refused(rt.alloc(), line.as_bytes()), "{line}");
    }
}

/// The start of a line, the piece that it goes on with, and how often it does so at most.
const LONGEST: &[(&str, &str, u32)] = &[
    ("2 0 1.1 0 names 1 a", ",b", 63),
    ("2 0 1.1 0 resolved 1 a ", "~", 400),
    ("2 0 1.1 0 unresolved 1 ", "~", 64),
];

#[test]
fn longest_lists(rt: HostRuntime) -> Result<(), OutOfMemory> {
    for (start, piece, most) in LONGEST {
        let mut line = repeated(rt.alloc(), start, piece, *most)?;
        assert!(rt; is_line(rt.alloc(), &line), "{start}");
        line.extend_from_slice(piece.as_bytes())?;
        assert!(rt; is_refused(rt.alloc(), &line), "{start}");
    }
    Ok(())
}

use crate::pieces::repeated;
use ring_points::Interval;
use sched_text::{
    Command, Event, EventLine, OutOfMemory, TickReadings, read_command, read_event, read_event_line,
};
use std::process::Abort;

#[test]
fn starts_and_stops(rt: HostRuntime) {
    assert!(rt;
        matches!(
            read_event(b"start 1 0"),
            Ok(Event::Start {
                actor: 1,
                reading: Some(0)
            })
        )
    );
    assert!(rt;
        matches!(
            read_event(b"start a9"),
            Ok(Event::Start {
                actor: 32777,
                reading: None
            })
        )
    );
    assert!(rt; matches!(read_event(b"stop a1"), Ok(Event::Stop { actor: 32769 })));
}

const TICK: &[u8] = b"tick 4082 1:7182 2:0";

/// What the clocks show at that tick.
const READINGS: &[(u16, u64)] = &[(1, 7182), (2, 0)];

fn is_tick(line: &[u8], wanted: &[(u16, u64)]) -> bool {
    match read_event(line) {
        Ok(
            Event::Tick {
                advance: 4082,
                readings,
            },
        ) => readings.as_slice() == wanted,
        _ => false,
    }
}

fn tells_tick(line: &[u8], wanted: u64, readings: &mut TickReadings) -> bool {
    match read_event_line(line, readings) {
        Ok(EventLine::Tick { advance }) => advance == wanted,
        _ => false,
    }
}

#[test]
fn ticks(rt: HostRuntime) {
    assert!(rt; is_tick(TICK, READINGS));
    let mut list = TickReadings::new();
    assert!(rt; tells_tick(b"tick 5 3:1", 5, &mut list));
    assert!(rt; tells_tick(TICK, 4082, &mut list));
    assert!(rt; list.as_slice() == READINGS);
}

fn is_junk(line: &[u8], wanted: &[u8]) -> bool {
    match read_event(line) {
        Ok(
            Event::Junk {
                actor: 32771,
                bytes,
            },
        ) => bytes.as_slice() == wanted,
        _ => false,
    }
}

#[test]
fn junk(rt: HostRuntime) {
    assert!(rt; is_junk(b"junk a3 0001af", &[0, 1, 0xaf]));
}

/// Lines that are read, between bars.
const LINES: &str = "\
stop 999|fire 2|give 0|give 1000000000000000|tick 0|do 2 link 1|do 2 part 7|do 2 give 7 near|\
do 2 give 7 all|do 2 join 7|do 2 find 80000000000000af|do 2 create 1 1|do 2 swap 65535 2|\
do 2 heal 0 7|do 2 lose 1 999|do 2 units 0000000000000000-ffffffffffffffff";

#[test]
fn lines(rt: HostRuntime) {
    for line in LINES.split('|') {
        assert!(rt; read_event(line.as_bytes()).is_ok(), "{line}");
    }
}

#[test]
fn commands(rt: HostRuntime) {
    let command = read_command(b"link 1 for 1000");
    assert!(rt; matches!(command, Ok(Command::LinkFor(1, 1000))));
    assert!(rt;
        match read_command(b"write 1  hello ~ ") {
            Ok(Command::Write(1, text)) => text.as_slice() == b" hello ~ ".as_slice(),
            _ => false,
        }
    );
    assert!(rt;
        match read_command(b"resolve 65535 a~!") {
            Ok(Command::Resolve(65535, name)) => name.as_slice() == b"a~!".as_slice(),
            _ => false,
        }
    );
    let span = Interval {
        lo: 0xa000_0000_0000_0000,
        hi: 0xbfff_ffff_ffff_ffff,
    };
    assert!(rt;
        match read_command(b"names 1 a000000000000000-bfffffffffffffff") {
            Ok(Command::Names(1, part)) => part == span,
            _ => false,
        }
    );
}

/// What is no line, between bars.
const BAD_LINES: &str = "\
| |# start 1 0|start|start |start 1|start 1 |start 1  0|start  1 0| start 1 0|start 1 0 |\
start 1 0\n|start 1 00|start 01 0|start +1 0|start 1 -1|start 0 0|start 1000 0|\
start 1 1000000000000001|start 1 99999999999999999999|start a0|start a10|start a|start a1 0|\
start A1|Start 1 0|start 1 0x1|stop|stop 0|stop 1000|stop a0|stop 1 |fire 0|fire a1|\
fire 1000|fire 1 2|give|give |give -1|give 01|give 1000000000000001|give 1 2|tick|tick |\
tick 1 |tick 1 1|tick 1 1:|tick 1 :2|tick 1 1:2 |tick 1 1:2  2:3|tick 1 1:2,2:3|tick 1 0:1|\
tick 1 a1:1|tick 1 1:01|tick 1000000000000001|junk 1|junk 1 |junk 1 0|junk 1 000|junk 1 0G|\
junk 1 AF|junk 1 00 |junk 0 00|end|do|do 1|do 1 |do 0 link 2|do 1000 link 2|do 1  link 2|\
do a1 link 2";

#[test]
fn bad_lines(rt: HostRuntime) {
    for line in BAD_LINES.split('|') {
        assert!(rt; read_event(line.as_bytes()).is_err(), "{line}");
    }
}

/// What is no command, between bars.
const BAD_COMMANDS: &str = "\
|fly 2|link|link 0|link 1000|link 2 |link 2 for|link 2 for 9|link 2 for 1000000001|\
link 2 for 1000 |link 2 with 1000|Link 2|part 0|part a1|give 2|give 2 some|give 2 near all|\
give 2  near|give 0 all|join 1000|join|find|find 0|find 000000000000000|\
find 00000000000000000|find 000000000000000G|find 000000000000000A|create 65536 1|\
create 1 0|create 1 8|create 1|create 01 1|swap 1 0|swap 1 1000|heal 1 9|lose 1 0|lose -1 1|\
write 1|write 1 |write 65536 x|write 1 \t|write 1 \u{7f}|write 1 \u{e9}|\
units 0000000000000000|units 0000000000000001-0000000000000000|\
units 0000000000000000,0000000000000001|units 0000000000000000-0000000000000001 |\
units -0000000000000001|resolve 1|resolve 1 |resolve 1 a,b|resolve 1 a b|resolve 65536 a|\
names 1|names 1 0000000000000001-0000000000000000|names 65536 0000000000000000-0000000000000001";

#[test]
fn bad_commands(rt: HostRuntime) {
    for words in BAD_COMMANDS.split('|') {
        assert!(rt; read_command(words.as_bytes()).is_err(), "{words}");
    }
}

/// Lines, and at which lengths, from 1, a front of one is a line (+).
const FRONTS: [(&str, &str); 22] = [
    ("start 12 30", ".........++"),
    ("start a1", ".......+"),
    ("stop 999", ".....+++"),
    ("tick 40 1:72 20:9", ".....++...++....+"),
    ("fire 2", ".....+"),
    ("give 120", ".....+++"),
    ("junk 2 0af1", "........+.+"),
    ("do 2 link 12", "..........++"),
    ("do 2 link 12 for 1000", "..........++......+++"),
    ("do 2 part 7", "..........+"),
    ("do 2 give 7 near", "...............+"),
    ("do 2 give 7 all", "..............+"),
    ("do 2 join 7", "..........+"),
    ("do 2 find 80000000000000af", ".........................+"),
    ("do 2 create 10 7", "...............+"),
    ("do 2 swap 65535 2", "................+"),
    ("do 2 heal 0 7", "............+"),
    ("do 2 lose 1 999", "............+++"),
    ("do 2 write 1 x y", ".............+++"),
    (
        "do 2 units 0000000000000000-ffffffffffffffff",
        "...........................................+",
    ),
    ("do 2 resolve 1 ab", "...............++"),
    (
        "do 2 names 1 a000000000000000-bfffffffffffffff",
        ".............................................+",
    ),
];

/// Expects which fronts of a line are lines.
fn expect_fronts(rt: &impl Abort, line: &[u8], answers: &[u8]) {
    for end in 0..line.len() {
        let is_line = answers.get(end) == Some(&b'+');
        assert_eq!(rt; read_event(&line[..=end]).is_ok(), is_line, "to {end}");
    }
}

#[test]
fn fronts_of_lines(rt: HostRuntime) {
    for (line, answers) in &FRONTS {
        expect_fronts(&rt, line.as_bytes(), answers.as_bytes());
    }
}

/// The start of a line, the piece that it goes on with, and how often it does so at most.
const LONGEST: &[(&str, &str, u32)] = &[
    ("tick 1", " 1:1", 64),
    ("junk 1 ", "af", 1200),
    ("do 1 write 1 ", "~", 512),
    ("do 1 resolve 1 ", "~", 64),
];

#[test]
fn longest_lines(rt: HostRuntime) -> Result<(), OutOfMemory> {
    for (start, piece, most) in LONGEST {
        let mut line = repeated(rt.alloc(), start, piece, *most)?;
        assert!(rt; read_event(&line).is_ok(), "{start}");
        line.extend_from_slice(piece.as_bytes())?;
        assert!(rt; read_event(&line).is_err(), "{start}");
    }
    Ok(())
}

use crate::fakes::{Keyboard, Machine, Terminal};
use crate::rows::agree;
use edge_io::{Clock, EdgeRefusal, Failed, Sink, Source};
use fabric_edge::{MonoClock, StdinSource, StdoutSink};
use std::cell::Cell;
use std::thread;
use std::time::Duration;

/// A machine's clock that gives these times.
fn machine(gives: [Option<Duration>; 6]) -> Machine {
    Machine {
        gives,
        given: Cell::new(0),
    }
}

#[test]
fn a_clock_stepped_back_is_never_seen(rt: HostRuntime) {
    let [first, second, third, fourth, last] = [100, 107, 103, 50, 120].map(Duration::from_millis);
    let machine = machine([
        Some(first),
        Some(second),
        Some(third),
        None,
        Some(fourth),
        Some(last),
    ]);
    let mut clock = MonoClock::new(&machine);
    let rows = [
        (clock.now(), 7),
        (clock.now(), 7),
        (clock.now(), 7),
        (clock.now(), 7),
        (clock.now(), 20),
        (clock.now(), 20),
    ];
    agree(&rt, &rows);
}

// 50 days are more milliseconds than 32 bits hold, and the last time more than 64 bits.
#[test]
fn a_clock_counts_whole_milliseconds_for_ages(rt: HostRuntime) {
    let machine = machine([
        Some(Duration::from_nanos(999_999)),
        Some(Duration::from_nanos(2_999_998)),
        Some(Duration::from_secs(86_400)),
        Some(Duration::from_secs(4_320_001)),
        Some(Duration::from_secs(1_000_000_000_001)),
        Some(Duration::MAX),
    ]);
    let mut clock = MonoClock::new(&machine);
    let rows = [
        (clock.now(), 1),
        (clock.now(), 86_399_999),
        (clock.now(), 4_320_000_999_u64),
        (clock.now(), 1_000_000_000_000_999),
        (clock.now(), u64::MAX),
        (clock.now(), u64::MAX),
    ];
    agree(&rt, &rows);
}

#[test]
fn the_machines_clock_is_read(rt: HostRuntime) {
    let mut clock = MonoClock::new(&rt);
    let before = clock.now();
    thread::sleep(&rt, Duration::from_millis(30));
    let after = clock.now();
    assert!(rt;
        before < 20 && 30 <= after && after < 5_000,
        "{before} {after}"
    );
}

/// What a write of these bytes gives where the terminal takes so many, or fails, behind so many signals.
fn written(signals: u32, takes: Option<usize>, bytes: &[u8]) -> Result<usize, EdgeRefusal> {
    let signals = Cell::new(signals);
    StdoutSink::new(&Terminal { takes, signals }).write(bytes)
}

#[test]
fn a_terminal_that_takes_nothing_has_failed(rt: HostRuntime) {
    let failed = Err(EdgeRefusal::Failed);
    let rows = [
        (written(0, Some(9), b"ab"), Ok(2)),
        (written(0, Some(1), b"ab"), Ok(1)),
        (written(0, Some(0), b"ab"), failed),
        (written(0, None, b"ab"), failed),
        (written(0, Some(0), b""), Ok(0)),
    ];
    agree(&rt, &rows);
}

// A device to which signals come without end has failed.
#[test]
fn a_write_that_a_signal_cuts_short_is_made_again(rt: HostRuntime) {
    let failed = Err(EdgeRefusal::Failed);
    let rows = [
        (written(1, Some(9), b"ab"), Ok(2)),
        (written(63, Some(1), b"ab"), Ok(1)),
        (written(3, None, b"ab"), failed),
        (written(u32::MAX, Some(9), b"ab"), failed),
    ];
    agree(&rt, &rows);
}

/// What a read gives where this is the next key behind so many signals, and the first byte of what was read.
fn typed(signals: u32, key: Option<u8>) -> (Result<usize, Failed>, u8) {
    let mut buffer = [0; 2];
    let count = StdinSource::new(&Keyboard { key, signals }).read(&mut buffer);
    (count, buffer[0])
}

#[test]
fn a_keyboard_that_fails_has_failed(rt: HostRuntime) {
    let rows = [
        (typed(0, Some(7)), (Ok(1), 7)),
        (typed(0, None), (Err(Failed), 0)),
    ];
    agree(&rt, &rows);
}

#[test]
fn a_read_that_a_signal_cuts_short_is_made_again(rt: HostRuntime) {
    let rows = [
        (typed(1, Some(7)), (Ok(1), 7)),
        (typed(63, Some(7)), (Ok(1), 7)),
        (typed(3, None), (Err(Failed), 0)),
        (typed(u32::MAX, Some(7)), (Err(Failed), 0)),
    ];
    agree(&rt, &rows);
}

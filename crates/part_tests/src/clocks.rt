use crate::rows::agree;
use drift_clock::{Bound, Drift, DriftBroken, MAX_TRUE_TIME, wait_of};
use ring_points::{MAX_DRIFT, MAX_GRAIN, MAX_READING};
use std::process::Abort;

/// What the drift answers at the last of these true times and readings.
fn last_answer(rt: &impl Abort, bound: Bound, pairs: &[(u64, u64)]) -> Result<(), DriftBroken> {
    assert!(rt; bound.d <= MAX_DRIFT && bound.grain <= MAX_GRAIN && !pairs.is_empty());
    let (mut latest, first) = pairs[0];
    assert!(rt; latest <= MAX_TRUE_TIME && first <= MAX_READING);
    let mut drift = Drift::new(bound, latest, first);
    let mut answer = Ok(());
    for &(time, reading) in &pairs[1..] {
        assert!(rt; latest <= time && time <= MAX_TRUE_TIME && reading <= MAX_READING);
        answer = drift.admit(time, reading);
        if answer.is_ok() {
            latest = time;
        }
    }
    answer
}

/// How long the wait is for so many ticks at this drift and grain.
fn wait(rt: &impl Abort, d: u64, grain: u64, x: u64) -> u64 {
    assert!(rt; d <= MAX_DRIFT && grain <= MAX_GRAIN && x <= MAX_READING);
    wait_of(Bound { d, grain }, x)
}

#[test]
fn waits(rt: HostRuntime) {
    let rows = [
        (wait(&rt, 10, 1, 4000), 4083),
        (wait(&rt, 0, 0, 4000), 4000),
        (wait(&rt, 10, 1, 35_000), 35_710),
        (wait(&rt, 10, 1, 2000), 2043),
        (wait(&rt, 100, 0, 0), 0),
        (wait(&rt, 100, 0, 9), 11),
        (wait(&rt, 100, 0, 10), 13),
        (wait(&rt, 0, 1_000_000, MAX_READING), 1_000_000_002_000_000),
        (
            wait(&rt, 100, 1_000_000, MAX_READING),
            1_222_222_224_444_445,
        ),
    ];
    agree(&rt, &rows);
}

/// True times and readings.
type Pairs<'a> = &'a [(u64, u64)];

const PLAIN: Bound = Bound { d: 10, grain: 1 };

const EXACT: Bound = Bound { d: 0, grain: 0 };

const COARSE: Bound = Bound { d: 10, grain: 10 };

const WIDEST: Bound = Bound {
    d: MAX_DRIFT,
    grain: MAX_GRAIN,
};

fn are_admitted(rt: &impl Abort, bound: Bound, cases: &[Pairs<'_>]) {
    for &pairs in cases {
        assert_eq!(rt; last_answer(rt, bound, pairs), Ok(()), "at {pairs:?}");
    }
}

#[test]
fn admits(rt: HostRuntime) {
    let plain: [Pairs<'_>; 3] = [&[(0, 0), (1000, 1011)], &[(0, 0), (1000, 989)], &[(7, 500)]];
    are_admitted(&rt, PLAIN, &plain);
    let exact: [Pairs<'_>; 2] = [
        &[(0, 7), (0, 7), (5, 12)],
        &[(MAX_READING, 0), (MAX_TRUE_TIME, MAX_READING)],
    ];
    are_admitted(&rt, EXACT, &exact);
    let widest: [Pairs<'_>; 4] = [
        &[(0, 0), (0, 1_000_000)],
        &[(0, 0), (1_111_111, 0)],
        &[(0, 0), (909_090_908_181_819, MAX_READING)],
        &[(0, 0), (1_111_111_112_222_222, MAX_READING)],
    ];
    are_admitted(&rt, WIDEST, &widest);
}

/// The last of the pairs is refused, each with the earlier pair beside it.
fn are_refused(rt: &impl Abort, bound: Bound, cases: &[(Pairs<'_>, (u64, u64))]) {
    for &(pairs, earlier) in cases {
        let now = pairs.last().copied().unwrap_or((0, 0));
        let want = Err(DriftBroken { earlier, now });
        assert_eq!(rt; last_answer(rt, bound, pairs), want, "at {pairs:?}");
    }
}

#[test]
fn refuses_what_is_out_of_bound_against_any_pair(rt: HostRuntime) {
    let cases: [(Pairs<'_>, (u64, u64)); 3] = [
        (&[(0, 0), (1000, 1012)], (0, 0)),
        (&[(0, 0), (1000, 988)], (0, 0)),
        // Each is right against its neighbour.
        (&[(0, 0), (100, 102), (200, 204)], (0, 0)),
    ];
    are_refused(&rt, PLAIN, &cases);
}

#[test]
fn refuses_by_the_last_pair_or_the_greatest_excess(rt: HostRuntime) {
    let cases: [(Pairs<'_>, (u64, u64)); 4] = [
        // The reading falls: the last pair, also where another shows more.
        (&[(0, 5), (10, 15), (10, 14)], (10, 15)),
        (&[(0, 100), (10, 105), (1000, 104)], (10, 105)),
        // The greatest excess.
        (&[(0, 0), (100, 91), (200, 211)], (100, 91)),
        (&[(0, 0), (100, 110), (200, 190)], (100, 110)),
    ];
    are_refused(&rt, COARSE, &cases);
}

#[test]
fn refuses_by_the_earliest_of_equals(rt: HostRuntime) {
    let cases: [(Pairs<'_>, (u64, u64)); 3] = [
        (&[(0, 0), (10, 10), (20, 25)], (0, 0)),
        (&[(0, 0), (10, 10), (20, 15)], (0, 0)),
        // A refused reading is no pair of the clock.
        (&[(0, 0), (10, 11), (10, 9)], (0, 0)),
    ];
    are_refused(&rt, EXACT, &cases);
}

#[test]
fn refuses_beyond_the_widest_bound(rt: HostRuntime) {
    let cases: [(Pairs<'_>, (u64, u64)); 4] = [
        (&[(0, 0), (0, 1_000_001)], (0, 0)),
        (&[(0, 0), (1_111_112, 0)], (0, 0)),
        (&[(0, 0), (909_090_908_181_818, MAX_READING)], (0, 0)),
        (&[(0, 0), (1_111_111_112_222_223, MAX_READING)], (0, 0)),
    ];
    are_refused(&rt, WIDEST, &cases);
}

ghost use Rattle.std.specs.Prelude.{◌≤◌, length};

use crate::rows::agree;
use lane_scan::{mask_in, nearest};

const STEP: u64 = 1 << 60;

#[test]
fn finds_the_nearest(rt: HostRuntime) {
    let nine = [
        0,
        STEP,
        2 * STEP,
        3 * STEP,
        4 * STEP,
        5 * STEP,
        6 * STEP,
        7 * STEP,
        8 * STEP,
    ];
    let rows = [
        (nearest(&[], 7), None),
        // The two are equally far: the lower.
        (nearest(&[0, 1 << 63], 1 << 62), Some(0)),
        (nearest(&[1 << 63, 0], 1 << 62), Some(1)),
        (nearest(&[1 << 63, 0], 3 << 62), Some(1)),
        (nearest(&nine, 0x1800_0000_0000_0000), Some(1)),
        // Across 0.
        (nearest(&nine, u64::MAX), Some(0)),
        (nearest(&nine, 0xffff_ffff_ffff_fff0), Some(0)),
        (nearest(&nine, 8 * STEP + 5), Some(8)),
        (nearest(&nine, 12 * STEP), Some(0)),
        (nearest(&nine, 12 * STEP - 1), Some(8)),
        // The first of equals, in a block and in the rest.
        (nearest(&[5, 9, 9, 5, 5, 9, 5, 5, 9, 9], 8), Some(1)),
        (nearest(&[5, 6, 5, 6, 5, 6, 5, 5, 9, 9], 8), Some(8)),
    ];
    agree(&rt, &rows);
}

/// What two words are once they are the mask of these points.
fn masked(points: &[u64], lo: u64, hi: u64, before: [u64; 2]) -> [u64; 2]
    requires { length points.now ≤ 128 }
{
    let mut words = before;
    mask_in(points, lo, hi, &mut words);
    words
}

#[test]
fn masks_a_range(rt: HostRuntime) {
    let mut points = [0; 65];
    for (i, point) in points.iter_mut().enumerate() {
        *point = i as u64;
    }
    let rows = [
        (masked(&points, 63, 64, [7, 7]), [1 << 63, 1]),
        (masked(&points, 9, 3, [1 << 63, 1]), [0, 0]),
        (masked(&points, 0, u64::MAX, [0, 0]), [u64::MAX, 1]),
    ];
    agree(&rt, &rows);
}

#[test]
fn masks_few_points_or_none(rt: HostRuntime) {
    let mut one = [u64::MAX];
    mask_in(&[5, 10, 15], 5, 10, &mut one);
    assert_eq!(rt; one[0], 3);
    assert_eq!(rt; masked(&[], 0, u64::MAX, [7, 7]), [0, 0]);
}

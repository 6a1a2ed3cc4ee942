ghost use Rattle.std.specs.Prelude.{◌≡◌, ℕ, ◌+◌, ◌*◌, ◌==◌, ◌<◌, ◌≤◌, ◌↔◌, length};
ghost use Rattle.std.specs.Simd.Lanes.{chunk};
ghost use Rattle.lane_scan.specs.Masks.{IsIn, bit_of, is_between, mask_of};

use std::simd::prelude::*;

fn between(point: u64, lo: u64, hi: u64) -> bool
    ensures { result ≡ is_between lo hi point }
{
    lo <= point && point <= hi
}

/// Which of the eight points from this place on are from `lo` to `hi`.
fn mask_lanes(points: &[u64], at: usize, lo: u64, hi: u64) -> u64
    requires { at + 8 ≤ length points.now }
    ensures { result ≡ mask_of lo hi (chunk at 8 points.now) }
{
    let lanes = u64x8::from_slice(&points[at..]);
    (lanes.simd_ge(u64x8::splat(lo)) & lanes.simd_le(u64x8::splat(hi))).to_bitmask()
}

/// The bits of at most 64 points, 1 for each that is from `lo` to `hi`, the first in the lowest bit.
fn mask_word(points: &[u64], lo: u64, hi: u64) -> u64
    requires { length points.now ≤ 64 }
    ensures { result ≡ mask_of lo hi points.now }
{
    let mut word = 0;
    let mut at = 0;
    while at + 8 <= points.len() {
        word |= mask_lanes(points, at, lo, hi) << at;
        at += 8;
    }
    while at < points.len() {
        if between(points[at], lo, hi) {
            word |= 1 << at;
        }
        at += 1;
    }
    word
}

/// Says of each point whether it is from `lo` to `hi`, both of them included: by bit `i % 64` of
/// `out[i / 64]` for point number `i`. Every other bit of `out` becomes 0.
pub fn mask_in(points: &[u64], lo: u64, hi: u64, out: &mut [u64])
    requires { length points.now ≤ 64 * length out.old }
    ensures { (i : ℕ) → i < 64 * length out.new →
        (bit_of out.new i ≡ 1) ↔ IsIn lo hi points.now i }
{
    let mut rest = points;
    for word in out.iter_mut() {
        let (these, later) = rest.split_at(rest.len().min(64));
        *word = mask_word(these, lo, hi);
        rest = later;
    }
}

/// Whether bit number `i` of the mask is 1, counted from the lowest bit of the first word.
pub fn is_marked(mask: &[u64], i: usize) -> bool
    requires { i < 64 * length mask.now }
    ensures { result ≡ (bit_of mask.now i == 1) }
{
    mask[i / 64] >> (i % 64) & 1 == 1
}

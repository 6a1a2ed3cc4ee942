ghost use Rattle.std.specs.Prelude.{◌≡◌, map, IfOk};
ghost use Rattle.failover_units.specs.Units.{point_of, among};
ghost use Rattle.failover_units.specs.Marks.{Marks};

use lane_scan::{is_marked, mask_in};
use ring_points::Interval;
use std::alloc::{AllocError, Global};

/// Where a partition is on the ring.
fn point_of(partition: u16) -> u64
    ensures { result ≡ point_of partition }
{
    u64::from(partition) << 48
}

fn points_of(alloc: Global, partitions: &[u16]) -> Result<Vec<u64>, AllocError>
    ensures { IfOk result (λ points. points.items ≡ map point_of partitions.now) }
{
    let mut points = Vec::new(alloc);
    for partition in partitions {
        points.push(point_of(*partition))?;
    }
    Ok(points)
}

/// A mask that marks the partitions whose points are in the range.
fn mask_of(alloc: Global, partitions: &[u16], range: &Interval) -> Result<Vec<u64>, AllocError>
    ensures marks { IfOk result (λ mask. Marks range.now partitions.now mask.items) }
{
    let points = points_of(alloc, partitions)?;
    let mut mask = vec![in alloc; 0u64; partitions.len().div_ceil(64)]?;
    mask_in(&points, range.lo, range.hi, &mut mask);
    Ok(mask)
}

/// Of these partitions the ones whose points are in the range, in the same order.
pub fn partitions_in(
    alloc: Global,
    partitions: &[u16],
    range: &Interval,
) -> Result<Vec<u16>, AllocError>
    ensures { IfOk result (λ found. found.items ≡ among range.now partitions.now) }
{
    let mask = mask_of(alloc, partitions, range)?;
    let mut found = Vec::new(alloc);
    for i in 0..partitions.len() {
        if is_marked(&mask, i) {
            found.push(partitions[i])?;
        }
    }
    Ok(found)
}

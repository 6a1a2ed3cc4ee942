use point_places::{Holder, OutOfMemory, Places, RangeSet, Report, Who};
use ring_points::Interval;
use std::alloc::Global;
use std::process::Abort;

const HALF: u64 = 1 << 63;

fn node(actor: u16) -> Who {
    Who { actor, instance: 1 }
}

fn range(lo: u64, hi: u64) -> RangeSet {
    RangeSet::from_pairs(&[Interval { lo, hi }]).unwrap_or(RangeSet::new())
}

fn expect_lines(
    rt: &impl Abort,
    alloc: Global,
    places: &Places,
    holders: &[Holder],
    lines: &str,
) -> Result<(), OutOfMemory> {
    let mut text = Vec::new(alloc);
    places.push_lines(holders, &mut text)?;
    assert_eq!(rt; text.as_slice(), lines.as_bytes());
    Ok(())
}

#[test]
fn a_join_under_way(rt: HostRuntime) -> Result<(), OutOfMemory> {
    let mut places = Places::new(rt.alloc(), node(1))?;
    places.reserve(1)?;
    places.moved(node(1), &Report::Gave(node(2), 7, range(HALF, u64::MAX)));
    let holders = [Holder {
        who: node(1),
        ranges: range(0, HALF - 1),
    }];
    expect_lines(
        &rt,
        rt.alloc(),
        &places,
        &holders,
        "flight 1.1 7 2.1 8000000000000000-ffffffffffffffff\n",
    )
}

#[test]
fn a_stopped_first_node(rt: HostRuntime) -> Result<(), OutOfMemory> {
    let places = Places::new(rt.alloc(), node(1))?;
    expect_lines(
        &rt,
        rt.alloc(),
        &places,
        &[],
        "unheld 1.1 0000000000000000-ffffffffffffffff\n",
    )
}

#[test]
fn a_part_across_point_0(rt: HostRuntime) -> Result<(), OutOfMemory> {
    let mut places = Places::new(rt.alloc(), node(1))?;
    let middle = range(0x100, u64::MAX - 0x100);
    places.reserve(1)?;
    places.moved(node(1), &Report::Gave(node(2), 1, middle.copy()));
    places.reserve(1)?;
    places.moved(node(2), &Report::Took(node(1), 1, middle));
    expect_lines(
        &rt,
        rt.alloc(),
        &places,
        &[],
        "unheld 1.1 0000000000000000-00000000000000ff,ffffffffffffff00-ffffffffffffffff\n\
         unheld 2.1 0000000000000100-fffffffffffffeff\n",
    )
}

use crate::rows::agree;
use failover_units::{MAX_UNITS, UnitRefusal, Units};
use ring_points::{Config, Epoch, Interval, Members};
use std::alloc::Global;
use std::process::Abort;

fn epoch(data_loss: u32, configuration: u32) -> Epoch {
    Epoch {
        data_loss,
        configuration,
    }
}

// A configuration with two members, the first of them the primary.
fn config(partition: u16, epoch: Epoch, primary: u16, other: u16) -> Config {
    let mut members = Members::new();
    members.push(primary);
    members.push(other);
    Config {
        partition,
        epoch,
        primary,
        members,
    }
}

/// The highest epoch of partition 7 before it is created, and why it has no configuration then.
fn created(rt: &impl Abort, units: &mut Units) -> (Epoch, Option<UnitRefusal>) {
    let before = units.highest(7);
    assert_eq!(rt; units.create(7), Ok(()));
    (before, units.get(7).err())
}

#[test]
fn a_unit_that_is_created_has_no_configuration(rt: HostRuntime) {
    let found = created(&rt, &mut Units::new(rt.alloc()));
    assert_eq!(rt; found, (epoch(0, 0), Some(UnitRefusal::NoUnit)));
}

/// Partition 7 is created; then configurations of it and of partition 9 are noted, of which one is older.
fn three_noted(rt: &impl Abort, alloc: Global) -> Units {
    let mut units = Units::new(alloc);
    let rows = [
        (units.create(7), Ok(())),
        (units.note(&config(7, epoch(0, 3), 1, 2)), Ok(())),
        (units.note(&config(7, epoch(0, 2), 3, 4)), Ok(())),
        (units.note(&config(9, epoch(1, 0), 2, 3)), Ok(())),
    ];
    agree(rt, &rows);
    units
}

/// The highest epoch of a partition once this one is seen, and its primary.
fn after_seen(rt: &impl Abort, units: &mut Units, partition: u16, seen: Epoch) -> (Epoch, u16) {
    assert_eq!(rt; units.seen(partition, seen), Ok(()));
    let known = units.get(partition).map(|known| known.primary);
    (
        units.highest(partition),
        known.expect(rt, "a configuration"),
    )
}

#[test]
fn keeps_the_newest_configuration_and_the_highest_epoch(rt: HostRuntime) {
    let mut units = three_noted(&rt, rt.alloc());
    let seven = after_seen(&rt, &mut units, 7, epoch(0, 9));
    let nine = after_seen(&rt, &mut units, 9, epoch(0, 50));
    let rows = [(seven, (epoch(0, 9), 1)), (nine, (epoch(1, 0), 2))];
    agree(&rt, &rows);
    assert_eq!(rt; units.create(7), Err(UnitRefusal::Exists));
}

#[test]
fn the_load_of_a_node_is_in_how_many_configurations_it_is(rt: HostRuntime) {
    let units = three_noted(&rt, rt.alloc());
    let rows = [
        (units.load(1), 1),
        (units.load(2), 2),
        (units.load(3), 1),
        (units.load(4), 0),
    ];
    agree(&rt, &rows);
}

/// Configurations of four partitions, and partition 3, which has none.
fn four_noted(rt: &impl Abort, alloc: Global) -> Units {
    let mut units = Units::new(alloc);
    assert_eq!(rt; units.create(3), Ok(()));
    for partition in [65535, 1, 8, 0] {
        let noted = units.note(&config(partition, epoch(0, 1), 1, 2));
        assert_eq!(rt; noted, Ok(()));
    }
    units
}

fn are_in_range(rt: &impl Abort, units: &Units, lo: u64, hi: u64, want: &[u16]) {
    let found = units.in_range(&Interval { lo, hi }).expect(rt, "memory");
    assert_eq!(rt; found.as_slice(), want, "from {lo:x} to {hi:x}");
}

#[test]
fn lists_the_partitions_of_a_range(rt: HostRuntime) {
    let units = four_noted(&rt, rt.alloc());
    let (one, eight) = (0x0001_0000_0000_0000, 0x0008_0000_0000_0000);
    are_in_range(&rt, &units, 0, u64::MAX, &[0, 1, 8, 65535]);
    are_in_range(&rt, &units, one, eight, &[1, 8]);
    are_in_range(&rt, &units, one + 1, eight - 1, &[]);
    are_in_range(&rt, &units, 0xffff_0000_0000_0000, u64::MAX, &[65535]);
}

/// As many units as there is room for.
fn full(rt: &impl Abort, alloc: Global) -> Units {
    let mut units = Units::new(alloc);
    for partition in 0..MAX_UNITS {
        assert_eq!(rt; units.create(partition as u16), Ok(()));
    }
    units
}

/// What is answered to calls about a partition that has no place.
fn of_another(units: &mut Units) -> [Result<(), UnitRefusal>; 3] {
    let created = units.create(4096);
    let seen = units.seen(4096, epoch(0, 1));
    [created, seen, units.note(&config(4096, epoch(0, 1), 1, 2))]
}

/// What is answered to calls about partitions that have one.
fn of_known(units: &mut Units) -> [Result<(), UnitRefusal>; 3] {
    let created = units.create(4095);
    let seen = units.seen(0, epoch(0, 1));
    [created, seen, units.note(&config(1, epoch(0, 1), 1, 2))]
}

#[test]
fn has_no_place_for_another_partition(rt: HostRuntime) {
    let mut units = full(&rt, rt.alloc());
    let another = of_another(&mut units);
    assert_eq!(rt; units.highest(4096), epoch(0, 0));
    let rows = [
        (another, [Err(UnitRefusal::Full); 3]),
        (of_known(&mut units), [Ok(()); 3]),
    ];
    agree(&rt, &rows);
}

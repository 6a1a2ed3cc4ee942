// Names in the entries of a log: their points, what each stands for, and the names of a range.
use fabric_terms::OutOfMemory;
use name_service::{Names, point_of};
use replica_core::{Entry, EntryBytes};
use ring_points::{Epoch, Interval};
use std::alloc::Global;
use std::process::Abort;
use std::test::Fail;

/// Texts and the 64-bit FNV-1a hashes of their bytes. The empty text is no name.
const POINTS: [(&[u8], u64); 3] = [
    (b"", 0xcbf2_9ce4_8422_2325),
    (b"a", 0xaf63_dc4c_8601_ec8c),
    (b"foobar", 0x8594_4171_f739_67e8),
];

#[test]
fn points_of_names(rt: HostRuntime) {
    for (name, point) in &POINTS {
        assert_eq!(rt; point_of(name).0, *point);
    }
}

/// Applies an entry of this text.
fn apply(
    rt: &impl Abort,
    alloc: Global,
    names: &mut Names,
    text: &[u8],
) -> Result<(), OutOfMemory> {
    assert!(rt; text.len() <= 512);
    let entry = Entry {
        epoch: Epoch {
            data_loss: 0,
            configuration: 1,
        },
        lsn: 1,
        bytes: EntryBytes::from_slice(alloc, text)?,
    };
    names.apply(&entry)
}

/// The names that these entries leave.
fn after(rt: &impl Abort, alloc: Global, texts: &[&[u8]]) -> Result<Names, Fail> {
    let mut names = Names::new(alloc);
    for text in texts {
        apply(rt, alloc, &mut names, text)?;
    }
    Ok(names)
}

/// The texts of entries, a name, and what it stands for after them.
type Row = (
    &'static [&'static [u8]],
    &'static [u8],
    Option<&'static [u8]>,
);

const ROWS: [Row; 9] = [
    (&[b"set a 7"], b"a", Some(b"7")),
    (&[b"set a 7"], b"b", None),
    (&[b"set a 7", b"set a  8 9"], b"a", Some(b" 8 9")),
    (&[b"set a 7", b"del a"], b"a", None),
    (&[b"set a 7", b"del b"], b"a", Some(b"7")),
    (&[b"set a 7", b"del a", b"set a 8"], b"a", Some(b"8")),
    (
        &[
            b"set a 7",
            b"set a",
            b"set a ",
            b"SET a 8",
            b"set  a 8",
            b"hello",
        ],
        b"a",
        Some(b"7"),
    ),
    (
        &[b"set a 7", b"del a ", b"del  a", b"del a b"],
        b"a",
        Some(b"7"),
    ),
    (&[b"set a,b 7"], b"a,b", None),
];

#[test]
fn names_stand_for_their_last_values(rt: HostRuntime) -> Result<(), Fail> {
    for (row, (texts, name, value)) in ROWS.iter().enumerate() {
        let names = after(&rt, rt.alloc(), texts)?;
        assert!(rt; names.get(name) == *value, "in row {row}, from 0");
    }
    Ok(())
}

const THREE: &[&[u8]] = &[b"set a 7", b"set b 8", b"set c 9", b"set d 0", b"del d"];

/// The names that stand in a range, with commas between them.
fn listed(rt: &impl Abort, alloc: Global, range: &Interval) -> Result<Vec<u8>, Fail> {
    let names = after(rt, alloc, THREE)?;
    let mut all = Vec::new(alloc);
    for name in &names.select(range)? {
        all.extend_from_slice(name.as_slice())?;
        all.push(b',')?;
    }
    Ok(all)
}

/// Ranges, and the names in them by rising points: `a` at af63dc4c8601ec8c, `c` at af63de4c8601eff2, `b` at
/// af63df4c8601f1a5.
const RANGES: [(Interval, &[u8]); 4] = [
    (
        Interval {
            lo: 0,
            hi: u64::MAX,
        },
        b"a,c,b,",
    ),
    (
        Interval {
            lo: 0xa000_0000_0000_0000,
            hi: 0xaf63_dc4c_8601_ec8c,
        },
        b"a,",
    ),
    (
        Interval {
            lo: 0xaf63_dc4c_8601_ec8d,
            hi: 0xaf63_df4c_8601_f1a4,
        },
        b"c,",
    ),
    (
        Interval {
            lo: 0xb000_0000_0000_0000,
            hi: 0xbfff_ffff_ffff_ffff,
        },
        b"",
    ),
];

#[test]
fn names_of_ranges(rt: HostRuntime) -> Result<(), Fail> {
    for (range, wanted) in &RANGES {
        assert!(rt; listed(&rt, rt.alloc(), range)?.as_slice() == *wanted);
    }
    Ok(())
}

use ring_points::{Epoch, RangeSet, Who};
use text_fields::{
    OutOfMemory, epoch_word, last_epoch, last_node, last_optional, last_ranges, last_span,
    last_who, number_in, optional_word, point_word, push_epoch, push_number, push_optional,
    push_ranges, push_who, who_word,
};

/// What is no number below 2^64, between bars.
const NO_NUMBERS: &str = "18446744073709551616|+1|";

#[test]
fn numbers(rt: HostRuntime) {
    let greatest = number_in(0, u64::MAX, b"18446744073709551615 x");
    assert!(rt; matches!(greatest, Ok((u64::MAX, [b' ', b'x']))));
    for text in NO_NUMBERS.split('|') {
        assert!(rt; number_in(0, u64::MAX, text.as_bytes()).is_err(), "{text}");
    }
}

#[test]
fn nodes_and_optional_numbers(rt: HostRuntime) {
    assert!(rt; matches!(last_node(b"999"), Ok(999)));
    assert!(rt; last_node(b"0").is_err());
    assert!(rt; matches!(last_optional(b"-"), Ok(None)));
    assert!(rt; matches!(optional_word(b"7 "), Ok((Some(7), []))));
}

#[test]
fn actors_and_epochs(rt: HostRuntime) {
    assert!(rt;
        matches!(
            who_word(b"2.1 x"),
            Ok((
                Who {
                    actor: 2,
                    instance: 1
                },
                [b'x']
            ))
        )
    );
    assert!(rt;
        matches!(
            last_who(b"a9"),
            Ok(Who {
                actor: 32777,
                instance: 0
            })
        )
    );
    assert!(rt;
        matches!(
            epoch_word(b"0.1 "),
            Ok((
                Epoch {
                    data_loss: 0,
                    configuration: 1
                },
                []
            ))
        )
    );
    assert!(rt; last_epoch(b"1").is_err());
}

/// What is no actor, between bars.
const WRONG_ACTORS: &str = "2.0|2|a0|a10|a1.1|1000.1|2.4294967296";

#[test]
fn no_actors(rt: HostRuntime) {
    for text in WRONG_ACTORS.split('|') {
        assert!(rt; last_who(text.as_bytes()).is_err(), "{text}");
    }
}

#[test]
fn points(rt: HostRuntime) {
    assert!(rt;
        matches!(
            point_word(b"80000000000000af "),
            Ok((0x8000_0000_0000_00af, []))
        )
    );
    assert!(rt; last_span(b"0000000000000000-ffffffffffffffff").is_ok());
    assert!(rt; last_span(b"0000000000000001-0000000000000000").is_err());
}

/// Whether a text is read as a set of so many intervals.
fn is_set(text: &[u8], intervals: usize) -> bool {
    match last_ranges(text) {
        Ok(ranges) => ranges.intervals().len() == intervals,
        Err(_) => false,
    }
}

#[test]
fn sets(rt: HostRuntime) {
    let two = b"0000000000000000-4000000000000000,c000000000000000-ffffffffffffffff";
    assert!(rt; is_set(two, 2));
    assert!(rt; is_set(b"-", 0));
    let touching = b"0000000000000000-0000000000000001,0000000000000002-0000000000000003";
    assert!(rt; last_ranges(touching).is_err());
}

#[test]
fn written(rt: HostRuntime) -> Result<(), OutOfMemory> {
    let mut text = Vec::new(rt.alloc());
    push_number(&mut text, 0)?;
    push_optional(&mut text, None)?;
    push_ranges(&mut text, RangeSet::new().intervals())?;
    push_ranges(&mut text, RangeSet::whole().intervals())?;
    push_who(
        &mut text,
        Who {
            actor: 7,
            instance: 3,
        },
    )?;
    push_who(
        &mut text,
        Who {
            actor: 32769,
            instance: 0,
        },
    )?;
    push_epoch(
        &mut text,
        Epoch {
            data_loss: 4,
            configuration: 5,
        },
    )?;
    let wanted = b"0--0000000000000000-ffffffffffffffff7.3a14.5";
    assert!(rt; text.as_slice() == wanted.as_slice());
    Ok(())
}

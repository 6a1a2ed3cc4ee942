//! Fields that are read out of the middle of a frame.
use ring_points::{Epoch, Who};
use ring_wire::{read_config_field, read_epoch, read_ranges, read_who};

/// A byte, then an instance of a node, of which the epoch at 1 shares the bytes, and at 7 a set of one interval.
const BYTES: &[u8] =
    b"\xff\x00\x02\x00\x00\x00\x01\x01\x00\x00\x00\x00\x00\x00\x00\x04\x00\x00\x00\x00\x00\x00\x00\x09";

/// Whether a set stands at a place, up to this one.
fn is_set(at: usize, end: usize) -> bool {
    match read_ranges(BYTES, at) {
        Some((_, found)) => found == end,
        None => false,
    }
}

#[test]
fn fields(rt: HostRuntime) {
    assert!(rt; matches!(read_who(BYTES, 1), Some(Who { actor: 2, .. })));
    assert!(rt; read_who(BYTES, 0).is_none());
    assert!(rt; read_who(BYTES, 30).is_none());
    let epoch = read_epoch(BYTES, 1);
    assert!(rt;
        matches!(
            epoch,
            Some(Epoch {
                data_loss: 0x0002_0000,
                ..
            })
        )
    );
    assert!(rt; read_epoch(BYTES, 17).is_none());
    assert!(rt; is_set(7, 24));
    assert!(rt; read_config_field(BYTES, 0).is_none());
}

// Fields at a place among some bytes.

ghost use Rattle.ring_points.specs.Ranges.{is_proper};
ghost use Rattle.fabric_terms.specs.Fields.{is_who, is_epoch, is_config};
ghost use Rattle.wire_fields.specs.Stands.{ReadsAt, ReadsSized};
ghost use Rattle.wire_fields.specs.Texts.{who_bytes, epoch_bytes, ranges_bytes, config_bytes};

use crate::read::{config_at, epoch_at, ranges_at, who_at};
use ring_points::{Config, Epoch, RangeSet, Who};

/// The epoch that stands at the place, in 8 bytes. It is `None` exactly where no whole one stands there.
pub fn read_epoch(bytes: &[u8], at: usize) -> Option<Epoch>
    ensures { ReadsSized is_epoch epoch_bytes 8 bytes.now at result }
{
    if bytes.len() < at {
        return None;
    }
    match epoch_at(&bytes[at..]) {
        Ok((epoch, _)) => Some(epoch),
        Err(_) => None,
    }
}

/// The instance of a node that stands at the place, in 6 bytes. It is `None` exactly where no whole one stands there.
pub fn read_who(bytes: &[u8], at: usize) -> Option<Who>
    ensures { ReadsSized is_who who_bytes 6 bytes.now at result }
{
    if bytes.len() < at {
        return None;
    }
    match who_at(&bytes[at..]) {
        Ok((who, _)) => Some(who),
        Err(_) => None,
    }
}

/// The range set that stands at the place, and the place after it. It is `None` exactly where no whole one stands
/// there.
pub fn read_ranges(bytes: &[u8], at: usize) -> Option<(RangeSet, usize)>
    ensures { ReadsAt is_proper ranges_bytes bytes.now at result }
{
    if bytes.len() < at {
        return None;
    }
    match ranges_at(&bytes[at..]) {
        Ok((ranges, rest)) => Some((ranges, bytes.len() - rest.len())),
        Err(_) => None,
    }
}

/// The configuration that stands at the place, and the place after it. It is `None` exactly where no whole one stands
/// there.
pub fn read_config_field(bytes: &[u8], at: usize) -> Option<(Config, usize)>
    ensures { ReadsAt is_config config_bytes bytes.now at result }
{
    if bytes.len() < at {
        return None;
    }
    match config_at(&bytes[at..]) {
        Ok((config, rest)) => Some((config, bytes.len() - rest.len())),
        Err(_) => None,
    }
}

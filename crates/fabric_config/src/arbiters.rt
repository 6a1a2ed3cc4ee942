ghost use Rattle.std.specs.Prelude.{◌<◌, ◌^◌, length, map};
ghost use Rattle.serde_json.specs.View.{view};
ghost use Rattle.fabric_config.specs.Checks.{Reads};
ghost use Rattle.fabric_config.specs.Arbiters.{arbiter_of, entries_of, arbiters_of};

use crate::entries::{read_address, read_list};
use crate::error::ConfigError;
use crate::field::Field;
use crate::limits::Limits;
use crate::numbers::required;
use fabric_terms::{Address, Arbiters};
use ring_points::MAX_ARBITRATORS;
use serde_json::Value;
use std::alloc::Global;

/// One arbitrator, whose number must be its place in the list.
#[tactic(auto, unfolding(crate::specs::Arbiters::arbiter_of))]
fn read_arbiter(alloc: Global, entry: &Value, place: u16) -> Result<(u16, Address), ConfigError>
    ensures { Reads (arbiter_of place (view entry.now)) result }
{
    if !entry.is_object() {
        return Err(ConfigError::Missing(Field::Arbiters));
    }
    let number = u64::from(place);
    let expected = Limits {
        field: Field::Arbiter,
        least: number,
        greatest: number,
    };
    required(entry, expected)?;
    Ok((place, read_address(alloc, entry)?))
}

/// One entry after another.
#[tactic(auto, using(crate::proofs::Lists::arbiters_in_turn))]
fn read_entries(alloc: Global, values: &[Value]) -> Result<Arbiters, ConfigError>
    requires { length values.now < 2 ^ 16 }
    ensures { Reads (entries_of 1 (map view values.now)) result }
{
    let mut entries = Vec::new(alloc);
    for (i, value) in values.iter().enumerate() {
        entries.push(read_arbiter(alloc, value, i as u16 + 1)?)?;
    }
    Ok(Arbiters::new(entries))
}

/// All arbitrators, numbered from 1.
#[tactic(auto, unfolding(crate::specs::Arbiters::arbiters_of))]
pub fn read_arbiters(alloc: Global, object: &Value) -> Result<Arbiters, ConfigError>
    ensures { Reads (arbiters_of (view object.now)) result }
{
    let values = read_list(object, Field::Arbiters, MAX_ARBITRATORS as u64)?;
    read_entries(alloc, values)
}

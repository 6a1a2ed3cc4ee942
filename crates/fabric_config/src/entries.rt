ghost use Rattle.std.specs.Prelude.{◌≤◌, length, map, IfOk, Ok};
ghost use Rattle.serde_json.specs.View.{view};
ghost use Rattle.fabric_config.specs.Checks.{Reads, ReadsAs};
ghost use Rattle.fabric_config.specs.Entries.{address_of, list_of};

use crate::error::ConfigError;
use crate::field::Field;
use crate::limits::Limits;
use crate::numbers::in_range;
use fabric_terms::Address;
use serde_json::Value;
use std::alloc::Global;

/// The entries of a field that must be a list, of at least 1 and at most this many.
#[tactic(auto, using(crate::proofs::Items::items), unfolding(crate::specs::Entries::list_of))]
pub fn read_list(object: &Value, field: Field, most: u64) -> Result<&[Value], ConfigError>
    ensures short { IfOk result (λ values. length values.now ≤ most) }
    ensures value { ReadsAs (λ values. map view values.now) (list_of field most (view object.now)) result }
{
    let value = object.get(field.name()).ok_or(ConfigError::Missing(field))?;
    let list = value.as_array().ok_or(ConfigError::Missing(field))?;
    let limits = Limits {
        field,
        least: 1,
        greatest: most,
    };
    in_range(list.len() as u64, limits)?;
    Ok(list.as_slice())
}

/// Where an actor listens: empty where the entry does not say.
#[tactic(auto, unfolding(crate::specs::Entries::address_of))]
pub fn read_address(alloc: Global, entry: &Value) -> Result<Address, ConfigError>
    ensures { Reads (address_of (view entry.now)) result }
{
    match entry.get(Field::At.name()) {
        None => Ok(Address::new(String::new(alloc))),
        Some(value) => {
            let text = value.as_str().ok_or(ConfigError::Missing(Field::At))?;
            Ok(Address::new(String::from_str(alloc, text)?))
        }
    }
}

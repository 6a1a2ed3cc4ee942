ghost use Rattle.std.specs.Prelude.{◌≡◌, ◌≤◌, IfOk};
ghost use Rattle.serde_json.specs.View.{view};
ghost use Rattle.fabric_config.specs.Numbers.{whole, in_range, required, optional};

use crate::error::ConfigError;
use crate::field::Field;
use crate::limits::Limits;
use serde_json::Value;

/// A whole number below 2^64, written without a sign, a point or an exponent.
pub fn whole(field: Field, value: &Value) -> Result<u64, ConfigError>
    ensures { result ≡ whole field (view value.now) }
{
    value.as_u64().ok_or(ConfigError::Missing(field))
}

/// The number, if it is within the limits.
pub fn in_range(number: u64, limits: Limits) -> Result<u64, ConfigError>
    ensures value { result ≡ in_range limits.field limits.least limits.greatest number }
    ensures least { IfOk result (λ n. limits.least ≤ n) }
    ensures greatest { IfOk result (λ n. n ≤ limits.greatest) }
{
    if limits.least <= number && number <= limits.greatest {
        Ok(number)
    } else {
        Err(ConfigError::OutOfRange(limits.field, number))
    }
}

/// The number of a field that must stand.
#[tactic(auto, unfolding(crate::specs::Numbers::required))]
pub fn required(object: &Value, limits: Limits) -> Result<u64, ConfigError>
    ensures value { result ≡ required limits.field limits.least limits.greatest (view object.now) }
    ensures least { IfOk result (λ n. limits.least ≤ n) }
    ensures greatest { IfOk result (λ n. n ≤ limits.greatest) }
{
    match object.get(limits.field.name()) {
        None => Err(ConfigError::Missing(limits.field)),
        Some(value) => in_range(whole(limits.field, value)?, limits),
    }
}

/// The number of a field that may be absent.
#[tactic(auto, unfolding(crate::specs::Numbers::optional))]
pub fn optional(object: &Value, limits: Limits, default: u64) -> Result<u64, ConfigError>
    requires least { limits.least ≤ default }
    requires greatest { default ≤ limits.greatest }
    ensures value { result ≡ optional limits.field limits.least limits.greatest default (view object.now) }
    ensures least { IfOk result (λ n. limits.least ≤ n) }
    ensures greatest { IfOk result (λ n. n ≤ limits.greatest) }
{
    match object.get(limits.field.name()) {
        None => Ok(default),
        Some(value) => in_range(whole(limits.field, value)?, limits),
    }
}

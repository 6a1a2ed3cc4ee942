ghost use Rattle.std.specs.Prelude.{◌≡◌, IfOk, string_bytes};
ghost use Rattle.fabric_config.specs.declared.error.ConfigError.TheVariants.{OutOfMemory};
ghost use Rattle.fabric_config.specs.Words.{words_of};

use crate::field::Field;
use std::alloc::{AllocError, AllocFailed, Global};
use thiserror::Error;

/// The first check that a line fails.
#[derive(Clone, Copy, Debug, PartialEq, Eq, Error)]
pub enum ConfigError {
    /// The bytes are no text, or no JSON object.
    #[error("the line is no JSON object")]
    NotJson,
    /// A field that must stand is absent, or one is not of its kind: a whole number below 2^64, a text, a
    /// list, an object, or 16 digits.
    #[error("the field {0} is missing, or not of its kind")]
    Missing(Field),
    /// A number outside its range, the length of a list, an arbitrator's number that is not its place, or
    /// the number of a first node that is not listed.
    #[error("the field {0} is out of range: {1}")]
    OutOfRange(Field, u64),
    /// The number of a node whose number or point an earlier node has.
    #[error("node {0} repeats an earlier node")]
    Repeated(u16),
    /// There was not enough memory. It may come in place of any other answer.
    #[error("out of memory")]
    OutOfMemory,
}

impl ConfigError {
    /// The words in which a fault line names the error: `not json`, `missing FIELD`, `range FIELD VALUE`,
    /// `repeated NODE` or `out of memory`.
    pub fn words(self, alloc: Global) -> Result<String, AllocError>
        ensures { IfOk result (λ text. string_bytes text ≡ words_of self) }
    {
        match self {
            ConfigError::NotJson => String::from_str(alloc, "not json"),
            ConfigError::Missing(field) => format!(in alloc; "missing {field}"),
            ConfigError::OutOfRange(field, value) => format!(in alloc; "range {field} {value}"),
            ConfigError::Repeated(node) => format!(in alloc; "repeated {node}"),
            ConfigError::OutOfMemory => String::from_str(alloc, "out of memory"),
        }
    }
}

impl From<AllocError> for ConfigError {
    ghost from_gives = { λ _ e. e ≡ OutOfMemory };

    fn from(_error: AllocError) -> ConfigError {
        ConfigError::OutOfMemory
    }
}

impl<T: Drop> From<AllocFailed<T>> for ConfigError {
    ghost from_gives = { λ _ e. e ≡ OutOfMemory };

    fn from(_error: AllocFailed<T>) -> ConfigError {
        ConfigError::OutOfMemory
    }
}

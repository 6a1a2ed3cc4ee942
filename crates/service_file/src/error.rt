ghost use Rattle.std.specs.Prelude.{◌≡◌};
ghost use Rattle.service_file.specs.declared.error.ServiceError.TheVariants.{OutOfMemory};

use crate::field::ServiceField;
use std::alloc::{AllocError, AllocFailed};
use thiserror::Error;

/// Why a service object is not read.
#[derive(Clone, Copy, Debug, PartialEq, Eq, Error)]
pub enum ServiceError {
    /// The first check that the line fails.
    #[error("the service object is refused")]
    Bad(ServiceField),
    /// There was not enough memory. It may come in place of any answer to a line that is not empty.
    #[error("out of memory")]
    OutOfMemory,
}

impl From<AllocError> for ServiceError {
    ghost from_gives = { λ _ e. e ≡ OutOfMemory };

    fn from(_error: AllocError) -> ServiceError {
        ServiceError::OutOfMemory
    }
}

impl<T: Drop> From<AllocFailed<T>> for ServiceError {
    ghost from_gives = { λ _ e. e ≡ OutOfMemory };

    fn from(_error: AllocFailed<T>) -> ServiceError {
        ServiceError::OutOfMemory
    }
}

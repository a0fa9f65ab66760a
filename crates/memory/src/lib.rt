//! The evidence that memory was refused.
#![tactic(auto)]

use std::alloc::{AllocError, AllocFailed};

/// That an allocation was refused. Its field is private, so it is made of the allocator's own error alone. Anyone could
/// make such an error, so that no crate here does is what a test of the sources asks; then a fault that carries this
/// tells of an allocation that was refused.
#[derive(Clone, Copy, Debug)]
pub struct Refused {
    by: AllocError,
}

impl From<AllocError> for Refused {
    fn from(by: AllocError) -> Refused {
        Refused { by }
    }
}

impl<T: Drop> From<AllocFailed<T>> for Refused {
    fn from(failed: AllocFailed<T>) -> Refused {
        Refused { by: failed.into() }
    }
}

impl From<Refused> for AllocError {
    fn from(refused: Refused) -> AllocError {
        refused.by
    }
}

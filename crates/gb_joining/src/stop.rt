//! What ends a step, or a run.

use crate::cause::{Failure, Wish};
use std::alloc::{AllocError, AllocFailed};

/// Why a step, or a run, goes no further.
#[derive(Drop)]
pub enum RunStop {
    Failed(Failure),
    /// LD SP,n16 was met for the first time, and sets another stack than the configuration says.
    StackSet(u16),
    /// The configuration is to say something else first.
    Wanted(Wish),
    /// There would be more procedures than a certificate has.
    Crowded,
    /// Another limit was met.
    TooLarge,
    Memory(AllocError),
}

impl From<AllocError> for RunStop {
    fn from(error: AllocError) -> RunStop {
        RunStop::Memory(error)
    }
}

impl<T: Drop> From<AllocFailed<T>> for RunStop {
    fn from(failed: AllocFailed<T>) -> RunStop {
        RunStop::Memory(AllocError::from(failed))
    }
}

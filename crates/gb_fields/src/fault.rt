//! Why bytes are no certificate.

ghost use Rattle.std.specs.Prelude.{◌≡◌};
ghost use Rattle.gb_fields.specs.declared.fault.CertFault.TheVariants.{Memory};
ghost use Rattle.gb_fields.specs.Fault.{number_of};

use std::alloc::{AllocError, AllocFailed};
use thiserror::Error;

/// What is wrong with the bytes of a certificate: the first fault, from left to right, and of one
/// field the one with the lowest number. It prints as C1 to C9, as in the program's line.
#[derive(Clone, Copy, Debug, PartialEq, Eq, Error)]
pub enum CertFault {
    #[error("C1")]
    CutShort,
    #[error("C2")]
    Magic,
    #[error("C3")]
    Version,
    #[error("C4")]
    Count,
    #[error("C5")]
    Field,
    #[error("C6")]
    Order,
    #[error("C7")]
    Region,
    #[error("C8")]
    LeftOver,
    /// Nothing is said of the bytes.
    #[error("C9")]
    Memory,
}

impl CertFault {
    /// The fault's number, 1 to 9.
    pub fn number(self) -> u8
        ensures { result ≡ number_of self }
    {
        match self {
            CertFault::CutShort => 1,
            CertFault::Magic => 2,
            CertFault::Version => 3,
            CertFault::Count => 4,
            CertFault::Field => 5,
            CertFault::Order => 6,
            CertFault::Region => 7,
            CertFault::LeftOver => 8,
            CertFault::Memory => 9,
        }
    }

    /// What is wrong, as a clause without a full stop.
    pub fn meaning(self) -> &'static str {
        match self {
            CertFault::CutShort => "the bytes end within a field",
            CertFault::Magic => "the first four bytes are neither GBBC nor GBBX",
            CertFault::Version => "the letters are not those of this version",
            CertFault::Count => "a count is over its limit",
            CertFault::Field => "a field is out of its range",
            CertFault::Order => "nodes, cells or ranges are out of order",
            CertFault::Region => "the stack region is not valid, or too small for main",
            CertFault::LeftOver => "bytes are left over",
            CertFault::Memory => "memory ran out",
        }
    }
}

impl From<AllocError> for CertFault {
    ghost from_gives = { λ _ e. e ≡ Memory };

    fn from(_e: AllocError) -> CertFault {
        CertFault::Memory
    }
}

impl<T: Drop> From<AllocFailed<T>> for CertFault {
    ghost from_gives = { λ _ e. e ≡ Memory };

    fn from(_e: AllocFailed<T>) -> CertFault {
        CertFault::Memory
    }
}

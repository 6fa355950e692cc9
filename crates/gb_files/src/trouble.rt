//! Why a file couldn't be read or written.

ghost use Rattle.std.specs.Prelude.{◌≡◌, ◌↔◌};
ghost use Rattle.std.specs.IoError.{error_kind};
ghost use Rattle.std.specs.declared.io.ErrorKind.TheVariants as kind;
ghost use Rattle.gb_files.specs.Faults.{fault_line};
ghost use Rattle.gb_files.specs.declared.trouble.Trouble.TheVariants as trouble;

use std::alloc::{AllocError, AllocFailed};
use std::io;

/// Why a file couldn't be read or written.
#[derive(Clone, Copy, PartialEq, Eq)]
pub enum Trouble {
    Memory,
    Device,
}

impl Trouble {
    /// The line that a program prints of it.
    pub fn line(self) -> &'static str
        ensures { result.now ≡ fault_line self }
    {
        match self {
            Trouble::Memory => "FAULT memory",
            Trouble::Device => "FAULT device",
        }
    }
}

impl From<io::Error> for Trouble {
    ghost from_gives = { λ e t. (t ≡ trouble.Memory) ↔ (error_kind e ≡ kind.OutOfMemory) };

    fn from(error: io::Error) -> Trouble {
        match error.kind() {
            io::ErrorKind::OutOfMemory => Trouble::Memory,
            _ => Trouble::Device,
        }
    }
}

impl From<AllocError> for Trouble {
    ghost from_gives = { λ _ t. t ≡ trouble.Memory };

    fn from(_error: AllocError) -> Trouble {
        Trouble::Memory
    }
}

impl<T: Drop> From<AllocFailed<T>> for Trouble {
    ghost from_gives = { λ _ t. t ≡ trouble.Memory };

    fn from(_error: AllocFailed<T>) -> Trouble {
        Trouble::Memory
    }
}

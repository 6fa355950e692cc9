//! What is wrong with a file that is no cartridge.

ghost use Rattle.std.specs.Prelude.{◌≡◌};
ghost use Rattle.gb_header.specs.Header;

use thiserror::Error;

/// What is wrong with a file that is no cartridge. Where several faults meet, the first in this
/// order counts. It prints as H1 to H7, as in the program's line.
#[derive(Clone, Copy, Debug, PartialEq, Eq, Error)]
pub enum HeaderFault {
    #[error("H1")]
    TooShort,
    #[error("H2")]
    Type,
    #[error("H3")]
    RomSize,
    #[error("H4")]
    Length,
    #[error("H5")]
    RamSize,
    #[error("H6")]
    TooLarge,
    #[error("H7")]
    Checksum,
}

impl HeaderFault {
    /// The number that the program prints after an H.
    pub fn number(self) -> u8
        ensures { result ≡ Header.fault_number self }
    {
        match self {
            HeaderFault::TooShort => 1,
            HeaderFault::Type => 2,
            HeaderFault::RomSize => 3,
            HeaderFault::Length => 4,
            HeaderFault::RamSize => 5,
            HeaderFault::TooLarge => 6,
            HeaderFault::Checksum => 7,
        }
    }

    /// What is wrong, as a clause without a full stop.
    pub fn meaning(self) -> &'static str {
        match self {
            HeaderFault::TooShort => "the file is shorter than the smallest cartridge, 32 KiB",
            HeaderFault::Type => "the cartridge type (0147) is not supported",
            HeaderFault::RomSize => "the ROM size (0148) is unknown",
            HeaderFault::Length => "the file's length is not the ROM size (0148)",
            HeaderFault::RamSize => "the RAM size (0149) is unknown",
            HeaderFault::TooLarge => "the ROM or the RAM is too large for the cartridge type",
            HeaderFault::Checksum => "the header's checksum (014D) is wrong",
        }
    }
}

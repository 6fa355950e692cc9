//! Which addresses a certificate may know bytes of.

ghost use Rattle.std.specs.Prelude.{◌≡◌};
ghost use Rattle.gb_abs.specs.Storage.{is_ram};

/// Whether an address is in work RAM or high RAM, C000-DFFF or FF80-FFFE (Memory map). The echo of
/// work RAM at E000-FDFF is not.
pub fn is_ram(address: u16) -> bool
    ensures { result ≡ is_ram address }
{
    matches!(address, 0xC000..=0xDFFF | 0xFF80..=0xFFFE)
}

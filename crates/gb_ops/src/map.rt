//! The memory map, and what memory gives back.

ghost use Rattle.std.specs.Prelude.{◌≡◌};
ghost use Rattle.gb_ops.specs.Memory as Memory;
ghost use Rattle.gb_ops.specs.ReadsBack.{WritesAreStored, ReadsBack, RomStays};

use crate::machine::Mapped;

/// Bytes of work RAM.
pub const WORK_RAM: usize = 8_192;

/// Bytes of high RAM.
pub const HIGH_RAM: usize = 127;

/// What the memory map has at an address (Pan Docs: Memory Map).
#[inline]
#[tactic(auto, unfolding(crate::specs::Memory::mapped_at))]
pub fn mapped_at(address: u16) -> Mapped
    ensures value { result ≡ Memory.mapped_at address }
    ensures mapped { Memory.IsMapped address result }
{
    match address {
        0x0000..=0x7FFF => Mapped::Rom,
        0x8000..=0x9FFF => Mapped::Hardware,
        0xA000..=0xBFFF => Mapped::CartridgeRam,
        0xC000..=0xFDFF => Mapped::WorkRam((address - 0xC000) % 0x2000),
        0xFF46 => Mapped::Transfer,
        0xFE00..=0xFF7F => Mapped::Hardware,
        0xFF80..=0xFFFE => Mapped::HighRam(address - 0xFF80),
        0xFFFF => Mapped::InterruptEnable,
    }
}

/// The law of plain storage (C000-FDFF, FF80-FFFE, FFFF; E000-FDFF are the bytes of C000-DDFF): each byte
/// reads what was written to it last, and a write changes no other byte and leaves the controller.
/// It is stated over the definitions that the machine and each bus are described by.
#[tactic(auto, using(crate::proofs::ReadingBack::laws))]
pub fn plain_storage_reads_back()
    ensures stored { WritesAreStored }
    ensures last { ReadsBack }
    ensures rom { RomStays }
{}

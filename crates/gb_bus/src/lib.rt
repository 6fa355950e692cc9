//! The memory bus, as the processor meets it, and the console's memory behind it.
//!
//! The trait `Bus` says what the processor's proof needs of any bus. `Memory` is the console's: after each
//! call it is the record of `specs/Contents.antt` that `specs/Access.antt` gives, and plain storage reads
//! back what was written last (`plain_storage_reads_back`). Read this file first, then `memory` (what it
//! holds), `access` (reads, writes, and time) with `cartridge`, `hardware`, `registers`, `transfer` and `picture`.
#![tactic(auto)]

ghost use Rattle.std.specs.Prelude.{◌≡◌, ◌<◌, ◌%◌, ℕ, bit_and};
ghost use Rattle.std.specs.Bool.{OnFalse};
ghost use Rattle.gb_ops.specs.Accesses.{Access};
ghost use Rattle.gb_ops.specs.Accesses as access;
ghost use Rattle.gb_ops.specs.Memory.{View, is_free, byte_at, place_of, wrote, passed};
ghost use Rattle.gb_ops.specs.ReadsBack.{IsSized};

mod access;
pub mod cartridge;
pub mod hardware;
pub mod memory;
mod picture;
mod registers;
mod transfer;

pub use access::plain_storage_reads_back;
pub use cartridge::Behind;
use gb_ops::machine::ReadSource;
pub use hardware::{Hardware, IoRegister};
pub use memory::Memory;

// What lies below, for the crates above.
pub use gb_ppu::line::{HEIGHT, WIDTH};
pub use gb_ppu::picture::FRAME_CYCLES;
pub use gb_ppu::{Irqs, Keys, next_irq};

/// A byte that was read, and whether it was free: whether the bus may give any byte there.
#[derive(Clone, Copy, PartialEq, Eq)]
pub struct Taken {
    pub byte: u8,
    pub is_free: bool,
}

/// A memory bus. Each call has a relation between the bus before it, what it gives or takes, and
/// the bus after it.
pub trait Bus {
    /// The cartridge, the storage, and whether a transfer starts as the event ends.
    ghost shows: { Self → View };

    /// The bus before an access, the access, and the bus after it.
    ghost does: { Self → Access → Self → Type 0 };

    /// The interrupts that are enabled and requested.
    ghost shared: { Self → ℕ };

    /// The byte at an address; a free one may be any.
    fn read(&mut self, address: u16) -> u8
        ensures joined { does self.old (access.Reads address result) self.new }
        ensures view { shows self.new ≡ shows self.old }
        ensures fixed { OnFalse (is_free (shows self.old) address) (byte_at (shows self.old) address ≡ result) };

    /// Stores a byte; a transfer drops it where it is closed.
    fn write(&mut self, address: u16, value: u8)
        ensures joined { does self.old (access.Writes address value) self.new }
        ensures view { shows self.new ≡ wrote (shows self.old) address value };

    /// What answers a read. Work RAM and high RAM have their sizes on every bus, so that what is
    /// stored there reads back.
    fn place(&self, address: u16) -> ReadSource
        ensures place { result ≡ place_of (shows self.now) address }
        ensures sized { IsSized (shows self.now) };

    /// Reads a byte and says whether it is free, in one call where `read` and `place` would decode the address twice.
    #[tactic(auto, unfolding(gb_ops::specs::Memory::is_free))]
    fn take(&mut self, address: u16) -> Taken
        ensures joined { does self.old (access.Reads address result.byte) self.new }
        ensures view { shows self.new ≡ shows self.old }
        ensures free { result.is_free ≡ is_free (shows self.old) address }
        ensures fixed { OnFalse (is_free (shows self.old) address) (byte_at (shows self.old) address ≡ result.byte) }
    {
        let is_free = matches!(self.place(address), ReadSource::Free);
        let byte = self.read(address);
        Taken { byte, is_free }
    }

    /// The interrupts that are enabled and requested: some of the bits 0 to 4 of IE. It changes nothing.
    fn pending(&mut self) -> u8
        ensures same { self.new ≡ self.old }
        ensures value { result ≡ shared self.old }
        ensures bits { bit_and result ((shows self.old).storage.ie % 32) ≡ result };

    /// Takes a request back.
    fn acknowledge(&mut self, i: u8)
        requires { i < 5 }
        ensures joined { does self.old (access.Acknowledges i) self.new }
        ensures view { shows self.new ≡ shows self.old };

    /// The end of an event.
    fn pass(&mut self, cycles: u8)
        ensures joined { does self.old (access.Passes cycles) self.new }
        ensures view { shows self.new ≡ passed (shows self.old) cycles };
}

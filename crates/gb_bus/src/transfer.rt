//! The copy of an OAM transfer.

ghost use Rattle.std.specs.Prelude.{◌≡◌, ◌<◌, ◌≤◌, ◌+◌, ◌*◌, ◌++◌, map, drop, length};
ghost use Rattle.std.specs.List.{range_with_len};
ghost use Rattle.gb_bus.specs.Access as Access;

use crate::memory::Memory;
use gb_ops::machine::Mapped;
use gb_ops::map::mapped_at;
use gb_ppu::scene::OAM;

/// The page that a transfer copies from: E0 to FF are copied from C0 to DF.
fn source_page(page: u8) -> u8
    ensures value { result ≡ Access.source_page page }
    ensures most { result < 0xE0 }
{
    if page >= 0xE0 { page - 0x20 } else { page }
}

impl Memory<'_> {
    /// The M-cycles that a transfer has left.
    #[inline(always)]
    pub fn transfer_left(&self) -> u8
        ensures { result ≡ self.now.view.storage.count }
    {
        self.transfer.left()
    }

    /// A byte as it is copied: neither the picture nor a transfer closes it.
    #[tactic(auto, unfolding(crate::specs::Access::source_byte, gb_ops::specs::Memory::mapped_at))]
    fn source_byte(&self, address: u16) -> u8
        requires { address < 0xE000 }
        ensures { result ≡ Access.source_byte self.now address }
    {
        match mapped_at(address) {
            Mapped::Hardware => self.video_ram[usize::from(address - 0x8000)],
            _ => self.open_byte(address),
        }
    }

    /// Byte i of what a transfer from a page copies.
    #[tactic(auto, unfolding(crate::specs::Access::transferred))]
    fn transferred(&self, page: u8, i: u8) -> u8
        requires { i < 160 }
        ensures { result ≡ Access.transferred self.now page i }
    {
        self.source_byte(256 * u16::from(source_page(page)) + u16::from(i))
    }

    /// The 160 bytes of a transfer from a page.
    #[tactic(auto, using(crate::proofs::Copying::in_a_row, crate::proofs::Copying::one_more), unfolding(crate::specs::Access::copied))]
    pub(crate) fn copied(&self, page: u8) -> [u8; OAM]
        ensures { result ≡ Access.copied self.now page }
    {
        let mut bytes = [0; OAM];
        for i in 0..160 {
            bytes[usize::from(i)] = self.transferred(page, i);
        }
        bytes
    }
}

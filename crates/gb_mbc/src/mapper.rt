//! What every controller does.

ghost use Rattle.std.specs.Prelude.{◌≡◌, ◌<◌, false, IfSome};
ghost use Rattle.gb_ops.specs.declared.machine.Banks.{Banks};
ghost use Rattle.gb_ops.specs.Cartridge.{cut_to};
ghost use Rattle.gb_mbc.specs.Controllers.{Features, low_bank, high_bank, ram_bank, registers_after, is_window};

use gb_ops::machine::Banks;

/// A bank's number, cut to the bits that so many banks need.
pub(crate) fn cut(number: u16, banks: u16) -> u16
    requires { 0 < banks }
    ensures cut { result ≡ cut_to banks number }
    ensures below { result < banks }
{
    number % banks
}

/// A cartridge's controller: which banks it shows, and what is written to it.
pub trait Mapper {
    /// The facts of the header that it rests on.
    ghost features: { Self → Features };

    /// Its registers, as they were written.
    ghost registers: { Self → Banks };

    /// A write to any address; those outside its windows change nothing.
    fn write(&mut self, address: u16, value: u8)
        ensures registers { registers self.new ≡ registers_after (features self.old) (registers self.old) address value }
        ensures features { features self.new ≡ features self.old }
        ensures outside { is_window (features self.old).kind address ≡ false → registers self.new ≡ registers self.old };

    /// The ROM bank shown at 0000-3FFF.
    fn low_bank(&self) -> u16
        ensures shown { result ≡ low_bank (features self.now) (registers self.now) }
        ensures below { result < (features self.now).rom_banks };

    /// The ROM bank shown at 4000-7FFF.
    fn high_bank(&self) -> u16
        ensures shown { result ≡ high_bank (features self.now) (registers self.now) }
        ensures below { result < (features self.now).rom_banks };

    /// The RAM bank behind the gate, if the registers choose one.
    fn ram_bank(&self) -> Option<u8>
        ensures shown { result ≡ ram_bank (features self.now) (registers self.now) }
        ensures below { IfSome result (λ bank. bank < (features self.now).ram_banks) };

    /// Whether the gate to cartridge RAM is open.
    fn gate(&self) -> bool
        ensures { result ≡ (registers self.now).gate };

    /// Its registers.
    fn banks(&self) -> Banks
        ensures { result ≡ registers self.now };
}

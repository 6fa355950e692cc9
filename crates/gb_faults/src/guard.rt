//! A cheap test before an instruction: where it says so, the instruction has no fault.

ghost use Rattle.std.specs.Prelude.{◌≡◌, ◌+◌, ◌%◌, ◌≤◌, ◌<◌, ◌||◌, ◌==◌, not, ℕ, true, false};
ghost use Rattle.gb_ops.specs.Cartridge.{has_ram_or_clock};
ghost use Rattle.gb_ops.specs.Faults.{is_ram_closed};
ghost use Rattle.gb_ops.specs.Pairs as Pairs;
ghost use Rattle.gb_cpu.specs.Step.{state};
ghost use Rattle.gb_faults.specs.Limits.{limits_of};
ghost use Rattle.gb_faults.specs.Quiet.{IsQuiet, IsQuietAddress, IsQuietTouch, IsGuard, IsSafePush};
ghost use Rattle.gb_faults.specs.Touch.{opcode_touch};

use crate::limits::Limits;
use crate::touch::{Touch, touch_of};
use gb_cpu::Memory;
use gb_header::Rom;
use gb_ops::machine::{Kind, Region};
use gb_ops::registers::Processor;

/// A stack region, and what is known of the cartridge.
#[derive(Clone, Copy)]
pub struct Guard {
    pub region: Region,
    pub kind: Kind,
    pub has_ram_or_clock: bool,
    /// The least SP with which a push stays in the region, and the greatest. Where the region isn't plain RAM,
    /// no SP lies between them.
    pub least_sp: u16,
    pub most_sp: u16,
}

/// Whether a cartridge has something at A000-BFFF.
#[tactic(auto, unfolding(gb_ops::specs::Cartridge::has_ram_or_clock))]
fn has_ram_or_clock(rom: &Rom<'_>) -> bool
    ensures { result ≡ has_ram_or_clock rom.now }
{
    rom.ram_banks() != 0 || rom.has_clock()
}

/// The least and the greatest SP with which a push stays in a region that is plain RAM.
fn pushes_in(region: Region) -> (u16, u16)
    ensures { (sp : ℕ) → result.0 ≤ sp → sp ≤ result.1 → IsSafePush region sp }
{
    let Region { first, last } = region;
    let is_ram = 0xC000 <= first && last < 0xFFFF && (last < 0xFE00 || 0xFF80 <= first);
    if is_ram && first < last {
        (first + 2, last + 1)
    } else {
        (1, 0)
    }
}

impl Guard {
    /// The guard of a stack region in a cartridge.
    pub fn of(region: Region, rom: &Rom<'_>) -> Guard
        ensures region { result.region ≡ region }
        ensures guards { IsGuard rom.now result }
    {
        let (least_sp, most_sp) = pushes_in(region);
        Guard {
            region,
            kind: rom.kind(),
            has_ram_or_clock: has_ram_or_clock(rom),
            least_sp,
            most_sp,
        }
    }

    /// The limits of accesses now.
    #[tactic(auto, unfolding(crate::specs::Limits::limits_of))]
    pub fn limits<'r>(&self, memory: &Memory<'r>) -> Limits<'r>
        requires { IsGuard memory.now.view.rom self.now }
        ensures { result ≡ limits_of memory.now.view }
    {
        Limits::new(
            memory.cartridge(),
            self.kind,
            self.has_ram_or_clock,
            memory.gate(),
            memory.transfer_left(),
        )
    }

    /// Whether cartridge RAM can be reached.
    #[inline(never)]
    #[tactic(auto, unfolding(gb_ops::specs::Faults::is_ram_closed))]
    fn is_ram_open(&self, memory: &Memory<'_>) -> bool
        requires { IsGuard memory.now.view.rom self.now }
        ensures { result ≡ not (is_ram_closed memory.now.view) }
    {
        self.has_ram_or_clock && memory.gate()
    }

    /// Whether an access has no fault: none of a register's, nor of cartridge RAM that is closed.
    #[inline(always)]
    #[tactic(auto, using(crate::proofs::Quiet::quiet_open, crate::proofs::Quiet::quiet_elsewhere))]
    fn is_quiet(&self, memory: &Memory<'_>, address: u16) -> bool
        requires guard { IsGuard memory.now.view.rom self.now }
        requires still { memory.now.view.storage.count ≡ 0 }
        ensures { result ≡ true → IsQuietAddress memory.now.view address }
    {
        if address < 0xA000 {
            return true;
        }
        if 0xC000 <= address {
            return address < 0xFF00;
        }
        self.is_ram_open(memory)
    }

    /// Whether the instruction after the prefix CB has no fault.
    #[inline(always)]
    fn is_quiet_prefixed(&self, memory: &Memory<'_>, second: u8, hl: u16) -> bool
        requires guard { IsGuard memory.now.view.rom self.now }
        requires still { memory.now.view.storage.count ≡ 0 }
        ensures { result ≡ true → second % 8 ≡ 6 → IsQuietAddress memory.now.view hl }
    {
        second % 8 != 6 || self.is_quiet(memory, hl)
    }

    /// Whether an instruction that touches memory so has no fault by that; of one that names an address, or
    /// follows the prefix CB, it doesn't say so.
    #[inline(always)]
    #[tactic(auto, using(crate::proofs::Quiet::quiet_pop, crate::proofs::Quiet::quiet_push), unfolding(gb_ops::specs::Pairs::pair_value))]
    fn is_quiet_touch(&self, touch: Touch, processor: &Processor, memory: &Memory<'_>) -> bool
        requires guard { IsGuard memory.now.view.rom self.now }
        requires still { memory.now.view.storage.count ≡ 0 }
        ensures { result ≡ true → (w : ℕ) → IsQuietTouch self.now.region memory.now.view processor.now w touch }
    {
        let registers = &processor.registers;
        match touch {
            Touch::Nothing => true,
            Touch::Bc => self.is_quiet(memory, word(registers.b, registers.c)),
            Touch::De => self.is_quiet(memory, word(registers.d, registers.e)),
            Touch::Hl => self.is_quiet(memory, word(registers.h, registers.l)),
            Touch::HighStore => !matches!(registers.a, 0xA0..=0xBF),
            Touch::Pop => 0xC000 <= processor.sp,
            Touch::Push => self.least_sp <= processor.sp && processor.sp <= self.most_sp,
            Touch::Word | Touch::Prefixed | Touch::Other => false,
        }
    }

    /// Whether the instruction at PC surely has no fault, whatever hardware gives.
    #[inline(always)]
    pub fn is_surely_faultless(&self, processor: &Processor, memory: &Memory<'_>) -> bool
        requires { IsGuard memory.now.view.rom self.now }
        ensures { result ≡ true → IsQuiet self.now.region (state processor.now memory.now.view) }
    {
        let pc = processor.pc;
        if processor.halt_mark || pc >= 0x7FFE || memory.transfer_left() != 0 {
            return false;
        }
        match touch_of(memory.rom_byte(pc)) {
            Touch::Prefixed => {
                let hl = word(processor.registers.h, processor.registers.l);
                self.is_quiet_prefixed(memory, memory.rom_byte(pc + 1), hl)
            }
            Touch::Word => {
                let address = word(memory.rom_byte(pc + 2), memory.rom_byte(pc + 1));
                self.is_quiet(memory, address)
            }
            touch => self.is_quiet_touch(touch, processor, memory),
        }
    }
}

/// A word by its bytes.
fn word(high: u8, low: u8) -> u16
    ensures { result ≡ Pairs.word high low }
{
    u16::from(high) * 256 + u16::from(low)
}

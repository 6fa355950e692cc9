//! The console's memory as a bus.

ghost use Rattle.std.specs.Prelude.{◌≡◌, ◌<◌, ◌≤◌, ◌-◌, ◌%◌, true, false};
ghost use Rattle.gb_ops.specs.Memory as Spec;
ghost use Rattle.gb_ops.specs.Cartridge.{kind_of};
ghost use Rattle.gb_mbc.specs.Controllers.{is_latch};
ghost use Rattle.gb_bus.specs.Access as Access;
ghost use Rattle.gb_bus.specs.Hardware as Map;
ghost use Rattle.gb_bus.specs.ReadsBack.{ReadsBack};
ghost use Rattle.gb_bus.specs.Screen.{pictured};
ghost use Rattle.gb_bus.specs.Waiting.{Waits};
ghost use Rattle.gb_ppu.specs.Below.gb_timer.Joypad.{key_bits};
ghost use Rattle.gb_ops.specs.declared.machine.Mapped.TheVariants as mapped;

use crate::hardware::{Hardware, hardware_at};
use crate::memory::Memory;
use crate::{Bus, Taken};
use bitflags::Flags;
use gb_mbc::Mapper;
use gb_ops::machine::{Mapped, ReadSource};
use gb_ops::map::mapped_at;
use gb_ppu::{Irqs, Keys};

/// A byte of ROM or plain storage.
fn fixed(byte: u8) -> Taken
    ensures { result ≡ record { byte = byte; is_free = false } }
{
    Taken {
        byte,
        is_free: false,
    }
}

/// A byte of anything else.
fn free(byte: u8) -> Taken
    ensures { result ≡ record { byte = byte; is_free = true } }
{
    Taken {
        byte,
        is_free: true,
    }
}

/// Where work RAM has an address; E000 to FDFF are the bytes of C000 to DDFF.
#[inline(always)]
fn work_index(address: u16) -> usize
    requires { 0xC000 ≤ address }
    ensures value { result ≡ (address - 0xC000) % 0x2000 }
    ensures small { result < 0x2000 }
{
    usize::from((address - 0xC000) % 0x2000)
}

impl Memory<'_> {
    /// Whether a transfer closes an address.
    #[tactic(auto, unfolding(gb_ops::specs::Memory::is_closed))]
    fn is_closed(&self, address: u16) -> bool
        ensures { result ≡ Spec.is_closed self.now.view.storage address }
    {
        self.transfer.left() != 0 && !matches!(mapped_at(address), Mapped::HighRam(_))
    }

    fn hardware_byte(&self, address: u16) -> u8
        requires { 0x8000 ≤ address }
        ensures { result ≡ Access.hardware_byte (Map.hardware_at address) self.now }
    {
        match hardware_at(address) {
            Hardware::VideoRam(_) if self.uses_video_ram() => 0xFF,
            Hardware::VideoRam(i) => self.video_ram[usize::from(i)],
            Hardware::Oam(_) if self.uses_oam() => 0xFF,
            Hardware::Oam(i) => self.oam[usize::from(i)],
            Hardware::Io(register) => self.io_byte(register),
            Hardware::Lcd(register) => self.devices.ppu().read(register),
            Hardware::Nothing => 0xFF,
        }
    }

    /// What is read where no transfer closes it, and whether it is free.
    #[inline]
    fn open_taken(&self, address: u16) -> Taken
        ensures byte { result.byte ≡ Access.open_byte (Spec.mapped_at address) self.now address }
        ensures free { result.is_free ≡ Spec.is_free_place (Spec.place_by (Spec.mapped_at address) self.now.view address) }
    {
        match mapped_at(address) {
            Mapped::Rom => fixed(self.rom_byte(address)),
            Mapped::WorkRam(i) => fixed(self.work_ram[usize::from(i)]),
            Mapped::HighRam(i) => fixed(self.high_ram[usize::from(i)]),
            Mapped::InterruptEnable => fixed(self.interrupt_enable),
            Mapped::CartridgeRam => free(self.cartridge_byte(address)),
            Mapped::Transfer => free(self.page),
            Mapped::Hardware => free(self.hardware_byte(address)),
        }
    }

    /// What is read where no transfer closes it.
    pub(crate) fn open_byte(&self, address: u16) -> u8
        ensures { result ≡ Access.open_byte (Spec.mapped_at address) self.now address }
    {
        self.open_taken(address).byte
    }

    /// Lets the picture see what is owed, where an address asks for it.
    fn settle_at(&mut self, address: u16)
        ensures { self.new ≡ self.old }
    {
        if matches!(address, 0x8000..=0x9FFF | 0xFE00..=0xFE9F | 0xFF40..=0xFF4B) {
            let _ = self.devices.settle();
        }
    }

    /// What is read, and whether it is free; kept out of the callers of `taken`.
    #[inline(never)]
    #[tactic(auto, unfolding(crate::specs::Access::byte_read, gb_ops::specs::Memory::is_free, gb_ops::specs::Memory::place_of))]
    fn taken_anywhere(&mut self, address: u16) -> Taken
        ensures same { self.new ≡ self.old }
        ensures byte { result.byte ≡ Access.byte_read self.old address }
        ensures free { result.is_free ≡ Spec.is_free self.old.view address }
    {
        if self.is_closed(address) {
            free(0xFF)
        } else {
            self.settle_at(address);
            self.open_taken(address)
        }
    }

    /// What a read takes, for fetches: ROM, from where most instructions come, and work RAM are read without a call.
    #[inline(always)]
    #[tactic(auto, using(crate::proofs::Reading::rom_reads, crate::proofs::Reading::work_reads))]
    fn taken(&mut self, address: u16) -> Taken
        ensures same { self.new ≡ self.old }
        ensures byte { result.byte ≡ Access.byte_read self.old address }
        ensures free { result.is_free ≡ Spec.is_free self.old.view address }
    {
        if self.transfer.left() != 0 {
            return self.taken_anywhere(address);
        }
        if address < 0x8000 {
            return fixed(self.rom_byte(address));
        }
        if 0xC000 <= address && address < 0xFE00 {
            return fixed(self.work_ram[work_index(address)]);
        }
        self.taken_anywhere(address)
    }
}

impl Memory<'_> {
    /// A write to the controller's registers.
    #[tactic(auto, using(crate::proofs::Cartridges::registers_are))]
    fn write_controller(&mut self, address: u16, value: u8)
        requires { address < 0x8000 }
        ensures { self.new ≡ Access.viewed mapped.Rom self.old address value }
    {
        self.controller.write(address, value);
        self.low_bank = self.controller.low_bank();
        self.high_bank = self.controller.high_bank();
    }

    /// Whether a write to an address commands the latch of the clock.
    #[tactic(auto, using(crate::proofs::Cartridges::latch_is))]
    fn is_latch(&self, address: u16) -> bool
        requires { address < 0x8000 }
        ensures { result ≡ is_latch (kind_of self.now.view.rom) address }
    {
        self.controller.is_latch(address)
    }

    /// A write to ROM: the controller takes it, and MBC3 latches its clock by some.
    fn write_rom(&mut self, address: u16, value: u8)
        requires { address < 0x8000 }
        ensures { self.new ≡ Access.open_written mapped.Rom self.old address value }
    {
        let is_latch = self.is_latch(address);
        self.write_controller(address, value);
        if is_latch {
            self.clock.command(value);
        }
    }

    /// A write to FF46: the bytes are copied at once, and the transfer starts as the event ends.
    fn start_transfer(&mut self, page: u8)
        ensures { self.new ≡ Access.open_written mapped.Transfer self.old 0xFF46 page }
    {
        *self.oam = self.copied(page);
        self.page = page;
        self.is_starting = true;
    }

    fn write_hardware(&mut self, address: u16, value: u8)
        requires { 0x8000 ≤ address }
        ensures { self.new ≡ Access.hardware_written (Map.hardware_at address) self.old value }
    {
        self.settle_at(address);
        match hardware_at(address) {
            Hardware::VideoRam(i) => {
                if !self.uses_video_ram() {
                    self.video_ram[usize::from(i)] = value;
                }
            }
            Hardware::Oam(i) => {
                if !self.uses_oam() {
                    self.oam[usize::from(i)] = value;
                }
            }
            Hardware::Io(register) => self.write_io(register, value),
            Hardware::Lcd(register) => self.write_lcd(register, value),
            Hardware::Nothing => {}
        }
    }

    /// A write that no transfer closes.
    fn write_open(&mut self, address: u16, value: u8)
        ensures { self.new ≡ Access.open_written (Spec.mapped_at address) self.old address value }
    {
        match mapped_at(address) {
            Mapped::Rom => self.write_rom(address, value),
            Mapped::CartridgeRam => self.write_cartridge(address, value),
            Mapped::WorkRam(i) => self.work_ram[usize::from(i)] = value,
            Mapped::HighRam(i) => self.high_ram[usize::from(i)] = value,
            Mapped::InterruptEnable => self.set_interrupt_enable(value),
            Mapped::Transfer => self.start_transfer(value),
            Mapped::Hardware => self.write_hardware(address, value),
        }
    }
}

impl Memory<'_> {
    /// A write; kept out of the callers of `store`.
    #[inline(never)]
    #[tactic(auto, unfolding(crate::specs::Access::written))]
    fn store_anywhere(&mut self, address: u16, value: u8)
        ensures { self.new ≡ Access.written self.old address value }
    {
        if !self.is_closed(address) {
            self.write_open(address, value);
        }
    }

    /// A write; work RAM is written in place.
    #[inline(always)]
    #[tactic(auto, using(crate::proofs::Reading::work_is_written))]
    fn store(&mut self, address: u16, value: u8)
        ensures { self.new ≡ Access.written self.old address value }
    {
        if 0xC000 <= address && address < 0xFE00 && self.transfer.left() == 0 {
            self.work_ram[work_index(address)] = value;
        } else {
            self.store_anywhere(address, value);
        }
    }

    /// A transfer as M-cycles pass: one that was started counts from its whole length.
    #[inline(never)]
    #[tactic(auto, unfolding(gb_ops::specs::Memory::passed, gb_dma::specs::Transfer::left_after))]
    fn advance_transfer(&mut self, cycles: u8)
        ensures { self.new ≡ record self.old { view = Spec.passed self.old.view cycles } }
    {
        if self.is_starting {
            self.transfer.start();
            self.is_starting = false;
        } else {
            self.transfer.advance(cycles);
        }
    }

    /// A transfer as M-cycles pass, tested inline: mostly there is none, and no call is made.
    #[inline(always)]
    #[tactic(auto, using(crate::proofs::Reading::none_passes))]
    fn pass_transfer(&mut self, cycles: u8)
        ensures { self.new ≡ record self.old { view = Spec.passed self.old.view cycles } }
    {
        if self.is_starting || self.transfer.left() != 0 {
            self.advance_transfer(cycles);
        }
    }

    /// The timer as M-cycles pass.
    fn pass_timer(&mut self, cycles: u8)
        ensures { self.new ≡ Access.timed self.old cycles }
    {
        let mut timer = self.devices.timer();
        let overflows = timer.advance(cycles);
        self.devices.set_timer(timer);
        if overflows != 0 {
            self.request(Irqs::TIMER);
        }
    }

    /// The timer and the picture as M-cycles pass that may bring a change; kept out of the callers of `pass`.
    #[inline(never)]
    fn pass_changes(&mut self, cycles: u8)
        ensures { self.new ≡ pictured cycles (Access.timed self.old cycles) }
    {
        self.pass_timer(cycles);
        self.pass_picture(cycles);
    }

    /// The timer and the picture as M-cycles pass.
    #[inline]
    #[tactic(auto, using(crate::proofs::Stillness::passed_quietly), unfolding(gb_devices::specs::Devices::after))]
    fn pass_devices(&mut self, cycles: u8)
        ensures { self.new ≡ pictured cycles (Access.timed self.old cycles) }
    {
        if !self.devices.owe(cycles) {
            self.pass_changes(cycles);
        }
    }
}

impl Memory<'_> {
    /// Whether these keys are held.
    #[inline]
    pub fn holds(&self, keys: Keys) -> bool
        ensures { result ≡ true → self.now.pad.keys ≡ key_bits keys }
    {
        self.joypad.holds(keys)
    }

    /// Lets single M-cycles pass that leave the shared interrupts as they are: so many at most. Answers how many.
    #[tactic(auto, using(crate::proofs::Waiting::waited), unfolding(gb_devices::specs::Devices::after))]
    pub fn wait(&mut self, most: u8) -> u8
        requires { self.old.view.starting ≡ false }
        ensures few { result ≤ most }
        ensures waited { Waits result self.old self.new }
    {
        let n = self.devices.wait(most);
        self.pass_transfer(n);
        n
    }
}

impl Bus for Memory<'_> {
    ghost use Rattle.std.specs.Prelude.{◌%◌, bit_and};
    ghost use Rattle.gb_bus.specs.Access.{IsAccessed, shared};

    ghost shows = { λ m. m.view };

    ghost does = { IsAccessed };

    ghost shared = { shared };

    #[tactic(auto, using(crate::proofs::Reading::fixed_is))]
    fn read(&mut self, address: u16) -> u8 {
        self.taken(address).byte
    }

    #[inline(always)]
    #[tactic(auto, using(crate::proofs::Reading::fixed_is))]
    fn take(&mut self, address: u16) -> Taken {
        self.taken(address)
    }

    #[inline(always)]
    #[tactic(auto, using(crate::proofs::Reading::write_shows))]
    fn write(&mut self, address: u16, value: u8) {
        self.store(address, value);
    }

    #[tactic(auto, unfolding(gb_ops::specs::Memory::place_of))]
    fn place(&self, address: u16) -> ReadSource {
        self.sizes();
        if self.is_closed(address) {
            return ReadSource::Free;
        }
        match mapped_at(address) {
            Mapped::Rom => ReadSource::Rom(self.shown_bank(address)),
            Mapped::WorkRam(_) | Mapped::HighRam(_) | Mapped::InterruptEnable => ReadSource::Plain,
            Mapped::CartridgeRam | Mapped::Transfer | Mapped::Hardware => ReadSource::Free,
        }
    }

    #[inline(always)]
    #[tactic(auto, using(crate::proofs::Requests::shared_enabled), unfolding(crate::specs::Access::shared))]
    fn pending(&mut self) -> u8 {
        self.pending
    }

    #[tactic(auto, using(crate::proofs::Requests::and_small), unfolding(crate::specs::Access::acknowledged))]
    fn acknowledge(&mut self, i: u8) {
        let left = Irqs::from_bits_retain(self.requests.bits() & (255 - (1 << i)));
        self.set_requests(left);
    }

    #[tactic(auto, unfolding(crate::specs::Access::advanced))]
    fn pass(&mut self, cycles: u8) {
        self.pass_transfer(cycles);
        self.pass_devices(cycles);
    }
}

/// The law of the console's plain storage (C000-FDFF, FF80-FFFE, FFFF; E000-FDFF are the bytes of
/// C000-DDFF): after any accesses, what is read there is what they wrote there last.
#[tactic(auto, using(crate::proofs::ReadingBack::memory_reads_back))]
pub fn plain_storage_reads_back()
    ensures { ReadsBack }
{}

//! A cartridge with its controller, over any bytes whose header the check accepts but for the checksum.

ghost use Rattle.std.specs.Prelude.{◌≡◌, ◌≢◌, ◌<◌, true, false, length, slice_set, IfOk, IfSome};
ghost use Rattle.gb_ops.specs.Cartridge as Spec;
ghost use Rattle.gb_cpu.specs.Below.gb_mbc.Controllers.{features_of};
ghost use Rattle.gb_ops.specs.Memory.{rom_byte};
ghost use Rattle.gb_plain.specs.Shown.{blank, zeros};

use gb_header::Rom;
use gb_mbc::{Controller, Flat, Mapper};
use gb_ops::machine::{Banks, Kind};
use std::alloc::{AllocError, Global};
use std::marker::Model;

/// The bytes of the smallest cartridge.
const SMALLEST_ROM: usize = 0x8000;

/// Where the header has its checksum.
const CHECKSUM: usize = 0x14D;

/// A cartridge's bytes, and its controller.
#[derive(Drop)]
pub struct Cartridge {
    rom: Vec<u8>,
    controller: Controller,
    has_ram_or_clock: bool,
}

impl Model for Cartridge {
    ghost use Rattle.std.specs.Prelude.{◌≡◌};
    ghost use Rattle.gb_cpu.specs.Below.gb_mbc.Controller.{features, registers};
    ghost use Rattle.gb_cpu.specs.Below.gb_mbc.Controllers.{features_of};
    ghost use Rattle.gb_ops.specs.Cartridge as Spec;
    ghost use Rattle.gb_plain.specs.Shown.{CartridgeState};

    ghost Value = { CartridgeState };

    ghost view = { λ c. record { rom = c.rom.items; banks = registers c.controller } };

    ghost invariant = { λ c. (features c.controller ≡ features_of c.rom.items) × (c.has_ram_or_clock ≡ Spec.has_ram_or_clock c.rom.items) };
}

/// So many bytes 00.
#[tactic(auto, unfolding(crate::specs::Shown::zeros))]
fn zeros(alloc: Global, size: usize) -> Result<Vec<u8>, AllocError>
    ensures { IfOk result (λ bytes. bytes.items ≡ zeros size) }
{
    Ok(vec![in alloc; 0; size]?)
}

/// Whether a cartridge has something behind A000-BFFF.
#[tactic(auto, unfolding(gb_ops::specs::Cartridge::has_ram_or_clock))]
fn has_ram_or_clock(rom: &Rom<'_>) -> bool
    ensures { result ≡ Spec.has_ram_or_clock rom.now }
{
    rom.ram_banks() != 0 || rom.has_clock()
}

/// The checksum that a header has to have.
fn checksum(rom: &[u8]) -> u8 {
    let mut sum = 0u8;
    for byte in rom.get(0x134..CHECKSUM).unwrap_or(&[]) {
        sum = sum.wrapping_sub(*byte).wrapping_sub(1);
    }
    sum
}

/// The bytes with the right checksum, by which no fact of the header changes.
#[tactic(auto, using(crate::proofs::Facts::checksum_apart))]
fn with_checksum(alloc: Global, rom: &[u8]) -> Result<Vec<u8>, AllocError>
    ensures { IfOk result (λ copy. features_of copy.items ≡ features_of rom.now) }
{
    let mut copy = rom.to_vec(alloc)?;
    if CHECKSUM < copy.len() {
        copy[CHECKSUM] = checksum(rom);
    }
    Ok(copy)
}

impl Cartridge {
    /// The smallest cartridge, all bytes 00.
    #[tactic(auto, using(crate::proofs::Facts::zeros_features, crate::proofs::Facts::flat_has_none))]
    pub fn blank(alloc: Global) -> Result<Cartridge, AllocError>
        ensures { IfOk result (λ cartridge. cartridge ≡ blank 0x8000) }
    {
        Ok(Cartridge {
            rom: zeros(alloc, SMALLEST_ROM)?,
            controller: Controller::Flat(Flat),
            has_ram_or_clock: false,
        })
    }

    /// A cartridge at power-up.
    ///
    /// # Errors
    ///
    /// AllocError where there is no room.
    #[tactic(auto, using(crate::proofs::Facts::ram_or_clock_by_features))]
    pub fn of(alloc: Global, rom: &Rom<'_>) -> Result<Cartridge, AllocError>
        ensures { IfOk result (λ cartridge. cartridge ≡ record { rom = rom.now; banks = Spec.banks_at_power_up }) }
    {
        Ok(Cartridge {
            rom: Vec::from_slice(alloc, rom.bytes())?,
            controller: Controller::of(rom),
            has_ram_or_clock: has_ram_or_clock(rom),
        })
    }

    /// The cartridge in these bytes at power-up, if the header's check accepts them with the right checksum.
    #[tactic(auto, using(crate::proofs::Facts::parsed_is, crate::proofs::Facts::ram_or_clock_by_features))]
    pub fn new(alloc: Global, rom: Vec<u8>) -> Result<Option<Cartridge>, AllocError>
        ensures { IfOk result (λ made. IfSome made (λ cartridge. cartridge ≡ record { rom = rom.items; banks = Spec.banks_at_power_up })) }
    {
        let copy = with_checksum(alloc, &rom)?;
        let Ok(parsed) = Rom::parse(&copy) else {
            return Ok(None);
        };
        let controller = Controller::of(&parsed);
        let has_ram_or_clock = has_ram_or_clock(&parsed);
        Ok(Some(Cartridge {
            rom,
            controller,
            has_ram_or_clock,
        }))
    }

    /// Its bytes.
    pub fn bytes(&self) -> &[u8]
        ensures { result.now ≡ self.now.rom }
    {
        &self.rom
    }

    /// The controller's registers.
    pub fn banks(&self) -> Banks
        ensures { result ≡ self.now.banks }
    {
        self.controller.banks()
    }

    /// The kind of its controller.
    #[tactic(auto, using(crate::proofs::Facts::kind_by_features))]
    pub fn kind(&self) -> Kind
        ensures { result ≡ Spec.kind_of self.now.rom }
    {
        match self.controller {
            Controller::Flat(_) => Kind::Rom,
            Controller::Mbc1(_) => Kind::Mbc1,
            Controller::Mbc3(_) => Kind::Mbc3,
            Controller::Mbc5(_) => Kind::Mbc5,
        }
    }

    /// Whether it has something behind A000-BFFF.
    pub fn has_ram_or_clock(&self) -> bool
        ensures { result ≡ Spec.has_ram_or_clock self.now.rom }
    {
        self.has_ram_or_clock
    }

    /// The ROM bank shown at an address below 8000.
    #[tactic(auto, using(crate::proofs::Facts::low_is_shown, crate::proofs::Facts::high_is_shown))]
    pub fn shown_bank(&self, address: u16) -> u16
        ensures { result ≡ Spec.shown_bank self.now.rom self.now.banks address }
    {
        if address < 0x4000 {
            self.controller.low_bank()
        } else {
            self.controller.high_bank()
        }
    }

    /// The byte shown at an address below 8000.
    pub fn byte(&self, address: u16) -> u8
        ensures { result ≡ rom_byte self.now.rom (Spec.shown_bank self.now.rom self.now.banks address) address }
    {
        let bank = usize::from(self.shown_bank(address));
        let place = 0x4000 * bank + usize::from(address % 0x4000);
        self.rom.get(place).copied().unwrap_or(0)
    }

    /// The registers that a write would leave.
    #[tactic(auto, using(crate::proofs::Facts::registers_are))]
    pub fn banks_after(&self, address: u16, value: u8) -> Banks
        requires { address < 0x8000 }
        ensures { result ≡ Spec.banks_after self.now.rom self.now.banks address value }
    {
        let mut controller = self.controller.copied();
        controller.write(address, value);
        controller.banks()
    }

    /// A write to the controller's registers.
    #[tactic(auto, using(crate::proofs::Facts::registers_are))]
    pub fn write(&mut self, address: u16, value: u8)
        requires { address < 0x8000 }
        ensures { self.new ≡ record self.old { banks = Spec.banks_after self.old.rom self.old.banks address value } }
    {
        self.controller.write(address, value);
    }

    /// Writes registers by the controller's windows, and answers whether it holds them as they are.
    pub fn set_banks(&mut self, banks: Banks) -> bool
        ensures rom { self.new.rom ≡ self.old.rom }
        ensures held { result ≡ true → self.new.banks ≡ banks }
        ensures refused { result ≡ false → self.new.banks ≢ banks }
    {
        let gate = if banks.gate { 0x0A } else { 0x00 };
        self.controller.write(0x0000, gate);
        // MBC5 has bit 8 of the bank in a window of its own; the others write the whole bank next.
        self.controller.write(0x3000, (banks.bank / 256) as u8);
        self.controller.write(0x2000, (banks.bank % 256) as u8);
        self.controller.write(0x4000, banks.second);
        self.controller.write(0x6000, u8::from(banks.mode));
        self.controller.banks() == banks
    }

    /// Changes a byte, where there is one and it is none of those that the controller rests on, and answers
    /// whether the byte is now as it was asked.
    #[tactic(auto, using(crate::proofs::Facts::features_set, crate::proofs::Facts::ram_or_clock_set))]
    pub fn set_byte(&mut self, at: usize, value: u8) -> bool
        ensures banks { self.new.banks ≡ self.old.banks }
        ensures changed { result ≡ true → self.new.rom ≡ slice_set self.old.rom at value }
        ensures kept { result ≡ false → self.new.rom ≡ self.old.rom }
        ensures before { at < length self.old.rom → at < 0x147 → result ≡ true }
        ensures behind { at < length self.old.rom → 0x149 < at → result ≡ true }
    {
        if at >= self.rom.len() {
            return false;
        }
        if self.rom[at] == value {
            return true;
        }
        if matches!(at, 0x147..=0x149) {
            return false;
        }
        self.rom[at] = value;
        true
    }
}

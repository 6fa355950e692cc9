//! The console's memory.

ghost use Rattle.std.specs.Prelude.{◌≡◌, ◌<◌, ◌≤◌, IfOk, length, vec_len};
ghost use Rattle.gb_ops.specs.ReadsBack.{IsSized};
ghost use Rattle.gb_bus.specs.PowerUp.{at_power_up, zeros};

use crate::picture::dark;
use gb_devices::Devices;
use gb_dma::Transfer;
use gb_mbc::{Clock, Controller, Mapper, Rom};
use gb_ops::map::{HIGH_RAM, WORK_RAM};
use gb_ppu::line::{HEIGHT, WIDTH};
use gb_ppu::scene::{OAM, VIDEO_RAM};
use gb_ppu::{Irqs, Joypad};
use std::alloc::{AllocError, Global};
use std::marker::Model;

/// The console's memory: a cartridge, its controller, and everything that has an address.
#[derive(Drop)]
pub struct Memory<'a> {
    pub(crate) rom: &'a [u8],
    pub(crate) controller: Controller,
    /// The ROM banks that the controller shows, at 0000-3FFF and at 4000-7FFF: they change by its writes
    /// alone, and are read with nearly every instruction.
    pub(crate) low_bank: u16,
    pub(crate) high_bank: u16,
    pub(crate) cartridge_ram: Vec<u8>,
    pub(crate) clock: Clock,
    pub(crate) video_ram: Box<[u8; VIDEO_RAM]>,
    pub(crate) oam: Box<[u8; OAM]>,
    pub(crate) work_ram: Box<[u8; WORK_RAM]>,
    pub(crate) high_ram: Box<[u8; HIGH_RAM]>,
    pub(crate) interrupt_enable: u8,
    pub(crate) joypad: Joypad,
    /// The timer and the picture.
    pub(crate) devices: Devices,
    /// The shades of each line, as it was drawn last.
    pub(crate) screen: Box<[[u8; WIDTH]; HEIGHT]>,
    /// The interrupts that are requested: the low five bits of IF.
    pub(crate) requests: Irqs,
    /// The interrupts that are enabled and requested: they change with one of the two alone, and are asked for before each
    /// instruction.
    pub(crate) pending: u8,
    pub(crate) transfer: Transfer,
    /// A transfer starts as the event ends.
    pub(crate) is_starting: bool,
    /// What was written to FF46 last.
    pub(crate) page: u8,
}

impl<'a> Model for Memory<'a> {
    ghost use Rattle.std.specs.Prelude.{◌≡◌, ◌<◌, ◌*◌, vec_len, length};
    ghost use Rattle.gb_mbc.specs.Below.gb_header.Header.{IsCartridge};
    ghost use Rattle.gb_mbc.specs.Controller.{features, registers};
    ghost use Rattle.gb_mbc.specs.Controllers.{features_of};
    ghost use Rattle.gb_mbc.specs.Controllers as Shown;
    ghost use Rattle.gb_ops.specs.Cartridge.{ram_banks};
    ghost use Rattle.gb_ppu.specs.Below.gb_timer.Interrupts.{irq_bits};
    ghost use Rattle.gb_bus.specs.Access.{shared_bits};
    ghost use Rattle.gb_bus.specs.Contents.{Contents};

    ghost Value = { Contents };

    ghost view = { λ m. record {
      view = record {
        rom = m.rom.now;
        storage = record {
          banks = registers m.controller;
          work = m.work_ram.value;
          high = m.high_ram.value;
          ie = m.interrupt_enable;
          count = m.transfer;
        };
        starting = m.is_starting;
      };
      cartridge_ram = m.cartridge_ram.items;
      clock = m.clock;
      video_ram = m.video_ram.value;
      oam = m.oam.value;
      timer = m.devices.timer;
      pad = m.joypad;
      picture = m.devices.picture;
      screen = m.screen.value;
      requests = irq_bits m.requests;
      page = m.page;
    } };

    ghost invariant = { λ m. IsCartridge m.rom.now × (features m.controller ≡ features_of m.rom.now) × (vec_len m.cartridge_ram ≡ 0x2000 * ram_banks m.rom.now) × (irq_bits m.requests < 32) × (m.low_bank ≡ Shown.low_bank (features m.controller) (registers m.controller)) × (m.high_bank ≡ Shown.high_bank (features m.controller) (registers m.controller)) × (m.pending ≡ shared_bits m.interrupt_enable (irq_bits m.requests)) };
}

/// A boxed array of bytes 00.
#[tactic(auto, unfolding(crate::specs::PowerUp::zeros))]
fn zeros<const N: usize>(alloc: Global) -> Result<Box<[u8; N]>, AllocError>
    ensures { IfOk result (λ bytes. bytes.value ≡ zeros N) }
{
    Ok(Box::new(alloc, [0; N])?)
}

/// An array has as many bytes as its type says.
fn has_its_size<const N: usize>(bytes: &[u8; N])
    ensures { length bytes.now ≡ N }
{
    let _bytes = bytes;
}

/// So many bytes 00.
#[tactic(auto, unfolding(crate::specs::PowerUp::zeros))]
fn zero_bytes(alloc: Global, size: usize) -> Result<Vec<u8>, AllocError>
    ensures items { IfOk result (λ bytes. bytes.items ≡ zeros size) }
    ensures size { IfOk result (λ bytes. vec_len bytes ≡ size) }
{
    Ok(vec![in alloc; 0; size]?)
}

/// A copy of bytes.
fn same_bytes(alloc: Global, bytes: &[u8]) -> Result<Vec<u8>, AllocError>
    ensures items { IfOk result (λ copy. copy.items ≡ bytes.now) }
    ensures size { IfOk result (λ copy. vec_len copy ≡ length bytes.now) }
{
    Vec::from_slice(alloc, bytes)
}

impl<'a> Memory<'a> {
    /// Work RAM and high RAM have their sizes.
    pub(crate) fn sizes(&self)
        ensures { IsSized self.now.view }
    {
        has_its_size(&*self.work_ram);
        has_its_size(&*self.high_ram);
    }

    /// A cartridge's memory at power-up. All room is made here; nothing of it grows later.
    #[tactic(auto, unfolding(crate::specs::PowerUp::at_power_up))]
    pub fn new(alloc: Global, rom: &Rom<'a>) -> Result<Memory<'a>, AllocError>
        ensures { IfOk result (λ memory. memory ≡ at_power_up rom.now) }
    {
        let ram_size = 0x2000 * usize::from(rom.ram_banks());
        let cartridge_ram = zero_bytes(alloc, ram_size)?;
        let video_ram = zeros(alloc)?;
        let work_ram = zeros(alloc)?;
        let oam = zeros(alloc)?;
        let high_ram = zeros(alloc)?;
        let screen = Box::new(alloc, dark())?;
        let controller = Controller::of(rom);
        let low_bank = controller.low_bank();
        let high_bank = controller.high_bank();
        let memory = Memory {
            rom: rom.bytes(),
            controller,
            low_bank,
            high_bank,
            cartridge_ram,
            clock: Clock::new(),
            video_ram,
            oam,
            work_ram,
            high_ram,
            interrupt_enable: 0,
            joypad: Joypad::new(),
            devices: Devices::new(),
            screen,
            requests: Irqs::VBLANK,
            pending: 0,
            transfer: Transfer::new(),
            is_starting: false,
            page: 0,
        };
        Ok(memory)
    }

    /// A memory that holds the same, in room of its own.
    ///
    /// # Errors
    ///
    /// AllocError where there is no room.
    pub fn try_clone(&self, alloc: Global) -> Result<Memory<'a>, AllocError>
        ensures { IfOk result (λ memory. memory ≡ self.now) }
    {
        let cartridge_ram = same_bytes(alloc, &self.cartridge_ram)?;
        let video_ram = Box::new(alloc, *self.video_ram)?;
        let work_ram = Box::new(alloc, *self.work_ram)?;
        let oam = Box::new(alloc, *self.oam)?;
        let high_ram = Box::new(alloc, *self.high_ram)?;
        let screen = Box::new(alloc, *self.screen)?;
        let memory = Memory {
            rom: self.rom,
            controller: self.controller.copied(),
            low_bank: self.low_bank,
            high_bank: self.high_bank,
            cartridge_ram,
            clock: self.clock,
            video_ram,
            oam,
            work_ram,
            high_ram,
            interrupt_enable: self.interrupt_enable,
            joypad: self.joypad,
            devices: self.devices.copied(),
            screen,
            requests: self.requests,
            pending: self.pending,
            transfer: self.transfer,
            is_starting: self.is_starting,
            page: self.page,
        };
        Ok(memory)
    }

    /// The shades of each line, from the top on: 0 to 3, as each was drawn last.
    pub fn screen(&self) -> &[[u8; WIDTH]; HEIGHT]
        ensures { result.now ≡ self.now.screen }
    {
        &self.screen
    }
}

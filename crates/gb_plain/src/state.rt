//! Machine states.

ghost use Rattle.std.specs.Prelude.{◌≡◌, ◌≢◌, ◌<◌, ◌≤◌, true, false, length, vec_len, replicate, slice_index, slice_set, IfOk, ◌-◌, if◌then◌else◌};
ghost use Rattle.gb_ops.specs.Cartridge as Spec;
ghost use Rattle.gb_ops.specs.Faults.{code_place};
ghost use Rattle.gb_faults.specs.Limits.{limits_of};
ghost use Rattle.gb_plain.specs.Shown.{resting, zeros as zero_bytes};
ghost use Rattle.gb_dma.specs.Transfer.{started};

use crate::cartridge::Cartridge;
use gb_cpu::step::Cpu;
use gb_dma::Transfer;
use gb_faults::Limits;
use gb_header::Rom;
use gb_ops::machine::{Banks, CodePlace};
use gb_ops::registers::Processor;
use std::alloc::{AllocError, Global};
use std::marker::Model;

/// The bytes of work RAM.
pub const WORK_SIZE: usize = 8192;

/// The bytes of high RAM.
pub const HIGH_SIZE: usize = 127;

/// A machine state with its cartridge: the processor, the cartridge and its controller's registers, work RAM,
/// high RAM, IE, and a transfer.
#[derive(Drop)]
pub struct MachineState {
    processor: Processor,
    cartridge: Cartridge,
    work: Vec<u8>,
    high: Vec<u8>,
    ie: u8,
    transfer: Transfer,
}

impl Model for MachineState {
    ghost use Rattle.std.specs.Prelude.{◌≡◌, vec_len};
    ghost use Rattle.gb_plain.specs.Shown.{PlainState};

    ghost Value = { PlainState };

    ghost view = { λ s. record {
      rom = s.cartridge.rom;
      machine = record {
        processor = s.processor;
        storage = record {
          banks = s.cartridge.banks;
          work = s.work.items;
          high = s.high.items;
          ie = s.ie;
          count = s.transfer;
        };
      };
    } };

    ghost invariant = { λ s. (vec_len s.work ≡ 8192) × (vec_len s.high ≡ 127) };
}

/// The M-cycles that a transfer has left as it starts.
pub fn longest_transfer() -> u8
    ensures { result ≡ started }
{
    let mut transfer = Transfer::new();
    transfer.start();
    transfer.left()
}

/// So many zeros.
fn zeros(alloc: Global, size: usize) -> Result<Vec<u8>, AllocError>
    ensures items { IfOk result (λ v. v.items ≡ replicate size 0) }
    ensures size { IfOk result (λ v. vec_len v ≡ size) }
{
    Ok(vec![in alloc; 0; size]?)
}

impl MachineState {
    ghost use Rattle.gb_ops.specs.Play.{IsStart};

    /// The smallest cartridge, all bytes 00, at power-up, with zeros in work RAM and high RAM.
    pub fn at_power_up(alloc: Global) -> Result<MachineState, AllocError>
        ensures start { IfOk result (λ state. IsStart state.rom state.machine) }
        ensures rom { IfOk result (λ state. state.rom ≡ zero_bytes 0x8000) }
    {
        let cartridge = Cartridge::blank(alloc)?;
        Ok(MachineState {
            processor: Cpu::at_power_up(cartridge.bytes()).processor,
            cartridge,
            work: zeros(alloc, WORK_SIZE)?,
            high: zeros(alloc, HIGH_SIZE)?,
            ie: 0,
            transfer: Transfer::new(),
        })
    }

    /// A cartridge at power-up, with zeros in work RAM and high RAM.
    ///
    /// # Errors
    ///
    /// AllocError where there is no room.
    pub fn of(alloc: Global, rom: &Rom<'_>) -> Result<MachineState, AllocError>
        ensures start { IfOk result (λ state. IsStart state.rom state.machine) }
        ensures rom { IfOk result (λ state. state.rom ≡ rom.now) }
        ensures work { IfOk result (λ state. state.machine.storage.work ≡ replicate 8192 0) }
        ensures high { IfOk result (λ state. state.machine.storage.high ≡ replicate 127 0) }
    {
        Ok(MachineState {
            processor: Cpu::at_power_up(rom.bytes()).processor,
            cartridge: Cartridge::of(alloc, rom)?,
            work: zeros(alloc, WORK_SIZE)?,
            high: zeros(alloc, HIGH_SIZE)?,
            ie: 0,
            transfer: Transfer::new(),
        })
    }

    /// Work RAM and high RAM have their sizes.
    pub(crate) fn sizes(&self)
        ensures work { length self.now.machine.storage.work ≡ 8192 }
        ensures high { length self.now.machine.storage.high ≡ 127 }
    {
        let work: &[u8] = self.work.as_slice();
        let high: &[u8] = self.high.as_slice();
        let _sizes = (work.len(), high.len());
    }

    /// The processor's part.
    pub fn processor(&self) -> Processor
        ensures { result ≡ self.now.machine.processor }
    {
        self.processor
    }

    /// Where the processor is: PC, and the ROM bank shown there.
    #[tactic(auto, unfolding(gb_ops::specs::Faults::code_place))]
    pub fn place(&self) -> CodePlace
        ensures { result ≡ code_place (resting self.now.rom self.now.machine) self.now.machine.processor.pc }
    {
        let address = self.processor.pc;
        let bank = if address < 0x8000 {
            self.cartridge.shown_bank(address)
        } else {
            0
        };
        CodePlace { address, bank }
    }

    /// The cartridge.
    pub fn cartridge(&self) -> &Cartridge
        ensures { result.now ≡ record { rom = self.now.rom; banks = self.now.machine.storage.banks } }
    {
        &self.cartridge
    }

    /// The controller's registers.
    pub fn banks(&self) -> Banks
        ensures { result ≡ self.now.machine.storage.banks }
    {
        self.cartridge.banks()
    }

    /// The limits of accesses.
    #[tactic(auto, unfolding(gb_faults::specs::Limits::limits_of))]
    pub fn limits(&self) -> Limits<'_>
        ensures { result ≡ limits_of (resting self.now.rom self.now.machine) }
    {
        Limits::new(
            self.cartridge.bytes(),
            self.cartridge.kind(),
            self.cartridge.has_ram_or_clock(),
            self.cartridge.banks().gate,
            self.transfer.left(),
        )
    }

    /// The interrupts that are enabled.
    pub fn ie(&self) -> u8
        ensures { result ≡ self.now.machine.storage.ie }
    {
        self.ie
    }

    /// The M-cycles that are left of a transfer.
    pub fn count(&self) -> u8
        ensures value { result ≡ self.now.machine.storage.count }
        ensures small { result ≤ started }
    {
        self.transfer.left()
    }

    /// A byte of work RAM.
    pub fn work_byte(&self, i: u16) -> u8
        requires { i < 8192 }
        ensures { result ≡ slice_index self.now.machine.storage.work i }
    {
        self.work[usize::from(i)]
    }

    /// A byte of high RAM.
    pub fn high_byte(&self, i: u16) -> u8
        requires { i < 127 }
        ensures { result ≡ slice_index self.now.machine.storage.high i }
    {
        self.high[usize::from(i)]
    }

    /// Work RAM.
    pub fn work(&self) -> &[u8]
        ensures bytes { result.now ≡ self.now.machine.storage.work }
        ensures size { length result.now ≡ 8192 }
    {
        &self.work
    }

    /// High RAM.
    pub fn high(&self) -> &[u8]
        ensures bytes { result.now ≡ self.now.machine.storage.high }
        ensures size { length result.now ≡ 127 }
    {
        &self.high
    }

    /// Changes the processor's part.
    pub fn set_processor(&mut self, processor: Processor)
        ensures { self.new ≡ record self.old { machine = record self.old.machine { processor = processor } } }
    {
        self.processor = processor;
    }

    /// A write to the controller's registers.
    pub fn write_controller(&mut self, address: u16, value: u8)
        requires { address < 0x8000 }
        ensures { self.new ≡ record self.old { machine = record self.old.machine { storage = record self.old.machine.storage { banks = Spec.banks_after self.old.rom self.old.machine.storage.banks address value } } } }
    {
        self.cartridge.write(address, value);
    }

    /// Writes registers by the controller's windows, and answers whether it holds them as they are.
    pub fn set_banks(&mut self, banks: Banks) -> bool
        ensures rest { self.new ≡ record self.old { machine = record self.old.machine { storage = record self.old.machine.storage { banks = self.new.machine.storage.banks } } } }
        ensures held { result ≡ true → self.new.machine.storage.banks ≡ banks }
        ensures refused { result ≡ false → self.new.machine.storage.banks ≢ banks }
    {
        self.cartridge.set_banks(banks)
    }

    /// Changes a byte of the cartridge, where there is one and it is none of those that the controller rests
    /// on, and answers whether the byte is now as it was asked.
    pub fn set_rom_byte(&mut self, at: usize, value: u8) -> bool
        ensures rest { self.new ≡ record self.old { rom = self.new.rom } }
        ensures changed { result ≡ true → self.new.rom ≡ slice_set self.old.rom at value }
        ensures kept { result ≡ false → self.new.rom ≡ self.old.rom }
        ensures before { at < length self.old.rom → at < 0x147 → result ≡ true }
        ensures behind { at < length self.old.rom → 0x149 < at → result ≡ true }
    {
        self.cartridge.set_byte(at, value)
    }

    /// Another cartridge, with its controller's registers.
    pub fn set_cartridge(&mut self, cartridge: Cartridge)
        ensures { self.new ≡ record self.old { rom = cartridge.rom; machine = record self.old.machine { storage = record self.old.machine.storage { banks = cartridge.banks } } } }
    {
        self.cartridge = cartridge;
    }

    /// Changes the enabled interrupts.
    pub fn set_ie(&mut self, ie: u8)
        ensures { self.new ≡ record self.old { machine = record self.old.machine { storage = record self.old.machine.storage { ie = ie } } } }
    {
        self.ie = ie;
    }

    /// Changes the M-cycles that are left of a transfer.
    #[tactic(auto, unfolding(gb_dma::specs::Transfer::left_after))]
    pub fn set_count(&mut self, count: u8)
        requires { count ≤ started }
        ensures { self.new ≡ record self.old { machine = record self.old.machine { storage = record self.old.machine.storage { count = count } } } }
    {
        self.transfer.start();
        let passed = self.transfer.left() - count;
        self.transfer.advance(passed);
    }

    /// M-cycles pass, and a transfer that was started counts from its whole length.
    #[tactic(auto, unfolding(gb_dma::specs::Transfer::left_after))]
    pub fn pass(&mut self, is_starting: bool, cycles: u8)
        ensures { self.new ≡ record self.old { machine = record self.old.machine { storage = record self.old.machine.storage { count = if is_starting then started else self.old.machine.storage.count - cycles } } } }
    {
        if is_starting {
            self.transfer.start();
        } else {
            self.transfer.advance(cycles);
        }
    }

    /// Changes a byte of work RAM.
    pub fn set_work_byte(&mut self, i: u16, value: u8)
        requires { i < 8192 }
        ensures { self.new ≡ record self.old { machine = record self.old.machine { storage = record self.old.machine.storage { work = slice_set self.old.machine.storage.work i value } } } }
    {
        self.work[usize::from(i)] = value;
    }

    /// Changes a byte of high RAM.
    pub fn set_high_byte(&mut self, i: u16, value: u8)
        requires { i < 127 }
        ensures { self.new ≡ record self.old { machine = record self.old.machine { storage = record self.old.machine.storage { high = slice_set self.old.machine.storage.high i value } } } }
    {
        self.high[usize::from(i)] = value;
    }
}

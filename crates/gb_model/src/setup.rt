//! What the lines have made so far: the cartridge, the declared region and the state.

ghost use Rattle.std.specs.Prelude.{◌≡◌, ◌<◌, ◌≤◌};

use crate::fields::{Fields, byte_of};
use gb_effects::flags::flags_of;
use gb_ops::machine::{Banks, Event, Region};
use gb_ops::registers::{Flags, Ime, Processor, Registers};
use gb_plain::cartridge::Cartridge;
use gb_plain::machine::PlainMachine;
use gb_plain::state::{HIGH_SIZE, MachineState, WORK_SIZE, longest_transfer};
use std::alloc::{AllocError, Global};
use std::str;

/// The bytes of the smallest cartridge.
const SMALLEST_ROM: usize = 0x8000;

/// What a line asks for.
#[derive(Clone, Copy)]
pub enum SetupLine {
    /// It changed the setup, or was empty.
    Nothing,
    /// It is none of the forms.
    Wrong,
    /// An event.
    Happens(Event),
}

/// A cartridge with a machine state, and a declared region.
#[derive(Drop)]
pub struct Setup {
    pub machine: PlainMachine,
    pub region: Region,
    /// The bytes of work RAM and high RAM as they were last reported.
    pub work: Vec<u8>,
    pub high: Vec<u8>,
}

/// A cartridge of zeros, but for the type and the sizes in its header.
fn cartridge_of(
    alloc: Global,
    type_byte: u8,
    rom_size: u8,
    ram_size: u8,
) -> Result<Vec<u8>, AllocError>
    requires { rom_size ≤ 8 }
{
    let mut rom = vec![in alloc; 0; SMALLEST_ROM << rom_size]?;
    for (at, value) in [(0x147, type_byte), (0x148, rom_size), (0x149, ram_size)] {
        if let Some(byte) = rom.get_mut(at) {
            *byte = value;
        }
    }
    Ok(rom)
}

/// The event that a line's first word names.
fn event(word: &str, fields: &mut Fields<'_>) -> SetupLine {
    let event = match word {
        "run" => Event::Run {
            fetch: fields.bytes::<3>(),
            reads: fields.bytes::<2>(),
        },
        "haltstay" => Event::HaltStay,
        "haltbug" => Event::HaltBug,
        "irq" => Event::Irq(fields.byte()),
        "wait" => Event::Wait(fields.number(u64::MAX)),
        _ => return SetupLine::Wrong,
    };
    SetupLine::Happens(event)
}

fn flags(fields: &mut Fields<'_>) -> Flags {
    let f = fields.byte();
    if f % 16 != 0 {
        fields.refuse();
    }
    flags_of(f)
}

fn ime(fields: &mut Fields<'_>) -> Ime {
    match fields.number(2) {
        0 => Ime::Off,
        1 => Ime::Pending,
        _ => Ime::On,
    }
}

/// The processor's fields, but for those at the line's end.
fn processor(fields: &mut Fields<'_>) -> Processor {
    let a = fields.byte();
    let flags = flags(fields);
    let registers = Registers {
        a,
        b: fields.byte(),
        c: fields.byte(),
        d: fields.byte(),
        e: fields.byte(),
        h: fields.byte(),
        l: fields.byte(),
    };
    Processor {
        registers,
        flags,
        sp: fields.address(),
        pc: fields.address(),
        ime: ime(fields),
        halt_mark: fields.flag(),
        locked: false,
        stopped: false,
    }
}

fn banks(fields: &mut Fields<'_>) -> Banks {
    let bank = fields.number(0x1FF);
    Banks {
        bank: bank as u16,
        second: fields.byte(),
        gate: fields.flag(),
        mode: fields.flag(),
    }
}

impl Setup {
    /// The smallest cartridge, all bytes 00, at power-up.
    pub fn new(alloc: Global) -> Result<Setup, AllocError> {
        let state = MachineState::at_power_up(alloc)?;
        Ok(Setup {
            machine: PlainMachine::new(state),
            region: Region {
                first: 0xDF00,
                last: 0xDFFF,
            },
            work: vec![in alloc; 0; WORK_SIZE]?,
            high: vec![in alloc; 0; HIGH_SIZE]?,
        })
    }

    /// Does what a line asks for; a wrong line changes nothing but the part that was read.
    pub fn apply(&mut self, alloc: Global, line: &[u8]) -> Result<SetupLine, AllocError> {
        let Ok(text) = str::from_utf8(line) else {
            return Ok(SetupLine::Wrong);
        };
        let mut fields = Fields::new(text);
        let asked = self.apply_fields(alloc, &mut fields)?;
        if fields.is_read() {
            Ok(asked)
        } else {
            Ok(SetupLine::Wrong)
        }
    }

    fn apply_fields(
        &mut self,
        alloc: Global,
        fields: &mut Fields<'_>,
    ) -> Result<SetupLine, AllocError> {
        match fields.word() {
            None => Ok(SetupLine::Nothing),
            Some("cartridge") => self.set_cartridge(alloc, fields),
            Some(word) => Ok(self.change(word, fields)),
        }
    }

    /// What takes no memory.
    fn change(&mut self, word: &str, fields: &mut Fields<'_>) -> SetupLine {
        match word {
            "rom" => self.patch_rom(fields),
            "region" => self.set_region(fields),
            "state" => self.set_state(fields),
            "ram" => self.patch_ram(fields),
            _ => return event(word, fields),
        }
        SetupLine::Nothing
    }

    /// A cartridge of zeros, of a type, a ROM size and a RAM size. Its controller takes the registers as its
    /// windows hold them.
    fn set_cartridge(
        &mut self,
        alloc: Global,
        fields: &mut Fields<'_>,
    ) -> Result<SetupLine, AllocError> {
        let type_byte = fields.byte();
        let rom_size = fields.number(8);
        let ram_size = fields.byte();
        if fields.is_wrong() {
            return Ok(SetupLine::Wrong);
        }
        let rom = cartridge_of(alloc, type_byte, rom_size as u8, ram_size)?;
        let Some(cartridge) = Cartridge::new(alloc, rom)? else {
            return Ok(SetupLine::Wrong);
        };
        self.put_in(cartridge);
        Ok(SetupLine::Nothing)
    }

    fn put_in(&mut self, cartridge: Cartridge) {
        let banks = self.machine.state.banks();
        self.machine.state.set_cartridge(cartridge);
        self.machine.state.set_banks(banks);
    }

    /// Bytes of the cartridge from an offset on; the bytes that its controller rests on stay.
    fn patch_rom(&mut self, fields: &mut Fields<'_>) {
        let mut at = fields.number(0x7F_FFFF) as usize;
        for digits in fields.digits().chunks(2) {
            if !self.set_rom(at, digits) {
                return fields.refuse();
            }
            at = at.wrapping_add(1);
        }
    }

    /// Whether the digits are a byte that the cartridge can have there; then it has.
    fn set_rom(&mut self, at: usize, digits: &[u8]) -> bool {
        match byte_of(digits) {
            Some(value) => self.machine.state.set_rom_byte(at, value),
            None => false,
        }
    }

    fn set_region(&mut self, fields: &mut Fields<'_>) {
        let first = fields.address();
        let last = fields.address();
        if !fields.is_wrong() {
            self.region = Region { first, last };
        }
    }

    /// The state but for its memories.
    fn set_state(&mut self, fields: &mut Fields<'_>) {
        let processor = processor(fields);
        let banks = banks(fields);
        let ie = fields.byte();
        let count = fields.number(u64::from(longest_transfer()));
        let locked = fields.flag();
        let stopped = fields.flag();
        if fields.is_wrong() || !self.machine.state.set_banks(banks) {
            return fields.refuse();
        }
        self.machine.state.set_processor(Processor {
            locked,
            stopped,
            ..processor
        });
        self.machine.state.set_ie(ie);
        self.machine.state.set_count(count as u8);
    }

    /// Bytes of work RAM or high RAM from an address on.
    fn patch_ram(&mut self, fields: &mut Fields<'_>) {
        let mut at = fields.address();
        for digits in fields.digits().chunks(2) {
            if !self.set_ram(at, digits) {
                return fields.refuse();
            }
            at = at.wrapping_add(1);
        }
    }

    /// Whether the digits are a byte and the address lies in work RAM or high RAM; then it has that byte.
    fn set_ram(&mut self, at: u16, digits: &[u8]) -> bool {
        let Some(value) = byte_of(digits) else {
            return false;
        };
        match at {
            0xC000..=0xDFFF => self.set_work(at - 0xC000, value),
            0xFF80..=0xFFFE => self.set_high(at - 0xFF80, value),
            _ => return false,
        }
        true
    }

    fn set_work(&mut self, i: u16, value: u8)
        requires { i < 8192 }
    {
        self.machine.state.set_work_byte(i, value);
        if let Some(byte) = self.work.get_mut(usize::from(i)) {
            *byte = value;
        }
    }

    fn set_high(&mut self, i: u16, value: u8)
        requires { i < 127 }
    {
        self.machine.state.set_high_byte(i, value);
        if let Some(byte) = self.high.get_mut(usize::from(i)) {
            *byte = value;
        }
    }
}

//! What is printed of an event.

use crate::setup::Setup;
use gb_effects::flags::flags_byte;
use gb_ops::machine::{CodePlace, Event, Faults};
use gb_ops::registers::Ime;
use gb_plain::faults::faults;
use gb_plain::places::places;
use gb_plain::state::MachineState;
use std::io::{self, Write};

/// A field of a state's line, with so many hexadecimal digits.
#[derive(Clone, Copy)]
struct ReportField {
    value: u16,
    digits: usize,
}

fn word(value: u16) -> ReportField {
    ReportField { value, digits: 4 }
}

fn byte(value: u8) -> ReportField {
    ReportField {
        value: u16::from(value),
        digits: 2,
    }
}

fn flag(value: bool) -> ReportField {
    ReportField {
        value: u16::from(value),
        digits: 1,
    }
}

fn ime(ime: Ime) -> ReportField {
    let value = match ime {
        Ime::Off => 0,
        Ime::Pending => 1,
        Ime::On => 2,
    };
    ReportField { value, digits: 1 }
}

/// The fields of a state but for its memories, in the order of the line.
fn state_fields(state: &MachineState) -> [ReportField; 20] {
    let p = state.processor();
    let r = p.registers;
    let banks = state.banks();
    let bank = ReportField {
        value: banks.bank,
        digits: 3,
    };
    [
        byte(r.a),
        byte(flags_byte(p.flags)),
        byte(r.b),
        byte(r.c),
        byte(r.d),
        byte(r.e),
        byte(r.h),
        byte(r.l),
        word(p.sp),
        word(p.pc),
        ime(p.ime),
        flag(p.halt_mark),
        bank,
        byte(banks.second),
        flag(banks.gate),
        flag(banks.mode),
        byte(state.ie()),
        byte(state.count()),
        flag(p.locked),
        flag(p.stopped),
    ]
}

fn write_state<W: Write>(out: &mut W, state: &MachineState) -> io::Result<()> {
    write!(out, "state")?;
    for field in &state_fields(state) {
        write!(out, " {:01$X}", field.value, field.digits)?;
    }
    Ok(())
}

/// The text where it is so, else none.
fn text_if(is_so: bool, text: &'static str) -> &'static str {
    if is_so { text } else { "" }
}

fn write_faults<W: Write>(out: &mut W, faults: Faults) -> io::Result<()> {
    let has_any = faults.undefined_opcode
        | faults.fetched_outside
        | faults.stack_outside
        | faults.ram_closed
        | faults.transfer_met;
    write!(
        out,
        " faults{}{}{}{}{}{}",
        text_if(faults.undefined_opcode, " F1"),
        text_if(faults.fetched_outside, " F2"),
        text_if(faults.stack_outside, " F3"),
        text_if(faults.ram_closed, " F4"),
        text_if(faults.transfer_met, " F5"),
        text_if(!has_any, " -")
    )
}

/// A byte that differs from the one last reported, which it becomes.
fn write_change<W: Write>(out: &mut W, address: u16, old: &mut u8, new: u8) -> io::Result<()> {
    if *old == new {
        return Ok(());
    }
    *old = new;
    write!(out, " {:04X}={:02X}", address, new)
}

/// The bytes of a memory, from an address on, that differ from those last reported.
fn write_changes<W: Write>(
    out: &mut W,
    first: u16,
    before: &mut [u8],
    after: &[u8],
) -> io::Result<()> {
    let mut address = first;
    for (old, new) in before.iter_mut().zip(after) {
        write_change(out, address, old, *new)?;
        address = address.wrapping_add(1);
    }
    Ok(())
}

fn write_places<W: Write>(out: &mut W, places: &[CodePlace]) -> io::Result<()> {
    write!(out, " places{}", text_if(places.is_empty(), " -"))?;
    for place in places {
        write!(out, " {:04X}:{:03X}", place.address, place.bank)?;
    }
    Ok(())
}

/// The memories' changes, or that there is none.
fn write_memory<W: Write>(
    out: &mut W,
    work: &mut [u8],
    high: &mut [u8],
    state: &MachineState,
) -> io::Result<()> {
    let is_same = *work == *state.work() && *high == *state.high();
    write!(out, " ram{}", text_if(is_same, " -"))?;
    write_changes(out, 0xC000, work, state.work())?;
    write_changes(out, 0xFF80, high, state.high())
}

/// The line of an event that was applied.
fn write_event<W: Write>(
    out: &mut W,
    setup: &mut Setup,
    faults: Faults,
    places: &[CodePlace],
    cycles: u64,
) -> io::Result<()> {
    let state = &setup.machine.state;
    write_state(out, state)?;
    write_faults(out, faults)?;
    write_places(out, places)?;
    write!(out, " cycles {:X}", cycles)?;
    write_memory(out, &mut setup.work, &mut setup.high, state)?;
    writeln!(out)
}

/// Applies an event, and prints its line.
pub fn report<W: Write>(out: &mut W, setup: &mut Setup, event: Event) -> io::Result<()> {
    let state = &setup.machine.state;
    let faults = faults(setup.region, state, event);
    let fetched = places(state, event);
    let cycles = setup.machine.apply(event);
    write_event(out, setup, faults, fetched.as_slice(), cycles)
}

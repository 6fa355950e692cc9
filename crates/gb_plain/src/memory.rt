//! Memory, as instructions meet it within an event.

ghost use Rattle.std.specs.Prelude.{◌≡◌};
ghost use Rattle.gb_ops.specs.Memory as Spec;
ghost use Rattle.gb_plain.specs.Shown.{shown, resting};

use crate::state::MachineState;
use gb_ops::machine::{Mapped, ReadSource};
use gb_ops::map::mapped_at;

/// Whether a transfer closes an address.
#[tactic(auto, unfolding(gb_ops::specs::Memory::is_closed))]
pub fn is_closed(state: &MachineState, address: u16) -> bool
    ensures { result ≡ Spec.is_closed state.now.machine.storage address }
{
    state.count() != 0 && !matches!(mapped_at(address), Mapped::HighRam(_))
}

/// What answers a read between events.
#[tactic(auto, unfolding(gb_ops::specs::Memory::place_of))]
pub fn place_of(state: &MachineState, address: u16) -> ReadSource
    ensures { result ≡ Spec.place_of (resting state.now.rom state.now.machine) address }
{
    if is_closed(state, address) {
        return ReadSource::Free;
    }
    match mapped_at(address) {
        Mapped::Rom => ReadSource::Rom(state.cartridge().shown_bank(address)),
        Mapped::WorkRam(_) | Mapped::HighRam(_) | Mapped::InterruptEnable => ReadSource::Plain,
        Mapped::CartridgeRam | Mapped::Transfer | Mapped::Hardware => ReadSource::Free,
    }
}

/// Whether a read may give any byte.
#[tactic(auto, unfolding(gb_ops::specs::Memory::is_free))]
pub fn is_free(state: &MachineState, address: u16) -> bool
    ensures { result ≡ Spec.is_free (resting state.now.rom state.now.machine) address }
{
    match place_of(state, address) {
        ReadSource::Rom(_) | ReadSource::Plain => false,
        ReadSource::Free => true,
    }
}

/// The byte of ROM or plain storage at an address.
#[tactic(auto, unfolding(gb_ops::specs::Memory::byte_at))]
pub fn byte_at(state: &MachineState, address: u16) -> u8
    ensures { result ≡ Spec.byte_at (resting state.now.rom state.now.machine) address }
{
    match mapped_at(address) {
        Mapped::Rom => state.cartridge().byte(address),
        Mapped::WorkRam(i) => state.work_byte(i),
        Mapped::HighRam(i) => state.high_byte(i),
        Mapped::InterruptEnable => state.ie(),
        Mapped::CartridgeRam | Mapped::Transfer | Mapped::Hardware => 0,
    }
}

/// Writes a byte. Answers whether a transfer starts as the event ends, given whether one does.
#[tactic(auto, unfolding(gb_ops::specs::Memory::wrote))]
pub fn write(state: &mut MachineState, starting: bool, address: u16, value: u8) -> bool
    ensures memory { shown state.new.rom state.new.machine result ≡ Spec.wrote (shown state.old.rom state.old.machine starting) address value }
    ensures processor { state.new.machine.processor ≡ state.old.machine.processor }
{
    if is_closed(state, address) {
        return starting;
    }
    match mapped_at(address) {
        Mapped::Rom => state.write_controller(address, value),
        Mapped::WorkRam(i) => state.set_work_byte(i, value),
        Mapped::HighRam(i) => state.set_high_byte(i, value),
        Mapped::InterruptEnable => state.set_ie(value),
        Mapped::Transfer => return true,
        Mapped::CartridgeRam | Mapped::Hardware => {}
    }
    starting
}

//! Which events are possible.

ghost use Rattle.std.specs.Prelude.{◌≡◌, ◌<◌, true};
ghost use Rattle.gb_ops.specs.Machine as Machine;
ghost use Rattle.gb_plain.specs.Shown.{bus};

use crate::memory::{byte_at, is_free};
use crate::state::MachineState;
use gb_ops::machine::Event;
use gb_ops::registers::Ime;

/// The opcode at PC is HALT's; one that is free counts as it.
fn has_halt(state: &MachineState) -> bool
    ensures { result ≡ Machine.has_halt (bus state.now.rom state.now.machine) }
{
    let pc = state.processor().pc;
    is_free(state, pc) || byte_at(state, pc) == 0x76
}

/// Whether the machine is neither locked nor stopped.
pub fn is_running(state: &MachineState) -> bool
    ensures { result ≡ Machine.is_running (bus state.now.rom state.now.machine) }
{
    let processor = state.processor();
    !processor.locked && !processor.stopped
}

fn is_ime(ime: Ime, other: Ime) -> bool
    ensures { result ≡ Machine.is_ime ime other }
{
    match (ime, other) {
        (Ime::Off, Ime::Off) | (Ime::Pending, Ime::Pending) | (Ime::On, Ime::On) => true,
        _ => false,
    }
}

/// Whether interrupt i is enabled.
#[tactic(auto, using(std::proofs::lemmas::Nat::one_shl))]
fn has_enabled_bit(state: &MachineState, i: u8) -> bool
    requires { i < 5 }
    ensures { result ≡ Machine.has_enabled_bit (bus state.now.rom state.now.machine) i }
{
    state.ie() / (1u8 << i) % 2 == 1
}

#[tactic(auto, using(crate::proofs::Bytes::three_are))]
fn are_three_bytes(bytes: &[u8; 3]) -> bool
    ensures { result ≡ Machine.is_bytes 3 bytes.now }
{
    let [_first, _second, _third] = *bytes;
    true
}

#[tactic(auto, using(crate::proofs::Bytes::two_are))]
fn are_two_bytes(bytes: &[u8; 2]) -> bool
    ensures { result ≡ Machine.is_bytes 2 bytes.now }
{
    let [_first, _second] = *bytes;
    true
}

/// Whether an event is possible.
#[tactic(auto, unfolding(gb_ops::specs::Machine::is_possible))]
pub fn is_possible(state: &MachineState, event: Event) -> bool
    ensures { result ≡ Machine.is_possible (bus state.now.rom state.now.machine) event }
{
    let ime = state.processor().ime;
    let has_enabled = state.ie() % 32 != 0;
    match event {
        Event::Run { fetch, reads } => {
            is_running(state) && are_three_bytes(&fetch) && are_two_bytes(&reads)
        }
        Event::HaltStay => {
            is_running(state) && has_halt(state) && is_ime(ime, Ime::Pending) && has_enabled
        }
        Event::HaltBug => {
            is_running(state) && has_halt(state) && is_ime(ime, Ime::Off) && has_enabled
        }
        Event::Irq(i) => {
            is_running(state) && is_ime(ime, Ime::On) && i < 5 && has_enabled_bit(state, i)
        }
        Event::Wait(_) => true,
    }
}

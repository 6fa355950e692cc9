//! Which instructions read bytes that hardware gives.

use gb_effects::advance::advance;
use gb_effects::effect::read_of;
use gb_ops::decode::decode;
use gb_ops::machine::{Mapped, Read};
use gb_ops::map::mapped_at;
use gb_plain::MachineState;

/// Whether a read at an address may give any byte.
pub(crate) fn is_free(state: &MachineState, address: u16) -> bool {
    match mapped_at(address) {
        Mapped::CartridgeRam | Mapped::Transfer | Mapped::Hardware => true,
        Mapped::HighRam(_) => false,
        Mapped::Rom | Mapped::WorkRam(_) | Mapped::InterruptEnable => state.count() != 0,
    }
}

/// Whether the instruction at PC reads a byte that hardware gives. Of code outside ROM it isn't known.
pub(crate) fn reads_hardware(state: &MachineState) -> bool {
    let mut processor = state.processor();
    let pc = processor.pc;
    if pc >= 0x7FFE {
        return true;
    }
    let cartridge = state.cartridge();
    let bytes = [
        cartridge.byte(pc),
        cartridge.byte(pc + 1),
        cartridge.byte(pc + 2),
    ];
    let Some(row) = decode(&bytes) else {
        return false;
    };
    advance(&mut processor, row);
    match read_of(row.op, processor) {
        Read::Nothing => false,
        Read::Byte(address) => is_free(state, address),
        Read::Word(address) => is_free(state, address) || is_free(state, address.wrapping_add(1)),
    }
}

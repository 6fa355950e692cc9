//! What is known of the instruction at an address.

ghost use Rattle.std.specs.Prelude.{◌≡◌, ◌≤◌};
ghost use Rattle.gb_ops.specs.Faults.{is_code_address};
ghost use Rattle.gb_successors.specs.Code.{area_end, leaves_area, is_other_bank, lies_in_high_ram, single_of, code_val, known_byte, known_where, known_bytes};

use gb_abs_memory::load::val_at;
use gb_abs_memory::{Abs, Rom, Val, is_ram, length_of};
use gb_product::{Program, States, byte_of};

/// The address behind the area of an address, where code may lie: the two halves of ROM, work RAM,
/// high RAM (Memory map). None elsewhere.
#[tactic(auto, unfolding(crate::specs::Code::area_end))]
pub fn area_end(address: u16) -> Option<u16>
    ensures { result ≡ area_end address }
{
    match address {
        0x0000..=0x3FFF => Some(0x4000),
        0x4000..=0x7FFF => Some(0x8000),
        0xC000..=0xDFFF => Some(0xE000),
        0xFF80..=0xFFFE => Some(0xFFFF),
        _ => None,
    }
}

/// Whether an address is in no area for code, or its instruction leaves its area.
pub fn leaves_area(address: u16, opcode: Option<u8>, end: Option<u16>) -> bool
    ensures { result ≡ leaves_area address opcode end }
{
    let Some(end) = end else { return true };
    let Some(opcode) = opcode else { return false };
    u32::from(end) < u32::from(address) + u32::from(length_of(opcode))
}

/// Whether a bank isn't known, or is another one.
pub fn is_other_bank(shown: Option<u16>, bank: u16) -> bool
    ensures { result ≡ is_other_bank shown bank }
{
    match shown {
        None => true,
        Some(shown) => shown != bank,
    }
}

/// Whether an instruction of so many bytes lies inside high RAM, FF80-FFFE.
#[tactic(auto, unfolding(crate::specs::Code::lies_in_high_ram))]
pub fn lies_in_high_ram(address: u16, length: u8) -> bool
    ensures { result ≡ lies_in_high_ram address length }
{
    0xFF80 <= address && u32::from(address) + u32::from(length) <= 0xFFFF
}

/// The value of an interval that has one alone.
#[tactic(auto, unfolding(crate::specs::Code::single_of))]
fn single_of(val: &Val) -> Option<u8>
    ensures { result ≡ single_of val.now }
{
    if val.lo == val.hi { Some(val.lo) } else { None }
}

/// Whether code may lie at an address.
#[tactic(auto, unfolding(gb_ops::specs::Faults::is_code_address))]
fn is_code_address(address: u16) -> bool
    ensures { result ≡ is_code_address address }
{
    matches!(address, 0x0000..=0x7FFF | 0xC000..=0xDFFF | 0xFF80..=0xFFFE)
}

/// What is known of the byte at an address: of RAM by cells, and by the facts that hold and the fills.
#[tactic(auto, unfolding(crate::specs::Code::code_val))]
fn code_val(program: &Program<'_>, rom: &Rom<'_>, state: &Abs, address: u16) -> Val
    ensures { result ≡ code_val program.now rom.now state.now address }
{
    if is_ram(address) {
        byte_of(program, &States::of(state), address)
    } else {
        val_at(rom, state, address)
    }
}

/// The byte at an address where code may lie, if it is the same in each of these states.
#[tactic(auto, unfolding(crate::specs::Code::known_byte))]
pub fn known_byte(program: &Program<'_>, rom: &Rom<'_>, state: &Abs, address: u16) -> Option<u8>
    ensures { result ≡ known_byte program.now rom.now state.now address }
{
    if is_code_address(address) {
        single_of(&code_val(program, rom, state, address))
    } else {
        None
    }
}

/// The byte at an address, looked up only if it is wanted.
fn known_where(
    wanted: bool,
    program: &Program<'_>,
    rom: &Rom<'_>,
    state: &Abs,
    address: u16,
) -> Option<u8>
    ensures { result ≡ known_where wanted program.now rom.now state.now address }
{
    if wanted {
        known_byte(program, rom, state, address)
    } else {
        Some(0)
    }
}

/// The bytes of the instruction at an address, three of them, 00 behind its length, where its opcode is given as far as it is
/// known. None where one of them isn't known.
#[tactic(auto, unfolding(crate::specs::Code::known_bytes))]
pub fn known_bytes_from(
    opcode: Option<u8>,
    program: &Program<'_>,
    rom: &Rom<'_>,
    state: &Abs,
    address: u16,
) -> Option<[u8; 3]>
    requires { opcode ≡ known_byte program.now rom.now state.now address }
    ensures { result ≡ known_bytes program.now rom.now state.now address }
{
    let opcode = opcode?;
    let length = length_of(opcode);
    let second = known_where(length >= 2, program, rom, state, address.wrapping_add(1))?;
    let third = known_where(length >= 3, program, rom, state, address.wrapping_add(2))?;
    Some([opcode, second, third])
}

/// The bytes of the instruction at an address, as far as they are known: its opcode is looked up first.
pub fn known_bytes(
    program: &Program<'_>,
    rom: &Rom<'_>,
    state: &Abs,
    address: u16,
) -> Option<[u8; 3]>
    ensures { result ≡ known_bytes program.now rom.now state.now address }
{
    let opcode = known_byte(program, rom, state, address);
    known_bytes_from(opcode, program, rom, state, address)
}

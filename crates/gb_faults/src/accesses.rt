//! The faults of single accesses.

ghost use Rattle.std.specs.Prelude.{◌≡◌, ◌==◌, ◌||◌, ◌&&◌};
ghost use Rattle.gb_ops.specs.Cartridge.{is_within};
ghost use Rattle.gb_ops.specs.Faults as Spec;

use crate::limits::Limits;
use gb_ops::machine::{Faults, Read, Region, Write};

/// None of the faults.
pub fn no_faults() -> Faults
    ensures { result ≡ Spec.no_faults }
{
    Faults {
        undefined_opcode: false,
        fetched_outside: false,
        stack_outside: false,
        ram_closed: false,
        transfer_met: false,
    }
}

/// The faults of either.
#[tactic(auto, unfolding(gb_ops::specs::Faults::either_faults))]
pub(crate) fn either_faults(one: Faults, other: Faults) -> Faults
    ensures { result ≡ Spec.either_faults one other }
{
    Faults {
        undefined_opcode: one.undefined_opcode || other.undefined_opcode,
        fetched_outside: one.fetched_outside || other.fetched_outside,
        stack_outside: one.stack_outside || other.stack_outside,
        ram_closed: one.ram_closed || other.ram_closed,
        transfer_met: one.transfer_met || other.transfer_met,
    }
}

/// Whether an address is one of cartridge RAM.
fn is_cartridge_ram(address: u16) -> bool
    ensures { result ≡ is_within 0xA000 0xBFFF address }
{
    matches!(address, 0xA000..=0xBFFF)
}

/// A byte is read, written or fetched.
#[tactic(auto, unfolding(gb_ops::specs::Faults::access_faults))]
fn access_faults(at: &Limits<'_>, address: u16) -> Faults
    ensures { result ≡ Spec.access_faults at.now address }
{
    Faults {
        ram_closed: is_cartridge_ram(address) && at.is_ram_closed(),
        transfer_met: at.is_closed(address),
        ..no_faults()
    }
}

/// An instruction may lie in ROM, work RAM and high RAM.
#[tactic(auto, unfolding(gb_ops::specs::Faults::is_code_address))]
fn is_code_address(address: u16) -> bool
    ensures { result ≡ Spec.is_code_address address }
{
    matches!(address, 0x0000..=0x7FFF | 0xC000..=0xDFFF | 0xFF80..=0xFFFE)
}

/// A byte of an instruction is fetched.
#[tactic(auto, unfolding(gb_ops::specs::Faults::fetch_faults))]
pub(crate) fn fetch_faults(at: &Limits<'_>, address: u16) -> Faults
    ensures { result ≡ Spec.fetch_faults at.now address }
{
    Faults {
        fetched_outside: !is_code_address(address),
        ..access_faults(at, address)
    }
}

/// Whether writing a byte to an address meets cartridge RAM; a page that is written to FF46 is
/// read by the transfer.
fn meets_ram(address: u16, value: u8) -> bool
    ensures { result ≡ (is_within 0xA000 0xBFFF address || ((address == 0xFF46) && is_within 0xA0 0xBF value)) }
{
    match address {
        0xA000..=0xBFFF => true,
        0xFF46 => matches!(value, 0xA0..=0xBF),
        _ => false,
    }
}

/// A byte is written.
#[tactic(auto, unfolding(gb_ops::specs::Faults::write_faults))]
fn write_faults(at: &Limits<'_>, address: u16, value: u8) -> Faults
    ensures { result ≡ Spec.write_faults at.now address value }
{
    Faults {
        ram_closed: meets_ram(address, value) && at.is_ram_closed(),
        ..access_faults(at, address)
    }
}

/// A byte of a push is written.
#[tactic(auto, unfolding(gb_ops::specs::Faults::push_faults))]
fn push_faults(region: Region, at: &Limits<'_>, address: u16, value: u8) -> Faults
    ensures { result ≡ Spec.push_faults region at.now address value }
{
    Faults {
        stack_outside: !(region.first <= address && address <= region.last),
        ..write_faults(at, address, value)
    }
}

#[tactic(auto, unfolding(gb_ops::specs::Faults::load_faults))]
pub(crate) fn load_faults(at: &Limits<'_>, what: Read) -> Faults
    ensures { result ≡ Spec.load_faults at.now what }
{
    match what {
        Read::Nothing => no_faults(),
        Read::Byte(address) => access_faults(at, address),
        Read::Word(address) => either_faults(
            access_faults(at, address),
            access_faults(at, address.wrapping_add(1)),
        ),
    }
}

/// The second byte of a word is written under the limits that the first left.
#[tactic(auto, using(crate::proofs::Limiting::write_limits, crate::proofs::Limiting::push_limits), unfolding(gb_ops::specs::Faults::store_faults))]
pub(crate) fn store_faults(region: Region, at: &Limits<'_>, what: Write) -> Faults
    ensures { result ≡ Spec.store_faults region at.now what }
{
    match what {
        Write::Nothing => no_faults(),
        Write::Byte(address, value) => write_faults(at, address, value),
        Write::Word(address, word) => {
            let (high, low) = ((word / 256) as u8, (word % 256) as u8);
            let after = at.after_write(address, low);
            either_faults(
                write_faults(at, address, low),
                write_faults(&after, address.wrapping_add(1), high),
            )
        }
        Write::Push(sp, word) => {
            let (high, low) = ((word / 256) as u8, (word % 256) as u8);
            let above = sp.wrapping_sub(1);
            let after = at.after_write(above, high);
            either_faults(
                push_faults(region, at, above, high),
                push_faults(region, &after, sp.wrapping_sub(2), low),
            )
        }
    }
}

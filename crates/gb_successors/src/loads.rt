//! What is known of what an instruction reads.

ghost use Rattle.std.specs.Prelude.{◌≡◌, ◌<◌, ◌+◌, ◌-◌, true, IfSome};
ghost use Rattle.std.specs.List.{AllByRecursion};
ghost use Rattle.gb_ops.specs.Cartridge as Cartridge;
ghost use Rattle.gb_ops.specs.Memory.{rom_byte};
ghost use Rattle.gb_ops.specs.Pointers.{pointer_of};
ghost use Rattle.gb_domain.specs.Interval.{any_byte, bounds as all_from};
ghost use Rattle.gb_domain.specs.Values.{interval_of as interval};
ghost use Rattle.gb_product.specs.Below.gb_vals.Vals.{any_val};
ghost use Rattle.gb_product.specs.Below.gb_abs.Operations.{with_core};
ghost use Rattle.gb_product.specs.Below.gb_abs_effects.declared.reads.AbsRead.TheVariants.{Byte, Word};
ghost use Rattle.gb_domain.specs.LowBits.{no_low_bits};
ghost use Rattle.gb_product.specs.Below.gb_relations.Transfer.{values_of};
ghost use Rattle.gb_product.specs.Covering.{byte_in as known_in};
ghost use Rattle.gb_abs_memory.specs.Access.{home_of as home};
ghost use Rattle.gb_product.specs.Below.gb_summaries.Below.gb_ram_bounds.Addresses.{joined_with as joined_so, or_any as any_if_none, joined_over};
ghost use Rattle.gb_successors.specs.Loads as Loads;
ghost use Rattle.gb_successors.specs.Summaries as Summaries;

use crate::stacks::Stack;
use crate::way::Told;
use gb_abs_memory::load::{home_of, is_table, loaded_by};
use gb_abs_memory::shown::known_bank;
use gb_abs_memory::{Rom, is_ram, item_at};
use gb_domain::LowBits;
use gb_domain::interval::{StridedInterval, bounds, join};
use gb_domain::low_bits::none;
use gb_domain::relations::Relations;
use gb_domain::summary::Summary;
use gb_domain::types::{Abs, Cell, Core, Halves, Rules, Setting, Val};
use gb_domain::values::interval_of;
use gb_ops::machine::Region;
use gb_ops::op::{Op, Row};
use gb_product::{
    AbsRead, AddressSet, Program, Span, Values, any, any_word, byte_in, is_in, pointed_bits,
    top_word, uncopied,
};

/// An instruction that is taken, and the side that it is taken from, which is settled.
#[derive(Clone, Copy)]
pub(crate) struct TakenSide<'w, 'a> {
    pub(crate) stack: &'w Stack,
    pub(crate) program: &'w Program<'w>,
    pub(crate) rom: &'w Rom<'w>,
    pub(crate) row: &'w Row,
    /// The address behind it.
    pub(crate) next: u16,
    pub(crate) state: &'a Abs,
    pub(crate) core: &'w Core,
    pub(crate) relations: &'w Relations,
    pub(crate) cell: &'w Option<Cell>,
    /// What the side tells of an item.
    pub(crate) told: Option<Told>,
}

impl<'w, 'a> TakenSide<'w, 'a> {
    /// What is known of its registers and pairs.
    fn values(&self) -> Values
        ensures { result ≡ values_of self.now.core.now.registers self.now.relations.now.pairs }
    {
        Values {
            registers: self.core.registers,
            pairs: self.relations.pairs,
        }
    }
}

/// What is known of a byte that is read, by cells alone.
#[inline(never)]
#[tactic(auto, unfolding(crate::specs::Loads::read_word))]
fn read_byte(setting: Setting, rom: &Rom<'_>, state: &Abs, core: &Core, span: Span) -> Halves
    ensures { result ≡ Loads.read_word setting rom.now (with_core state.now core.now) (Byte span) }
{
    Halves {
        high: any(),
        low: loaded_by(setting, rom, core, state, span),
    }
}

/// Whether an address is one of RAM, or of its echo, where no item stands.
#[tactic(auto, unfolding(crate::specs::Loads::is_plain_ram))]
fn is_plain_ram(setting: Setting, core: &Core, state: &Abs, address: u16) -> bool
    ensures { result ≡ Loads.is_plain_ram setting (with_core state.now core.now) address }
{
    is_ram(home_of(address))
        && !(is_ram(address) && item_at(setting, core, state, address).is_some())
}

/// What is known of the byte at an address of RAM, or of its echo, by facts and fills too.
fn told_at(taken: &TakenSide<'_, '_>, address: u16) -> Val
    ensures { result ≡ Loads.told_at taken.now.program.now (values_of taken.now.core.now.registers taken.now.relations.now.pairs) (with_core taken.now.state.now taken.now.core.now) address }
{
    let state = taken.state;
    byte_in(
        taken.program,
        &taken.values(),
        state.cells(),
        state.summary(),
        home_of(address),
    )
}

/// Whether these are all of work RAM, all of high RAM or all of the echo, outside the stack region.
#[tactic(auto, unfolding(crate::specs::Loads::is_stretch))]
fn is_stretch(region: Region, span: Span) -> bool
    ensures { result ≡ Loads.is_stretch region span }
{
    let (first, last) = (home_of(span.first), home_of(span.last));
    (span.is_inside(0xC000, 0xDFFF)
        || span.is_inside(0xFF80, 0xFFFE)
        || span.is_inside(0xE000, 0xFDFF))
        && !(first <= region.last && region.first <= last)
}

fn holds_byte(cell: Cell)
    ensures { cell.val.hi < 256 }
{}

/// Cells hold bytes.
fn hold_bytes(cells: &[Cell])
    ensures { AllByRecursion (λ c. c.val.hi < 256) cells.now }
{
    match cells {
        [] => {}
        [first, rest @ ..] => {
            holds_byte(*first);
            hold_bytes(rest);
        }
    }
}

/// The join of what is known so far and an interval.
fn joined_with(known: Option<StridedInterval>, value: StridedInterval) -> StridedInterval
    ensures { result ≡ joined_so known value }
{
    match known {
        None => value,
        Some(known) => join(known, value),
    }
}

/// Whether it says nothing of a byte.
fn is_any(value: StridedInterval) -> bool
    ensures { result ≡ true → value ≡ any_byte }
{
    value.lo == 0 && value.hi == 255 && value.count == 0
}

fn or_any(known: Option<StridedInterval>) -> StridedInterval
    ensures { result ≡ any_if_none known }
{
    match known {
        None => bounds(0, 255),
        Some(known) => known,
    }
}

/// How many there are from the first to the last.
fn count_of(addresses: AddressSet) -> u32
    ensures { result ≡ addresses.last + 1 - addresses.first }
{
    (u32::from(addresses.last) + 1).saturating_sub(addresses.first.into())
}

/// What is known of a byte of RAM, or of its echo, at one of several addresses. Once nothing is known, nothing will be.
#[tactic(auto, using(crate::proofs::JoinedLaws::joined_more, crate::proofs::JoinedLaws::joined_same, crate::proofs::JoinedLaws::told_soon), unfolding(crate::specs::Opened::joined_over))]
fn joined_told(
    program: &Program<'_>,
    values: &Values,
    cells: &[Cell],
    summary: &Summary,
    addresses: AddressSet,
) -> StridedInterval
    ensures { result ≡ joined_over addresses (λ a. interval (known_in program.now values.now cells.now summary.now (home a))) }
{
    hold_bytes(cells);
    let mut known = None;
    for more in 0..count_of(addresses) {
        let address = addresses.first + more as u16;
        if is_in(addresses, address) {
            let val = byte_in(program, values, cells, summary, home_of(address));
            let all = joined_with(known, interval_of(val));
            if is_any(all) {
                return all;
            }
            known = Some(all);
        }
    }
    or_any(known)
}

/// What is known of a byte of a bank at one of several addresses.
#[tactic(auto, using(crate::proofs::JoinedLaws::joined_more, crate::proofs::JoinedLaws::joined_same), unfolding(crate::specs::Opened::joined_over))]
fn joined_table(rom: &Rom<'_>, bank: u16, addresses: AddressSet) -> StridedInterval
    requires bank { bank < Cartridge.rom_banks rom.now }
    requires addresses { addresses.last < 0x8000 }
    ensures { result ≡ joined_over addresses (λ a. all_from (rom_byte rom.now bank a) (rom_byte rom.now bank a)) }
{
    let mut known = None;
    for more in 0..count_of(addresses) {
        let address = addresses.first + more as u16;
        if is_in(addresses, address) {
            let byte = rom.byte(bank, address);
            known = Some(joined_with(known, bounds(byte, byte)));
        }
    }
    or_any(known)
}

/// What is known of a byte of a bank, if that is known, at one of several addresses.
fn table_among(rom: &Rom<'_>, bank: Option<u16>, addresses: AddressSet) -> Val
    requires bank { IfSome bank (λ b. b < Cartridge.rom_banks rom.now) }
    requires addresses { addresses.last < 0x8000 }
    ensures { result ≡ Loads.table_among bank rom.now addresses }
{
    match bank {
        None => any(),
        Some(bank) => uncopied(joined_table(rom, bank, addresses)),
    }
}

/// What is known of the byte at one of several addresses, of which those count that have the low bits.
#[tactic(auto, unfolding(crate::specs::Loads::joined_in, crate::specs::Opened::is_table))]
fn joined_in(taken: &TakenSide<'_, '_>, span: Span, low: LowBits) -> Val
    ensures { result ≡ Loads.joined_in taken.now.stack.now.region taken.now.program.now taken.now.rom.now (values_of taken.now.core.now.registers taken.now.relations.now.pairs) low (with_core taken.now.state.now taken.now.core.now) span }
{
    let addresses = AddressSet {
        first: span.first,
        last: span.last,
        low,
    };
    let (program, state) = (taken.program, taken.state);
    if is_stretch(taken.stack.region, span) {
        let (cells, summary) = (state.cells(), state.summary());
        uncopied(joined_told(program, &taken.values(), cells, summary, addresses))
    } else if is_table(span) {
        let bank = known_bank(taken.rom, &taken.core.ctl, span.first);
        table_among(taken.rom, bank, addresses)
    } else {
        any()
    }
}

/// What is known of the byte that a load gives, by the rules of version 4: facts and fills tell of RAM too, and low bits which
/// addresses count.
#[tactic(auto, unfolding(crate::specs::Loads::loaded_whole))]
fn loaded_whole(setting: Setting, taken: &TakenSide<'_, '_>, span: Span, low: LowBits) -> Val
    ensures { result ≡ Loads.loaded_whole setting taken.now.stack.now.region taken.now.program.now taken.now.rom.now (values_of taken.now.core.now.registers taken.now.relations.now.pairs) low (with_core taken.now.state.now taken.now.core.now) span }
{
    let (core, state) = (taken.core, taken.state);
    if !span.is_one() {
        joined_in(taken, span, low)
    } else if is_plain_ram(setting, core, state, span.first) {
        told_at(taken, span.first)
    } else {
        loaded_by(setting, taken.rom, core, state, span)
    }
}

/// What is known of a byte that is read, by facts, fills and low bits too.
#[inline(never)]
fn read_byte_in(setting: Setting, op: Op, taken: &TakenSide<'_, '_>, span: Span) -> Halves
    ensures { result ≡ record { high = any_val; low = Loads.loaded_in setting taken.now.stack.now.region taken.now.program.now taken.now.rom.now (values_of taken.now.core.now.registers taken.now.relations.now.pairs) (Summaries.pointed_bits (pointer_of op) taken.now.core.now.registers) (with_core taken.now.state.now taken.now.core.now) span } }
{
    let low = pointed_bits(op.pointer(), &taken.core.registers);
    let val = if setting.is_whole {
        loaded_whole(setting, taken, span, low)
    } else {
        loaded_by(setting, taken.rom, taken.core, taken.state, span)
    };
    Halves {
        high: any(),
        low: val,
    }
}

/// The addresses behind those of a span.
pub(crate) fn span_behind(span: Span) -> Span
    ensures { result ≡ Loads.span_behind span }
{
    if span.first < 0xFFFF && span.last < 0xFFFF {
        Span {
            first: span.first + 1,
            last: span.last + 1,
            low: none(),
        }
    } else {
        Span {
            first: 0,
            last: 0xFFFF,
            low: none(),
        }
    }
}

/// What is known of a byte that is read at addresses of which no low bits are known.
fn byte_loaded(setting: Setting, taken: &TakenSide<'_, '_>, span: Span) -> Val
    ensures { result ≡ Loads.loaded_in setting taken.now.stack.now.region taken.now.program.now taken.now.rom.now (values_of taken.now.core.now.registers taken.now.relations.now.pairs) no_low_bits (with_core taken.now.state.now taken.now.core.now) span }
{
    if setting.is_whole {
        loaded_whole(setting, taken, span, none())
    } else {
        loaded_by(setting, taken.rom, taken.core, taken.state, span)
    }
}

/// What is known of a word that is read elsewhere than on the stack.
#[inline(never)]
#[tactic(auto, unfolding(crate::specs::Loads::read_word))]
fn read_word_in(setting: Setting, taken: &TakenSide<'_, '_>, span: Span) -> Halves
    ensures { result ≡ Loads.word_by setting.rules setting taken.now.stack.now.region taken.now.program.now taken.now.rom.now (values_of taken.now.core.now.registers taken.now.relations.now.pairs) no_low_bits (with_core taken.now.state.now taken.now.core.now) (Word span) }
{
    match setting.rules {
        Rules::Simple => any_word(),
        Rules::Extended => Halves {
            high: byte_loaded(setting, taken, span_behind(span)),
            low: byte_loaded(setting, taken, span),
        },
    }
}

/// What is known of what is read, by the setting's rules: of a byte, or of the word that was pushed last. What only those of version
/// 4 ask for costs the others nothing.
#[inline(always)]
#[tactic(auto, unfolding(crate::specs::Loads::read_word, crate::specs::Opened::youngest))]
pub(crate) fn read_word(
    setting: Setting,
    op: Op,
    taken: &TakenSide<'_, '_>,
    read: AbsRead,
) -> Halves
    ensures { result ≡ Loads.word_by setting.rules setting taken.now.stack.now.region taken.now.program.now taken.now.rom.now (values_of taken.now.core.now.registers taken.now.relations.now.pairs) (Summaries.pointed_bits (pointer_of op) taken.now.core.now.registers) (with_core taken.now.state.now taken.now.core.now) read }
{
    match read {
        AbsRead::Byte(span) => match setting.rules {
            Rules::Extended if setting.is_whole => read_byte_in(setting, op, taken, span),
            _ => read_byte(setting, taken.rom, taken.state, taken.core, span),
        },
        AbsRead::Top => top_word(taken.state),
        AbsRead::Word(span) => read_word_in(setting, taken, span),
        AbsRead::Nothing => any_word(),
    }
}

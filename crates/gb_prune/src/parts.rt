//! Parts of states that a certificate may leave out, and states without those that nothing asks for.

use arrayvec::ArrayVec;
use gb_draft::gb_ops::op::Register;
use gb_draft::{
    Abs, Cell, Core, Ctl, Flg, May, NOTHING_KNOWN, OneByte, Origin, PairFacts, Pairs, REGISTERS,
    Relations, Val, WordPair, any,
};

/// The flags may be known.
pub(crate) const FLAGS: u32 = 0x0000_0080;

/// F may be what it was at entry.
pub(crate) const OWN_FLAGS: u32 = 0x0000_8000;

/// The ROM bank's low eight bits may be known.
pub(crate) const BANK: u32 = 0x0001_0000;

/// The controller may be as it was at entry.
pub(crate) const KEPT: u32 = 0x0002_0000;

/// Places may hold one byte.
pub(crate) const BYTE: u32 = 0x0004_0000;

/// Z may say whether a pair is 0.
pub(crate) const ZERO: u32 = 0x0008_0000;

/// BC, DE and HL may have bounds of their own, or links.
pub(crate) const BC: u32 = 0x0010_0000;

pub(crate) const DE: u32 = 0x0020_0000;

pub(crate) const HL: u32 = 0x0040_0000;

/// What is known of several parts together.
pub(crate) const TOGETHER: u32 = BYTE | ZERO | BC | DE | HL;

/// The bounds of all registers, the flags and the bank.
pub(crate) const BOUNDS: u32 = 0x0000_007F | FLAGS | BANK;

/// What may be as it was at entry.
pub(crate) const ORIGINS: u32 = 0x0000_7F00 | OWN_FLAGS | KEPT;

/// Each part, those first whose loss saves bytes.
pub(crate) const EACH: [u32; 23] = [
    BYTE, ZERO, BC, DE, HL, 0x0100, 0x0200, 0x0400, 0x0800, 0x1000, 0x2000, 0x4000, OWN_FLAGS,
    KEPT, 0x01, 0x02, 0x04, 0x08, 0x10, 0x20, 0x40, FLAGS, BANK,
];

/// The bounds of a pair: its own, and those of its bytes.
pub(crate) fn parts_of_pair(pair: WordPair) -> u32 {
    match pair {
        WordPair::Bc => BC | bounds_of(Register::B) | bounds_of(Register::C),
        WordPair::De => DE | bounds_of(Register::D) | bounds_of(Register::E),
        WordPair::Hl => HL | bounds_of(Register::H) | bounds_of(Register::L),
    }
}

/// The bounds of a register.
pub(crate) fn bounds_of(register: Register) -> u32 {
    match register {
        Register::A => 0x01,
        Register::B => 0x02,
        Register::C => 0x04,
        Register::D => 0x08,
        Register::E => 0x10,
        Register::H => 0x20,
        Register::L => 0x40,
    }
}

/// What a register is a copy of.
pub(crate) fn origin_of(register: Register) -> u32 {
    match register {
        Register::A => 0x0100,
        Register::B => 0x0200,
        Register::C => 0x0400,
        Register::D => 0x0800,
        Register::E => 0x1000,
        Register::H => 0x2000,
        Register::L => 0x4000,
    }
}

/// Some of a state's items, by their numbers: the oldest is 0, and there are at most 255. Each word has 64 of them.
#[derive(Clone, Copy, PartialEq, Eq)]
pub(crate) struct ItemSet {
    first: u64,
    second: u64,
    third: u64,
    fourth: u64,
}

impl ItemSet {
    pub(crate) const NONE: ItemSet = ItemSet {
        first: 0,
        second: 0,
        third: 0,
        fourth: 0,
    };

    pub(crate) const ALL: ItemSet = ItemSet {
        first: u64::MAX,
        second: u64::MAX,
        third: u64::MAX,
        fourth: u64::MAX,
    };

    /// The item with a number alone; none where no state has it.
    pub(crate) fn of(number: usize) -> ItemSet {
        ItemSet {
            first: bit_from(0, number),
            second: bit_from(64, number),
            third: bit_from(128, number),
            fourth: bit_from(192, number),
        }
    }

    pub(crate) fn has(self, number: usize) -> bool {
        self.shared(ItemSet::of(number)) != ItemSet::NONE
    }

    /// The items of either set.
    fn with(self, other: ItemSet) -> ItemSet {
        ItemSet {
            first: self.first | other.first,
            second: self.second | other.second,
            third: self.third | other.third,
            fourth: self.fourth | other.fourth,
        }
    }

    /// The items that aren't in the other set.
    fn without(self, other: ItemSet) -> ItemSet {
        ItemSet {
            first: self.first & !other.first,
            second: self.second & !other.second,
            third: self.third & !other.third,
            fourth: self.fourth & !other.fourth,
        }
    }

    /// The items of both sets.
    fn shared(self, other: ItemSet) -> ItemSet {
        ItemSet {
            first: self.first & other.first,
            second: self.second & other.second,
            third: self.third & other.third,
            fourth: self.fourth & other.fourth,
        }
    }
}

/// The bit of a number in the word that begins with the bit of another one; 0 where it isn't there.
fn bit_from(first: usize, number: usize) -> u64 {
    match number.checked_sub(first) {
        Some(place) => cell_bit(place),
        None => 0,
    }
}

/// What is wanted of a state: parts, and cells and items by their numbers in it. All else that may be left out is.
#[derive(Clone, Copy, PartialEq, Eq)]
pub(crate) struct Wanted {
    pub(crate) parts: u32,
    pub(crate) cells: u64,
    pub(crate) items: ItemSet,
}

impl Wanted {
    /// Nothing.
    pub(crate) fn nothing() -> Wanted {
        Wanted {
            parts: 0,
            cells: 0,
            items: ItemSet::NONE,
        }
    }

    /// Everything.
    pub(crate) fn all() -> Wanted {
        Wanted {
            parts: u32::MAX,
            cells: u64::MAX,
            items: ItemSet::ALL,
        }
    }

    /// Some parts alone.
    pub(crate) fn of_parts(parts: u32) -> Wanted {
        Wanted {
            parts,
            ..Wanted::nothing()
        }
    }

    /// Some cells alone.
    pub(crate) fn of_cells(cells: u64) -> Wanted {
        Wanted {
            cells,
            ..Wanted::nothing()
        }
    }

    /// An item alone.
    pub(crate) fn of_item(number: usize) -> Wanted {
        Wanted {
            items: ItemSet::of(number),
            ..Wanted::nothing()
        }
    }

    /// What either wants.
    pub(crate) fn with(self, other: Wanted) -> Wanted {
        Wanted {
            parts: self.parts | other.parts,
            cells: self.cells | other.cells,
            items: self.items.with(other.items),
        }
    }

    /// What this one wants and the other doesn't.
    pub(crate) fn without(self, other: Wanted) -> Wanted {
        Wanted {
            parts: self.parts & !other.parts,
            cells: self.cells & !other.cells,
            items: self.items.without(other.items),
        }
    }

    /// What both want.
    pub(crate) fn shared(self, other: Wanted) -> Wanted {
        Wanted {
            parts: self.parts & other.parts,
            cells: self.cells & other.cells,
            items: self.items.shared(other.items),
        }
    }

    /// The same of another state: cells are found there by their addresses.
    pub(crate) fn of_like(self, state: &Abs, like: &Abs) -> Wanted {
        let mut wanted = Wanted { cells: 0, ..self };
        for (number, cell) in state.cells().iter().enumerate() {
            if self.has_cell(number)
                && let Some(other) = cell_number(like.cells(), cell.address)
            {
                wanted.want_cell(other);
            }
        }
        wanted
    }

    /// Whether a part is wanted.
    pub(crate) fn has(self, part: u32) -> bool {
        self.parts & part != 0
    }

    /// Whether the cell with a number is wanted.
    pub(crate) fn has_cell(self, number: usize) -> bool {
        self.cells & cell_bit(number) != 0
    }

    /// The cell with a number is wanted too.
    pub(crate) fn want_cell(&mut self, number: usize) {
        self.cells |= cell_bit(number);
    }

    /// The item with a number is wanted too.
    pub(crate) fn want_item(&mut self, number: usize) {
        self.items = self.items.with(ItemSet::of(number));
    }
}

/// The bit of a number below 64, as a cell's; 0 for others.
pub(crate) fn cell_bit(number: usize) -> u64 {
    if number < 64 { 1u64 << number } else { 0 }
}

/// The number of the cell at an address.
pub(crate) fn cell_number(cells: &[Cell], address: u16) -> Option<usize> {
    for (number, cell) in cells.iter().enumerate() {
        if cell.address == address {
            return Some(number);
        }
    }
    None
}

/// Whether bounds say something.
fn is_bounded(val: Val) -> bool {
    val.lo != 0 || val.hi != u8::MAX
}

fn is_told(may: May) -> bool {
    !may.clear || !may.set
}

fn are_told(flags: &Flg) -> bool {
    is_told(flags.zero)
        || is_told(flags.subtract)
        || is_told(flags.half_carry)
        || is_told(flags.carry)
}

fn is_pair_known(facts: PairFacts) -> bool {
    facts.link.is_some() || facts.bounds.first != 0 || facts.bounds.last != u16::MAX
}

/// The part, if it says something.
fn only_if(says: bool, part: u32) -> u32 {
    if says { part } else { 0 }
}

/// The parts of what is known together that say something.
fn together_of(relations: &Relations) -> u32 {
    let byte = &relations.byte;
    let has_byte = byte.address.is_some()
        || byte.test.is_some()
        || REGISTERS
            .iter()
            .any(|register| byte.registers.get(*register));
    only_if(has_byte, BYTE)
        | only_if(relations.zero.is_some(), ZERO)
        | only_if(is_pair_known(relations.pairs.bc), BC)
        | only_if(is_pair_known(relations.pairs.de), DE)
        | only_if(is_pair_known(relations.pairs.hl), HL)
}

/// The parts of a state that say something.
pub(crate) fn told_in(state: &Abs) -> u32 {
    let core = state.core();
    let ctl = &core.ctl;
    let mut parts = together_of(state.relations())
        | only_if(are_told(&core.flags), FLAGS)
        | only_if(core.flags.is_own, OWN_FLAGS)
        | only_if(weaker_bank(ctl) != *ctl, BANK)
        | only_if(ctl.kept.is_some(), KEPT);
    for register in &REGISTERS {
        let val = core.registers.get(*register);
        parts |= only_if(is_bounded(val), bounds_of(*register));
        parts |= only_if(val.origin.is_some(), origin_of(*register));
    }
    parts
}

/// A controller of whose ROM bank the low eight bits aren't known.
fn weaker_bank(ctl: &Ctl) -> Ctl {
    Ctl {
        bank_lo: ctl.bank_lo & 0xFF00,
        bank_hi: ctl.bank_hi | 0x00FF,
        ..*ctl
    }
}

const EITHER: May = May {
    clear: true,
    set: true,
};

fn weaker_flags(flags: &Flg, wanted: Wanted) -> Flg {
    let is_own = flags.is_own && wanted.has(OWN_FLAGS);
    if wanted.has(FLAGS) {
        Flg { is_own, ..*flags }
    } else {
        Flg {
            zero: EITHER,
            subtract: EITHER,
            half_carry: EITHER,
            carry: EITHER,
            is_own,
        }
    }
}

fn weaker_origin(origin: Option<Origin>, is_wanted: bool) -> Option<Origin> {
    if is_wanted { origin } else { None }
}

fn weaker_val(val: Val, register: Register, wanted: Wanted) -> Val {
    let origin = weaker_origin(val.origin, wanted.has(origin_of(register)));
    if wanted.has(bounds_of(register)) {
        Val { origin, ..val }
    } else {
        Val { origin, ..any() }
    }
}

/// Nothing of a controller is kept any more, unless it is wanted.
fn weaken_kept(ctl: &mut Ctl, is_wanted: bool) {
    let kept = &mut ctl.kept;
    kept.bank = kept.bank && is_wanted;
    kept.second = kept.second && is_wanted;
    kept.gate = kept.gate && is_wanted;
    kept.mode = kept.mode && is_wanted;
    kept.high_bank = kept.high_bank && is_wanted;
}

fn weaker_core(core: &Core, wanted: Wanted) -> Core {
    let mut weaker = *core;
    for register in &REGISTERS {
        let val = core.registers.get(*register);
        weaker
            .registers
            .set(*register, weaker_val(val, *register, wanted));
    }
    weaker.flags = weaker_flags(&core.flags, wanted);
    if !wanted.has(BANK) {
        weaker.ctl = weaker_bank(&core.ctl);
    }
    weaken_kept(&mut weaker.ctl, wanted.has(KEPT));
    weaker
}

fn weaker_facts(facts: PairFacts, is_wanted: bool) -> PairFacts {
    if is_wanted { facts } else { NOTHING_KNOWN }
}

fn weaker_relations(relations: &Relations, wanted: Wanted) -> Relations {
    let pairs = &relations.pairs;
    Relations {
        byte: if wanted.has(BYTE) {
            relations.byte
        } else {
            OneByte::default()
        },
        zero: if wanted.has(ZERO) {
            relations.zero
        } else {
            None
        },
        pairs: Pairs {
            bc: weaker_facts(pairs.bc, wanted.has(BC)),
            de: weaker_facts(pairs.de, wanted.has(DE)),
            hl: weaker_facts(pairs.hl, wanted.has(HL)),
        },
    }
}

/// The cells that are wanted.
fn wanted_cells(cells: &[Cell], wanted: Wanted) -> ArrayVec<Cell, 64> {
    let mut kept = ArrayVec::new();
    for (number, cell) in cells.iter().enumerate() {
        if wanted.has_cell(number) {
            let _ = kept.try_push(*cell);
        }
    }
    kept
}

/// The items, of which nothing is known where they aren't wanted.
fn wanted_items(items: &[Val], wanted: Wanted) -> ArrayVec<Val, 255> {
    let mut kept = ArrayVec::new();
    for (number, item) in items.iter().enumerate() {
        let item = if wanted.items.has(number) {
            *item
        } else {
            any()
        };
        let _ = kept.try_push(item);
    }
    kept
}

/// A state that says what is wanted of one, and nothing else that may be left out.
pub(crate) fn weakened(state: &Abs, wanted: Wanted) -> Abs {
    let mut weaker = state.with_core(weaker_core(state.core(), wanted));
    weaker.set_relations(weaker_relations(state.relations(), wanted));
    weaker.set_items(wanted_items(state.items(), wanted));
    weaker.set_cells(wanted_cells(state.cells(), wanted));
    weaker
}

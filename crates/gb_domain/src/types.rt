//! What a certificate is made of: values, the core of a state, items, cells and ranges.

ghost use Rattle.std.specs.Prelude.{◌≡◌};
ghost use Rattle.gb_domain.specs.Types.{origin_of_register, all_or_none, are_all_kept, is_some_kept, zero_val, zero_cell, least_range};

pub use crate::abs::Abs;
pub use crate::rules::Rules;
pub use crate::setting::Setting;
use gb_ops::op::Register;
use gb_ops::registers::Registers;

/// The most ranges that a procedure declares.
pub const RANGES: usize = 8;

/// What a value may be a copy of: what one of these held as the procedure was entered, its return word's bytes among them.
/// They stand in the order of their numbers in a certificate.
#[derive(Clone, Copy, PartialEq, Eq)]
pub enum Origin {
    A,
    F,
    B,
    C,
    D,
    E,
    H,
    L,
    Ie,
    ReturnHigh,
    ReturnLow,
    /// The byte at the address that the procedure names with this number, the first 0, to be kept.
    Kept(u8),
    /// The bytes of the address at which the procedure puts its stack aside, so many bytes below its base.
    MarkHigh,
    MarkLow,
}

impl Origin {
    /// What a register held as the procedure was entered.
    pub fn of(register: Register) -> Origin
        ensures { result ≡ origin_of_register register }
    {
        match register {
            Register::A => Origin::A,
            Register::B => Origin::B,
            Register::C => Origin::C,
            Register::D => Origin::D,
            Register::E => Origin::E,
            Register::H => Origin::H,
            Register::L => Origin::L,
        }
    }
}

/// An interval of bytes, both ends included, of which only those count that have as many low bits of `lo` as `low_bits` says, and
/// what its value is a copy of.
#[derive(Clone, Copy, PartialEq, Eq)]
pub struct Val {
    pub lo: u8,
    pub hi: u8,
    /// How many low bits all its values have in common, at most 7: 0 where none are known, and for a single value.
    pub low_bits: u8,
    pub origin: Option<Origin>,
}

/// What a bit may be.
#[derive(Clone, Copy, PartialEq, Eq)]
pub struct May {
    pub clear: bool,
    pub set: bool,
}

/// What each flag may be, and whether F is what it was as the procedure was entered.
#[derive(Clone, Copy, PartialEq, Eq)]
pub struct Flg {
    pub zero: May,
    pub subtract: May,
    pub half_carry: May,
    pub carry: May,
    pub is_own: bool,
}

/// What the interrupt master enable may be.
#[derive(Clone, Copy, PartialEq, Eq)]
pub struct ImeSet {
    pub off: bool,
    pub pending: bool,
    pub on: bool,
}

/// Which registers of the controller are what they were as the procedure was entered; of the bank the low eight bits and the ninth
/// each by itself, since MBC5 has them in registers of their own.
#[derive(Clone, Copy, PartialEq, Eq)]
pub struct KeptBanks {
    pub bank: bool,
    pub second: bool,
    pub gate: bool,
    pub mode: bool,
    pub high_bank: bool,
}

impl KeptBanks {
    /// All of them, or none.
    pub const fn all_or_none(is_kept: bool) -> KeptBanks
        ensures { result ≡ all_or_none is_kept }
    {
        KeptBanks {
            bank: is_kept,
            second: is_kept,
            gate: is_kept,
            mode: is_kept,
            high_bank: is_kept,
        }
    }

    /// Whether all of them are.
    pub fn are_all(self) -> bool
        ensures { result ≡ are_all_kept self }
    {
        self.bank && self.second && self.gate && self.mode && self.high_bank
    }

    /// Whether one of them is.
    pub fn is_some(self) -> bool
        ensures { result ≡ is_some_kept self }
    {
        self.bank || self.second || self.gate || self.mode || self.high_bank
    }
}

/// What the controller's registers may be, and which of them are what they were as the procedure
/// was entered.
#[derive(Clone, Copy, PartialEq, Eq)]
pub struct Ctl {
    pub bank_lo: u16,
    pub bank_hi: u16,
    pub second_lo: u8,
    pub second_hi: u8,
    pub gate: May,
    pub mode: May,
    pub kept: KeptBanks,
}

/// A word, by its bytes.
#[derive(Clone, Copy, PartialEq, Eq)]
pub struct Halves {
    pub high: Val,
    pub low: Val,
}

/// What a byte of work RAM or high RAM may be.
#[derive(Clone, Copy, PartialEq, Eq)]
pub struct Cell {
    pub address: u16,
    pub val: Val,
}

impl Default for Val {
    ghost is_default = { λ v. v ≡ zero_val };

    /// Zero.
    fn default() -> Val {
        Val {
            lo: 0,
            hi: 0,
            low_bits: 0,
            origin: None,
        }
    }
}

impl Default for Cell {
    ghost is_default = { λ c. c ≡ zero_cell };

    /// Zero at address 0.
    fn default() -> Cell {
        Cell {
            address: 0,
            val: Val {
                lo: 0,
                hi: 0,
                low_bits: 0,
                origin: None,
            },
        }
    }
}

/// The single parts of an abstract state but for its stack items and memory cells.
#[derive(Clone, Copy, PartialEq, Eq)]
pub struct Core {
    pub ime: ImeSet,
    /// The most that the transfer count may be: 0 to 161.
    pub bound: u8,
    /// SP is where the items say.
    pub stack_set: bool,
    pub ctl: Ctl,
    pub flags: Flg,
    pub ie: Val,
    pub registers: Registers<Val>,
}

/// A range of addresses that a procedure may write, its last address included.
#[derive(Clone, Copy, PartialEq, Eq)]
pub struct Range {
    pub first: u16,
    pub last: u16,
}

impl Default for Range {
    ghost is_default = { λ r. r ≡ least_range };

    /// The first address alone.
    fn default() -> Range {
        Range { first: 0, last: 0 }
    }
}

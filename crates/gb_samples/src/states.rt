//! Values and states of the machine and of the checker.

use gb_domain::types::{Core, Ctl, Flg, ImeSet, KeptBanks, May, Origin, Val};
use gb_ops::op::Register;
use gb_ops::registers::{Flags, Ime, Processor, Registers};

pub const EITHER: May = May {
    clear: true,
    set: true,
};

pub const CLEAR: May = May {
    clear: true,
    set: false,
};

pub const SET: May = May {
    clear: false,
    set: true,
};

/// Any byte.
pub const ANY: Val = Val {
    lo: 0,
    hi: 255,
    low_bits: 0,
    origin: None,
};

/// IME off.
pub const OFF: ImeSet = ImeSet {
    off: true,
    pending: false,
    on: false,
};

/// All of the controller's registers are kept.
pub const ALL_KEPT: KeptBanks = KeptBanks {
    bank: true,
    second: true,
    gate: true,
    mode: true,
    high_bank: true,
};

/// A controller's registers as at power-up.
pub const START: Ctl = Ctl {
    bank_lo: 1,
    bank_hi: 1,
    second_lo: 0,
    second_hi: 0,
    gate: CLEAR,
    mode: CLEAR,
    kept: ALL_KEPT,
};

/// An interval that is no copy.
pub fn from_to(lo: u8, hi: u8) -> Val {
    Val {
        lo,
        hi,
        low_bits: 0,
        origin: None,
    }
}

/// A copy of what a register held as the procedure was entered.
pub fn copy_of(register: Register, lo: u8, hi: u8) -> Val {
    Val {
        lo,
        hi,
        low_bits: 0,
        origin: Some(Origin::of(register)),
    }
}

/// A register as the procedure was entered, any byte.
pub fn own(register: Register) -> Val {
    copy_of(register, 0, 255)
}

/// Any flags, but for the carry.
pub fn with_carry(carry: May) -> Flg {
    Flg {
        zero: EITHER,
        subtract: EITHER,
        half_carry: EITHER,
        carry,
        is_own: false,
    }
}

/// A procedure's entry: IME off, no transfer, the stack set, the controller as at power-up, and all else as it may be,
/// each its own origin.
pub fn entered() -> Core {
    Core {
        ime: OFF,
        bound: 0,
        stack_set: true,
        ctl: START,
        flags: Flg {
            is_own: true,
            ..with_carry(EITHER)
        },
        ie: Val {
            origin: Some(Origin::Ie),
            ..ANY
        },
        registers: Registers {
            a: own(Register::A),
            b: own(Register::B),
            c: own(Register::C),
            d: own(Register::D),
            e: own(Register::E),
            h: own(Register::H),
            l: own(Register::L),
        },
    }
}

/// No flag set.
pub const NO_FLAGS: Flags = Flags {
    zero: false,
    subtract: false,
    half_carry: false,
    carry: false,
};

/// A processor with this PC and this SP, and 0 elsewhere; IME is off.
pub fn processor(pc: u16, sp: u16) -> Processor {
    Processor {
        registers: Registers {
            a: 0,
            b: 0,
            c: 0,
            d: 0,
            e: 0,
            h: 0,
            l: 0,
        },
        flags: NO_FLAGS,
        sp,
        pc,
        ime: Ime::Off,
        halt_mark: false,
        locked: false,
        stopped: false,
    }
}

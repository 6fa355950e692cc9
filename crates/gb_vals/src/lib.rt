//! Operations on values and on sets of flags (abstract interpretation: intervals, congruences modulo a power of two, and
//! both together). What the machine computes of any bytes that the operands stand for, the result stands for (`sound`); each
//! operation is its definition (`exact`), and a result stands for something (`inhabited`).
//!
//! Intervals: each operation is exact where all its operands are known, and else gives the bounds of a formula of our own. Read
//! `vals` and `flags`, then `sums`, `logic`, `shifts`, `bits`, `daa` and `carry`, then `alu`, and last `branch`, which narrows A and
//! the flags by a condition. `bits` also answers whether one of an interval's values has a bit (`sound`, `complete`).
//!
//! Low bits: what each operation leaves of those that are known. Read `low_sums`, `low_logic` and `low_shifts`. `strided` has both
//! together: an interval's result, cut to the low bits that are left.
//!
//! `Meaning` of the definitions says what an interval stands for, and `Congruence` what the machine makes of bytes that have low
//! bits.
#![tactic(auto)]

pub mod alu;
pub mod bits;
pub mod branch;
pub mod carry;
pub mod daa;
pub mod flags;
pub mod logic;
pub mod low_logic;
pub mod low_shifts;
pub mod low_sums;
pub mod outcome;
pub mod shifts;
pub mod strided;
pub mod sums;
pub mod vals;

pub use outcome::AbsComputed;

// What lies below, for the crates above.
pub use gb_effects::advance::length_of;
pub use gb_effects::arithmetic;
pub use gb_effects::arithmetic::displaced;
pub use gb_effects::pairs::word;

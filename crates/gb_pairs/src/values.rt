//! What is known of all registers together.

use gb_domain::pairs::Pairs;
use gb_domain::types::Val;
use gb_ops::registers::Registers;

/// What is known of the registers: of each by itself, and of their pairs.
#[derive(Clone, Copy)]
pub struct Values {
    pub registers: Registers<Val>,
    pub pairs: Pairs,
}

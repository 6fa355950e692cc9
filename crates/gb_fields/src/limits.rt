//! How many of each a certificate may have.

ghost use Rattle.std.specs.Prelude.{◌≡◌, ◌≤◌};
ghost use Rattle.gb_domain.specs.Limits.{cell_room};
ghost use Rattle.gb_fields.specs.Limits.{node_limit, range_limit, range_room, unit, item_limit, origin_limit};
ghost use Rattle.gb_fields.specs.Reading.{times};

use gb_domain::types::Rules;

/// The most procedures.
pub const PROCEDURE_LIMIT: u8 = 255;

/// The most ranges of a procedure.
pub const RANGE_LIMIT: u8 = 8;

/// The most words of stack that a procedure needs in versions 1 and 2: two bytes each.
pub const WORD_LIMIT: u16 = 4096;

/// The most bytes of stack that a procedure needs.
pub const NEED_LIMIT: u16 = 8192;

/// The most facts, in version 4.
pub const FACT_LIMIT: u16 = 4096;

/// The most fills of a state, in version 4.
pub const FILL_LIMIT: u8 = 8;

/// The most addresses that a procedure but main names to be kept, in version 4. Main names none.
pub const KEPT_LIMIT: u8 = 16;

/// The most procedures but main whose entry nodes have one address, in version 4.
pub const NAMESAKE_LIMIT: u16 = 1024;

/// The most ranges of main, or of another procedure.
#[inline(always)]
#[tactic(auto, unfolding(crate::specs::Limits::range_room))]
pub fn range_room(rules: Rules, is_main: bool) -> u8
    ensures exact { result ≡ range_room rules is_main }
    ensures few { result ≤ range_limit }
{
    match (rules, is_main) {
        (Rules::Extended, true) => 0,
        _ => RANGE_LIMIT,
    }
}

/// The most bytes of the stack of a state, in what they are counted in: words in versions 1 and 2, bytes in version 3.
#[inline(always)]
#[tactic(auto, unfolding(crate::specs::Limits::item_limit))]
pub fn item_limit(rules: Rules) -> u8
    ensures { result ≡ item_limit rules }
{
    match rules {
        Rules::Simple => 16,
        Rules::Extended => 255,
    }
}

/// How many bytes they are.
#[inline(always)]
#[tactic(auto, unfolding(crate::specs::Limits::item_limit, crate::specs::Limits::unit))]
pub fn item_bytes(rules: Rules, count: u8) -> u8
    requires { count ≤ item_limit rules }
    ensures { result ≡ times (unit rules) count }
{
    match rules {
        Rules::Simple => 2 * count,
        Rules::Extended => count,
    }
}

/// The most memory cells of a state.
#[inline(always)]
#[tactic(auto, unfolding(gb_domain::specs::Limits::cell_room))]
pub fn cell_limit(rules: Rules) -> u8
    ensures exact { result ≡ cell_room rules }
    ensures few { result ≤ 64 }
{
    match rules {
        Rules::Simple => 32,
        Rules::Extended => 64,
    }
}

/// The greatest number of an origin.
#[inline(always)]
#[tactic(auto, unfolding(crate::specs::Limits::origin_limit))]
pub fn origin_limit(rules: Rules) -> u8
    ensures { result ≡ origin_limit rules }
{
    match rules {
        Rules::Simple => 9,
        Rules::Extended => 11,
    }
}

/// The most nodes of a certificate of this version.
#[tactic(auto, unfolding(crate::specs::Limits::node_limit))]
pub fn node_limit(version: u8) -> u32
    ensures { result ≡ node_limit version }
{
    if version == 1 { 65_535 } else { 1_048_576 }
}

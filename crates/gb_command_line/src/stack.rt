//! A stack region that the words name.

use gb_ops::machine::Region;

/// What is said where the words name none.
pub const WRONG_STACK: &str =
    "--stack needs FIRST..LAST in hexadecimal, for example DF00..DFFF: an even number of bytes in WRAM (C000..DFFF) or HRAM (FF80..FFFE)";

/// An address of four hexadecimal digits, with or without `$` or `0x`.
fn address_of(text: &str) -> Option<u16> {
    let text = match text.strip_prefix('$') {
        Some(digits) => digits,
        None => text,
    };
    let digits = match text.strip_prefix("0x") {
        Some(digits) => digits,
        None => text,
    };
    if digits.starts_with('+') {
        return None;
    }
    u16::from_str_radix(digits, 16).ok()
}

/// A stack region, as `DF00..DFFF`: whole words inside of work RAM or high RAM.
pub fn region_of(text: &str) -> Option<Region> {
    let (first, last) = text.split_once("..")?;
    let region = Region {
        first: address_of(first)?,
        last: address_of(last)?,
    };
    let is_work_ram = 0xC000 <= region.first && region.last <= 0xDFFF;
    let is_high_ram = 0xFF80 <= region.first && region.last <= 0xFFFE;
    let is_whole = region.first < region.last && (region.last - region.first) % 2 == 1;
    if is_whole && (is_work_ram || is_high_ram) {
        Some(region)
    } else {
        None
    }
}

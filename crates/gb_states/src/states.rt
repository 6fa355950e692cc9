//! Reading states, and ranges.

ghost use Rattle.std.specs.Prelude.{◌≡◌, ◌≤◌, ◌&&◌, ◌||◌, true, nat_le, IfOk};
ghost use Rattle.gb_fields.specs.Format.{Gives, several};
ghost use Rattle.gb_fields.specs.Limits.{item_limit, range_limit};
ghost use Rattle.gb_domain.specs.Areas.{is_area, meets};
ghost use Rattle.gb_domain.specs.Rules.{after_cell};
ghost use Rattle.gb_states.specs.Rules.{after_range};
ghost use Rattle.gb_states.specs.Reading.{vals_of, item_count_at, items_at, is_free, cell_at, cells_at, state_at, range_at, ranges_at};

use crate::fields::{core_at, val_at};
use crate::relations::relations_by;
use crate::role::Role;
use arrayvec::ArrayVec;
use gb_domain::summary::Summary;
use gb_domain::types::{Abs, Cell, Range, Rules, Val};
use gb_fields::CertFault;
use gb_fields::limits::{cell_limit, item_bytes, item_limit, range_room};
use gb_fields::numbers::{count_within, word};
use gb_ops::machine::Region;

/// Reads so many bytes of the stack.
fn some_items(
    rules: Rules,
    count: u8,
    bytes: &[u8],
) -> Result<(ArrayVec<Val, 255>, &[u8]), CertFault>
    ensures { Gives (λ x. (x.0.items, x.1.now)) result (vals_of rules count bytes.now) }
{
    let mut items = ArrayVec::new();
    let mut rest = bytes;
    for _ in 0..count {
        let (item, after) = val_at(rules, rest)?;
        items.push(item);
        rest = after;
    }
    Ok((items, rest))
}

/// How many words, or in version 3 bytes, a state's items are.
#[inline(always)]
#[tactic(auto, unfolding(crate::specs::Reading::item_count_at))]
pub fn item_count_at(
    rules: Rules,
    role: Role,
    stack_set: bool,
    bytes: &[u8],
) -> Result<(u8, &[u8]), CertFault>
    ensures exact { Gives (λ x. (x.0, x.1.now)) result (item_count_at rules role stack_set bytes.now) }
    ensures few { IfOk result (λ x. x.0 ≤ item_limit rules) }
{
    let (count, rest) = count_within(item_limit(rules), bytes)?;
    if count > 0 && !(role.may_have_items(rules) && stack_set) {
        return Err(CertFault::Field);
    }
    Ok((count, rest))
}

/// The bytes of the stack, behind their number.
#[tactic(auto, unfolding(crate::specs::Reading::items_at))]
fn items_at(
    rules: Rules,
    role: Role,
    stack_set: bool,
    bytes: &[u8],
) -> Result<(ArrayVec<Val, 255>, &[u8]), CertFault>
    ensures { Gives (λ x. (x.0.items, x.1.now)) result (items_at rules role stack_set bytes.now) }
{
    let (count, rest) = item_count_at(rules, role, stack_set, bytes)?;
    some_items(rules, item_bytes(rules, count), rest)
}

/// Whether the addresses from first to last are in RAM.
#[inline(always)]
pub(crate) fn is_in_ram(first: u16, last: u16) -> bool
    ensures { result ≡ is_area first last }
{
    let is_in_work_ram = 0xC000 <= first && last <= 0xDFFF;
    let is_in_high_ram = 0xFF80 <= first && last <= 0xFFFE;
    first <= last && (is_in_work_ram || is_in_high_ram)
}

/// Whether the addresses from first to last are in RAM, and outside the region.
#[inline(always)]
pub fn is_free(region: Region, first: u16, last: u16) -> bool
    ensures { result ≡ is_free region (first, last) }
{
    let meets_region = first <= region.last && region.first <= last;
    is_in_ram(first, last) && !meets_region
}

/// A cell, its address from the least one on.
#[inline(always)]
#[tactic(auto, unfolding(crate::specs::Reading::cell_at))]
pub fn cell_at(
    rules: Rules,
    region: Region,
    least: u32,
    bytes: &[u8],
) -> Result<(Cell, &[u8]), CertFault>
    ensures { Gives (λ x. (x.0, x.1.now)) result (cell_at rules region least bytes.now) }
{
    let (address, rest) = word(bytes)?;
    if !is_free(region, address, address) {
        return Err(CertFault::Field);
    }
    if (address as u32) < least {
        return Err(CertFault::Order);
    }
    let (val, rest) = val_at(rules, rest)?;
    Ok((Cell { address, val }, rest))
}

/// Reads as many cells as the count says.
fn some_cells(
    rules: Rules,
    region: Region,
    count: u8,
    bytes: &[u8],
) -> Result<(ArrayVec<Cell, 64>, &[u8]), CertFault>
    requires { count ≤ 64 }
    ensures { Gives (λ x. (x.0.items, x.1.now)) result (several (cell_at rules region) after_cell 0 count bytes.now) }
{
    let mut cells = ArrayVec::new();
    let mut least = 0;
    let mut rest = bytes;
    for _ in 0..count {
        let (cell, after) = cell_at(rules, region, least, rest)?;
        cells.push(cell);
        least = cell.address as u32 + 1;
        rest = after;
    }
    Ok((cells, rest))
}

#[tactic(auto, unfolding(crate::specs::Reading::cells_at))]
fn cells_at(
    rules: Rules,
    region: Region,
    bytes: &[u8],
) -> Result<(ArrayVec<Cell, 64>, &[u8]), CertFault>
    ensures { Gives (λ x. (x.0.items, x.1.now)) result (cells_at rules region bytes.now) }
{
    let (count, rest) = count_within(cell_limit(rules), bytes)?;
    some_cells(rules, region, count, rest)
}

#[tactic(auto, unfolding(crate::specs::Reading::state_at))]
pub fn state_at(
    rules: Rules,
    role: Role,
    region: Region,
    bytes: &[u8],
) -> Result<(Abs, &[u8]), CertFault>
    ensures { Gives (λ x. (x.0, x.1.now)) result (state_at rules role region bytes.now) }
{
    let ((core, test), rest) = core_at(rules, role, bytes)?;
    let (items, rest) = items_at(rules, role, core.stack_set, rest)?;
    let (relations, rest) = relations_by(rules, region, test, rest)?;
    let (cells, rest) = cells_at(rules, region, rest)?;
    let state = Abs::of_all_parts(core, items, cells, relations, Summary::none());
    Ok((state, rest))
}

/// A range, its first address from the least one on.
#[tactic(auto, unfolding(crate::specs::Reading::range_at))]
pub fn range_at(region: Region, least: u32, bytes: &[u8]) -> Result<(Range, &[u8]), CertFault>
    ensures { Gives (λ x. (x.0, x.1.now)) result (range_at region least bytes.now) }
{
    let (first, rest) = word(bytes)?;
    if (first as u32) < least {
        return Err(CertFault::Order);
    }
    let (last, rest) = word(rest)?;
    if !is_free(region, first, last) {
        return Err(CertFault::Field);
    }
    Ok((Range { first, last }, rest))
}

/// Reads as many ranges as the count says.
fn some_ranges(
    region: Region,
    count: u8,
    bytes: &[u8],
) -> Result<(ArrayVec<Range, 8>, &[u8]), CertFault>
    requires { count ≤ range_limit }
    ensures { Gives (λ x. (x.0.items, x.1.now)) result (several (range_at region) after_range 0 count bytes.now) }
{
    let mut ranges = ArrayVec::new();
    let mut least = 0;
    let mut rest = bytes;
    for _ in 0..count {
        let (range, after) = range_at(region, least, rest)?;
        ranges.push(range);
        least = range.last as u32 + 1;
        rest = after;
    }
    Ok((ranges, rest))
}

#[tactic(auto, unfolding(crate::specs::Reading::ranges_at))]
pub fn ranges_at(
    rules: Rules,
    is_main: bool,
    region: Region,
    bytes: &[u8],
) -> Result<(ArrayVec<Range, 8>, &[u8]), CertFault>
    ensures { Gives (λ x. (x.0.items, x.1.now)) result (ranges_at rules is_main region bytes.now) }
{
    let (count, rest) = count_within(range_room(rules, is_main), bytes)?;
    some_ranges(region, count, rest)
}

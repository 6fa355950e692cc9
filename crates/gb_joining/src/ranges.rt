//! Sets of intervals of RAM, as procedures declare them.

use arrayvec::ArrayVec;
use gb_verify::gb_ops::machine::Region;
use gb_verify::{RANGES, Range};

/// At most eight intervals of RAM outside the stack region, in order, with a gap between each and the next.
#[derive(Drop)]
pub struct RangeSet {
    ranges: ArrayVec<Range, 8>,
}

/// Whether two intervals overlap, or follow each other without a gap.
fn are_joined(a: &Range, b: &Range) -> bool {
    u32::from(a.first) <= u32::from(b.last) + 1 && u32::from(b.first) <= u32::from(a.last) + 1
}

/// The intervals with one more, in order; those that it touches become one with it.
fn with_range(held: &[Range], added: Range) -> ArrayVec<Range, 9> {
    let mut ranges = ArrayVec::new();
    let mut grown = added;
    let mut is_placed = false;
    for range in held {
        if are_joined(range, &grown) {
            grown = Range {
                first: grown.first.min(range.first),
                last: grown.last.max(range.last),
            };
            continue;
        }
        if range.first > grown.last && !is_placed {
            let _ = ranges.try_push(grown);
            is_placed = true;
        }
        let _ = ranges.try_push(*range);
    }
    if !is_placed {
        let _ = ranges.try_push(grown);
    }
    ranges
}

/// How wide the gap between two intervals is; None where it may not be closed, since the region lies in it, or one is
/// in work RAM and the other in high RAM.
fn gap(low: &Range, high: &Range, region: Region) -> Option<u16> {
    let has_region = low.last < region.last && region.first < high.first;
    let is_between_areas = low.first < 0xE000 && 0xE000 <= high.first;
    if has_region || is_between_areas {
        None
    } else {
        Some(high.first.saturating_sub(low.last))
    }
}

/// The first address behind the narrowest gap that may be closed.
fn behind_narrowest(ranges: &[Range], region: Region) -> Option<u16> {
    let mut narrowest = None;
    let mut behind = None;
    let mut before: Option<Range> = None;
    for range in ranges {
        if let Some(low) = before
            && let Some(width) = gap(&low, range, region)
            && narrowest.is_none_or(|least| width < least)
        {
            narrowest = Some(width);
            behind = Some(range.first);
        }
        before = Some(*range);
    }
    behind
}

/// At most eight of the intervals: where there are more, the narrowest gap is closed.
fn closed(ranges: &[Range], region: Region) -> ArrayVec<Range, 8> {
    let behind = if ranges.len() > RANGES {
        behind_narrowest(ranges, region)
    } else {
        None
    };
    let mut kept: ArrayVec<Range, 8> = ArrayVec::new();
    for range in ranges {
        if Some(range.first) == behind
            && let Some(below) = kept.as_mut_slice().last_mut()
        {
            below.last = range.last;
        } else {
            let _ = kept.try_push(*range);
        }
    }
    kept
}

impl RangeSet {
    /// No interval.
    pub fn new() -> RangeSet {
        RangeSet {
            ranges: ArrayVec::new(),
        }
    }

    /// A copy, for another procedure.
    pub fn copied(&self) -> RangeSet {
        let mut ranges = ArrayVec::new();
        for range in self.as_slice() {
            let _ = ranges.try_push(*range);
        }
        RangeSet { ranges }
    }

    pub fn as_slice(&self) -> &[Range] {
        self.ranges.as_slice()
    }

    /// Adds an interval of RAM outside the region. At most eight stay: the narrowest gap is closed, but not over the
    /// region, nor between work RAM and high RAM. True where the set grew.
    pub fn add(&mut self, added: Range, region: Region) -> bool {
        let is_held = self.as_slice().iter().any(|range| range.first <= added.first
            && added.last <= range.last);
        if is_held {
            return false;
        }
        let ranges = with_range(self.as_slice(), added);
        self.ranges = closed(ranges.as_slice(), region);
        true
    }
}

//! Within which bounds the bytes lie that links read in memory.

ghost use Rattle.std.specs.Prelude.{◌≡◌};
ghost use Rattle.gb_product.specs.Covering.{is_cell, other_read, link_read, read_by, reads_cell, read_cells};
ghost use Rattle.gb_summaries.specs.Below.gb_relations.Transfer.{values_of};

use crate::bytes::byte_in;
use crate::states::States;
use gb_domain::pairs::{ANY_BOUNDS, ANY_PAIRS, Bounds, Link, Other, PairBounds, Pairs};
use gb_domain::program::Program;
use gb_domain::summary::Summary;
use gb_domain::types::Cell;
use gb_summaries::Values;

fn other_read(
    program: &Program<'_>,
    values: &Values,
    cells: &[Cell],
    summary: &Summary,
    other: Other,
) -> Bounds
    ensures { result ≡ other_read program.now values.now cells.now summary.now other }
{
    match other {
        Other::Cell(address) => {
            let byte = byte_in(program, values, cells, summary, address);
            Bounds {
                first: u16::from(byte.lo),
                last: u16::from(byte.hi),
            }
        }
        Other::Register(_) | Other::Pair(_) | Other::Nothing => ANY_BOUNDS,
    }
}

fn link_read(
    program: &Program<'_>,
    values: &Values,
    cells: &[Cell],
    summary: &Summary,
    link: &Option<Link>,
) -> Bounds
    ensures { result ≡ link_read program.now values.now cells.now summary.now link.now }
{
    match link {
        None => ANY_BOUNDS,
        Some(link) => other_read(program, values, cells, summary, link.other),
    }
}

/// Within which bounds the bytes lie that the links of pairs read in memory, by what is known of registers, cells and the whole
/// program: any word where a link reads none there.
#[tactic(auto, unfolding(crate::specs::Covering::read_by))]
pub fn read_by(
    program: &Program<'_>,
    values: &Values,
    cells: &[Cell],
    summary: &Summary,
    pairs: &Pairs,
) -> PairBounds
    ensures { result ≡ read_by program.now values.now cells.now summary.now pairs.now }
{
    PairBounds {
        bc: link_read(program, values, cells, summary, &pairs.bc.link),
        de: link_read(program, values, cells, summary, &pairs.de.link),
        hl: link_read(program, values, cells, summary, &pairs.hl.link),
    }
}

fn reads_cell(link: &Option<Link>) -> bool
    ensures { result ≡ reads_cell link.now }
{
    match link {
        None => false,
        Some(link) => matches!(link.other, Other::Cell(_)),
    }
}

/// Whether a link reads memory.
pub fn read_cells(pairs: &Pairs) -> bool
    ensures { result ≡ read_cells pairs.now }
{
    reads_cell(&pairs.bc.link) || reads_cell(&pairs.de.link) || reads_cell(&pairs.hl.link)
}

/// The same by what is known of states. Mostly no link reads memory, and nothing is looked up.
#[inline(always)]
#[tactic(auto, using(crate::proofs::ReadLaws::nothing_read))]
pub fn read_in(program: &Program<'_>, states: &States<'_>, pairs: &Pairs) -> PairBounds
    ensures { result ≡ read_by program.now (values_of states.now.core.now.registers states.now.relations.now.pairs) states.now.lists.now.cells states.now.summary.now pairs.now }
{
    if !read_cells(pairs) {
        return ANY_PAIRS;
    }
    read_by(
        program,
        &states.values(),
        states.lists.cells(),
        states.summary,
        pairs,
    )
}

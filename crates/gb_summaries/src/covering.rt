//! Covering of what states say of the whole program.

ghost use Rattle.std.specs.Prelude.{◌≡◌, true, take};
ghost use Rattle.gb_ram_bounds.specs.Covering.{byte_at};
ghost use Rattle.gb_summaries.specs.Covering as Covering;
ghost use Rattle.gb_summaries.specs.Known.{IsPartOf, pointer_bounds};

use crate::known::{behind, first_of, pointer_bounds, window_bounds};
use gb_domain::StridedInterval;
use gb_domain::interval::bounds;
use gb_domain::pairs::{ANY_BOUNDS, Bounds};
use gb_domain::program::Program;
use gb_domain::summary::{Fact, Fill, Shadows, Summary};
use gb_domain::types::{Cell, Ctl, Val};
use gb_domain::values::interval_of;
use gb_ops::registers::Registers;
use gb_ram_bounds::Pointers;
use gb_ram_bounds::covering::{byte_at, gives_facts, gives_fills};
use gb_ram_bounds::facts::keeps_facts;
use gb_relations::{BankWindow, Known, Values, covers_shadows};

#[tactic(auto, unfolding(crate::specs::Covering::covers_facts))]
fn covers_facts(
    facts: &[Fact],
    values: &Values,
    cells: &[Cell],
    summary: &Summary,
    kept: &[Cell],
    level: u16,
) -> bool
    ensures { result ≡ Covering.covers_facts facts.now values.now cells.now summary.now kept.now level }
{
    let known = first_of(facts, summary.level());
    let wanted = first_of(facts, level);
    keeps_facts(first_of(known, level), cells, kept)
        && gives_facts(
            known,
            cells,
            summary.fills(),
            &pointer_bounds(values),
            kept,
            behind(wanted, summary.level()),
        )
}

#[tactic(auto, unfolding(crate::specs::Covering::covers_fills))]
fn covers_fills(
    facts: &[Fact],
    values: &Values,
    cells: &[Cell],
    summary: &Summary,
    kept: &[Cell],
    fills: &[Fill],
) -> bool
    ensures { result ≡ Covering.covers_fills facts.now values.now cells.now summary.now kept.now fills.now }
{
    gives_fills(
        first_of(facts, summary.level()),
        cells,
        summary.fills(),
        &pointer_bounds(values),
        kept,
        fills,
    )
}

fn intervals_of(registers: &Registers<Val>) -> Registers<StridedInterval>
    ensures { result ≡ Covering.intervals_of registers.now }
{
    Registers {
        a: interval_of(registers.a),
        b: interval_of(registers.b),
        c: interval_of(registers.c),
        d: interval_of(registers.d),
        e: interval_of(registers.e),
        h: interval_of(registers.h),
        l: interval_of(registers.l),
    }
}

/// Bounds of pointers of which nothing is known.
const ANY_POINTERS: Pointers<Bounds> = Pointers {
    bc: ANY_BOUNDS,
    de: ANY_BOUNDS,
    hl: ANY_BOUNDS,
    high_c: ANY_BOUNDS,
};

/// What is known of the byte at an address, where as many facts hold as the summary says. Without fills no pointer is asked.
#[tactic(auto, using(crate::proofs::UnfilledLaws::byte_unfilled))]
pub fn known_byte(
    facts: &[Fact],
    values: &Values,
    cells: &[Cell],
    summary: &Summary,
    address: u16,
) -> StridedInterval
    ensures { result ≡ byte_at (take summary.now.level facts.now) cells.now summary.now.fills (pointer_bounds values.now) address }
{
    let known = first_of(facts, summary.level());
    let fills = summary.fills();
    if fills.is_empty() {
        byte_at(known, cells, fills, &ANY_POINTERS, address)
    } else {
        byte_at(known, cells, fills, &pointer_bounds(values), address)
    }
}

/// What is known of the byte at an address; any byte where there is no address.
fn byte_at_some(
    facts: &[Fact],
    values: &Values,
    cells: &[Cell],
    summary: &Summary,
    address: Option<u16>,
) -> StridedInterval
    ensures { result ≡ Covering.byte_at_some facts.now values.now cells.now summary.now address }
{
    match address {
        Some(address) => known_byte(facts, values, cells, summary, address),
        None => bounds(0, 255),
    }
}

/// What is known where these shadows are asked for.
#[tactic(auto, unfolding(crate::specs::Covering::known_of))]
pub(crate) fn known_of(
    program: &Program<'_>,
    window: BankWindow,
    values: &Values,
    ctl: &Ctl,
    cells: &[Cell],
    summary: &Summary,
    wanted: &Shadows,
) -> Known
    ensures { result ≡ Covering.known_of program.now window values.now ctl.now cells.now summary.now wanted.now }
{
    Known {
        registers: intervals_of(&values.registers),
        memory: byte_at_some(program.facts, values, cells, summary, wanted.address),
        bounds: window_bounds(program.kind, window, ctl),
    }
}

fn covers_aside(aside: Option<Bounds>, wanted: Option<Bounds>) -> bool
    ensures { result ≡ Covering.covers_aside aside wanted }
{
    match (aside, wanted) {
        (None, None) => true,
        (Some(aside), Some(wanted)) => wanted.first <= aside.first && aside.last <= wanted.last,
        _ => false,
    }
}

#[tactic(auto, unfolding(crate::specs::Covering::covers_summary))]
fn covers_parts(
    program: &Program<'_>,
    values: &Values,
    ctl: &Ctl,
    cells: &[Cell],
    summary: &Summary,
    kept: &[Cell],
    wanted: &Summary,
) -> bool
    ensures { result ≡ Covering.covers_summary program.now values.now ctl.now cells.now summary.now kept.now wanted.now }
{
    let shadows = summary.shadows();
    let others = wanted.shadows();
    covers_facts(program.facts, values, cells, summary, kept, wanted.level())
        && covers_fills(program.facts, values, cells, summary, kept, wanted.fills())
        && covers_shadows(
            program.kind,
            BankWindow::First,
            &known_of(
                program,
                BankWindow::First,
                values,
                ctl,
                cells,
                summary,
                &others.first,
            ),
            &shadows.first,
            &others.first,
        )
        && covers_shadows(
            program.kind,
            BankWindow::Second,
            &known_of(
                program,
                BankWindow::Second,
                values,
                ctl,
                cells,
                summary,
                &others.second,
            ),
            &shadows.second,
            &others.second,
        )
        && covers_aside(summary.aside(), wanted.aside())
}

/// Whether what another state says of the whole program, with the cells that it keeps, holds wherever this one's values, cells and
/// summary do: facts that hold lie in what the cells that go say, and others are given by what is known of bytes; so are fills; each
/// place that is to shadow a register of the controller does, or its byte is known and leaves that; and SP stands aside where it did.
#[tactic(auto, using(crate::proofs::CoveringLaws::covers_summary_sound))]
pub fn covers_summary(
    program: &Program<'_>,
    values: &Values,
    ctl: &Ctl,
    cells: &[Cell],
    summary: &Summary,
    kept: &[Cell],
    wanted: &Summary,
) -> bool
    ensures exact { result ≡ Covering.covers_summary program.now values.now ctl.now cells.now summary.now kept.now wanted.now }
    ensures sound { result ≡ true → IsPartOf program.now values.now ctl.now cells.now summary.now kept.now wanted.now }
{
    covers_parts(program, values, ctl, cells, summary, kept, wanted)
}

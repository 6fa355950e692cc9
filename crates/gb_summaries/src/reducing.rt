//! Bounds of the controller's registers, cut to what their shadows leave.

ghost use Rattle.std.specs.Prelude.{◌≡◌};
ghost use Rattle.gb_relations.specs.Below.gb_copies.Fitting.{fitting};
ghost use Rattle.gb_summaries.specs.Reducing as Reducing;
ghost use Rattle.gb_summaries.specs.Reducing.{IsSoundReducing};

use crate::covering::known_of;
use gb_domain::StridedInterval;
use gb_domain::interval::bounds;
use gb_domain::pairs::Bounds;
use gb_domain::places::is_some_register;
use gb_domain::program::Program;
use gb_domain::summary::{Shadows, Summary};
use gb_domain::types::{Cell, Ctl};
use gb_ops::machine::Kind;
use gb_relations::{BankWindow, Known, Values, fitting, has_windows};

fn shadows_of(window: BankWindow, summary: &Summary) -> Shadows
    ensures { result ≡ Reducing.shadows_of window summary.now }
{
    match window {
        BankWindow::First => summary.shadows().first,
        BankWindow::Second => summary.shadows().second,
    }
}

fn has_shadow(shadows: &Shadows) -> bool
    ensures { result ≡ Reducing.has_shadow shadows.now }
{
    is_some_register(&shadows.registers) || shadows.address.is_some()
}

/// Whether a window's register has a shadow.
pub fn is_shadowed(window: BankWindow, summary: &Summary) -> bool
    ensures { result ≡ Reducing.has_shadow (Reducing.shadows_of window summary.now) }
{
    has_shadow(&shadows_of(window, summary))
}

fn values_if(is_place: bool, values: StridedInterval) -> StridedInterval
    ensures { result ≡ Reducing.values_if is_place values }
{
    if is_place { values } else { bounds(0, 255) }
}

fn fitted(kind: Kind, window: BankWindow, known: &Known, shadows: &Shadows) -> Option<Bounds>
    ensures { result ≡ fitting kind window (Reducing.values_of_places known.now shadows.now) known.now.bounds.first known.now.bounds.last }
{
    let places = shadows.registers;
    let values = known.registers;
    let all = [
        values_if(places.a, values.a),
        values_if(places.b, values.b),
        values_if(places.c, values.c),
        values_if(places.d, values.d),
        values_if(places.e, values.e),
        values_if(places.h, values.h),
        values_if(places.l, values.l),
        values_if(shadows.address.is_some(), known.memory),
    ];
    fitting(kind, window, &all, known.bounds)
}

fn cut_by_shadows(
    kind: Kind,
    window: BankWindow,
    known: &Known,
    shadows: &Shadows,
) -> Option<Bounds>
    ensures { result ≡ Reducing.cut_by_shadows kind window known.now shadows.now }
{
    if has_windows(kind) && has_shadow(shadows) {
        fitted(kind, window, known, shadows)
    } else {
        Some(known.bounds)
    }
}

#[tactic(auto, unfolding(crate::specs::Reducing::reduced_window))]
fn reduced_by(
    program: &Program<'_>,
    window: BankWindow,
    values: &Values,
    ctl: &Ctl,
    cells: &[Cell],
    summary: &Summary,
) -> Option<Bounds>
    ensures { result ≡ Reducing.reduced_window program.now window values.now ctl.now cells.now summary.now }
{
    let shadows = shadows_of(window, summary);
    let known = known_of(program, window, values, ctl, cells, summary, &shadows);
    cut_by_shadows(program.kind, window, &known, &shadows)
}

/// The bounds of a window's register, cut to the least and the greatest number that each of its shadows may leave. `None` where no
/// number is such: then nothing is meant.
#[tactic(auto, using(crate::proofs::ReducingLaws::reduced_window_sound))]
pub fn reduced_window(
    program: &Program<'_>,
    window: BankWindow,
    values: &Values,
    ctl: &Ctl,
    cells: &[Cell],
    summary: &Summary,
) -> Option<Bounds>
    ensures exact { result ≡ Reducing.reduced_window program.now window values.now ctl.now cells.now summary.now }
    ensures sound { IsSoundReducing program.now window values.now ctl.now cells.now summary.now result }
{
    reduced_by(program, window, values, ctl, cells, summary)
}

//! Reducing: registers and pairs are cut to what they leave of each other, and the controller's registers to what their places leave.

ghost use Rattle.std.specs.Prelude.{◌≡◌, ◌≤◌, IfSome, option_and_then};
ghost use Rattle.gb_domain.specs.declared.rules.Rules.TheVariants.{Extended};
ghost use Rattle.gb_product.specs.Covering.{read_by};
ghost use Rattle.gb_product.specs.Reduced as Reducing;
ghost use Rattle.gb_product.specs.Sound.{IsSoundReducing, IsReduced, IsSoundController, IsSoundWhole};
ghost use Rattle.gb_summaries.specs.Known.{window_bounds as bounds_of_window};
ghost use Rattle.gb_summaries.specs.Below.gb_relations.Transfer.{values_of};

use crate::parts::Product;
use crate::read::read_in;
use crate::states::States;
use gb_domain::pairs::{Bounds, PairBounds};
use gb_domain::program::Program;
use gb_domain::relations::Relations;
use gb_domain::summary::Summary;
use gb_domain::types::{Cell, Core, Ctl, Rules};
use gb_ops::machine::Kind;
use gb_summaries::known::window_bounds;
use gb_summaries::reducing::{is_shadowed, reduced_window};
use gb_summaries::{BankWindow, Values};

/// By the rules of version 3.
#[inline(always)]
#[tactic(auto, using(crate::proofs::ReducedLaws::reduced_in_place, crate::proofs::ReducedLaws::reduced_in_place_sound))]
fn reduce_together(
    entered: &PairBounds,
    read: &PairBounds,
    core: &mut Core,
    relations: &mut Relations,
) -> bool
    ensures exact { Reducing.reduced_together entered.now read.now core.old relations.old ≡ Reducing.product_if result core.new relations.new }
    ensures sound { IsSoundReducing entered.now read.now core.old relations.old (Reducing.product_if result core.new relations.new) }
{
    gb_summaries::reduce(entered, read, &mut core.registers, &mut relations.pairs)
}

/// A core and what is known together are cut in place to what registers, pairs and links leave of each other, where links read memory
/// within bounds; whether they then mean something. By the rules of versions 1 and 2 they stay as they stand.
#[inline(always)]
#[tactic(auto, using(crate::proofs::ReducedLaws::same_sound), unfolding(crate::specs::Reduced::reduced))]
pub fn reduce(
    rules: Rules,
    entered: &PairBounds,
    read: &PairBounds,
    core: &mut Core,
    relations: &mut Relations,
) -> bool
    ensures exact { Reducing.reduced rules entered.now read.now core.old relations.old ≡ Reducing.product_if result core.new relations.new }
    ensures sound { IsSoundReducing entered.now read.now core.old relations.old (Reducing.product_if result core.new relations.new) }
{
    match rules {
        Rules::Simple => true,
        Rules::Extended => reduce_together(entered, read, core, relations),
    }
}

/// A core and relations, cut to what registers, pairs and links leave of each other: none where they mean nothing. By the rules of
/// versions 1 and 2 they stay as they are.
pub fn reduced(
    rules: Rules,
    entered: &PairBounds,
    read: &PairBounds,
    core: &Core,
    relations: &Relations,
) -> Option<Product>
    ensures exact { result ≡ Reducing.reduced rules entered.now read.now core.now relations.now }
    ensures sound { IsSoundReducing entered.now read.now core.now relations.now result }
    ensures kept { IfSome result (IsReduced core.now relations.now) }
{
    let mut product = Product {
        core: *core,
        relations: *relations,
    };
    let (core, relations) = (&mut product.core, &mut product.relations);
    if reduce(rules, entered, read, core, relations) {
        Some(product)
    } else {
        None
    }
}

// ---- the controller's registers

fn cut_bounds(bounds: Bounds, others: Bounds) -> Bounds
    ensures exact { result ≡ Reducing.cut_bounds bounds others }
    ensures last { result.last ≤ bounds.last }
{
    Bounds {
        first: if others.first <= bounds.first {
            bounds.first
        } else {
            others.first
        },
        last: if bounds.last <= others.last {
            bounds.last
        } else {
            others.last
        },
    }
}

/// A controller with these bounds of a window's register.
#[tactic(auto, unfolding(crate::specs::Reduced::with_window, gb_summaries::specs::Known::window_bounds))]
fn with_window(kind: Kind, window: BankWindow, bounds: Bounds, ctl: &Ctl) -> Ctl
    requires order { bounds.first ≤ bounds.last }
    requires within { bounds.last ≤ (bounds_of_window kind window ctl.now).last }
    ensures { result ≡ Reducing.with_window kind window bounds ctl.now }
{
    match (kind, window) {
        (Kind::Mbc5, BankWindow::First) => Ctl {
            bank_lo: 256 * (ctl.bank_lo / 256) + bounds.first,
            bank_hi: 256 * (ctl.bank_hi / 256) + bounds.last,
            ..*ctl
        },
        (Kind::Mbc5, BankWindow::Second) => Ctl {
            bank_lo: 256 * bounds.first + ctl.bank_lo % 256,
            bank_hi: 256 * bounds.last + ctl.bank_hi % 256,
            ..*ctl
        },
        (_, BankWindow::First) => Ctl {
            bank_lo: bounds.first,
            bank_hi: bounds.last,
            ..*ctl
        },
        (_, BankWindow::Second) => Ctl {
            second_lo: bounds.first as u8,
            second_hi: bounds.last as u8,
            ..*ctl
        },
    }
}

/// The same, unless the bank's bounds would be out of order, as MBC5's may.
fn with_bounds(kind: Kind, window: BankWindow, ctl: &Ctl, bounds: Bounds) -> Ctl
    requires { bounds.last ≤ (bounds_of_window kind window ctl.now).last }
    ensures { result ≡ Reducing.with_bounds kind window ctl.now bounds }
{
    if bounds.first > bounds.last {
        return *ctl;
    }
    let cut = with_window(kind, window, bounds, ctl);
    if cut.bank_lo <= cut.bank_hi {
        cut
    } else {
        *ctl
    }
}

/// Bounds of a window's register, cut to what its places leave, if it has some.
#[tactic(auto, unfolding(crate::specs::Reduced::cut_window))]
fn cut_window(
    program: &Program<'_>,
    window: BankWindow,
    values: &Values,
    cells: &[Cell],
    summary: &Summary,
    ctl: &Ctl,
) -> Option<Ctl>
    ensures { result ≡ Reducing.cut_window program.now window values.now cells.now summary.now ctl.now }
{
    if !is_shadowed(window, summary) {
        return Some(*ctl);
    }
    let kind = program.kind;
    let left = reduced_window(program, window, values, ctl, cells, summary)?;
    let bounds = cut_bounds(window_bounds(kind, window, ctl), left);
    Some(with_bounds(kind, window, ctl, bounds))
}

#[tactic(auto, unfolding(crate::specs::Reduced::reduced_controller))]
fn cut_controller(
    program: &Program<'_>,
    values: &Values,
    cells: &[Cell],
    summary: &Summary,
    ctl: &Ctl,
) -> Option<Ctl>
    ensures { result ≡ Reducing.reduced_controller program.now values.now cells.now summary.now ctl.now }
{
    let first = cut_window(program, BankWindow::First, values, cells, summary, ctl)?;
    cut_window(program, BankWindow::Second, values, cells, summary, &first)
}

/// A controller whose banks are cut to what the places of its windows leave: none where they leave nothing, so that nothing is
/// meant.
#[tactic(auto, using(crate::proofs::ControllerLaws::reduced_controller_sound))]
pub fn reduced_controller(
    program: &Program<'_>,
    values: &Values,
    cells: &[Cell],
    summary: &Summary,
    ctl: &Ctl,
) -> Option<Ctl>
    ensures exact { result ≡ Reducing.reduced_controller program.now values.now cells.now summary.now ctl.now }
    ensures sound { IsSoundController program.now values.now cells.now summary.now ctl.now result }
{
    cut_controller(program, values, cells, summary, ctl)
}

/// The same by the rules of versions 3 and 4.
#[tactic(auto, using(crate::proofs::ControllerLaws::with_banks_cut_sound, crate::proofs::ControllerLaws::with_banks_cut_stack))]
fn reduced_with_banks(
    program: &Program<'_>,
    entered: &PairBounds,
    states: &States<'_>,
) -> Option<Product>
    ensures exact { result ≡ option_and_then (Reducing.with_banks_cut program.now states.now.lists.now.cells states.now.summary.now) (Reducing.reduced Extended entered.now (read_by program.now (values_of states.now.core.now.registers states.now.relations.now.pairs) states.now.lists.now.cells states.now.summary.now states.now.relations.now.pairs) states.now.core.now states.now.relations.now) }
    ensures sound { IsSoundWhole program.now entered.now states.now.lists.now.cells states.now.summary.now states.now.core.now states.now.relations.now result }
    ensures stack { IfSome result (λ p. p.core.stack_set ≡ states.now.core.now.stack_set) }
{
    let read = read_in(program, states, &states.relations.pairs);
    let product = reduced(
        Rules::Extended,
        entered,
        &read,
        states.core,
        states.relations,
    )?;
    let values = Values {
        registers: product.core.registers,
        pairs: product.relations.pairs,
    };
    let cells = states.lists.cells();
    let ctl = reduced_controller(program, &values, cells, states.summary, &product.core.ctl)?;
    Some(Product {
        core: Core {
            ctl,
            ..product.core
        },
        relations: product.relations,
    })
}

/// The core and relations of states, cut to what registers, pairs and links leave of each other, and then the controller's registers,
/// cut to what the places of its windows leave: none where they mean nothing. By the rules of versions 1 and 2 they stay as they are.
#[tactic(auto, using(crate::proofs::ControllerLaws::same_whole), unfolding(crate::specs::Reduced::reduced_wholly, crate::specs::Reduced::reduced))]
pub fn reduced_wholly(
    program: &Program<'_>,
    rules: Rules,
    entered: &PairBounds,
    states: &States<'_>,
) -> Option<Product>
    ensures exact { result ≡ Reducing.reduced_wholly program.now rules entered.now states.now.core.now states.now.relations.now states.now.lists.now.cells states.now.summary.now }
    ensures sound { IsSoundWhole program.now entered.now states.now.lists.now.cells states.now.summary.now states.now.core.now states.now.relations.now result }
    ensures stack { IfSome result (λ p. p.core.stack_set ≡ states.now.core.now.stack_set) }
{
    match rules {
        Rules::Simple => Some(Product {
            core: *states.core,
            relations: *states.relations,
        }),
        Rules::Extended => reduced_with_banks(program, entered, states),
    }
}

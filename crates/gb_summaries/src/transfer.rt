//! What an instruction leaves of what is said of the whole program, what it stores apart.

ghost use Rattle.std.specs.Prelude.{◌≡◌, ◌+◌};
ghost use Rattle.gb_relations.specs.Written.{list_of};
ghost use Rattle.gb_summaries.specs.Elsewhere.{StaysFree};
ghost use Rattle.gb_summaries.specs.Transfer as Transfer;
ghost use Rattle.gb_summaries.specs.Transfer.{IsSoundTransfer};

use crate::known::{high, pointer_bounds};
use crate::moves::{fills_moved, moves_of};
use gb_domain::pairs::Bounds;
use gb_domain::places::Place;
use gb_domain::program::Program;
use gb_domain::summary::{BankShadows, Shadows, Summary};
use gb_ops::machine::Region;
use gb_ops::op::{Op, Operand, Register};
use gb_relations::bytes::{at_high, at_hl, at_indirect, one};
use gb_relations::places::loaded_place;
use gb_relations::written::{Written, counted, written_by};
use gb_relations::{Values, copied_to_register, without_register};

fn without_registers(written: Written, shadows: &Shadows) -> Shadows
    ensures { result ≡ Transfer.without_registers (list_of written) shadows.now }
{
    match written {
        Written::Nothing => *shadows,
        Written::One(q) => without_register(q, shadows),
        Written::Two(q, r) => without_register(r, &without_register(q, shadows)),
        Written::Three(q, r, s) => {
            let left = without_register(r, &without_register(q, shadows));
            without_register(s, &left)
        }
    }
}

/// A register gets what a place holds, or what is known of no place.
fn loaded(to: Register, from: Option<Place>, shadows: &Shadows) -> Shadows
    ensures { result ≡ Transfer.loaded to from shadows.now }
{
    match from {
        None => without_register(to, shadows),
        Some(from) => copied_to_register(to, from, shadows),
    }
}

/// LD of a byte to a register.
fn moved_byte(
    region: Region,
    to: Operand,
    from: Operand,
    values: &Values,
    shadows: &Shadows,
) -> Shadows
    ensures { result ≡ Transfer.moved_byte region to from values.now shadows.now }
{
    match (to, from) {
        (Operand::Register(to), Operand::Register(from)) => {
            copied_to_register(to, Place::Register(from), shadows)
        }
        (Operand::Register(to), Operand::AtHl) => {
            loaded(to, loaded_place(region, at_hl(values)), shadows)
        }
        _ => *shadows,
    }
}

#[tactic(auto, unfolding(crate::specs::Transfer::shadows_after))]
fn shadows_after(region: Region, op: Op, values: &Values, shadows: &Shadows) -> Shadows
    ensures { result ≡ Transfer.shadows_after region op values.now shadows.now }
{
    match op {
        Op::LoadA(from) => {
            let place = loaded_place(region, at_indirect(from, values));
            without_registers(counted(from), &loaded(Register::A, place, shadows))
        }
        Op::Load(to, from) => moved_byte(region, to, from, values, shadows),
        Op::LoadHigh(n) => loaded(Register::A, loaded_place(region, one(high(n))), shadows),
        Op::LoadHighC => loaded(Register::A, loaded_place(region, at_high(values)), shadows),
        Op::LoadAbsolute(address) => {
            loaded(Register::A, loaded_place(region, one(address)), shadows)
        }
        _ => without_registers(written_by(op), shadows),
    }
}

#[tactic(auto, unfolding(crate::specs::Transfer::after_registers))]
fn after_work(region: Region, op: Op, sp: Bounds, values: &Values, summary: &Summary) -> Summary
    ensures { result ≡ Transfer.after_registers region op sp values.now summary.now }
{
    let shadows = summary.shadows();
    Summary::of_parts(
        summary.level(),
        fills_moved(
            &moves_of(op, sp, values),
            &pointer_bounds(values),
            summary.fills(),
        ),
        BankShadows {
            first: shadows_after(region, op, values, &shadows.first),
            second: shadows_after(region, op, values, &shadows.second),
        },
        summary.aside(),
    )
}

/// What is said of the whole program behind a taken instruction, what it stores apart: fills whose end moved with its pointer, and of
/// those that lost it their extent; shadows, of which registers that were written leave, and those that got a shadow's byte are some.
/// The values are those before it, and SP has these bounds.
#[tactic(auto, using(crate::proofs::TransferLaws::after_registers_sound, crate::proofs::ElsewhereLaws::after_registers_free))]
pub fn after_registers(
    program: &Program<'_>,
    region: Region,
    op: Op,
    sp: Bounds,
    values: &Values,
    summary: &Summary,
) -> Summary
    ensures exact { result ≡ Transfer.after_registers region op sp values.now summary.now }
    ensures sound { IsSoundTransfer program.now op sp values.now summary.now result }
    ensures free { StaysFree region summary.now result }
{
    after_work(region, op, sp, values, summary)
}

//! Operations on the cores of abstract states: on all but stack items and memory cells.

ghost use Rattle.std.specs.Prelude.{◌≡◌, false};
ghost use Rattle.gb_domain.specs.Rules.{IsVal, IsCore};
ghost use Rattle.gb_abs.specs.Operations.{core_set_register, core_with_value, core_settle, core_end, ime_set_after};
ghost use Rattle.gb_abs.specs.Sound.{IsSoundSet, IsSoundValue, IsSoundSettling, IsSoundEnd};

use gb_domain::types::{Core, ImeSet, Val};
use gb_ops::op::Register;

/// The M-cycles of an OAM transfer.
const OAM_TRANSFER: u8 = 161;

#[tactic(auto, unfolding(crate::specs::Operations::core_set_register))]
fn put_register(register: Register, value: Val, core: &mut Core)
    ensures { core.new ≡ core_set_register register value core.old }
{
    core.registers.set(register, value);
}

/// A register gets a value.
#[tactic(auto, using(crate::proofs::OperationLaws::set_register_sound))]
pub fn set_register(register: Register, value: Val, core: &mut Core)
    ensures exact { core.new ≡ core_set_register register value core.old }
    ensures sound { IsSoundSet register value core.old core.new }
    ensures inhabited { IsVal value → IsCore core.old → IsCore core.new }
{
    put_register(register, value, core);
}

#[tactic(auto, unfolding(crate::specs::Operations::core_with_value))]
fn bounds_narrowed(register: Register, value: u8, core: &Core) -> Core
    ensures { result ≡ core_with_value register value core.now }
{
    let mut after = *core;
    let bounds = Val {
        lo: value,
        hi: value,
        low_bits: 0,
        ..core.registers.get(register)
    };
    after.registers.set(register, bounds);
    after
}

/// A register's bounds become one value, as covering value by value asks for each: what it is a copy of, the
/// flags and the test stay.
#[tactic(auto, using(crate::proofs::OperationLaws::with_value_sound))]
pub fn with_value(register: Register, value: u8, core: &Core) -> Core
    ensures exact { result ≡ core_with_value register value core.now }
    ensures sound { IsSoundValue register value core.now result }
    ensures inhabited { IsCore core.now → IsCore result }
{
    bounds_narrowed(register, value, core)
}

/// An instruction was executed: pending interrupts become on.
#[tactic(auto, using(crate::proofs::OperationLaws::settle_sound, crate::proofs::OperationLaws::settle_inhabited), unfolding(crate::specs::Operations::core_settle))]
pub fn settle(core: &Core) -> Core
    ensures exact { result ≡ core_settle core.now }
    ensures sound { IsSoundSettling core.now result }
    ensures inhabited { IsCore core.now → IsCore result }
{
    let ime = ImeSet {
        off: core.ime.off,
        pending: false,
        on: core.ime.pending || core.ime.on,
    };
    Core { ime, ..*core }
}

/// Lets an instruction's M-cycles pass at its end: OAM DMA has so many fewer left, or all of them if it starts.
#[tactic(auto, unfolding(crate::specs::Operations::core_end))]
pub fn pass(starts: bool, cycles: u8, core: &mut Core)
    ensures exact { core.new ≡ core_end starts cycles core.old }
{
    core.bound = if starts {
        OAM_TRANSFER
    } else {
        core.bound.saturating_sub(cycles)
    };
}

/// An instruction has ended, and its M-cycles pass: the bound of the OAM transfer's count falls by
/// them, to 0 at least. Where the instruction started an OAM transfer, the bound is 161.
#[tactic(auto, using(crate::proofs::OperationLaws::end_sound))]
pub fn end(starts: bool, cycles: u8, core: &Core) -> Core
    ensures exact { result ≡ core_end starts cycles core.now }
    ensures sound { IsSoundEnd starts cycles core.now result }
    ensures inhabited { IsCore core.now → IsCore result }
{
    let mut after = *core;
    pass(starts, cycles, &mut after);
    after
}

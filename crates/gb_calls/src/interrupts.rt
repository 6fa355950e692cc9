//! What an interrupt's handler begins from, and which one is entered.

ghost use Rattle.std.specs.Prelude.{◌≡◌, ◌<◌};
ghost use Rattle.gb_domain.specs.declared.rules.Rules.TheVariants.{Extended};
ghost use Rattle.gb_calls.specs.Interrupts as Interrupts;

use crate::callees::callee;
use gb_cert::Cert;
use gb_domain::types::{Abs, Core, Halves, ImeSet, Rules, Setting};
use gb_product::{Program, end, may_have_bit, push, single};

/// The M-cycles of a dispatch (Interrupts: interrupt handling).
const DISPATCH: u8 = 5;

/// The vector of interrupt 0; those of the others follow it, 8 bytes apart (Memory map: jump vectors).
const FIRST_VECTOR: u16 = 0x40;

/// What an interrupt's dispatch leaves of a core: interrupts are off, and the dispatch's M-cycles have passed.
fn dispatched_core(core: &Core) -> Core
    ensures { result ≡ Interrupts.dispatched_core core.now }
{
    let ime = ImeSet {
        off: true,
        pending: false,
        on: false,
    };
    end(false, DISPATCH, &Core { ime, ..*core })
}

/// What the procedure is in, once an interrupt was dispatched, but for the return word on the stack: interrupts are
/// off, and the dispatch's M-cycles have passed (Interrupts: interrupt handling).
#[tactic(auto, unfolding(crate::specs::Interrupts::dispatched))]
pub fn dispatched(state: &Abs) -> Abs
    ensures exact { result ≡ Interrupts.dispatched state.now }
{
    state.with_core(dispatched_core(state.core()))
}

/// The word that stands for an address.
fn address_word(address: u16) -> Halves
    ensures { result ≡ Interrupts.address_word address }
{
    Halves {
        high: single((address / 256) as u8),
        low: single((address % 256) as u8),
    }
}

/// What a dispatch leaves by the rules of version 3: the address is pushed, where there is room for it.
#[tactic(auto, unfolding(crate::specs::Interrupts::dispatched, crate::specs::Interrupts::left_by_dispatch, crate::specs::Opened::pushed))]
fn dispatched_with(address: u16, state: &Abs) -> Abs
    ensures { result ≡ Interrupts.left_by_dispatch Extended address state.now }
{
    match push(Rules::Extended, state, address_word(address)) {
        None => dispatched(state),
        Some(mut pushed) => {
            pushed.set_core(dispatched_core(state.core()));
            pushed
        }
    }
}

/// What an interrupt's dispatch at the address leaves (Interrupts: interrupt handling): interrupts are off, the dispatch's
/// M-cycles have passed, and by the rules of version 3 the address is pushed, where there is room for it.
#[tactic(auto, unfolding(crate::specs::Interrupts::left_by_dispatch))]
pub fn left_by_dispatch(rules: Rules, address: u16, state: &Abs) -> Abs
    ensures exact { result ≡ Interrupts.left_by_dispatch rules address state.now }
{
    match rules {
        Rules::Simple => dispatched(state),
        Rules::Extended => dispatched_with(address, state),
    }
}

/// Whether interrupt `i`, 0 to 4, may be dispatched: interrupts may be on, and IE may have its bit (Interrupts; own).
pub fn may_come(i: u8, core: &Core) -> bool
    requires { i < 5 }
    ensures exact { result ≡ Interrupts.may_come i core.now }
{
    core.ime.on && may_have_bit(&core.ie, i)
}

/// The handler of interrupt `i`, 0 to 4, which comes at the address: the callee at its vector, in the state in which the
/// dispatch leaves the procedure (own).
#[tactic(auto, unfolding(crate::specs::Interrupts::handler_of))]
pub fn handler(
    program: &Program<'_>,
    cert: &Cert<'_>,
    setting: Setting,
    i: u8,
    address: u16,
    state: &Abs,
) -> Option<u16>
    requires { i < 5 }
    ensures exact { result ≡ Interrupts.handler_of program.now cert.now setting i address state.now }
{
    let left = left_by_dispatch(setting.rules, address, state);
    callee(
        program,
        cert,
        setting,
        FIRST_VECTOR + 8 * u16::from(i),
        &left,
    )
}

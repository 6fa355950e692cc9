//! What refuses a load or a store.

ghost use Rattle.std.specs.Prelude.{◌≡◌};
ghost use Rattle.gb_abs_memory.specs.Access as Access;

use gb_abs::span::Span;
use gb_domain::types::{Core, Val};
use gb_header::Rom;

/// Whether the gate to cartridge RAM may be closed, or there is neither RAM nor a clock behind it.
#[tactic(auto, unfolding(crate::specs::Access::may_be_closed, gb_ops::specs::Cartridge::has_ram_or_clock))]
fn may_be_closed(rom: &Rom<'_>, core: &Core) -> bool
    ensures { result ≡ Access.may_be_closed rom.now core.now }
{
    core.ctl.gate.clear || !(rom.ram_banks() != 0 || rom.has_clock())
}

/// Whether one of these addresses may be in cartridge RAM while it is closed.
#[tactic(auto, unfolding(crate::specs::Access::meets_closed_ram))]
pub fn meets_closed_ram(rom: &Rom<'_>, core: &Core, span: Span) -> bool
    ensures { result ≡ Access.meets_closed_ram rom.now core.now span }
{
    span.may_meet(0xA000, 0xBFFF) && may_be_closed(rom, core)
}

/// Whether an OAM transfer may run while one of these addresses is outside high RAM.
#[tactic(auto, unfolding(crate::specs::Access::is_limited))]
pub fn is_limited(core: &Core, span: Span) -> bool
    ensures { result ≡ Access.is_limited core.now span }
{
    core.bound != 0 && !span.is_inside(0xFF80, 0xFFFE)
}

/// Whether an OAM transfer may be started that copies cartridge RAM, pages A0 to BF, while it is
/// closed.
#[tactic(auto, unfolding(crate::specs::Access::may_copy_closed_ram))]
fn may_copy_closed_ram(rom: &Rom<'_>, core: &Core, span: Span, val: &Val) -> bool
    ensures { result ≡ Access.may_copy_closed_ram rom.now core.now span val.now }
{
    span.may_meet(0xFF46, 0xFF46) && val.lo <= 0xBF && 0xA0 <= val.hi && may_be_closed(rom, core)
}

/// Whether a store of one of these bytes, or the OAM transfer that it starts, may meet cartridge RAM
/// while it is closed.
#[tactic(auto, unfolding(crate::specs::Access::store_meets_closed_ram))]
pub fn store_meets_closed_ram(rom: &Rom<'_>, core: &Core, span: Span, val: &Val) -> bool
    ensures { result ≡ Access.store_meets_closed_ram rom.now core.now span val.now }
{
    meets_closed_ram(rom, core, span) || may_copy_closed_ram(rom, core, span, val)
}

/// Whether a store to one of several addresses may start an OAM transfer, of which no bound would
/// know.
#[tactic(auto, unfolding(crate::specs::Access::may_start_oam_transfer))]
fn may_start_oam_transfer(span: Span) -> bool
    ensures { result ≡ Access.may_start_oam_transfer span }
{
    !span.is_one() && span.may_meet(0xFF46, 0xFF46)
}

/// Whether an OAM transfer may run while one of these addresses is outside high RAM, or a store to
/// them may start one of which no bound would know.
#[tactic(auto, unfolding(crate::specs::Access::is_store_limited))]
pub fn is_store_limited(core: &Core, span: Span) -> bool
    ensures { result ≡ Access.is_store_limited core.now span }
{
    is_limited(core, span) || may_start_oam_transfer(span)
}

//! What refuses a successor.

ghost use Rattle.std.specs.Prelude.{◌≡◌, true};
ghost use Rattle.gb_successors.specs.Refused as Refused;
ghost use Rattle.gb_successors.specs.Successors.{has};

use crate::loads::span_behind;
use crate::successor::Successor;
use crate::successors::Successors;
use gb_abs_memory::Rom;
use gb_abs_memory::refusals::{
    is_limited, is_store_limited, meets_closed_ram, store_meets_closed_ram,
};
use gb_abs_memory::store::is_storable;
use gb_domain::types::{Core, Range, Setting};
use gb_ops::machine::{Kind, Region};
use gb_product::{AbsRead, AbsWrite, Span, Target};

/// Whether a write may lie where no store is allowed. Both bytes of a word are asked for.
#[tactic(auto, unfolding(crate::specs::Refused::is_unstorable))]
pub fn is_unstorable(
    setting: Setting,
    kind: Kind,
    region: Region,
    ranges: &[Range],
    write: AbsWrite,
) -> bool
    ensures { result ≡ Refused.is_unstorable setting kind region ranges.now write }
{
    match write {
        AbsWrite::Byte(span, _) => !is_storable(setting, kind, region, ranges, span),
        AbsWrite::Word(address, _, _) => {
            !is_storable(setting, kind, region, ranges, Span::one(address))
                || !is_storable(
                    setting,
                    kind,
                    region,
                    ranges,
                    Span::one(address.wrapping_add(1)),
                )
        }
        AbsWrite::Nothing | AbsWrite::Push { .. } => false,
    }
}

/// Whether a read may meet cartridge RAM while it is closed.
#[tactic(auto, unfolding(crate::specs::Refused::reads_closed_ram))]
fn reads_closed_ram(rom: &Rom<'_>, core: &Core, read: AbsRead) -> bool
    ensures { result ≡ Refused.reads_closed_ram rom.now core.now read }
{
    match read {
        AbsRead::Byte(span) => meets_closed_ram(rom, core, span),
        AbsRead::Word(span) => {
            meets_closed_ram(rom, core, span) || meets_closed_ram(rom, core, span_behind(span))
        }
        AbsRead::Nothing | AbsRead::Top => false,
    }
}

/// Whether a write may meet cartridge RAM while it is closed, or start an OAM transfer from it.
#[tactic(auto, unfolding(crate::specs::Refused::writes_closed_ram))]
fn writes_closed_ram(rom: &Rom<'_>, core: &Core, write: AbsWrite) -> bool
    ensures { result ≡ Refused.writes_closed_ram rom.now core.now write }
{
    match write {
        AbsWrite::Byte(span, val) => store_meets_closed_ram(rom, core, span, &val),
        AbsWrite::Word(address, low, high) => {
            store_meets_closed_ram(rom, core, Span::one(address), &low)
                || store_meets_closed_ram(rom, core, Span::one(address.wrapping_add(1)), &high)
        }
        AbsWrite::Nothing | AbsWrite::Push { .. } => false,
    }
}

/// Whether an OAM transfer may run that closes the stack region.
#[tactic(auto, unfolding(crate::specs::Refused::is_stack_limited))]
pub fn is_stack_limited(region: Region, core: &Core) -> bool
    ensures { result ≡ Refused.is_stack_limited region core.now }
{
    core.bound != 0 && region.first < 0xFF80
}

/// Whether a running OAM transfer may close a read.
#[tactic(auto, unfolding(crate::specs::Refused::is_read_limited))]
fn is_read_limited(region: Region, core: &Core, read: AbsRead) -> bool
    ensures { result ≡ Refused.is_read_limited region core.now read }
{
    match read {
        AbsRead::Byte(span) => is_limited(core, span),
        AbsRead::Word(span) => is_limited(core, span) || is_limited(core, span_behind(span)),
        AbsRead::Top => is_stack_limited(region, core),
        AbsRead::Nothing => false,
    }
}

/// Whether a running OAM transfer may close a write, or the write may start one unseen.
#[tactic(auto, unfolding(crate::specs::Refused::is_write_limited))]
fn is_write_limited(region: Region, core: &Core, write: AbsWrite) -> bool
    ensures { result ≡ Refused.is_write_limited region core.now write }
{
    match write {
        AbsWrite::Byte(span, _) => is_store_limited(core, span),
        AbsWrite::Word(address, _, _) => {
            is_store_limited(core, Span::one(address))
                || is_store_limited(core, Span::one(address.wrapping_add(1)))
        }
        AbsWrite::Push { .. } => is_stack_limited(region, core),
        AbsWrite::Nothing => false,
    }
}

/// Whether an access of the way on may meet cartridge RAM while it is closed, at this gate.
#[tactic(auto, unfolding(crate::specs::Refused::meets_closed))]
pub fn meets_closed(rom: &Rom<'_>, core: &Core, successor: &Successor<'_>) -> bool
    ensures { result ≡ Refused.meets_closed rom.now core.now successor.now }
{
    reads_closed_ram(rom, core, successor.read) || writes_closed_ram(rom, core, successor.write)
}

/// Whether an OAM transfer may close an access of the way on, at this bound, or start unseen.
#[tactic(auto, unfolding(crate::specs::Refused::meets_oam_transfer))]
pub fn meets_oam_transfer(region: Region, core: &Core, successor: &Successor<'_>) -> bool
    ensures { result ≡ Refused.meets_oam_transfer region core.now successor.now }
{
    is_read_limited(region, core, successor.read) || is_write_limited(region, core, successor.write)
}

/// Whether the way on may lead anywhere.
pub fn is_unknown(target: Target) -> bool
    ensures { result ≡ Refused.is_unknown target }
{
    matches!(target, Target::Unknown)
}

fn has_unstorable(
    setting: Setting,
    kind: Kind,
    region: Region,
    ranges: &[Range],
    way: &Option<Successor<'_>>,
) -> bool
    ensures { result ≡ has (λ t. Refused.is_unstorable setting kind region ranges.now t.write) way.now }
{
    match way {
        None => false,
        Some(successor) => is_unstorable(setting, kind, region, ranges, successor.write),
    }
}

fn has_closed(rom: &Rom<'_>, core: &Core, way: &Option<Successor<'_>>) -> bool
    ensures { result ≡ has (Refused.meets_closed rom.now core.now) way.now }
{
    match way {
        None => false,
        Some(successor) => meets_closed(rom, core, successor),
    }
}

fn has_limited(region: Region, core: &Core, way: &Option<Successor<'_>>) -> bool
    ensures { result ≡ has (Refused.meets_oam_transfer region core.now) way.now }
{
    match way {
        None => false,
        Some(successor) => meets_oam_transfer(region, core, successor),
    }
}

fn has_unknown(way: &Option<Successor<'_>>) -> bool
    ensures { result ≡ has (λ t. Refused.is_unknown t.target) way.now }
{
    match way {
        None => false,
        Some(successor) => is_unknown(successor.target),
    }
}

impl<'a> Successors<'a> {
    ghost use Rattle.gb_successors.specs.Successors.{any_successor};
    ghost use Rattle.gb_successors.specs.Refused as Refused;

    /// Whether one of them may store where the procedure may not.
    #[tactic(auto, unfolding(crate::specs::Successors::any_successor))]
    pub fn store_outside(
        &self,
        setting: Setting,
        kind: Kind,
        region: Region,
        ranges: &[Range],
    ) -> bool
        ensures { result ≡ any_successor (λ t. Refused.is_unstorable setting kind region ranges.now t.write) self.now }
    {
        has_unstorable(setting, kind, region, ranges, &self.taken)
            || has_unstorable(setting, kind, region, ranges, &self.not_taken)
            || has_unstorable(setting, kind, region, ranges, &self.stays)
    }

    /// Whether one of them may meet cartridge RAM while it is closed, at the gate of the state before.
    #[tactic(auto, unfolding(crate::specs::Successors::any_successor))]
    pub fn meet_closed_ram(&self, rom: &Rom<'_>, core: &Core) -> bool
        ensures { result ≡ any_successor (Refused.meets_closed rom.now core.now) self.now }
    {
        has_closed(rom, core, &self.taken)
            || has_closed(rom, core, &self.not_taken)
            || has_closed(rom, core, &self.stays)
    }

    /// Whether an OAM transfer may close an access of one of them, at the bound of the state before,
    /// or start unseen.
    #[tactic(auto, unfolding(crate::specs::Successors::any_successor))]
    pub fn meet_oam_transfer(&self, region: Region, core: &Core) -> bool
        ensures { result ≡ any_successor (Refused.meets_oam_transfer region core.now) self.now }
    {
        has_limited(region, core, &self.taken)
            || has_limited(region, core, &self.not_taken)
            || has_limited(region, core, &self.stays)
    }

    /// Whether there is one.
    #[tactic(auto, unfolding(crate::specs::Successors::any_successor))]
    pub fn are_some(&self) -> bool
        ensures { result ≡ any_successor (λ t. true) self.now }
    {
        self.taken.is_some() || self.not_taken.is_some() || self.stays.is_some()
    }

    /// Whether one of them may lead anywhere.
    #[tactic(auto, unfolding(crate::specs::Successors::any_successor))]
    pub fn lead_anywhere(&self) -> bool
        ensures { result ≡ any_successor (λ t. Refused.is_unknown t.target) self.now }
    {
        has_unknown(&self.taken) || has_unknown(&self.not_taken) || has_unknown(&self.stays)
    }
}

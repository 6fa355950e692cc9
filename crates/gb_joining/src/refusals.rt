//! What is against an instruction with its successors, by the checker's own tests; that too many bytes are pushed is
//! stated again.

use crate::cause::{Cause, TransferMisuse};
use crate::register_set::RegisterSet;
use arrayvec::ArrayVec;
use gb_spelling::INTERRUPT_COUNT;
use gb_verify::gb_ops::machine::Region;
use gb_verify::gb_ops::op::{Op, Pair, Pointer, Row};
use gb_verify::{
    Abs, AbsRead, AbsWrite, Core, Range, Rom, Rules, Span, Stack, Successors, is_limited,
    is_stack_limited, lies_in_high_ram, may_come, meets_closed_ram,
};

/// All that a procedure could declare: work RAM and high RAM. The region is asked for apart.
const RAM: [Range; 2] = [
    Range {
        first: 0xC000,
        last: 0xDFFF,
    },
    Range {
        first: 0xFF80,
        last: 0xFFFE,
    },
];

/// All that a procedure could declare: by the rules of version 3 nothing of the region.
fn storable(rules: Rules, region: Region) -> ArrayVec<Range, 4> {
    let mut ranges = ArrayVec::new();
    for area in RAM {
        let is_outside = region.last < area.first || area.last < region.first;
        if rules == Rules::Simple || is_outside {
            let _ = ranges.try_push(area);
            continue;
        }
        if area.first < region.first {
            let _ = ranges.try_push(Range {
                first: area.first,
                last: region.first.saturating_sub(1),
            });
        }
        if region.last < area.last {
            let _ = ranges.try_push(Range {
                first: region.last.saturating_add(1),
                last: area.last,
            });
        }
    }
    ranges
}

/// The bytes that an instruction puts on the stack.
fn bytes_added(rules: Rules, op: Op) -> usize {
    match op {
        Op::Push(_) => 2,
        Op::CallIf(_, _) | Op::Call(_) | Op::Restart(_) if rules == Rules::Extended => 2,
        Op::DecrementPair(Pair::Sp) => 1,
        Op::AddSp(e8) if e8 >= 128 => usize::from(e8.wrapping_neg()),
        _ => 0,
    }
}

/// A refusal: its cause, and the registers that the access or the jump went by.
pub type Refusal = (Cause, RegisterSet);

/// The registers by which an instruction's access goes.
fn pointing(op: Op) -> RegisterSet {
    match op.pointer() {
        Some(pointer) => RegisterSet::of_pointer(pointer),
        None => RegisterSet::empty(),
    }
}

/// The register that an instruction stores.
fn stored(op: Op) -> RegisterSet {
    match op.stored() {
        Some(register) => RegisterSet::of(&[register]),
        None => RegisterSet::empty(),
    }
}

/// The addresses of a read.
fn read_span(read: AbsRead) -> Option<Span> {
    match read {
        AbsRead::Byte(span) => Some(span),
        AbsRead::Nothing | AbsRead::Top | AbsRead::Word(_) => None,
    }
}

/// The addresses of a write, but for a push.
fn write_span(write: AbsWrite) -> Option<Span> {
    match write {
        AbsWrite::Byte(span, _) => Some(span),
        AbsWrite::Word(address, _, _) => Some(Span {
            first: address,
            last: address.saturating_add(1),
            ..Span::one(address)
        }),
        AbsWrite::Nothing | AbsWrite::Push { .. } => None,
    }
}

/// The accesses of an instruction: those of its taken way, since the others have none.
fn accesses(ways: &Successors<'_>) -> (AbsRead, AbsWrite) {
    match &ways.taken {
        Some(taken) => (taken.read, taken.write),
        None => (AbsRead::Nothing, AbsWrite::Nothing),
    }
}

/// Why a store is refused, by its addresses.
fn store_refusal(op: Op, ways: &Successors<'_>) -> Refusal {
    let (_, write) = accesses(ways);
    let span = write_span(write).unwrap_or(Span::one(0));
    (Cause::Store { span }, pointing(op))
}

/// Why closed cartridge RAM may be met: by an access, or by the OAM transfer that it starts.
fn closed_refusal(rom: &Rom<'_>, core: &Core, op: Op, ways: &Successors<'_>) -> Refusal {
    let (read, write) = accesses(ways);
    for span in [read_span(read), write_span(write)] {
        if let Some(span) = span
            && meets_closed_ram(rom, core, span)
        {
            return (Cause::CartridgeRam { span }, pointing(op));
        }
    }
    match write {
        AbsWrite::Byte(_, val) => {
            let cause = Cause::CopiesCartridgeRam {
                first_page: val.lo,
                last_page: val.hi,
            };
            (cause, stored(op))
        }
        _ => (
            Cause::CopiesCartridgeRam {
                first_page: 0,
                last_page: 255,
            },
            RegisterSet::empty(),
        ),
    }
}

/// What an OAM transfer has to do with an instruction that is refused for it.
fn transfer_misuse(core: &Core, ways: &Successors<'_>) -> TransferMisuse {
    let (read, write) = accesses(ways);
    for span in [read_span(read), write_span(write)] {
        if let Some(span) = span
            && is_limited(core, span)
        {
            return TransferMisuse::Access(span);
        }
    }
    match write_span(write) {
        Some(span) => TransferMisuse::Start(span),
        None => TransferMisuse::Stack,
    }
}

/// The first interrupt that may come.
fn first_interrupt(core: &Core) -> Option<u8> {
    for interrupt in 0..INTERRUPT_COUNT {
        if may_come(interrupt, core) {
            return Some(interrupt);
        }
    }
    None
}

/// Where an instruction stands.
#[derive(Clone, Copy)]
pub struct AtInstruction<'a> {
    pub stack: Stack,
    pub state: &'a Abs,
    pub address: u16,
    pub row: Row,
}

/// What an OAM transfer refuses of an instruction, or of a dispatch before it.
fn transfer_refusal(standing: AtInstruction<'_>, ways: &Successors<'_>) -> Option<Refusal> {
    let AtInstruction {
        stack,
        state,
        address,
        row,
    } = standing;
    let (region, core) = (stack.region, state.core());
    let none = RegisterSet::empty();
    if core.bound != 0 && ways.are_some() && !lies_in_high_ram(address, row.length) {
        return Some((Cause::OamTransfer(TransferMisuse::Code), none));
    }
    if ways.meet_oam_transfer(region, core) {
        let misuse = transfer_misuse(core, ways);
        return Some((Cause::OamTransfer(misuse), pointing(row.op)));
    }
    if is_stack_limited(region, core) && first_interrupt(core).is_some() {
        return Some((Cause::OamTransfer(TransferMisuse::Interrupt), none));
    }
    None
}

/// What is against an instruction in a state, of all but covering, calls and returns.
pub fn refusal(
    rom: &Rom<'_>,
    standing: AtInstruction<'_>,
    ways: &Successors<'_>,
) -> Option<Refusal> {
    let AtInstruction {
        stack,
        state,
        row,
        ..
    } = standing;
    let core = state.core();
    let rules = stack.setting.rules;
    let bytes = bytes_added(rules, row.op).saturating_add(state.items().len());
    if bytes > rules.item_room() && ways.taken.is_some() {
        return Some((Cause::PushesTooMany, RegisterSet::empty()));
    }
    let storable = storable(rules, stack.region);
    if ways.store_outside(stack.setting, rom.kind(), stack.region, storable.as_slice()) {
        return Some(store_refusal(row.op, ways));
    }
    if ways.meet_closed_ram(rom, core) {
        return Some(closed_refusal(rom, core, row.op, ways));
    }
    if let Some(refusal) = transfer_refusal(standing, ways) {
        return Some(refusal);
    }
    if ways.lead_anywhere() {
        return Some((Cause::JumpHl, RegisterSet::of_pointer(Pointer::Hl)));
    }
    None
}

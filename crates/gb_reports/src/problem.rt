//! What can go wrong at an instruction, in a sentence.

use crate::lost_text::ShownLoss;
use gb_facts::{PADDING, interrupt_at, interrupt_name};
use gb_findings::finding::{InstructionFinding, PointerLoad};
use gb_findings::gb_fixpoint::Span;
use gb_findings::gb_fixpoint::cause::{Cause, StackMisuse, TransferMisuse};
use gb_findings::gb_fixpoint::code_point::CodePoint;
use gb_findings::gb_ops::machine::Region;
use gb_findings::gb_symbols::{ShownAddress, Symbols};
use gb_findings::pushed_return::PushedReturn;
use std::fmt;

/// Some addresses.
#[derive(Clone, Copy)]
pub(crate) struct Addresses {
    pub(crate) first: u16,
    pub(crate) last: u16,
}

impl Addresses {
    fn of(span: Span) -> Addresses {
        Addresses {
            first: span.first,
            last: span.last,
        }
    }

    pub(crate) fn of_region(region: Region) -> Addresses {
        Addresses {
            first: region.first,
            last: region.last,
        }
    }
}

impl fmt::Display for Addresses {
    fn fmt<W: fmt::Write>(&self, f: &mut fmt::Formatter<W>) -> fmt::Result {
        let Addresses { first, last } = *self;
        if first == last {
            write!(f, "${first:04X}")
        } else {
            write!(f, "${first:04X}-${last:04X}")
        }
    }
}

/// What can go wrong, in a sentence.
#[derive(Clone, Copy)]
pub(crate) struct Problem<'a> {
    pub(crate) finding: &'a InstructionFinding,
    pub(crate) symbols: &'a Symbols<'a>,
}

impl fmt::Display for Problem<'_> {
    fn fmt<W: fmt::Write>(&self, f: &mut fmt::Formatter<W>) -> fmt::Result {
        let Problem { finding, symbols } = *self;
        if let Some(lost) = &finding.lost_bank {
            let loss = ShownLoss {
                lost: &*lost,
                symbols: &*symbols,
            };
            return write!(f, "{loss}");
        }
        if let Some(pushed) = finding.pushed_return {
            return fmt_pushed(pushed, symbols, f);
        }
        if let Some(load) = finding.load {
            return fmt_load(finding, load, symbols, f);
        }
        match (plain_text(finding.cause), finding.cause) {
            (Some(text), _) => write!(f, "{text}"),
            (None, Cause::Recursion { .. }) => fmt_again(finding, symbols, f),
            _ => fmt_detailed(finding, f),
        }
    }
}

/// A return that takes pushed bytes for the return address.
fn fmt_pushed<W: fmt::Write>(
    pushed: PushedReturn,
    symbols: &Symbols<'_>,
    f: &mut fmt::Formatter<W>,
) -> fmt::Result {
    let PushedReturn {
        pushed_at,
        leads_to,
    } = pushed;
    let pushed_at = ShownAddress {
        symbols: &*symbols,
        bank: pushed_at.bank,
        address: pushed_at.address,
    };
    let leads_to = ShownAddress {
        symbols: &*symbols,
        bank: leads_to.bank,
        address: leads_to.address,
    };
    write!(
        f,
        "This return takes the bytes pushed at {pushed_at} for its return address, and goes to {leads_to}, which is no code."
    )
}

/// A byte of a pointer that is loaded from RAM, and what an access through the pointer can reach.
fn fmt_load<W: fmt::Write>(
    finding: &InstructionFinding,
    load: PointerLoad,
    symbols: &Symbols<'_>,
    f: &mut fmt::Formatter<W>,
) -> fmt::Result {
    let from = Addresses::of(load.from);
    let access = ShownAddress {
        symbols: &*symbols,
        bank: load.used_at.bank,
        address: load.used_at.address,
    };
    write!(
        f,
        "This loads a byte of a pointer from {from}, which can be any byte. The pointer is used at {access}. "
    )?;
    fmt_access(finding, f)
}

/// What is done to the stack, where that is always the same sentence.
fn stack_text(misuse: StackMisuse) -> Option<&'static str> {
    match misuse {
        StackMisuse::NotSet => Some("This uses the stack before SP is set."),
        StackMisuse::PopsReturnWord => {
            Some("This pops the return address, or bytes that were never pushed.")
        }
        StackMisuse::Moved => Some("This moves SP."),
        StackMisuse::TakesTooMany => Some("This takes more from the stack than was pushed."),
        StackMisuse::SetByHl => Some("HL isn't known to be an address of the stack."),
        StackMisuse::SetInCallee => Some("This sets SP outside main."),
        StackMisuse::UsedAside => Some("SP points at data here, and this needs the stack."),
        StackMisuse::SetAgain(_) => None,
    }
}

/// What is done during OAM DMA, where that is always the same sentence.
fn transfer_text(misuse: TransferMisuse) -> Option<&'static str> {
    match misuse {
        TransferMisuse::Code => Some("OAM DMA may be running, and this code isn't in HRAM."),
        TransferMisuse::Stack => Some("OAM DMA may be running, and the stack isn't in HRAM."),
        TransferMisuse::Interrupt => Some(
            "OAM DMA may be running, an interrupt can fire, and the stack isn't in HRAM.",
        ),
        TransferMisuse::Access(_) | TransferMisuse::Start(_) => None,
    }
}

/// What can go wrong, where that is always the same sentence.
fn plain_text(cause: Cause) -> Option<&'static str> {
    match cause {
        Cause::Area => Some("There is no code here, or it crosses the end of its area."),
        Cause::Bank => Some("The ROM bank that is mapped here is unknown."),
        Cause::Stop => Some("The CPU reaches STOP here."),
        Cause::Halt => Some("Interrupts may be off at this HALT, and no NOP follows."),
        Cause::PushesTooMany => Some("This would put more than 255 bytes on the stack."),
        Cause::JumpHl => Some("HL is unknown at this jump."),
        Cause::ReturnInMain => Some("Main returns here."),
        Cause::ReturnToUnknown => Some("The return address on the stack is unknown."),
        Cause::ReturnWithOthers => {
            Some("This return leaves more or fewer bytes on the stack than another one.")
        }
        Cause::Recursion { target } if target == PADDING => {
            Some("The CPU runs into $FF bytes, and `rst $38` at $0038 calls itself.")
        }
        Cause::Stack(misuse) => stack_text(misuse),
        Cause::OamTransfer(misuse) => transfer_text(misuse),
        _ => None,
    }
}

/// A routine that can start again at an instruction.
fn fmt_again<W: fmt::Write>(
    finding: &InstructionFinding,
    symbols: &Symbols<'_>,
    f: &mut fmt::Formatter<W>,
) -> fmt::Result {
    match finding.again {
        Some(target) => fmt_recursion(target, symbols, f),
        None => Ok(()),
    }
}

/// A routine that can start again while it runs.
pub(crate) fn fmt_recursion<W: fmt::Write>(
    target: CodePoint,
    symbols: &Symbols<'_>,
    f: &mut fmt::Formatter<W>,
) -> fmt::Result {
    if let Some(name) = interrupt_at(target.address) {
        return write!(
            f,
            "The {name} interrupt can fire here while its handler still runs."
        );
    }
    let routine = ShownAddress {
        symbols: &*symbols,
        bank: target.bank,
        address: target.address,
    };
    write!(
        f,
        "The routine {routine} can be called here while it still runs."
    )
}

/// A sentence with an address, a byte or a number.
fn fmt_detailed<W: fmt::Write>(
    finding: &InstructionFinding,
    f: &mut fmt::Formatter<W>,
) -> fmt::Result {
    match finding.cause {
        Cause::Unreadable { byte } => write!(f, "The code byte at ${byte:04X} is unknown."),
        Cause::UndefinedOpcode { opcode } => write!(f, "Opcode ${opcode:02X} is undefined."),
        Cause::ReturnWithBytes { bytes } => {
            write!(
                f,
                "At this return, {bytes} pushed bytes are still on the stack."
            )
        }
        Cause::InterruptWithoutStack { interrupt } => {
            let name = interrupt_name(interrupt);
            write!(f, "The {name} interrupt can fire before SP is set.")
        }
        Cause::Stack(StackMisuse::SetAgain(sp)) => fmt_set_again(sp, finding.region, f),
        _ => fmt_access(finding, f),
    }
}

/// SP is set to an address that isn't in the stack.
fn fmt_set_again<W: fmt::Write>(sp: u16, region: Region, f: &mut fmt::Formatter<W>) -> fmt::Result {
    let stack = Addresses::of_region(region);
    write!(
        f,
        "This sets SP to ${sp:04X}, which isn't in the stack ({stack})."
    )
}

/// Why cartridge RAM can't be used.
fn closed_text(finding: &InstructionFinding) -> &'static str {
    if finding.has_open_gate() {
        "and the header names no cartridge RAM"
    } else {
        "and cartridge RAM may be disabled or missing"
    }
}

/// What an access can reach.
fn fmt_access<W: fmt::Write>(
    finding: &InstructionFinding,
    f: &mut fmt::Formatter<W>,
) -> fmt::Result {
    let closed = closed_text(finding);
    match finding.cause {
        Cause::Store { span } => fmt_store(span, finding.region, f),
        Cause::CartridgeRam { span } => {
            let addresses = Addresses::of(span);
            write!(f, "This access can reach {addresses}, {closed}.")
        }
        Cause::CopiesCartridgeRam {
            first_page,
            last_page,
        } => write!(
            f,
            "OAM DMA can copy from ${first_page:02X}00-${last_page:02X}9F, {closed}."
        ),
        Cause::OamTransfer(misuse) => fmt_transfer(misuse, f),
        _ => Ok(()),
    }
}

/// Whether addresses lie in echo RAM (Pan Docs: Memory Map).
pub(crate) fn is_echo(span: Span) -> bool {
    0xE000 <= span.first && span.last <= 0xFDFF
}

/// Whether a store can reach the stack. One that begins in ROM writes to the controller.
pub(crate) fn meets_stack(span: Span, region: Region) -> bool {
    0xC000 <= span.first && span.may_meet(region.first, region.last)
}

/// What a store can reach.
fn fmt_store<W: fmt::Write>(span: Span, region: Region, f: &mut fmt::Formatter<W>) -> fmt::Result {
    let addresses = Addresses::of(span);
    if meets_stack(span, region) {
        let stack = Addresses::of_region(region);
        write!(
            f,
            "This store can reach {addresses}, and the stack is at {stack}."
        )
    } else if is_echo(span) {
        write!(f, "This store can reach {addresses}, which is echo RAM.")
    } else {
        write!(f, "This store can reach {addresses}.")
    }
}

/// What is used during OAM DMA, or how it may start.
fn fmt_transfer<W: fmt::Write>(misuse: TransferMisuse, f: &mut fmt::Formatter<W>) -> fmt::Result {
    match misuse {
        TransferMisuse::Access(span) => {
            let addresses = Addresses::of(span);
            write!(
                f,
                "OAM DMA may be running, and this access can reach {addresses}."
            )
        }
        TransferMisuse::Start(span) => {
            let addresses = Addresses::of(span);
            write!(
                f,
                "This store can reach {addresses}, and would start OAM DMA at $FF46."
            )
        }
        TransferMisuse::Code | TransferMisuse::Stack | TransferMisuse::Interrupt => Ok(()),
    }
}

//! Which texts a finding gets, and which fix fits its code.

use crate::problem::{is_echo, meets_stack};
use gb_facts::advice::{self, Advice};
use gb_facts::{PADDING, interrupt_at};
use gb_findings::chain::{CallChain, Root};
use gb_findings::crowd::{Crowd, Multiplied, Multiplier, ReachedLimit};
use gb_findings::finding::{Finding, InstructionFinding, Spent};
use gb_findings::gb_fixpoint::Span;
use gb_findings::gb_fixpoint::cause::{Cause, StackMisuse, TransferMisuse};
use gb_findings::gb_ops::op::{Indirect, Op, Pair};
use gb_findings::gb_symbols::Symbols;
use gb_findings::lost_bank::{BankLoser, LostBank};

/// LD SP,n16 outside main: of the stack's own address, or of another one.
fn set_advice(finding: &InstructionFinding) -> Advice {
    match finding.op {
        Some(Op::LoadPair(Pair::Sp, sp)) if sp != finding.region.last.wrapping_add(1) => {
            advice::STACK_BORROWED
        }
        _ => advice::STACK_SET_IN_CALLEE,
    }
}

/// A misuse of the stack.
fn stack_advice(finding: &InstructionFinding, misuse: StackMisuse) -> Advice {
    match misuse {
        StackMisuse::NotSet => advice::STACK_NOT_SET,
        StackMisuse::PopsReturnWord | StackMisuse::TakesTooMany => advice::POPS_TOO_MUCH,
        StackMisuse::Moved | StackMisuse::SetByHl => advice::STACK_MOVED,
        StackMisuse::SetInCallee => set_advice(finding),
        StackMisuse::SetAgain(_) | StackMisuse::UsedAside => advice::STACK_SET_AGAIN,
    }
}

/// Something during OAM DMA.
fn transfer_advice(misuse: TransferMisuse) -> Advice {
    match misuse {
        TransferMisuse::Code => advice::TRANSFER_CODE,
        TransferMisuse::Access(_) => advice::TRANSFER_ACCESS,
        TransferMisuse::Stack => advice::TRANSFER_STACK,
        TransferMisuse::Interrupt => advice::TRANSFER_INTERRUPT,
        TransferMisuse::Start(_) => advice::TRANSFER_START,
    }
}

/// Whether an instruction moves its pointer, as in a loop that copies or clears.
fn moves_pointer(op: Option<Op>) -> bool {
    matches!(
        op,
        Some(
            Op::StoreA(Indirect::HlIncrement | Indirect::HlDecrement)
                | Op::LoadA(Indirect::HlIncrement | Indirect::HlDecrement)
        )
    )
}

/// A store by a pointer without a bound.
fn pointer_advice(finding: &InstructionFinding) -> Advice {
    if moves_pointer(finding.op) {
        advice::POINTER_OF_LOOP
    } else if finding.is_in_loop {
        advice::POINTER_IN_LOOP
    } else {
        advice::POINTER
    }
}

/// Whether a store to echo RAM is meant for the byte that it shows: no loop brought its pointer there.
fn is_meant_for_echo(finding: &InstructionFinding, span: Span) -> bool {
    is_echo(span) && (finding.registers.is_empty() || !finding.is_in_loop)
}

/// A store: by a pointer that comes from RAM, over the stack, by another pointer, or to an address that is named.
fn store_advice(finding: &InstructionFinding, span: Span) -> Advice {
    if finding.load.is_some() {
        advice::LOADED_POINTER
    } else if !finding.kept_in.is_empty() {
        advice::KEPT_POINTER
    } else if meets_stack(span, finding.region) {
        advice::CLEARS_STACK
    } else if is_meant_for_echo(finding, span) {
        advice::STORE_TO_ECHO
    } else if !finding.registers.is_empty() {
        pointer_advice(finding)
    } else {
        advice::STORE
    }
}

/// Whether an access goes to cartridge RAM alone: a pointer to a text in ROM that may run on isn't meant for it.
fn is_for_cartridge_ram(finding: &InstructionFinding) -> bool {
    match finding.cause {
        Cause::CartridgeRam { span } => {
            finding.has_ram && 0xA000 <= span.first && span.last <= 0xBFFF
        }
        _ => false,
    }
}

/// An access to cartridge RAM by a pointer, which a loop may move.
fn pointer_to_ram_advice(finding: &InstructionFinding) -> Advice {
    match (moves_pointer(finding.op), is_for_cartridge_ram(finding)) {
        (true, true) => advice::LOOP_TO_CARTRIDGE_RAM,
        (true, false) => advice::LOOP_TO_NO_RAM,
        (false, true) => advice::POINTER_TO_CARTRIDGE_RAM,
        (false, false) if finding.is_in_loop => advice::IN_LOOP_TO_NO_RAM,
        (false, false) => advice::POINTER_TO_NO_RAM,
    }
}

/// An access to cartridge RAM: where there is none, by a pointer, or by an address that is named.
fn cartridge_advice(finding: &InstructionFinding) -> Advice {
    if finding.has_open_gate() {
        advice::NO_CARTRIDGE_RAM
    } else if finding.load.is_some() || !finding.kept_in.is_empty() {
        advice::KEPT_TO_CARTRIDGE_RAM
    } else if !finding.registers.is_empty() {
        pointer_to_ram_advice(finding)
    } else if finding.has_ram {
        advice::GATE_CLOSED
    } else {
        advice::NO_CARTRIDGE_RAM
    }
}

/// OAM DMA from cartridge RAM.
fn copy_advice(finding: &InstructionFinding) -> Advice {
    if finding.has_open_gate() {
        advice::NO_CARTRIDGE_RAM
    } else {
        advice::COPIES_CARTRIDGE_RAM
    }
}

/// A bank that was left mapped.
fn loss_advice(lost: &LostBank) -> Advice {
    let is_by_variable = match &lost.mapping {
        Some(mapping) => mapping.variable.is_some() && mapping.is_second,
        None => false,
    };
    match lost.by {
        BankLoser::Handler { .. } if is_by_variable => advice::BANK_VARIABLE_LATE,
        BankLoser::Handler { .. } => advice::BANK_NOT_RESTORED,
        BankLoser::Routine { .. } if lost.goes_on => advice::BANK_OF_ROUTINE,
        BankLoser::Instruction if lost.goes_on => advice::BANK_OF_ITSELF,
        BankLoser::Routine { .. } | BankLoser::Instruction => advice::BANK,
    }
}

/// A bank that isn't known.
fn bank_advice(finding: &InstructionFinding) -> Advice {
    if let Some(lost) = &finding.lost_bank {
        loss_advice(lost)
    } else if finding.switching.is_empty() {
        advice::BANK
    } else {
        advice::BANK_NOT_RESTORED
    }
}

/// Whether a chain of calls begins with an interrupt whose vector itself calls, as FF there does.
fn is_of_empty_vector(chain: &CallChain) -> bool {
    match (chain.root, chain.calls.first()) {
        (Root::Interrupt { vector }, Some(call)) => call.from == vector,
        (Root::Interrupt { .. }, None) => true,
        (Root::PowerUp, _) => false,
    }
}

/// Padding that is executed: after an interrupt without a handler, or after a wrong jump.
fn padding_advice(finding: &InstructionFinding) -> Advice {
    if is_of_empty_vector(&finding.chain) {
        advice::NO_HANDLER
    } else {
        advice::PADDING
    }
}

/// A routine that can start again while it runs.
fn recursion_advice(target: u16) -> Advice {
    match interrupt_at(target) {
        Some(_) => advice::HANDLER_REENTERED,
        None => advice::RECURSION,
    }
}

/// Whether an index that a division gave may be what isn't bounded: the pointer comes from no byte of RAM, and runs on in no loop.
fn is_by_division(finding: &InstructionFinding) -> bool {
    finding.is_divided
        && finding.load.is_none()
        && finding.kept_in.is_empty()
        && !moves_pointer(finding.op)
}

/// Whether what is read is a text whose end isn't known.
fn is_of_text(finding: &InstructionFinding) -> bool {
    let is_read = finding.is_in_loop && matches!(finding.cause, Cause::CartridgeRam { .. });
    is_read && finding.reads_text && finding.load.is_none() && finding.kept_in.is_empty()
}

/// The fix that fits better than that of the cause alone.
fn better_fix(finding: &InstructionFinding) -> Option<Advice> {
    if finding.pushed_return.is_some() {
        None
    } else if is_of_text(finding) {
        Some(advice::TEXT)
    } else if is_by_division(finding) {
        Some(advice::DIVIDED)
    } else {
        None
    }
}

/// A failure at an instruction.
pub(crate) fn instruction_advice(finding: &InstructionFinding) -> Advice {
    let advice = cause_advice(finding);
    match better_fix(finding) {
        Some(fix) => Advice {
            remedy: fix.remedy,
            remedy_in_c: fix.remedy_in_c,
            ..advice
        },
        None => advice,
    }
}

/// What a failure at an instruction is about.
fn cause_advice(finding: &InstructionFinding) -> Advice {
    if finding.pushed_return.is_some() {
        return advice::RETURN_WITH_BYTES;
    }
    match finding.cause {
        Cause::Area => advice::AREA,
        Cause::Bank => bank_advice(finding),
        Cause::Unreadable { .. } => advice::PATCHED_CODE,
        Cause::UndefinedOpcode { .. } => advice::UNDEFINED_OPCODE,
        Cause::Stop => advice::STOP,
        Cause::Halt => advice::HALT,
        Cause::Stack(misuse) => stack_advice(finding, misuse),
        Cause::PushesTooMany => advice::PUSHES_TOO_MUCH,
        Cause::Recursion { target } if target == PADDING => padding_advice(finding),
        Cause::Recursion { target } => recursion_advice(target),
        Cause::Store { span } => store_advice(finding, span),
        Cause::CartridgeRam { .. } => cartridge_advice(finding),
        Cause::CopiesCartridgeRam { .. } => copy_advice(finding),
        Cause::OamTransfer(misuse) => transfer_advice(misuse),
        Cause::JumpHl => advice::JUMP_HL,
        Cause::ReturnInMain => advice::RETURN_IN_MAIN,
        Cause::ReturnWithBytes { .. } | Cause::ReturnWithOthers => advice::RETURN_WITH_BYTES,
        Cause::ReturnToUnknown => advice::RETURN_TO_UNKNOWN,
        Cause::InterruptWithoutStack { .. } => advice::INTERRUPT_WITHOUT_STACK,
    }
}

/// The limit of nodes: the fix depends on what multiplies them.
fn nodes_advice(crowd: &Crowd) -> Advice {
    match crowd.multiplied {
        _ if crowd.crowded.is_empty() => advice::TOO_MANY_PLACES,
        Some(
            Multiplied {
                by: Multiplier::Cell(_),
                ..
            },
        ) => advice::TOO_MANY_VALUES,
        Some(
            Multiplied {
                by: Multiplier::Bank,
                ..
            },
        ) => advice::TOO_MANY_BANKS,
        Some(
            Multiplied {
                by: Multiplier::Stack,
                ..
            },
        ) => advice::TOO_MANY_STACKS,
        _ => advice::TOO_MANY_NODES,
    }
}

/// A limit that was reached.
fn limit_advice(crowd: &Crowd) -> Advice {
    match crowd.limit {
        ReachedLimit::Nodes(_) => nodes_advice(crowd),
        ReachedLimit::Procedures => advice::TOO_MANY_PROCEDURES,
        ReachedLimit::Steps => advice::TOO_MANY_STEPS,
    }
}

/// The texts of a finding.
pub(crate) fn advice_on(finding: &Finding) -> Advice {
    match finding {
        Finding::Instruction(finding) => instruction_advice(finding),
        Finding::TooLarge(crowd) => limit_advice(crowd),
        Finding::NoStack { .. } => advice::NO_STACK,
        Finding::StackTooDeep { .. } => advice::STACK_TOO_DEEP,
        Finding::Recursion { target } => recursion_advice(target.address),
        Finding::OutOfRounds {
            spent: Spent::Rounds,
            ..
        } => advice::OUT_OF_ROUNDS,
        Finding::OutOfRounds {
            spent: Spent::Steps,
            ..
        } => advice::OUT_OF_STEPS,
        Finding::OutOfRounds {
            spent: Spent::Time,
            ..
        } => advice::OUT_OF_TIME,
        Finding::Internal => advice::INTERNAL,
    }
}

/// The fix of a finding, in the author's language.
pub(crate) fn remedy_of(finding: &Finding, symbols: &Symbols<'_>) -> &'static str {
    advice_on(finding).remedy_in(finding.is_of_c(symbols))
}

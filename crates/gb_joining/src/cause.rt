//! Why a run stopped.

use crate::code_point::CodePoint;
use crate::register_set::RegisterSet;
use gb_verify::{Reason, Span};

/// What an instruction does to the stack that no rule allows.
#[derive(Clone, Copy, PartialEq, Eq)]
pub enum StackMisuse {
    /// A word is pushed, or popped, before LD SP,n16.
    NotSet,
    /// POP where none of the procedure's own words is on the stack.
    PopsReturnWord,
    /// INC SP, DEC SP, ADD SP,e8 or LD SP,HL, by the rules of versions 1 and 2.
    Moved,
    /// More bytes are taken off than the procedure has.
    TakesTooMany,
    /// LD SP,HL with HL not known, or neither the procedure's nor main's.
    SetByHl,
    /// LD SP,n16 in a procedure that is called.
    SetInCallee,
    /// LD SP,n16 with another address than the one before.
    SetAgain(u16),
    /// A push, a call, a return or EI while SP is put aside.
    UsedAside,
}

/// What happens while an OAM transfer may run, or how one would start unseen.
#[derive(Clone, Copy, PartialEq, Eq)]
pub enum TransferMisuse {
    /// The instruction lies outside high RAM.
    Code,
    /// It reads or writes outside high RAM.
    Access(Span),
    /// It uses the stack, which lies outside high RAM.
    Stack,
    /// An interrupt may come, whose dispatch pushes outside high RAM.
    Interrupt,
    /// A store to several addresses may start a transfer, FF46 among them.
    Start(Span),
}

/// Why a node has no successor states.
#[derive(Clone, Copy, PartialEq, Eq)]
pub enum Cause {
    /// The instruction lies outside the areas for code, or leaves its area.
    Area,
    /// The bank shown at the address isn't known.
    Bank,
    /// This byte of the instruction isn't known.
    Unreadable { byte: u16 },
    UndefinedOpcode { opcode: u8 },
    Stop,
    /// HALT where interrupts may be off, and no NOP behind it.
    Halt,
    Stack(StackMisuse),
    /// More bytes are on the stack than a state holds: 255, or 16 words by the rules of versions 1 and 2.
    PushesTooMany,
    /// A procedure at this address may be called or dispatched while it runs.
    Recursion { target: u16 },
    /// A store where none is allowed.
    Store { span: Span },
    /// Cartridge RAM may be met while the gate may be closed, or where there is none.
    CartridgeRam { span: Span },
    /// An OAM transfer may copy cartridge RAM while the gate may be closed: FF46 gets this page or the next ones.
    CopiesCartridgeRam { first_page: u8, last_page: u8 },
    OamTransfer(TransferMisuse),
    /// JP HL with HL not known.
    JumpHl,
    /// RET in main.
    ReturnInMain,
    /// RET with so many bytes on the stack beside the return word.
    ReturnWithBytes { bytes: usize },
    /// RET with a word that is neither the return word nor known.
    ReturnToUnknown,
    /// RET with more or fewer bytes on the stack than another one of the procedure.
    ReturnWithOthers,
    /// Interrupt 0 to 4 may come before LD SP,n16.
    InterruptWithoutStack { interrupt: u8 },
}

/// Why a run stopped, and at which node.
#[derive(Clone, Copy, PartialEq, Eq)]
pub struct Failure {
    /// The number of the node.
    pub node: usize,
    pub cause: Cause,
    /// The registers that the access or the jump went by: a pair, C, or A that was stored to FF46. They may be known.
    pub registers: RegisterSet,
}

/// What a run wants its configuration to say.
#[derive(Clone, Copy, PartialEq, Eq)]
pub enum Wish {
    /// Calls of this target are followed in their callers.
    Inline(CodePoint),
    /// The procedures that begin there know their base.
    Base(CodePoint),
    /// They take over so many more of their callers' bytes.
    Arguments { target: CodePoint, more: u8 },
    /// The nodes of the procedures that begin there are told apart by the bank, though RAM shadows it.
    Banks(CodePoint),
    /// Main's stack begins below this address.
    Top(u16),
}

/// What a run came to.
#[derive(Clone, Copy, PartialEq, Eq)]
pub enum RunEnd {
    /// All nodes are covered.
    Finished,
    Failed(Failure),
    /// LD SP,n16 was met for the first time, and sets another stack than the configuration says.
    StackSet { sp: u16 },
    /// The configuration is to say something else first.
    Wanted(Wish),
    /// There would be more procedures than a certificate has.
    Crowded,
    /// The limit of nodes or of steps was met.
    TooLarge,
}

impl Wish {
    /// The target that it is about; none of the place of main's stack.
    pub fn target(self) -> Option<CodePoint> {
        match self {
            Wish::Inline(target)
            | Wish::Base(target)
            | Wish::Arguments { target, .. }
            | Wish::Banks(target) => Some(target),
            Wish::Top(_) => None,
        }
    }
}

impl Cause {
    /// The checker's reason.
    pub fn reason(self) -> Reason {
        match self {
            Cause::Area => Reason::Area,
            Cause::Bank => Reason::Bank,
            Cause::Unreadable { .. } => Reason::Unreadable,
            Cause::UndefinedOpcode { .. } => Reason::UndefinedOpcode,
            Cause::Stop => Reason::Stop,
            Cause::Halt => Reason::Halt,
            Cause::Stack(_) => Reason::Stack,
            Cause::PushesTooMany | Cause::Recursion { .. } => Reason::Depth,
            Cause::Store { .. } => Reason::Store,
            Cause::CartridgeRam { .. } | Cause::CopiesCartridgeRam { .. } => Reason::CartridgeRam,
            Cause::OamTransfer(_) => Reason::OamTransfer,
            Cause::JumpHl => Reason::JumpHl,
            Cause::ReturnInMain
            | Cause::ReturnWithBytes { .. }
            | Cause::ReturnToUnknown
            | Cause::ReturnWithOthers => Reason::Return,
            Cause::InterruptWithoutStack { .. } => Reason::Interrupt,
        }
    }
}

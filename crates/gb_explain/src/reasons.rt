//! What each reason of the checker says of a certificate's node.

use crate::advice::{self, Advice};
use gb_verify::Reason;

const ENTRY: Advice = Advice {
    problem: "The certificate doesn't begin as the console does: at $0100 in bank 0, in the state of power-up.",
    remedy: "Make a new certificate with certify. By hand, begin procedure 0 with the values of docs/MACHINE.md.",
    remedy_in_c: None,
    anchor: "wrong-entry",
};

const STACK: Advice = Advice {
    problem: "This instruction uses a stack that isn't set, takes too much from it, or moves SP out of it.",
    ..advice::STACK_MOVED
};

const DEPTH: Advice = Advice {
    problem: "The stack can grow past what the certificate allows for this procedure.",
    remedy: "Push less, or raise the need of this procedure and of its callers. No need is enough for recursion.",
    remedy_in_c: None,
    ..advice::STACK_TOO_DEEP
};

const STORE: Advice = Advice {
    problem: "This store can reach an address that the certificate doesn't let this procedure write.",
    ..advice::POINTER
};

const UNCOVERED: Advice = Advice {
    problem: "The certificate doesn't cover the state in which the program goes on from here.",
    remedy: "Make a new certificate with certify. By hand, add a node there, or widen the nearest one.",
    remedy_in_c: None,
    anchor: "uncovered",
};

const CALLEE: Advice = Advice {
    problem: "No procedure of the certificate can be called here.",
    remedy: "Make a new certificate with certify. By hand, add a procedure there, or put its ranges inside its caller's.",
    remedy_in_c: None,
    anchor: "wrong-callee",
};

const RETURN: Advice = Advice {
    problem: "The certificate doesn't allow this procedure to return here.",
    remedy: "Pop all that was pushed, and end main in a loop. By hand, let the procedure return and widen its exit.",
    remedy_in_c: None,
    anchor: "wrong-return",
};

const INTERRUPT: Advice = Advice {
    problem: "An interrupt can fire here, and the certificate has no procedure that handles it.",
    remedy: "Set SP before `ei`, and write a handler at the vector, at least `reti`. Or keep its bit in IE clear.",
    remedy_in_c: None,
    anchor: "unhandled-interrupt",
};

/// What a reason says, by the rules of every version.
pub(crate) fn advice_on(reason: Reason) -> Advice {
    match reason {
        Reason::Entry => ENTRY,
        Reason::Area => advice::AREA,
        Reason::Bank => advice::BANK,
        Reason::Unreadable => advice::PATCHED_CODE,
        Reason::UndefinedOpcode => advice::UNDEFINED_OPCODE,
        Reason::Stop => advice::STOP,
        Reason::Halt => advice::HALT,
        Reason::Stack => STACK,
        Reason::Depth => DEPTH,
        Reason::Store => STORE,
        Reason::CartridgeRam => advice::GATE_CLOSED,
        Reason::OamTransfer => advice::TRANSFER_ACCESS,
        Reason::JumpHl => advice::JUMP_HL,
        Reason::Uncovered => UNCOVERED,
        Reason::Callee => CALLEE,
        Reason::Return => RETURN,
        Reason::Interrupt => INTERRUPT,
    }
}

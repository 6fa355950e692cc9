//! What registers, conditions and operations are called (Pan Docs: CPU Instruction Set).

use gb_ops::op::{AluOp, Condition, Indirect, Operand, Pair, Shift, StackPair};

pub fn operand(operand: Operand) -> &'static str {
    match operand {
        Operand::Register(register) => register.name(),
        Operand::AtHl => "(HL)",
    }
}

pub fn pair(pair: Pair) -> &'static str {
    match pair {
        Pair::Bc => "BC",
        Pair::De => "DE",
        Pair::Hl => "HL",
        Pair::Sp => "SP",
    }
}

pub fn stack_pair(pair: StackPair) -> &'static str {
    match pair {
        StackPair::Bc => "BC",
        StackPair::De => "DE",
        StackPair::Hl => "HL",
        StackPair::Af => "AF",
    }
}

pub fn indirect(indirect: Indirect) -> &'static str {
    match indirect {
        Indirect::Bc => "(BC)",
        Indirect::De => "(DE)",
        Indirect::HlIncrement => "(HL+)",
        Indirect::HlDecrement => "(HL-)",
    }
}

pub fn condition(condition: Condition) -> &'static str {
    match condition {
        Condition::NotZero => "NZ",
        Condition::Zero => "Z",
        Condition::NotCarry => "NC",
        Condition::Carry => "C",
    }
}

/// An operation up to its operand. Only those that are spelled of HL or SP too name A.
pub fn operation(operation: AluOp) -> &'static str {
    match operation {
        AluOp::Add => "ADD A,",
        AluOp::Adc => "ADC A,",
        AluOp::Sub => "SUB ",
        AluOp::Sbc => "SBC A,",
        AluOp::And => "AND ",
        AluOp::Xor => "XOR ",
        AluOp::Or => "OR ",
        AluOp::Cp => "CP ",
    }
}

pub fn shift(shift: Shift) -> &'static str {
    match shift {
        Shift::Rlc => "RLC",
        Shift::Rrc => "RRC",
        Shift::Rl => "RL",
        Shift::Rr => "RR",
        Shift::Sla => "SLA",
        Shift::Sra => "SRA",
        Shift::Swap => "SWAP",
        Shift::Srl => "SRL",
    }
}

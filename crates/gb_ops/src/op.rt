//! The instructions of the opcode table, decoded.

/// An eight-bit register, in the order of the opcodes' register field.
#[derive(Clone, Copy, PartialEq, Eq)]
pub enum Register {
    B,
    C,
    D,
    E,
    H,
    L,
    A,
}

impl Register {
    /// What it is called (Pan Docs: CPU Registers and Flags).
    pub fn name(self) -> &'static str {
        match self {
            Register::A => "A",
            Register::B => "B",
            Register::C => "C",
            Register::D => "D",
            Register::E => "E",
            Register::H => "H",
            Register::L => "L",
        }
    }
}

/// What an instruction on one byte works on.
#[derive(Clone, Copy, PartialEq, Eq)]
pub enum Operand {
    Register(Register),
    /// The byte at the address in HL.
    AtHl,
}

/// A register pair.
#[derive(Clone, Copy, PartialEq, Eq)]
pub enum Pair {
    Bc,
    De,
    Hl,
    Sp,
}

/// A register pair of PUSH and POP.
#[derive(Clone, Copy, PartialEq, Eq)]
pub enum StackPair {
    Bc,
    De,
    Hl,
    Af,
}

/// Where `LD A,(..)` and `LD (..),A` through a pair find their address.
#[derive(Clone, Copy, PartialEq, Eq)]
pub enum Indirect {
    Bc,
    De,
    /// HL, which then counts up.
    HlIncrement,
    /// HL, which then counts down.
    HlDecrement,
}

/// What holds the address of a byte in memory.
#[derive(Clone, Copy, PartialEq, Eq)]
pub enum Pointer {
    Bc,
    De,
    Hl,
    /// `FF00+C`.
    HighC,
}

/// The condition of a jump, a call or a return.
#[derive(Clone, Copy, PartialEq, Eq)]
pub enum Condition {
    NotZero,
    Zero,
    NotCarry,
    Carry,
}

/// An eight-bit operation of A with an operand.
#[derive(Clone, Copy, PartialEq, Eq)]
pub enum AluOp {
    Add,
    Adc,
    Sub,
    Sbc,
    And,
    Xor,
    Or,
    Cp,
}

/// A rotation or a shift of a byte.
#[derive(Clone, Copy, PartialEq, Eq)]
pub enum Shift {
    Rlc,
    Rrc,
    Rl,
    Rr,
    Sla,
    Sra,
    Swap,
    Srl,
}

/// An instruction with its operands.
#[derive(Clone, Copy, PartialEq, Eq)]
pub enum Op {
    Nop,
    Stop,
    Halt,
    /// `LD rr,n16`.
    LoadPair(Pair, u16),
    /// `LD (rr),A`.
    StoreA(Indirect),
    /// `LD A,(rr)`.
    LoadA(Indirect),
    IncrementPair(Pair),
    DecrementPair(Pair),
    Increment(Operand),
    Decrement(Operand),
    /// `LD r,n8`.
    LoadImmediate(Operand, u8),
    /// RLCA, RRCA, RLA and RRA.
    RotateA(Shift),
    /// `LD (n16),SP`.
    StoreSp(u16),
    AddHl(Pair),
    /// `JR e8`; the displacement is signed.
    JumpRelative(u8),
    JumpRelativeIf(Condition, u8),
    DecimalAdjust,
    Complement,
    SetCarry,
    ComplementCarry,
    /// `LD r,r'`, the target first.
    Load(Operand, Operand),
    Alu(AluOp, Operand),
    AluImmediate(AluOp, u8),
    ReturnIf(Condition),
    Return,
    ReturnFromInterrupt,
    Pop(StackPair),
    Push(StackPair),
    JumpIf(Condition, u16),
    Jump(u16),
    CallIf(Condition, u16),
    Call(u16),
    /// `RST`, with the address that it calls.
    Restart(u8),
    /// `LDH (FF00+n8),A`.
    StoreHigh(u8),
    /// `LDH A,(FF00+n8)`.
    LoadHigh(u8),
    /// `LDH (FF00+C),A`.
    StoreHighC,
    /// `LDH A,(FF00+C)`.
    LoadHighC,
    /// `LD (n16),A`.
    StoreAbsolute(u16),
    /// `LD A,(n16)`.
    LoadAbsolute(u16),
    /// `ADD SP,e8`.
    AddSp(u8),
    /// `LD HL,SP+e8`.
    LoadHlSp(u8),
    LoadSpHl,
    JumpHl,
    DisableInterrupts,
    EnableInterrupts,
    Shift(Shift, Operand),
    /// `BIT n,r`.
    Bit(u8, Operand),
    /// `RES n,r`.
    Reset(u8, Operand),
    /// `SET n,r`.
    Set(u8, Operand),
}

/// A row of the opcode table: an instruction, its length in bytes and its M-cycles.
#[derive(Clone, Copy, PartialEq, Eq)]
pub struct Row {
    pub op: Op,
    pub length: u8,
    pub cycles: u8,
    /// The M-cycles where a condition isn't met.
    pub cycles_not_taken: u8,
}

//! Where instructions read and write besides their own bytes.

ghost use Rattle.std.specs.Prelude.{◌≡◌};
ghost use Rattle.gb_faults.specs.Touch.{opcode_touch};

/// Where an instruction reads or writes, as its opcode says.
#[derive(Clone, Copy, PartialEq, Eq)]
pub enum Touch {
    Nothing,
    /// The byte at BC.
    Bc,
    /// The byte at DE.
    De,
    /// The byte at HL.
    Hl,
    /// The byte at the address in its second and third byte.
    Word,
    /// It stores A in FF00 to FFFF.
    HighStore,
    /// It reads a word at SP, or does nothing where its condition isn't met.
    Pop,
    /// It pushes a word, or does nothing where its condition isn't met.
    Push,
    /// The byte after the prefix CB says it.
    Prefixed,
    /// `LD (n16),SP`, and the undefined opcodes.
    Other,
}

const O: Touch = Touch::Nothing;

const B: Touch = Touch::Bc;

const D: Touch = Touch::De;

const H: Touch = Touch::Hl;

const W: Touch = Touch::Word;

const S: Touch = Touch::HighStore;

const P: Touch = Touch::Pop;

const C: Touch = Touch::Push;

const X: Touch = Touch::Prefixed;

const U: Touch = Touch::Other;

/// Sixteen opcodes a line.
static TOUCHES: [Touch; 256] = [
    O, O, B, O, O, O, O, O, U, O, B, O, O, O, O, O, // 00
    O, O, D, O, O, O, O, O, O, O, D, O, O, O, O, O, // 10
    O, O, H, O, O, O, O, O, O, O, H, O, O, O, O, O, // 20
    O, O, H, O, H, H, H, O, O, O, H, O, O, O, O, O, // 30
    O, O, O, O, O, O, H, O, O, O, O, O, O, O, H, O, // 40
    O, O, O, O, O, O, H, O, O, O, O, O, O, O, H, O, // 50
    O, O, O, O, O, O, H, O, O, O, O, O, O, O, H, O, // 60
    H, H, H, H, H, H, O, H, O, O, O, O, O, O, H, O, // 70
    O, O, O, O, O, O, H, O, O, O, O, O, O, O, H, O, // 80
    O, O, O, O, O, O, H, O, O, O, O, O, O, O, H, O, // 90
    O, O, O, O, O, O, H, O, O, O, O, O, O, O, H, O, // A0
    O, O, O, O, O, O, H, O, O, O, O, O, O, O, H, O, // B0
    P, P, O, O, C, C, O, C, P, P, O, X, C, C, O, C, // C0
    P, P, O, U, C, C, O, C, P, P, O, U, C, U, O, C, // D0
    S, P, S, U, U, C, O, C, O, O, W, U, U, U, O, C, // E0
    O, P, O, O, U, C, O, C, O, O, W, O, U, U, O, C, // F0
];

/// Where the instructions with this opcode read or write.
#[inline(always)]
pub fn touch_of(opcode: u8) -> Touch
    ensures { result ≡ opcode_touch opcode }
{
    TOUCHES[usize::from(opcode)]
}

//! What is known of register pairs besides their bytes: bounds of 16 bits, and links with what else a register or a byte of RAM holds
//! (abstract interpretation: a weakly relational domain; own format).

ghost use Rattle.std.specs.Prelude.{◌≡◌};
ghost use Rattle.gb_domain.specs.Pairs.{no_pairs};

use gb_ops::op::Register;

/// A pair of registers that holds a word.
#[derive(Clone, Copy)]
pub enum WordPair {
    Bc,
    De,
    Hl,
}

/// An interval of words, both ends included.
#[derive(Clone, Copy, PartialEq, Eq)]
pub struct Bounds {
    pub first: u16,
    pub last: u16,
}

/// Bounds of each pair.
#[derive(Clone, Copy, PartialEq, Eq)]
pub struct PairBounds {
    pub bc: Bounds,
    pub de: Bounds,
    pub hl: Bounds,
}

/// What a link reads beside its own pair.
#[derive(Clone, Copy)]
pub enum Other {
    Register(Register),
    Pair(WordPair),
    /// The byte at an address of RAM outside the stack region: so by the rules of version 4.
    Cell(u16),
    /// It counts as 0: so by the rules of version 4, where there is a base.
    Nothing,
}

/// Of its pair: pair + factor * other - base is one of the words from the sum on, as many more as the width, modulo 65,536. The
/// base is what a pair held as the procedure was entered; none counts as 0.
#[derive(Clone, Copy)]
pub struct Link {
    pub other: Other,
    /// -128 to 127, but 0, modulo 65,536.
    pub factor: u16,
    /// None by the rules of versions 1 to 3.
    pub base: Option<WordPair>,
    pub sum: u16,
    /// 0 by the rules of versions 1 to 3.
    pub width: u16,
}

/// What is known of a pair.
#[derive(Clone, Copy)]
pub struct PairFacts {
    pub bounds: Bounds,
    pub link: Option<Link>,
}

/// What is known of each pair.
#[derive(Clone, Copy)]
pub struct Pairs {
    pub bc: PairFacts,
    pub de: PairFacts,
    pub hl: PairFacts,
}

/// Any word.
pub const ANY_BOUNDS: Bounds = Bounds {
    first: 0,
    last: 0xFFFF,
};

/// Any words in each pair.
pub const ANY_PAIRS: PairBounds = PairBounds {
    bc: ANY_BOUNDS,
    de: ANY_BOUNDS,
    hl: ANY_BOUNDS,
};

/// Nothing is known of a pair.
pub const NOTHING_KNOWN: PairFacts = PairFacts {
    bounds: ANY_BOUNDS,
    link: None,
};

impl Default for Pairs {
    ghost is_default = { λ pairs. pairs ≡ no_pairs };

    /// Nothing is known of any pair.
    fn default() -> Pairs {
        Pairs {
            bc: NOTHING_KNOWN,
            de: NOTHING_KNOWN,
            hl: NOTHING_KNOWN,
        }
    }
}

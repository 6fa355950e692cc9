//! What a certificate lacks, where a reason has to do with the stack, with other nodes, with procedures or with interrupts.

use crate::{BrokenFact, Differences};
use gb_verify::{Halves, Range, Rules};

/// How much is on the stack: words by the rules of versions 1 and 2, bytes by those of version 3.
#[derive(Clone, Copy)]
pub enum Amount {
    Words(usize),
    Bytes(usize),
}

/// What the program goes on after.
#[derive(Clone, Copy)]
pub enum After {
    /// The instruction itself.
    Instruction,
    /// The procedure that it calls.
    Call(u16),
    /// The procedure that handles the interrupt.
    Handler(u16),
    /// The instruction that sets SP in a routine, so that main starts again.
    Restart,
    /// What is called, where it goes on in this procedure, since none is entered.
    Inlined(u16),
}

/// Where the program goes on, and after what. It prints as the beginning of a sentence.
#[derive(Clone, Copy)]
pub struct GoesOn {
    pub after: After,
    pub address: u16,
}

/// The stack grows too deep.
#[derive(Clone, Copy)]
pub enum TooDeep {
    /// More would be held than the procedure needs.
    Need {
        held: Amount,
        procedure: u16,
        need: Amount,
    },
    /// More would be held than a state can.
    State {
        held: Amount,
        room: Amount,
    },
    /// A callee would need more than its caller has.
    Callee {
        /// What waits below it.
        waiting: Amount,
        callee: u16,
        wanted: Amount,
        sum: Amount,
        procedure: u16,
        need: Amount,
    },
}

/// No node covers what is left.
#[derive(Clone, Copy)]
pub enum Uncovered {
    /// The procedure has none where it goes on.
    NoNode { way: GoesOn, procedure: u16 },
    /// This one comes nearest.
    Node { way: GoesOn, node: u32 },
    /// A callee gives back more bytes than a state holds besides those that wait.
    Overfull { way: GoesOn },
}

/// No procedure is called, or one that may not be.
#[derive(Clone, Copy)]
pub enum Uncallable {
    /// None begins at the address.
    NoProcedure {
        address: u16,
    },
    /// One does, but in another state.
    Entry {
        procedure: u16,
        address: u16,
    },
    /// One does, and takes more items over than its caller has.
    Items {
        procedure: u16,
        address: u16,
        count: usize,
        held: usize,
    },
    /// One does, and says a base that isn't so many bytes below its caller's, if that is known.
    Base {
        procedure: u16,
        address: u16,
        base: u16,
        below: Option<usize>,
    },
    /// One may write where its caller may not.
    Range {
        callee: u16,
        range: Range,
        procedure: u16,
    },
}

/// A return that isn't right.
#[derive(Clone, Copy)]
pub enum Unreturnable {
    /// Main returns.
    Main,
    /// A procedure returns that is said not to.
    NoExit { procedure: u16 },
    /// Words are left on the stack.
    Held { held: Amount },
    /// A procedure returns in another state.
    Exit { procedure: u16 },
    /// There is no word to pop.
    NoWord { held: Amount },
    /// The word that is popped says neither that the procedure returns nor where it goes on.
    Lost { word: Halves, is_main: bool },
}

/// What is missing. Each prints a line; after one that ends with a colon come the parts that differ.
#[derive(Clone, Copy)]
pub enum GapKind {
    TooDeep(TooDeep),
    Uncovered(Uncovered),
    Uncallable(Uncallable),
    Unreturnable(Unreturnable),
    /// The stack isn't set.
    StackNotSet,
}

/// What claims the state that doesn't cover what is left.
#[derive(Clone, Copy)]
pub enum Claim {
    Node(u32),
    Exit,
}

/// What is missing, and the parts that differ, if states are compared. It prints some lines, the last without its end.
#[derive(Clone, Copy)]
pub struct Gap {
    pub kind: GapKind,
    pub compared: Option<(Claim, Differences)>,
}

/// All that is missing where a node goes on. It prints some lines, the last without its end.
#[derive(Clone, Copy)]
pub struct Gaps {
    /// The bit of the interrupt that fires, where it is an interrupt that isn't provided for.
    pub interrupt: Option<u8>,
    pub first: Gap,
    /// What is missing besides, where one of the two would do.
    pub second: Option<Gap>,
    /// The fact that the instruction's store breaks, where it is claimed to hold.
    pub broken: Option<BrokenFact>,
}

impl Amount {
    /// So many bytes.
    pub(crate) fn of(rules: Rules, bytes: usize) -> Amount {
        match rules {
            Rules::Simple => Amount::Words(bytes / 2),
            Rules::Extended => Amount::Bytes(bytes),
        }
    }

    pub(crate) fn count(self) -> usize {
        match self {
            Amount::Words(count) | Amount::Bytes(count) => count,
        }
    }
}

impl Gap {
    /// A gap without compared states.
    pub(crate) fn plain(kind: GapKind) -> Gap {
        Gap {
            kind,
            compared: None,
        }
    }
}

impl Gaps {
    /// One gap alone.
    pub(crate) fn of(first: Gap) -> Gaps {
        Gaps {
            interrupt: None,
            first,
            second: None,
            broken: None,
        }
    }

    /// The parts that differ, if states are compared.
    fn differences(&self) -> Option<Differences> {
        let (_, differences) = self.first.compared?;
        Some(differences)
    }

    /// The first fact that the nearest state claims and that isn't shown.
    pub(crate) fn unshown_fact(&self) -> Option<u16> {
        self.differences()?.unshown_fact()
    }

    /// How to fix what version 4 of certificates claims besides, where that is what isn't shown.
    pub(crate) fn remedy(&self) -> Option<&'static str> {
        self.differences()?.remedy()
    }

    /// A gap without compared states.
    pub(crate) fn plain(kind: GapKind) -> Gaps {
        Gaps::of(Gap::plain(kind))
    }
}

//! The texts of gaps.

use crate::difference::KnownPart;
use crate::gap::{
    After, Amount, Claim, Gap, GapKind, Gaps, GoesOn, TooDeep, Uncallable, Uncovered, Unreturnable,
};
use crate::{Differences, StateDifference};
use gb_spelling::interrupt_name;
use gb_verify::Halves;
use std::fmt;

impl Amount {
    fn unit(self) -> &'static str {
        match self {
            Amount::Words(1) => "word",
            Amount::Words(_) => "words",
            Amount::Bytes(1) => "byte",
            Amount::Bytes(_) => "bytes",
        }
    }

    fn verb(self) -> &'static str {
        if self.count() == 1 { "is" } else { "are" }
    }

    /// What waits on the stack while a callee runs.
    fn waits(self) -> &'static str {
        match self {
            Amount::Words(_) => "and the return address wait",
            Amount::Bytes(1) => "waits",
            Amount::Bytes(_) => "wait",
        }
    }
}

impl fmt::Display for Amount {
    fn fmt<W: fmt::Write>(&self, f: &mut fmt::Formatter<W>) -> fmt::Result {
        write!(f, "{} {}", self.count(), self.unit())
    }
}

impl fmt::Display for GoesOn {
    fn fmt<W: fmt::Write>(&self, f: &mut fmt::Formatter<W>) -> fmt::Result {
        let GoesOn { after, address } = *self;
        match after {
            After::Instruction => write!(f, "The program goes on at ${address:04X}"),
            After::Call(callee) => write!(
                f,
                "After its call of procedure {callee}, the program goes on at ${address:04X}"
            ),
            After::Handler(handler) => write!(
                f,
                "After the handler, procedure {handler}, the program goes on at ${address:04X}"
            ),
            After::Restart => write!(f, "Main starts again at ${address:04X}"),
            After::Inlined(procedure) => write!(
                f,
                "Procedure {procedure} could go on there itself, and doesn't cover this state"
            ),
        }
    }
}

impl fmt::Display for TooDeep {
    fn fmt<W: fmt::Write>(&self, f: &mut fmt::Formatter<W>) -> fmt::Result {
        match *self {
            TooDeep::Need {
                held,
                procedure,
                need,
            } => write!(
                f,
                "{held} would be on the stack, and procedure {procedure} may use {}",
                need.count()
            ),
            TooDeep::State { held, room } => write!(
                f,
                "{held} would be on the stack, and a node can have {}",
                room.count()
            ),
            TooDeep::Callee {
                waiting,
                callee,
                wanted,
                sum,
                procedure,
                need,
            } => write!(
                f,
                "{waiting} {}, procedure {callee} needs {}: {} in all, and procedure {procedure} may use {}",
                waiting.waits(),
                wanted.count(),
                sum.count(),
                need.count()
            ),
        }
    }
}

fn fmt_no_node<W: fmt::Write>(
    goes_on: GoesOn,
    procedure: u16,
    f: &mut fmt::Formatter<W>,
) -> fmt::Result {
    match goes_on.after {
        After::Inlined(_) => write!(f, "{goes_on}: it has no node there"),
        After::Restart => write!(f, "{goes_on}, and has no node there"),
        After::Instruction | After::Call(_) | After::Handler(_) => {
            write!(f, "{goes_on}, and procedure {procedure} has no node there")
        }
    }
}

impl fmt::Display for Uncovered {
    fn fmt<W: fmt::Write>(&self, f: &mut fmt::Formatter<W>) -> fmt::Result {
        match *self {
            Uncovered::NoNode { way, procedure } => fmt_no_node(way, procedure, f),
            Uncovered::Node { way, node } => {
                write!(f, "{way}. Node {node} is nearest, but differs:")
            }
            Uncovered::Overfull { way } => {
                write!(f, "{way} with more than 255 bytes on the stack")
            }
        }
    }
}

/// How the base is wrong: so many bytes below that of the caller, if that is known.
fn fmt_below<W: fmt::Write>(below: Option<usize>, f: &mut fmt::Formatter<W>) -> fmt::Result {
    match below {
        None => write!(f, "and its caller's base is unknown"),
        Some(0) => write!(f, "which isn't its caller's base"),
        Some(bytes) => {
            let bytes = Amount::Bytes(bytes);
            write!(f, "which isn't {bytes} below its caller's base")
        }
    }
}

/// That a procedure begins at an address.
fn fmt_begins<W: fmt::Write>(
    procedure: u16,
    address: u16,
    f: &mut fmt::Formatter<W>,
) -> fmt::Result {
    write!(f, "Procedure {procedure} begins at ${address:04X}")
}

impl fmt::Display for Uncallable {
    fn fmt<W: fmt::Write>(&self, f: &mut fmt::Formatter<W>) -> fmt::Result {
        match *self {
            Uncallable::NoProcedure { address } => {
                write!(f, "No procedure but main begins at ${address:04X}")
            }
            Uncallable::Entry { procedure, address } => {
                fmt_begins(procedure, address, f)?;
                write!(f, ", but its first node differs:")
            }
            Uncallable::Items {
                procedure,
                address,
                count,
                held,
            } => {
                fmt_begins(procedure, address, f)?;
                write!(
                    f,
                    " and takes {count} bytes of its caller's stack, which has {held}"
                )
            }
            Uncallable::Base {
                procedure,
                address,
                base,
                below,
            } => {
                fmt_begins(procedure, address, f)?;
                write!(f, " with base ${base:04X}, ")?;
                fmt_below(below, f)
            }
            Uncallable::Range {
                callee,
                range,
                procedure,
            } => write!(
                f,
                "Procedure {callee} may write ${:04X}-${:04X}, which is in no range of procedure {procedure}",
                range.first, range.last
            ),
        }
    }
}

/// A word that is popped and says nothing.
fn fmt_lost<W: fmt::Write>(word: Halves, is_main: bool, f: &mut fmt::Formatter<W>) -> fmt::Result {
    let beginning = if is_main {
        "Nothing called main, and the address that it pops is unknown"
    } else {
        "The address that is popped is neither the return address nor known"
    };
    let (high, low) = (KnownPart::Copy(word.high), KnownPart::Copy(word.low));
    write!(f, "{beginning}: high byte {high}, low byte {low}")
}

impl fmt::Display for Unreturnable {
    fn fmt<W: fmt::Write>(&self, f: &mut fmt::Formatter<W>) -> fmt::Result {
        match *self {
            Unreturnable::Main => write!(f, "This is main, and nothing called it"),
            Unreturnable::NoExit { procedure } => {
                write!(
                    f,
                    "By the certificate, procedure {procedure} doesn't return"
                )
            }
            Unreturnable::Held { held } => write!(f, "{held} {} still on the stack", held.verb()),
            Unreturnable::Exit { procedure } => {
                write!(f, "Procedure {procedure} returns, but its exit differs:")
            }
            Unreturnable::NoWord { held } => {
                write!(
                    f,
                    "{held} {} on the stack, and a return pops 2",
                    held.verb()
                )
            }
            Unreturnable::Lost { word, is_main } => fmt_lost(word, is_main, f),
        }
    }
}

impl fmt::Display for GapKind {
    fn fmt<W: fmt::Write>(&self, f: &mut fmt::Formatter<W>) -> fmt::Result {
        match *self {
            GapKind::TooDeep(kind) => write!(f, "{kind}"),
            GapKind::Uncovered(kind) => write!(f, "{kind}"),
            GapKind::Uncallable(kind) => write!(f, "{kind}"),
            GapKind::Unreturnable(kind) => write!(f, "{kind}"),
            GapKind::StackNotSet => write!(f, "SP isn't set"),
        }
    }
}

impl fmt::Display for Claim {
    fn fmt<W: fmt::Write>(&self, f: &mut fmt::Formatter<W>) -> fmt::Result {
        match *self {
            Claim::Node(node) => write!(f, "node {node}"),
            Claim::Exit => write!(f, "the exit"),
        }
    }
}

/// A line for each of the first parts that differ, and how many more there are.
fn fmt_differences<W: fmt::Write>(
    claim: Claim,
    differences: &Differences,
    f: &mut fmt::Formatter<W>,
) -> fmt::Result {
    for told in &differences.first {
        if let Some(difference) = *told {
            let StateDifference {
                part,
                left,
                claimed,
            } = difference;
            write!(f, "\n    {part}: {left}; {claim} has {claimed}")?;
        }
    }
    match differences.more() {
        0 => Ok(()),
        1 => write!(f, "\n    and 1 more difference"),
        more => write!(f, "\n    and {more} more differences"),
    }
}

impl fmt::Display for Gap {
    fn fmt<W: fmt::Write>(&self, f: &mut fmt::Formatter<W>) -> fmt::Result {
        write!(f, "  {}", self.kind)?;
        match &self.compared {
            None => Ok(()),
            Some((claim, differences)) => fmt_differences(*claim, differences, f),
        }
    }
}

impl fmt::Display for Gaps {
    fn fmt<W: fmt::Write>(&self, f: &mut fmt::Formatter<W>) -> fmt::Result {
        if let Some(interrupt) = self.interrupt {
            let name = interrupt_name(interrupt);
            write!(f, "  {name} can fire here:\n")?;
        }
        write!(f, "{}", self.first)?;
        if let Some(broken) = self.broken {
            write!(f, "\n{broken}")?;
        }
        match &self.second {
            None => Ok(()),
            Some(second) => write!(f, "\n{second}"),
        }
    }
}

//! A finding as lines for a person.

use crate::Symbols;
use crate::known::{ShownKnown, lower_name};
use crate::problem::{Problem, fmt_recursion};
use crate::reached::{ShownPassed, ShownReached};
use crate::state::ShownState;
use crate::topic::{advice_on, instruction_advice, remedy_of};
use gb_facts::interrupt_at;
use gb_findings::crowd::{Count, Crowd, Multiplied, Multiplier, ReachedLimit};
use gb_findings::finding::{Finding, InstructionFinding, Spent};
use gb_findings::gb_fixpoint::code_point::CodePoint;
use gb_findings::gb_ops::machine::Region;
use gb_findings::gb_ops::op::Register;
use gb_findings::gb_symbols::{ShownAddress, SymbolOffset};
use std::fmt;

/// How many values a byte has.
const BYTES: usize = 256;

/// A finding as lines for a person, the last without its end.
#[derive(Clone, Copy)]
pub struct ShownFinding<'a> {
    pub finding: &'a Finding,
    pub symbols: &'a Symbols<'a>,
}

/// Addresses one after another.
fn fmt_addresses<W: fmt::Write>(
    addresses: &[u16],
    symbols: &Symbols<'_>,
    f: &mut fmt::Formatter<W>,
) -> fmt::Result {
    let mut before = " ";
    for address in addresses {
        let address = ShownAddress {
            symbols: &*symbols,
            bank: None,
            address: *address,
        };
        write!(f, "{before}{address}")?;
        before = ", ";
    }
    Ok(())
}

/// The handlers that don't restore what they switch.
fn fmt_handlers<W: fmt::Write>(handlers: &[u16], f: &mut fmt::Formatter<W>) -> fmt::Result {
    for handler in handlers {
        let name = interrupt_at(*handler).unwrap_or("an interrupt");
        write!(
            f,
            " The handler of {name} may return with another bank or RAM state."
        )?;
    }
    Ok(())
}

/// What else is known of the cause.
fn fmt_notes<W: fmt::Write>(
    finding: &InstructionFinding,
    symbols: &Symbols<'_>,
    f: &mut fmt::Formatter<W>,
) -> fmt::Result {
    if finding.is_too_large {
        write!(
            f,
            " Keeping more values apart here goes over the limit of nodes (--nodes) or of copies."
        )?;
    }
    if !finding.kept_in.is_empty() && finding.load.is_none() {
        write!(f, " The pointer may come from RAM, at")?;
        fmt_addresses(&finding.kept_in, symbols, f)?;
        write!(f, ".")?;
    }
    if !finding.left_out.is_empty() {
        write!(
            f,
            " The analysis keeps the values of 64 bytes of RAM at most, and left out"
        )?;
        fmt_addresses(&finding.left_out, symbols, f)?;
        write!(f, ".")?;
    }
    match finding.follows_from {
        Some(cause) => fmt_cause(cause, symbols, f),
        None => fmt_handlers(&finding.switching, f),
    }
}

/// Where the finding is from which another one follows.
fn fmt_cause<W: fmt::Write>(
    cause: CodePoint,
    symbols: &Symbols<'_>,
    f: &mut fmt::Formatter<W>,
) -> fmt::Result {
    let place = ShownAddress {
        symbols: &*symbols,
        bank: cause.bank,
        address: cause.address,
    };
    write!(
        f,
        " The wrong bank may be mapped here: see the finding at {place}."
    )
}

/// Where it is: the label, the address and the instruction.
fn fmt_place<W: fmt::Write>(
    finding: &InstructionFinding,
    symbols: &Symbols<'_>,
    f: &mut fmt::Formatter<W>,
) -> fmt::Result {
    let place = ShownAddress {
        symbols: &*symbols,
        bank: finding.bank,
        address: finding.address,
    };
    let code = finding.code;
    write!(f, "{place}: {code}")
}

/// What can go wrong at an instruction.
fn fmt_instruction_problem<W: fmt::Write>(
    finding: &InstructionFinding,
    symbols: &Symbols<'_>,
    f: &mut fmt::Formatter<W>,
) -> fmt::Result {
    let problem = Problem {
        finding: &*finding,
        symbols: &*symbols,
    };
    write!(f, "{problem}")?;
    fmt_notes(finding, symbols, f)
}

/// How the code gets there.
fn fmt_reached<W: fmt::Write>(
    finding: &InstructionFinding,
    symbols: &Symbols<'_>,
    f: &mut fmt::Formatter<W>,
) -> fmt::Result {
    let reached = ShownReached {
        finding: &*finding,
        symbols: &*symbols,
    };
    let passed = ShownPassed {
        finding: &*finding,
        symbols: &*symbols,
    };
    write!(f, "\n  Reached by: {reached}{passed}")
}

/// What is known there.
fn fmt_known<W: fmt::Write>(
    finding: &InstructionFinding,
    symbols: &Symbols<'_>,
    f: &mut fmt::Formatter<W>,
) -> fmt::Result {
    let known = ShownKnown {
        finding: &*finding,
        symbols: &*symbols,
    };
    write!(f, "{known}")
}

/// A failure at an instruction, up to what is known there.
fn fmt_instruction<W: fmt::Write>(
    finding: &InstructionFinding,
    symbols: &Symbols<'_>,
    f: &mut fmt::Formatter<W>,
) -> fmt::Result {
    let why = instruction_advice(finding).problem;
    fmt_place(finding, symbols, f)?;
    write!(f, "\n  ")?;
    fmt_instruction_problem(finding, symbols, f)?;
    write!(f, "\n  {why}")?;
    fmt_reached(finding, symbols, f)?;
    fmt_known(finding, symbols, f)
}

/// What there is to say of a finding that is at no single instruction.
#[derive(Clone, Copy)]
pub(crate) struct ShownOther<'a> {
    pub(crate) finding: &'a Finding,
    pub(crate) symbols: &'a Symbols<'a>,
}

impl fmt::Display for ShownOther<'_> {
    fn fmt<W: fmt::Write>(&self, f: &mut fmt::Formatter<W>) -> fmt::Result {
        fmt_other(self.finding, self.symbols, f)
    }
}

/// Which limit was reached.
fn fmt_limit<W: fmt::Write>(crowd: &Crowd, f: &mut fmt::Formatter<W>) -> fmt::Result {
    let Crowd {
        nodes,
        procedures,
        limit,
        ..
    } = crowd;
    match limit {
        ReachedLimit::Nodes(most) => write!(
            f,
            "The analysis took more than {most} nodes, with {procedures} copies of routines."
        ),
        ReachedLimit::Procedures => write!(
            f,
            "The analysis reached its limit of 255 copies of routines, with {nodes} nodes."
        ),
        ReachedLimit::Steps => write!(
            f,
            "The analysis reached its limit of steps, with {nodes} nodes and {procedures} copies of routines."
        ),
    }
}

/// Counts at places: `12 at draw (00:0250)`.
fn fmt_counts<W: fmt::Write>(
    counts: &[Count],
    symbols: &Symbols<'_>,
    between: &'static str,
    f: &mut fmt::Formatter<W>,
) -> fmt::Result {
    let mut before = " ";
    for count in counts {
        let place = ShownAddress {
            symbols: &*symbols,
            bank: count.point.bank,
            address: count.point.address,
        };
        let count = count.count;
        write!(f, "{before}{count} {between} {place}")?;
        before = ", ";
    }
    Ok(())
}

/// A byte of RAM; of a program in C as a part of its variable, whose label has an underscore before it.
fn fmt_variable<W: fmt::Write>(
    symbols: &Symbols<'_>,
    address: u16,
    f: &mut fmt::Formatter<W>,
) -> fmt::Result {
    match symbols.place(0, address) {
        Some(SymbolOffset { name, offset }) if symbols.is_of_c() => {
            let name = name.strip_prefix("_").unwrap_or(name);
            if offset == 0 {
                write!(f, "the variable {name} (${address:04X})")
            } else {
                write!(f, "byte {offset} of the variable {name} (${address:04X})")
            }
        }
        _ => {
            let byte = ShownAddress {
                symbols: &*symbols,
                bank: None,
                address,
            };
            write!(f, "{byte}")
        }
    }
}

/// A register; of a program in C what it may hold there.
fn fmt_register<W: fmt::Write>(
    symbols: &Symbols<'_>,
    register: Register,
    f: &mut fmt::Formatter<W>,
) -> fmt::Result {
    let name = lower_name(register);
    if symbols.is_of_c() {
        write!(f, "an index or a local variable (in register {name})")
    } else {
        write!(f, "{name}")
    }
}

/// How many values a byte has at a place: ranges of values were counted, and there may be more of them than values.
fn fmt_values<W: fmt::Write>(
    values: usize,
    place: &'static str,
    f: &mut fmt::Formatter<W>,
) -> fmt::Result {
    let values = values.min(BYTES);
    write!(f, " has {values} values {place}.")
}

/// What multiplies the first of some places, and where.
fn fmt_multiplied<W: fmt::Write>(
    multiplied: Multiplied,
    symbols: &Symbols<'_>,
    place: &'static str,
    f: &mut fmt::Formatter<W>,
) -> fmt::Result {
    let values = multiplied.values;
    write!(f, "\n  What multiplies the first: ")?;
    match multiplied.by {
        Multiplier::Register(register) => {
            fmt_register(symbols, register, f)?;
            fmt_values(values, place, f)
        }
        Multiplier::Cell(address) => {
            fmt_variable(symbols, address, f)?;
            fmt_values(values, place, f)
        }
        Multiplier::Bank => write!(f, "the mapped bank has {values} values {place}."),
        Multiplier::Stack => write!(f, "the stack has {values} different contents {place}."),
    }
}

/// Where there is most of something, and what multiplies it at the first place.
fn fmt_most<W: fmt::Write>(
    most: &Most<'_>,
    symbols: &Symbols<'_>,
    f: &mut fmt::Formatter<W>,
) -> fmt::Result {
    if most.counts.is_empty() {
        return Ok(());
    }
    let about = most.about;
    write!(f, "\n  Most {about}:")?;
    fmt_counts(most.counts, symbols, most.between, f)?;
    match most.multiplied {
        Some(multiplied) => fmt_multiplied(multiplied, symbols, most.place, f),
        None => Ok(()),
    }
}

/// Places with most of something, in these words.
#[derive(Clone, Copy)]
struct Most<'a> {
    about: &'static str,
    counts: &'a [Count],
    /// The word between a count and its place.
    between: &'static str,
    multiplied: Option<Multiplied>,
    /// Where what multiplies has its values.
    place: &'static str,
}

/// A run that was too large.
fn fmt_crowd<W: fmt::Write>(
    crowd: &Crowd,
    symbols: &Symbols<'_>,
    f: &mut fmt::Formatter<W>,
) -> fmt::Result {
    let nodes = Most {
        about: "nodes",
        counts: &crowd.crowded,
        between: "at",
        multiplied: crowd.multiplied,
        place: "there",
    };
    let copies = Most {
        about: "copies",
        counts: &crowd.entered,
        between: "of",
        multiplied: crowd.parted,
        place: "when it is called",
    };
    fmt_limit(crowd, f)?;
    fmt_most(&nodes, symbols, f)?;
    fmt_most(&copies, symbols, f)
}

/// The RAM that a stack can use which needs so many bytes, down from the end of this region. It is all that lies below, in WRAM or
/// HRAM, where they don't fit there either; else the region was named by --stack.
fn room_for(bytes: usize, region: Region) -> Region {
    let last = region.last;
    let first = if last >= 0xFF80 { 0xFF80 } else { 0xC000 };
    let room = usize::from(last.saturating_sub(first)).saturating_add(1);
    if room < bytes {
        Region { first, last }
    } else {
        region
    }
}

/// A stack that needs more bytes than there is room for.
fn fmt_deep<W: fmt::Write>(bytes: usize, region: Region, f: &mut fmt::Formatter<W>) -> fmt::Result {
    let Region { first, last } = room_for(bytes, region);
    let room = u32::from(last.saturating_sub(first)).saturating_add(1);
    write!(
        f,
        "The stack needs at least {bytes} bytes, and has room for {room}, from ${first:04X} to ${last:04X}."
    )
}

/// What was used up.
fn spent_text(spent: Spent) -> &'static str {
    match spent {
        Spent::Rounds => "the limit of rounds",
        Spent::Steps => "the limit of steps",
        Spent::Time => "the end of the time that --seconds allows",
    }
}

/// A finding that is at no single instruction.
fn fmt_other<W: fmt::Write>(
    finding: &Finding,
    symbols: &Symbols<'_>,
    f: &mut fmt::Formatter<W>,
) -> fmt::Result {
    match finding {
        Finding::Instruction(_) => Ok(()),
        Finding::TooLarge(crowd) => fmt_crowd(crowd, symbols, f),
        Finding::NoStack { sp } => {
            let sp = *sp;
            write!(f, "`ld sp, ${sp:04X}` leaves no room for a stack.")
        }
        Finding::StackTooDeep { bytes, region } => fmt_deep(*bytes, *region, f),
        Finding::Recursion { target } => fmt_recursion(*target, symbols, f),
        Finding::OutOfRounds { rounds, spent } => {
            let (rounds, limit) = (*rounds, spent_text(*spent));
            if *spent == Spent::Time {
                return write!(f, "Gave up at {limit}.");
            }
            write!(
                f,
                "Gave up after {rounds} rounds of refinement, at {limit}."
            )
        }
        Finding::Internal => write!(f, "certify made a certificate that the checker rejects."),
    }
}

/// How to fix it, and where the documents say more.
fn fmt_fix<W: fmt::Write>(
    finding: &Finding,
    symbols: &Symbols<'_>,
    f: &mut fmt::Formatter<W>,
) -> fmt::Result {
    let remedy = remedy_of(finding, symbols);
    write!(f, "\n  Fix: {remedy}\n  ")?;
    fmt_more(finding, f)
}

/// A finding up to its fix.
fn fmt_body<W: fmt::Write>(
    finding: &Finding,
    symbols: &Symbols<'_>,
    f: &mut fmt::Formatter<W>,
) -> fmt::Result {
    if let Finding::Instruction(finding) = finding {
        return fmt_instruction(finding, symbols, f);
    }
    let why = advice_on(finding).problem;
    fmt_other(finding, symbols, f)?;
    write!(f, "\n  {why}")
}

impl fmt::Display for ShownFinding<'_> {
    fn fmt<W: fmt::Write>(&self, f: &mut fmt::Formatter<W>) -> fmt::Result {
        fmt_body(self.finding, self.symbols, f)?;
        fmt_fix(self.finding, self.symbols, f)
    }
}

/// A part of what is said of a finding.
#[derive(Clone, Copy, PartialEq, Eq)]
pub enum FindingPart {
    /// Label, address and instruction; nothing where it is at no instruction.
    Place,
    /// What can go wrong.
    Problem,
    /// Why that matters on the console.
    Why,
    /// How the code gets there; nothing where it is at no instruction.
    Reached,
    /// How to fix it.
    Remedy,
    /// The rule's number and the section of the documents.
    More,
    /// The whole state, in lines, each after a margin; nothing where it is at no instruction.
    State,
}

/// One part alone of what is said of a finding.
#[derive(Clone, Copy)]
pub struct ShownPart<'a> {
    pub finding: &'a Finding,
    pub symbols: &'a Symbols<'a>,
    pub part: FindingPart,
}

/// What can go wrong.
fn fmt_problem<W: fmt::Write>(
    finding: &Finding,
    symbols: &Symbols<'_>,
    f: &mut fmt::Formatter<W>,
) -> fmt::Result {
    match finding {
        Finding::Instruction(finding) => fmt_instruction_problem(finding, symbols, f),
        _ => fmt_other(finding, symbols, f),
    }
}

/// A text of its advice.
fn text_of(finding: &Finding, symbols: &Symbols<'_>, part: FindingPart) -> &'static str {
    match part {
        FindingPart::Why => advice_on(finding).problem,
        FindingPart::Remedy => remedy_of(finding, symbols),
        _ => "",
    }
}

/// The rule's number, where it is at an instruction, and the section.
fn fmt_more<W: fmt::Write>(finding: &Finding, f: &mut fmt::Formatter<W>) -> fmt::Result {
    let anchor = advice_on(finding).anchor;
    if let Finding::Instruction(finding) = finding {
        let rule = finding.cause.reason().number();
        write!(f, "Rule {rule}. ")?;
    }
    write!(f, "More: docs/FINDINGS.md#{anchor}")
}

/// A part that only a finding at an instruction has.
fn fmt_part_at<W: fmt::Write>(
    finding: &InstructionFinding,
    symbols: &Symbols<'_>,
    part: FindingPart,
    f: &mut fmt::Formatter<W>,
) -> fmt::Result {
    match part {
        FindingPart::Place => fmt_place(finding, symbols, f),
        FindingPart::Reached => {
            let reached = ShownReached {
                finding: &*finding,
                symbols: &*symbols,
            };
            write!(f, "{reached}")
        }
        FindingPart::State => {
            let state = ShownState(&finding.state);
            write!(f, "{state}")
        }
        _ => Ok(()),
    }
}

impl fmt::Display for ShownPart<'_> {
    fn fmt<W: fmt::Write>(&self, f: &mut fmt::Formatter<W>) -> fmt::Result {
        match self.part {
            FindingPart::Problem => fmt_problem(self.finding, self.symbols, f),
            FindingPart::Why | FindingPart::Remedy => {
                let text = text_of(self.finding, self.symbols, self.part);
                write!(f, "{text}")
            }
            FindingPart::More => fmt_more(self.finding, f),
            FindingPart::Place | FindingPart::Reached | FindingPart::State => match self.finding {
                Finding::Instruction(finding) => {
                    fmt_part_at(finding, self.symbols, self.part, f)
                }
                _ => Ok(()),
            },
        }
    }
}

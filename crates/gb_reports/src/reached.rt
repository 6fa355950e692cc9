//! How the code gets to an instruction: by which calls, and through which labels.

use gb_facts::interrupt_at;
use gb_findings::chain::{CallChain, EnteredRoutine, Root};
use gb_findings::finding::InstructionFinding;
use gb_findings::gb_symbols::{BankAddress, ShownLabel, SourceLine, Symbols};
use gb_findings::path::Segment;
use std::fmt;

/// The calls to an instruction: `main -> step -> draw_cell (called at step+$12)`.
#[derive(Clone, Copy)]
pub(crate) struct ShownReached<'a> {
    pub(crate) finding: &'a InstructionFinding,
    pub(crate) symbols: &'a Symbols<'a>,
}

/// What a chain begins with.
fn root_name(root: Root) -> &'static str {
    match root {
        Root::PowerUp => "main",
        Root::Interrupt { vector } => interrupt_at(vector).unwrap_or("an interrupt"),
    }
}

/// Whether a chain's first routine is main by its name, as C's is, so that what calls it needs no name.
fn is_main(symbols: &Symbols<'_>, chain: &CallChain) -> bool {
    match (chain.root, chain.calls.first()) {
        (Root::PowerUp, Some(call)) => {
            let name = name_at(symbols, call.bank, call.target).unwrap_or("");
            name == "_main" || name == "main"
        }
        _ => false,
    }
}

/// Whether a label before a routine would name it.
fn is_named_by_another(symbols: &Symbols<'_>, entered: &EnteredRoutine) -> bool {
    match symbols.place(entered.bank.unwrap_or(0), entered.target) {
        Some(place) => place.offset != 0,
        None => false,
    }
}

/// A routine that was entered, after some text. In a wrong bank the label before it is another thing's.
fn fmt_entered<W: fmt::Write>(
    symbols: &Symbols<'_>,
    before: &str,
    entered: &EnteredRoutine,
    is_astray: bool,
    f: &mut fmt::Formatter<W>,
) -> fmt::Result {
    if is_astray && is_named_by_another(symbols, entered) {
        let at = BankAddress {
            bank: entered.bank,
            address: entered.target,
        };
        return write!(f, "{before}{at}");
    }
    let label = ShownLabel {
        symbols: &*symbols,
        bank: entered.bank,
        address: entered.target,
    };
    write!(f, "{before}{label}")
}

/// The author's line of a call, where it is known.
fn line_of<'a>(symbols: &Symbols<'a>, call: &EnteredRoutine) -> Option<SourceLine<'a>> {
    symbols.line(call.from_bank.unwrap_or(0), call.from)
}

/// From how many bytes after it on a label doesn't name code in a wrong bank, which is mostly something else's.
const FAR: u16 = 0x80;

/// Whether a call in a wrong bank is far from the label before it.
fn is_far(symbols: &Symbols<'_>, call: &EnteredRoutine) -> bool {
    match symbols.place(call.from_bank.unwrap_or(0), call.from) {
        Some(place) => place.offset >= FAR,
        None => false,
    }
}

/// Where the last routine was called.
fn fmt_site<W: fmt::Write>(
    symbols: &Symbols<'_>,
    call: &EnteredRoutine,
    is_astray: bool,
    f: &mut fmt::Formatter<W>,
) -> fmt::Result {
    match line_of(symbols, call) {
        Some(line) => write!(f, " (called at {line})"),
        None if is_astray && is_far(symbols, call) => {
            let at = BankAddress {
                bank: call.from_bank,
                address: call.from,
            };
            write!(f, " (called at {at})")
        }
        None => {
            let label = ShownLabel {
                symbols: &*symbols,
                bank: call.from_bank,
                address: call.from,
            };
            write!(f, " (called at {label})")
        }
    }
}

/// The calls of a chain.
fn fmt_chain<W: fmt::Write>(
    symbols: &Symbols<'_>,
    chain: &CallChain,
    is_astray: bool,
    f: &mut fmt::Formatter<W>,
) -> fmt::Result {
    let mut before = "";
    if !is_main(symbols, chain) {
        let root = root_name(chain.root);
        write!(f, "{root}")?;
        before = " -> ";
    }
    for call in &chain.calls {
        fmt_entered(symbols, before, call, is_astray, f)?;
        before = " -> ";
    }
    match chain.calls.last() {
        Some(call) => fmt_site(symbols, call, is_astray, f),
        None => Ok(()),
    }
}

impl fmt::Display for ShownReached<'_> {
    fn fmt<W: fmt::Write>(&self, f: &mut fmt::Formatter<W>) -> fmt::Result {
        let is_astray = self.finding.follows_from.is_some();
        fmt_chain(self.symbols, &self.finding.chain, is_astray, f)
    }
}

/// The labels that were passed since the last call, or the addresses where there are no symbols: a line after an end of line,
/// or nothing where they say no more than the calls.
#[derive(Clone, Copy)]
pub(crate) struct ShownPassed<'a> {
    pub(crate) finding: &'a InstructionFinding,
    pub(crate) symbols: &'a Symbols<'a>,
}

/// The first address of some that were gone through one after another, and the last: without symbols no label names them.
fn fmt_segment<W: fmt::Write>(
    symbols: &Symbols<'_>,
    segment: Segment,
    f: &mut fmt::Formatter<W>,
) -> fmt::Result {
    let Segment { bank, first, last } = segment;
    let label = ShownLabel {
        symbols: &*symbols,
        bank,
        address: first,
    };
    if first == last {
        write!(f, "{label}")
    } else {
        write!(f, "{label}-{last:04X}")
    }
}

/// The addresses, one after another.
fn fmt_addresses<W: fmt::Write>(
    passed: &ShownPassed<'_>,
    f: &mut fmt::Formatter<W>,
) -> fmt::Result {
    let mut before = "\n  Through: ";
    for segment in &passed.finding.path.segments {
        write!(f, "{before}")?;
        fmt_segment(passed.symbols, *segment, f)?;
        before = ", ";
    }
    Ok(())
}

/// The name of the label at or before an address.
fn name_at<'a>(symbols: &Symbols<'a>, bank: Option<u16>, address: u16) -> Option<&'a str> {
    let symbol = symbols.place(bank.unwrap_or(0), address)?;
    Some(symbol.name)
}

/// The labels, one after another, each once.
fn fmt_names<W: fmt::Write>(passed: &ShownPassed<'_>, f: &mut fmt::Formatter<W>) -> fmt::Result {
    let finding = passed.finding;
    let mut before = "\n  Through: ";
    let mut last: Option<&str> = None;
    for segment in &finding.path.segments {
        let name = name_at(passed.symbols, segment.bank, segment.first);
        if let Some(text) = name
            && name != last
        {
            write!(f, "{before}{text}")?;
            before = ", ";
        }
        last = name;
    }
    Ok(())
}

/// Whether more than one label was passed.
fn has_names(passed: &ShownPassed<'_>) -> bool {
    let finding = passed.finding;
    let mut first: Option<&str> = None;
    for segment in &finding.path.segments {
        let name = name_at(passed.symbols, segment.bank, segment.first);
        if first.is_some() && name.is_some() && name != first {
            return true;
        }
        if first.is_none() {
            first = name;
        }
    }
    false
}

impl fmt::Display for ShownPassed<'_> {
    fn fmt<W: fmt::Write>(&self, f: &mut fmt::Formatter<W>) -> fmt::Result {
        if self.symbols.is_empty() {
            fmt_addresses(self, f)
        } else if has_names(self) {
            fmt_names(self, f)
        } else {
            Ok(())
        }
    }
}

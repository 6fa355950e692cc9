//! What `certify` reports where it makes no certificate.

use crate::around::{is_in_loop, reads_text};
use crate::chain::{CallChain, op_of};
use crate::crowd::Crowd;
use crate::divided::is_behind_division;
use crate::handlers::switching_handlers;
use crate::lost_bank::{BankLoser, LostBank, bank_finding};
use crate::path::{Path, Start, bank_of};
use crate::pushed_return::{PushedReturn, wild_return};
use gb_fixpoint::cause::{Cause, Failure};
use gb_fixpoint::code_point::CodePoint;
use gb_fixpoint::configuration::TargetPlace;
use gb_fixpoint::gb_ops::machine::Region;
use gb_fixpoint::gb_ops::op::Op;
use gb_fixpoint::register_set::{REGISTERS, RegisterSet};
use gb_fixpoint::types::{Run, RunNode};
use gb_fixpoint::{Abs, Code, Span, code_at};
use gb_symbols::{SourceLine, Symbols};
use std::alloc::{AllocError, Global};

/// An access through a pointer, reported where a byte of the pointer is loaded from RAM.
#[derive(Clone, Copy, PartialEq, Eq)]
pub struct PointerLoad {
    /// From where the byte may be loaded.
    pub from: Span,
    /// Where the access is.
    pub used_at: CodePoint,
}

/// A failure at an instruction.
#[derive(Drop)]
pub struct InstructionFinding {
    pub cause: Cause,
    /// The registers that hold the address of the access or the jump.
    pub registers: RegisterSet,
    /// The bytes of RAM from which that address was loaded, where it was.
    pub kept_in: Vec<u16>,
    /// Where the instruction loads a pointer, and the failure is at an access through it.
    pub load: Option<PointerLoad>,
    /// Whether the pointer comes from RAM, and nothing bounds its high byte.
    pub is_any_address: bool,
    /// Whether the pointer isn't known, and there was a division shortly before.
    pub is_divided: bool,
    /// Whether it is in a loop of few instructions.
    pub is_in_loop: bool,
    /// Whether it reads a byte through a pointer that isn't known, and then looks whether that is 0.
    pub reads_text: bool,
    /// The bytes of RAM from which it comes and whose values aren't kept, since there are too many.
    pub left_out: Vec<u16>,
    /// The return that takes pushed bytes for the return address, where that is what is found.
    pub pushed_return: Option<PushedReturn>,
    /// The bank that was left mapped, where that is what is found.
    pub lost_bank: Option<LostBank>,
    /// The finding of such a bank from which this one follows.
    pub behind: Option<BankFinding>,
    /// Where that one is, once it is reported.
    pub follows_from: Option<CodePoint>,
    /// Where the handlers begin that may return with another bank or gate, where that may be the cause.
    pub switching: Vec<u16>,
    /// Whether the header names cartridge RAM.
    pub has_ram: bool,
    /// The address, in the procedures that begin at another one.
    pub place: TargetPlace,
    pub address: u16,
    /// The bank shown there, where it is known.
    pub bank: Option<u16>,
    pub code: Code,
    /// The instruction, where it is known.
    pub op: Option<Op>,
    /// The routine that may be running when it is called here, where that is the cause.
    pub again: Option<CodePoint>,
    pub state: Abs,
    pub region: Region,
    pub path: Path,
    /// The calls from power-up or an interrupt to here.
    pub chain: CallChain,
    /// States were told apart further here, and a limit was reached.
    pub is_too_large: bool,
}

/// The finding of a bank that was left mapped. What is found later in that bank follows from it.
#[derive(Drop)]
pub struct BankFinding {
    alloc: Global,
    lost: LostBank,
    place: TargetPlace,
    address: u16,
    bank: Option<u16>,
    code: Code,
    op: Option<Op>,
    state: Abs,
    region: Region,
    path: Path,
    chain: CallChain,
}

/// What was used up by rounds of refinement.
#[derive(Clone, Copy, PartialEq, Eq)]
pub enum Spent {
    /// All rounds.
    Rounds,
    /// The steps of all rounds together.
    Steps,
    /// The time that was allowed.
    Time,
}

/// Why no certificate could be made.
#[derive(Drop)]
pub enum Finding {
    /// A failure at an instruction.
    Instruction(InstructionFinding),
    /// A limit of nodes, procedures or steps was reached.
    TooLarge(Crowd),
    /// LD SP,n16 leaves no room for a stack in WRAM or HRAM.
    NoStack { sp: u16 },
    /// The stack needs more bytes than there is room for.
    StackTooDeep { bytes: usize, region: Region },
    /// A procedure may be running when it is called.
    Recursion { target: CodePoint },
    /// So many rounds of refinement weren't enough.
    OutOfRounds { rounds: u32, spent: Spent },
    /// A certificate was made that the checker refuses.
    Internal,
}

/// Whether a line is known, and in C.
fn is_c_line(line: Option<SourceLine<'_>>) -> bool {
    match line {
        Some(line) => line.is_of_c(),
        None => false,
    }
}

impl Finding {
    /// Whether its fix is one for C.
    pub fn is_of_c(&self, symbols: &Symbols<'_>) -> bool {
        match self {
            Finding::Instruction(finding) => finding.is_of_c(symbols),
            _ => symbols.is_of_c(),
        }
    }

    /// The author's line, of a failure at an instruction; where a certificate gets too large, that with most nodes.
    pub fn line<'a>(&self, symbols: &Symbols<'a>) -> Option<SourceLine<'a>> {
        match self {
            Finding::Instruction(finding) => finding.line(symbols),
            Finding::TooLarge(crowd) => crowd.line(symbols),
            _ => None,
        }
    }
}

/// The routine that may be running when it is called, where that is the cause.
fn again_at(run: &Run<'_>, node: &RunNode, cause: Cause) -> Option<CodePoint> {
    match cause {
        Cause::Recursion { target } => {
            Some(CodePoint::of(run.rom, &node.state.core().ctl, target))
        }
        _ => None,
    }
}

impl InstructionFinding {
    /// Where it is.
    fn point(&self) -> CodePoint {
        CodePoint {
            address: self.address,
            bank: self.bank,
        }
    }

    /// Whether cartridge RAM's gate is known to be open there.
    pub fn has_open_gate(&self) -> bool {
        !self.state.core().ctl.gate.clear
    }

    /// The author's line: of the instruction, or else the last one on the way there.
    pub fn line<'a>(&self, symbols: &Symbols<'a>) -> Option<SourceLine<'a>> {
        let bank = self.bank.unwrap_or(0);
        if let Some(line) = symbols.line(bank, self.address) {
            return Some(line);
        }
        let mut last = match self.path.start {
            Start::Call { from, .. } => symbols.line(from.bank.unwrap_or(0), from.address),
            Start::PowerUp | Start::Interrupt { .. } => None,
        };
        for segment in &self.path.segments {
            if let Some(line) = symbols.line(segment.bank.unwrap_or(0), segment.last) {
                last = Some(line);
            }
        }
        last
    }

    /// Whether the author reads C there: by the line of the instruction or of the last call, or else by the program's sources.
    pub fn is_of_c(&self, symbols: &Symbols<'_>) -> bool {
        let call = match self.chain.calls.last() {
            Some(call) => symbols.line(call.from_bank.unwrap_or(0), call.from),
            None => None,
        };
        match (self.line(symbols), call) {
            (None, None) => symbols.is_of_c() && self.has_name_of_c(symbols),
            (line, call) => is_c_line(line) || is_c_line(call),
        }
    }

    /// Whether its label may be one that C's compiler made; in assembly it has no underscore before it.
    fn has_name_of_c(&self, symbols: &Symbols<'_>) -> bool {
        match symbols.place(self.bank.unwrap_or(0), self.address) {
            Some(place) => place.name.starts_with('_'),
            None => true,
        }
    }

    /// What there is to report of a run's failure. Where a return took pushed bytes shortly before, that is reported in its place.
    pub fn of(
        alloc: Global,
        run: &Run<'_>,
        failure: &Failure,
    ) -> Result<Option<InstructionFinding>, AllocError> {
        let wild = wild_return(run, failure);
        let at = match wild {
            Some(wild) => Failure {
                node: wild.node,
                ..*failure
            },
            None => *failure,
        };
        let Some(mut finding) = finding_at(alloc, run, &at)? else {
            return Ok(None);
        };
        if let Some(place) = run.place_of(failure.node) {
            finding.place = place;
        }
        finding.pushed_return = wild.map(|wild| wild.told);
        finding.behind = bank_finding(alloc, run, failure)?;
        Ok(Some(finding))
    }
}

/// Whether one of some registers isn't known at a node.
fn has_open(node: &RunNode, registers: &RegisterSet) -> bool {
    let values = node.state.core().registers;
    REGISTERS.iter().any(|register| {
        let val = values.get(*register);
        registers.contains(*register) && val.lo != val.hi
    })
}

/// What there is to report of a run's failure alone.
pub fn finding_at(
    alloc: Global,
    run: &Run<'_>,
    failure: &Failure,
) -> Result<Option<InstructionFinding>, AllocError> {
    let Some(node) = run.nodes.get(failure.node) else {
        return Ok(None);
    };
    let switching = switching_handlers(alloc, run, failure.cause)?;
    let is_open = has_open(node, &failure.registers);
    let is_divided = is_open && is_behind_division(alloc, run, node)?;
    let is_in_loop = is_in_loop(alloc, run, node)?;
    let reads_text = is_open && reads_text(alloc, run, node)?;
    let path = Path::to(alloc, run, failure.node, &failure.registers)?;
    let chain = CallChain::to(alloc, run, failure.node, &failure.registers)?;
    let address = node.key.address;
    let Some(place) = run.place_of(failure.node) else {
        return Ok(None);
    };
    Ok(Some(InstructionFinding {
        cause: failure.cause,
        registers: failure.registers,
        kept_in: Vec::new(alloc),
        load: None,
        is_any_address: false,
        is_divided,
        is_in_loop,
        reads_text,
        left_out: Vec::new(alloc),
        pushed_return: None,
        lost_bank: None,
        behind: None,
        follows_from: None,
        switching,
        has_ram: run.rom.ram_banks() > 0,
        place,
        address,
        bank: bank_of(run, node),
        code: code_at(&run.program(), run.rom, &node.state, address),
        op: op_of(run, node),
        again: again_at(run, node, failure.cause),
        state: node.state.copied(),
        region: run.configuration.region,
        path,
        chain,
        is_too_large: false,
    }))
}

impl BankFinding {
    /// What there is to report of the place where it is found, and the bank.
    pub fn of(alloc: Global, finding: InstructionFinding, lost: LostBank) -> BankFinding {
        let InstructionFinding {
            place,
            address,
            bank,
            code,
            op,
            state,
            region,
            path,
            chain,
            ..
        } = finding;
        BankFinding {
            alloc,
            lost,
            place,
            address,
            bank,
            code,
            op,
            state,
            region,
            path,
            chain,
        }
    }

    /// As a finding of its own.
    fn finding(self) -> InstructionFinding {
        let BankFinding {
            alloc,
            lost,
            place,
            address,
            bank,
            code,
            op,
            state,
            region,
            path,
            chain,
        } = self;
        InstructionFinding {
            cause: Cause::Bank,
            registers: RegisterSet::empty(),
            kept_in: Vec::new(alloc),
            load: None,
            is_any_address: false,
            is_divided: false,
            is_in_loop: false,
            reads_text: false,
            left_out: Vec::new(alloc),
            pushed_return: None,
            lost_bank: Some(lost),
            behind: None,
            follows_from: None,
            switching: Vec::new(alloc),
            has_ram: false,
            place,
            address,
            bank,
            code,
            op,
            again: None,
            state,
            region,
            path,
            chain,
            is_too_large: false,
        }
    }
}

/// Whether a finding is that of a bank that the same handler, routine or instruction left mapped.
fn is_same_loss(finding: &InstructionFinding, other: &BankFinding) -> bool {
    match finding.lost_bank {
        Some(lost) if lost.by == BankLoser::Instruction => {
            other.lost.by == lost.by && finding.place == other.place
        }
        Some(lost) => other.lost.by == lost.by,
        None => false,
    }
}

/// How many of the first findings are of banks that were left mapped.
fn losses_in(findings: &[Finding]) -> usize {
    let mut count: usize = 0;
    for finding in findings {
        match finding {
            Finding::Instruction(finding) if finding.lost_bank.is_some() => {
                count = count.saturating_add(1);
            }
            _ => return count,
        }
    }
    count
}

/// Reports a bank that was left mapped before all that isn't one, unless it is reported already, and answers where it is told.
fn report_loss(loss: BankFinding, findings: &mut Vec<Finding>) -> Result<CodePoint, AllocError> {
    for finding in &*findings {
        if let Finding::Instruction(told) = finding
            && is_same_loss(told, &loss)
        {
            return Ok(told.point());
        }
    }
    let finding = loss.finding();
    let point = finding.point();
    let place = losses_in(findings).min(findings.len());
    findings.insert(place, Finding::Instruction(finding))?;
    Ok(point)
}

/// Adds a finding to those that are reported; before them all the bank that was left mapped, if it follows from one. That a bank
/// isn't known says no more than where it was lost.
///
/// # Errors
///
/// Where memory ran out.
pub fn report_finding(finding: Finding, findings: &mut Vec<Finding>) -> Result<(), AllocError> {
    let Finding::Instruction(mut finding) = finding else {
        findings.push(finding)?;
        return Ok(());
    };
    let is_of_bank = finding.cause == Cause::Bank;
    if let Some(behind) = finding.behind.take() {
        finding.follows_from = Some(report_loss(behind, findings)?);
        if is_of_bank {
            return Ok(());
        }
    }
    findings.push(Finding::Instruction(finding))?;
    Ok(())
}

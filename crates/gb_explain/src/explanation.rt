//! What there is to say of a refused node.

ghost use Rattle.std.specs.Prelude.{◌≡◌, ◌<◌, length, slice_get, Some};
ghost use Rattle.gb_verify.specs.Below.gb_domain.Types.{Node};

use crate::gap::Gaps;
use crate::gaps::gaps_of;
use crate::reasons::advice_on;
use gb_spelling::Code;
use gb_verify::{Cert, Reason, Rom, known_byte, known_bytes, program_of};
use std::fmt;

/// A refused node with its place, its instruction and the reason. It prints some lines, the last without its end: the place and
/// the instruction, what is wrong, what the certificate lacks where that has to do with the stack's depth, other nodes,
/// procedures or, in version 3, interrupts, how to fix it, and the rule's number with its section of the documents.
#[derive(Clone, Copy)]
pub struct Explanation {
    pub node: u32,
    pub procedure: u16,
    pub address: u16,
    /// The bank that the certificate claims to be shown at the address.
    pub bank: u16,
    pub code: Code,
    pub reason: Reason,
    /// What the certificate lacks, where the reason has to do with more than the instruction.
    pub gaps: Option<Gaps>,
}

impl Explanation {
    /// What there is to say of the node with a number and a reason against it.
    pub fn of(rom: &Rom<'_>, cert: &Cert<'_>, number: u32, reason: Reason) -> Explanation
        requires { number < length cert.now.nodes }
        ensures node { result.node ≡ number }
        ensures reason { result.reason ≡ reason }
        // The place is the node's.
        ensures place { (n : Node) → slice_get cert.now.nodes number ≡ Some n → (result.procedure ≡ n.procedure) × (result.address ≡ n.address) × (result.bank ≡ n.bank) }
    {
        let node = cert.node(number);
        let state = node.state();
        let address = node.address();
        let program = program_of(rom, cert);
        Explanation {
            node: number,
            procedure: node.procedure(),
            address,
            bank: node.bank(),
            code: Code::of(
                known_bytes(&program, rom, &state, address),
                known_byte(&program, rom, &state, address),
                address,
            ),
            reason,
            gaps: gaps_of(rom, cert, &node, reason),
        }
    }
}

/// The node's place and its instruction, and what is wrong.
fn fmt_node<W: fmt::Write>(explanation: &Explanation, f: &mut fmt::Formatter<W>) -> fmt::Result {
    let Explanation {
        node,
        procedure,
        address,
        bank,
        code,
        reason,
        ..
    } = *explanation;
    let problem = advice_on(reason).problem;
    write!(
        f,
        "node {node}, procedure {procedure}, {bank:02X}:{address:04X}: {code}\n  {problem}"
    )
}

/// What the certificate lacks, if that is known.
fn fmt_gaps<W: fmt::Write>(gaps: Option<Gaps>, f: &mut fmt::Formatter<W>) -> fmt::Result {
    match gaps {
        None => Ok(()),
        Some(gaps) => write!(f, "\n{gaps}"),
    }
}

/// How to fix what the certificate lacks, or else what the reason is about.
fn remedy_of(explanation: &Explanation) -> &'static str {
    if let Some(gaps) = &explanation.gaps {
        if let Some(remedy) = gaps.remedy() {
            return remedy;
        }
    }
    advice_on(explanation.reason).remedy
}

impl fmt::Display for Explanation {
    fn fmt<W: fmt::Write>(&self, f: &mut fmt::Formatter<W>) -> fmt::Result {
        let remedy = remedy_of(self);
        let anchor = advice_on(self.reason).anchor;
        let rule = self.reason.number();
        fmt_node(self, f)?;
        fmt_gaps(self.gaps, f)?;
        write!(
            f,
            "\n  Fix: {remedy}\n  Rule {rule}. More: docs/FINDINGS.md#{anchor}"
        )
    }
}

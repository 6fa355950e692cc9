//! Certificates from their bytes.

ghost use Rattle.std.specs.Prelude.{◌≡◌, ◌==◌, ◌≤◌, ◌<◌, true, ℕ};
ghost use Rattle.gb_states.specs.Below.gb_fields.Format.{GivesUnlessMemory};
ghost use Rattle.gb_states.specs.Below.gb_fields.Limits.{node_limit, procedure_limit_by};
ghost use Rattle.gb_states.specs.Below.gb_fields.Reading.{head_in};
ghost use Rattle.gb_states.specs.WholeRules.{form_in};
ghost use Rattle.gb_states.specs.WholeReading.{facts_by, procedures_at, nodes_at, read_certificate};
ghost use Rattle.gb_states.specs.WholeSpelling as spelled;
ghost use Rattle.gb_cert.specs.Places.{IsLeft, ArePlaced, AreFormed, IsFound, FindsUnlessMemory};

use crate::order::entries_fault_at;
use crate::walk::{skip_node, skip_procedure_by};
use gb_domain::summary::Fact;
use gb_ops::machine::Region;
use gb_states::whole::facts_at;
use gb_states::{AnyHead, CertFault, ProcedureForm, any_head_at};
use std::alloc::Global;

/// The least bytes of a node.
const LEAST_NODE: usize = 47;

/// What walking over a certificate finds: its version, its region, its facts, what the spelling of each procedure's states depends
/// on, and where each procedure and each node begins.
#[derive(Drop)]
pub(crate) struct Walked {
    pub(crate) version: u8,
    pub(crate) region: Region,
    pub(crate) facts: Vec<Fact>,
    pub(crate) forms: Vec<ProcedureForm>,
    pub(crate) procedures: Vec<usize>,
    pub(crate) nodes: Vec<usize>,
}

/// The facts, which version 4 has.
fn read_facts(
    alloc: Global,
    version: u8,
    region: Region,
    bytes: &[u8],
) -> Result<(Vec<Fact>, &[u8]), CertFault>
    ensures { GivesUnlessMemory (λ x. (x.0.items, x.1.now)) result (facts_by (version == 4) region bytes.now) }
{
    if version == 4 {
        facts_at(alloc, region, bytes)
    } else {
        Ok((Vec::new(alloc), bytes))
    }
}

/// Finds for each procedure where its bytes begin and what the spelling of its states depends on. Also gives the bytes after the last
/// one.
#[tactic(auto, unfolding(gb_states::specs::WholeReading::procedures_at))]
fn place_procedures<'a>(
    alloc: Global,
    head: AnyHead,
    facts: u16,
    bytes: &'a [u8],
    start: &'a [u8],
) -> Result<((Vec<usize>, Vec<ProcedureForm>), &'a [u8]), CertFault>
    requires few { head.nodes ≤ node_limit head.version }
    requires last { head.region.last < 65535 }
    requires left { IsLeft bytes.now start.now }
    ensures { FindsUnlessMemory (λ x. AreFormed (head.version == 4) (spelled.procedure_by (head.version == 4) head.version head.region) bytes.now (procedures_at (head_in head) facts start.now) x.0.0.items x.0.1.items x.1.now) result (procedures_at (head_in head) facts start.now) }
{
    let mut places = Vec::with_capacity(alloc, head.procedures as usize)?;
    let mut forms = Vec::with_capacity(alloc, head.procedures as usize)?;
    let mut is_main = true;
    let mut rest = start;
    for _ in 0..head.procedures {
        let (form, after) = skip_procedure_by(
            head.version,
            facts,
            head.region,
            head.nodes,
            is_main,
            rest,
        )?;
        places.push(bytes.len() - rest.len())?;
        forms.push(form)?;
        is_main = false;
        rest = after;
    }
    Ok(((places, forms), rest))
}

/// Where in the bytes so many nodes begin, and the bytes behind them.
#[tactic(auto, unfolding(gb_states::specs::WholeReading::nodes_at))]
fn place_nodes<'a>(
    alloc: Global,
    head: AnyHead,
    facts: u16,
    forms: &[ProcedureForm],
    bytes: &'a [u8],
    start: &'a [u8],
) -> Result<(Vec<usize>, &'a [u8]), CertFault>
    requires procedures { head.procedures ≤ procedure_limit_by (head.version == 4) }
    requires few { (p : ℕ) → (head.version == 4) ≡ true → (form_in forms.now p).kept ≤ 16 }
    requires left { IsLeft bytes.now start.now }
    ensures { FindsUnlessMemory (λ x. ArePlaced (spelled.node_by (head.version == 4) head.version head.region (form_in forms.now)) bytes.now (nodes_at (head_in head) facts forms.now start.now) x.0.items x.1.now) result (nodes_at (head_in head) facts forms.now start.now) }
{
    // No more room than the bytes can have nodes.
    let room = (head.nodes as usize).min(start.len() / LEAST_NODE);
    let mut places = Vec::with_capacity(alloc, room)?;
    let mut before = (0, 0);
    let mut rest = start;
    for _ in 0..head.nodes {
        let (key, after) = skip_node(head, facts, forms, before, rest)?;
        places.push(bytes.len() - rest.len())?;
        before = key;
        rest = after;
    }
    Ok((places, rest))
}

/// The parts of the certificate that is all of the bytes.
pub(crate) fn walk(alloc: Global, bytes: &[u8]) -> Result<Walked, CertFault>
    ensures { FindsUnlessMemory (λ w. IsFound bytes.now w.version w.region w.facts.items w.forms.items w.procedures.items w.nodes.items) result (read_certificate bytes.now) }
{
    let (head, rest) = any_head_at(bytes)?;
    let (facts, rest) = read_facts(alloc, head.version, head.region, rest)?;
    let fact_count = facts.as_slice().len() as u16;
    let ((procedures, forms), rest) = place_procedures(alloc, head, fact_count, bytes, rest)?;
    let (nodes, rest) = place_nodes(alloc, head, fact_count, forms.as_slice(), bytes, rest)?;
    let fault = entries_fault_at(head.version, bytes, nodes.as_slice(), procedures.as_slice());
    if let Some(fault) = fault {
        return Err(fault);
    }
    if !rest.is_empty() {
        return Err(CertFault::LeftOver);
    }
    Ok(Walked {
        version: head.version,
        region: head.region,
        facts,
        forms,
        procedures,
        nodes,
    })
}

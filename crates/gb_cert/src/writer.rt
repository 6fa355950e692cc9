//! Certificates written from plain values.

ghost use Rattle.std.specs.Prelude.{◌≡◌, ◌≤◌, ◌<◌, ◌++◌, ◌∷◌, [], true, false, length, map, OnOk, IfOk, IfErr};
ghost use Rattle.std.specs.List.{flat_map, list_any};
ghost use Rattle.gb_states.specs.Below.gb_fields.Limits.{fact_limit, kept_limit, procedure_limit_by, node_limit};
ghost use Rattle.gb_states.specs.Below.gb_fields.Rules.{any_rules_of};
ghost use Rattle.gb_states.specs.Spelling as older;
ghost use Rattle.gb_states.specs.WholeRules.{IsCertificate};
ghost use Rattle.gb_states.specs.WholeSpelling as spelled;
ghost use Rattle.gb_states.specs.WholeSpelling.{Spells};
ghost use Rattle.gb_cert.specs.declared.writer.WriteFault.TheVariants.{Memory};
ghost use Rattle.gb_cert.specs.Spelled as by_version;
ghost use Rattle.gb_cert.specs.Written.{number_of, is_fourth, rules_in, exit_of, procedure_of, form_of, node_of, certificate_of, fact_room_by, kept_room_by, is_mark_by, is_wide, is_deep, has_no_entry, has_no_owner, names_many, has_mark, exit_has, returns_with, stands_with, has_unsayable, says_state, IsProcedureFault, ProceduresKeepLimits, IsNodeFault, IsWriteFault, KeepsLimits};

use crate::spellable::check;
use crate::spelled::{put, put_state, units, word};
use crate::spelled_whole::{put_facts, put_kept_addresses};
use gb_domain::summary::Fact;
use gb_domain::types::{Abs, Range, Rules};
use gb_ops::machine::Region;
use gb_states::limits::{FACT_LIMIT, KEPT_LIMIT};
use gb_states::{NEED_LIMIT, PROCEDURE_LIMIT, RANGE_LIMIT, limits};
use std::alloc::{AllocError, AllocFailed, Global};

/// The version of a certificate's format.
#[derive(Clone, Copy, Debug, PartialEq, Eq)]
pub enum Version {
    One,
    Two,
    Three,
    Four,
}

/// A procedure of a certificate that is to be written.
#[derive(Clone, Copy)]
pub struct ProcedurePlan<'a> {
    /// The number of its first node.
    pub entry: u32,
    /// The address above its items, 0 where it isn't known. In versions 1 and 2 main's is the region's end, and others are 0.
    pub base: u16,
    /// The bytes of stack that it needs: in whole words in versions 1 and 2.
    pub need: u16,
    /// Where it may write.
    pub ranges: &'a [Range],
    /// The addresses whose bytes are to be kept: none in versions 1 to 3.
    pub kept: &'a [u16],
    /// How many bytes below its base it puts its stack aside: 0 in versions 1 to 3.
    pub mark: u8,
    /// In what state it returns, if it does.
    pub exit: Option<&'a Abs>,
}

/// A node of a certificate that is to be written.
#[derive(Clone, Copy)]
pub struct NodePlan<'a> {
    /// The number of its procedure.
    pub procedure: u16,
    pub address: u16,
    pub bank: u16,
    pub state: &'a Abs,
}

/// A certificate that is to be written.
#[derive(Clone, Copy)]
pub struct CertificatePlan<'a> {
    pub version: Version,
    /// The stack region.
    pub region: Region,
    /// What is said of RAM for the whole program: nothing in versions 1 to 3.
    pub facts: &'a [Fact],
    /// The first one is main.
    pub procedures: &'a [ProcedurePlan<'a>],
    pub nodes: &'a [NodePlan<'a>],
}

/// Why no certificate was written.
#[derive(Clone, Copy, Debug, PartialEq, Eq)]
pub enum WriteFault {
    /// Memory ran out.
    Memory,
    /// There are more than 4,096 facts, or there is one in versions 1 to 3.
    Facts,
    /// There are more procedures than the version takes: 255, or 65,535 in version 4.
    Procedures,
    /// There are more nodes than the version takes: 65,535, or 1,048,576.
    Nodes,
    /// A procedure's need, or a state's bytes of the stack, are odd in number: they are spelled as words in versions 1 and 2.
    HalfWord,
    /// A state has more than 16 words of the stack, in version 1 or 2.
    Items,
    /// A state has more than 32 cells, in version 1 or 2.
    Cells,
    /// A state knows more of several parts together than the version can say: than a test of A, in version 1 or 2, or a link with a
    /// base or a width, in version 3. No version can say a link that reads nothing and has no base, or has a factor other than 1.
    Relations,
    /// A state says what the version can't: in version 1 or 2 that a value is a copy of the return word's high or low byte; in versions
    /// 1 to 3 that it is a copy of what its procedure declares, low bits of a value, that some of the controller's registers are kept
    /// and not all, or something about the whole program; in version 4 more than 7 low bits, or a kept byte with a number above 15.
    Values,
    /// A procedure has another base than the one that versions 1 and 2 mean.
    Base,
    /// A procedure has more than 8 ranges.
    Ranges,
    /// A procedure needs more than 8,192 bytes of stack.
    Need,
    /// A procedure begins at a node that isn't there.
    Entry,
    /// A procedure names more than 16 addresses to be kept, or one in versions 1 to 3.
    Kept,
    /// A procedure has a mark, in versions 1 to 3.
    Mark,
    /// A node belongs to a procedure that isn't there.
    Owner,
}

impl Version {
    /// Its number: 1, 2, 3 or 4.
    pub fn number(self) -> u8
        ensures { result ≡ number_of self }
    {
        match self {
            Version::One => 1,
            Version::Two => 2,
            Version::Three => 3,
            Version::Four => 4,
        }
    }

    /// Whether it has fields of its own for whole programs.
    pub fn is_fourth(self) -> bool
        ensures { result ≡ is_fourth self }
    {
        self.number() == 4
    }

    /// The rules of its states.
    pub fn rules(self) -> Rules
        ensures { result ≡ rules_in self }
    {
        if self.is_fourth() {
            Rules::Extended
        } else {
            Rules::of(self.number())
        }
    }

    /// The most facts that it takes.
    pub fn fact_limit(self) -> u16
        ensures { result ≡ fact_room_by (is_fourth self) }
    {
        if self.is_fourth() { FACT_LIMIT } else { 0 }
    }

    /// The most procedures that it takes.
    pub fn procedure_limit(self) -> u16
        ensures { result ≡ procedure_limit_by (is_fourth self) }
    {
        if self.is_fourth() {
            u16::MAX
        } else {
            PROCEDURE_LIMIT as u16
        }
    }

    /// The most addresses to be kept that a procedure names.
    pub fn kept_limit(self) -> u8
        ensures { result ≡ kept_room_by (is_fourth self) }
    {
        if self.is_fourth() { KEPT_LIMIT } else { 0 }
    }

    /// The most nodes that it takes.
    pub fn node_limit(self) -> u32
        ensures { result ≡ node_limit (number_of self) }
    {
        limits::node_limit(self.number())
    }
}

impl From<AllocError> for WriteFault {
    ghost from_gives = { λ _ e. e ≡ Memory };

    fn from(_e: AllocError) -> WriteFault {
        WriteFault::Memory
    }
}

impl<T: Drop> From<AllocFailed<T>> for WriteFault {
    ghost from_gives = { λ _ e. e ≡ Memory };

    fn from(_e: AllocFailed<T>) -> WriteFault {
        WriteFault::Memory
    }
}

/// Adds the number of a node, or of all nodes: two bytes in version 1, else four.
#[tactic(auto, unfolding(gb_states::specs::Numbers::node_number, crate::specs::Opened::node_limit))]
fn put_node_number(version: Version, number: u32, out: &mut Vec<u8>) -> Result<(), AllocError>
    requires { number ≤ node_limit (number_of version) }
    ensures { OnOk result (out.new.items ≡ out.old.items ++ older.node_number (number_of version) number) }
{
    match version {
        Version::One => put(&word(number as u16), out),
        Version::Two | Version::Three | Version::Four => {
            put(&word((number % 65536) as u16), out)?;
            put(&word((number / 65536) as u16), out)
        }
    }
}

/// The last of a file's letters.
fn letter(rules: Rules) -> u8
    ensures { result ≡ older.letter rules }
{
    match rules {
        Rules::Simple => b'C',
        Rules::Extended => b'X',
    }
}

/// Adds the number of a procedure, or of all procedures: two bytes in version 4, else one.
fn put_procedure_number(version: Version, number: u16, out: &mut Vec<u8>) -> Result<(), AllocError>
    requires { number ≤ procedure_limit_by (is_fourth version) }
    ensures { OnOk result (out.new.items ≡ out.old.items ++ spelled.procedure_count_by (is_fourth version) number) }
{
    if version.is_fourth() {
        put(&word(number), out)
    } else {
        put(&[number as u8], out)
    }
}

/// Adds the head, which comes before the facts and the procedures.
#[tactic(auto, unfolding(gb_states::specs::WholeSpelling::head, crate::specs::Opened::node_limit))]
fn put_head(plan: &CertificatePlan<'_>, out: &mut Vec<u8>) -> Result<(), AllocError>
    requires procedures { length plan.now.procedures.now ≤ procedure_limit_by (is_fourth plan.now.version) }
    requires nodes { length plan.now.nodes.now ≤ node_limit (number_of plan.now.version) }
    ensures { OnOk result (out.new.items ≡ out.old.items ++ spelled.head (certificate_of plan.now)) }
{
    let version = plan.version;
    put(&[b'G', b'B', b'B', letter(version.rules())], out)?;
    put(&[version.number()], out)?;
    put(&word(plan.region.first), out)?;
    put(&word(plan.region.last), out)?;
    put_procedure_number(version, plan.procedures.len() as u16, out)?;
    put_node_number(version, plan.nodes.len() as u32, out)
}

/// Adds the facts, in version 4.
fn put_facts_by(version: Version, facts: &[Fact], out: &mut Vec<u8>) -> Result<(), AllocError>
    requires { length facts.now ≤ fact_room_by (is_fourth version) }
    ensures { OnOk result (out.new.items ≡ out.old.items ++ spelled.facts_by (is_fourth version) facts.now) }
{
    if version.is_fourth() {
        put_facts(facts, out)
    } else {
        Ok(())
    }
}

/// Adds a range.
#[tactic(auto, unfolding(gb_states::specs::Spelling::range))]
fn put_range(range: &Range, out: &mut Vec<u8>) -> Result<(), AllocError>
    ensures { OnOk result (out.new.items ≡ out.old.items ++ older.range range.now) }
{
    put(&word(range.first), out)?;
    put(&word(range.last), out)
}

/// Adds ranges behind their count.
fn put_ranges(ranges: &[Range], out: &mut Vec<u8>) -> Result<(), AllocError>
    requires { length ranges.now ≤ 8 }
    ensures { OnOk result (out.new.items ≡ out.old.items ++ older.counted older.range ranges.now) }
{
    put(&[ranges.len() as u8], out)?;
    for range in ranges {
        put_range(range, out)?;
    }
    Ok(())
}

/// Adds whether a procedure returns, and in what state.
#[tactic(auto, using(crate::proofs::Refusing::state_said), unfolding(crate::specs::Spelled::exit))]
fn put_exit(
    version: Version,
    region: Region,
    base: u16,
    exit: Option<&Abs>,
    out: &mut Vec<u8>,
) -> Result<(), AllocError>
    requires { exit_has (has_unsayable version) (exit_of exit) ≡ false }
    ensures { OnOk result (out.new.items ≡ out.old.items ++ by_version.exit version region base (exit_of exit.entry)) }
{
    match exit {
        None => put(&[0], out),
        Some(state) => {
            put(&[1], out)?;
            put_state(version, region, base, state, out)
        }
    }
}

/// Adds a base, in versions 3 and 4.
fn put_base(rules: Rules, base: u16, out: &mut Vec<u8>) -> Result<(), AllocError>
    ensures { OnOk result (out.new.items ≡ out.old.items ++ older.base rules base) }
{
    match rules {
        Rules::Simple => Ok(()),
        Rules::Extended => put(&word(base), out),
    }
}

/// Adds the addresses to be kept and the mark, in version 4.
fn put_named(
    version: Version,
    procedure: &ProcedurePlan<'_>,
    out: &mut Vec<u8>,
) -> Result<(), AllocError>
    requires { length procedure.now.kept.now ≤ kept_room_by (is_fourth version) }
    ensures { OnOk result (out.new.items ≡ out.old.items ++ by_version.named_by (is_fourth version) (procedure_of procedure.now)) }
{
    if version.is_fourth() {
        put_kept_addresses(procedure.kept, out)?;
        put(&[procedure.mark], out)
    } else {
        Ok(())
    }
}

/// Adds all of a procedure but its entry.
#[tactic(auto, unfolding(crate::specs::Spelled::body))]
fn put_body(
    version: Version,
    region: Region,
    procedure: &ProcedurePlan<'_>,
    out: &mut Vec<u8>,
) -> Result<(), AllocError>
    requires ranges { length procedure.now.ranges.now ≤ 8 }
    requires kept { length procedure.now.kept.now ≤ kept_room_by (is_fourth version) }
    requires said { returns_with (has_unsayable version) procedure.now ≡ false }
    ensures { OnOk result (out.new.items ≡ out.old.items ++ by_version.body version region (procedure_of procedure.now)) }
{
    let rules = version.rules();
    put_base(rules, procedure.base, out)?;
    put(&word(units(rules, procedure.need)), out)?;
    put_ranges(procedure.ranges, out)?;
    put_named(version, procedure, out)?;
    put_exit(version, region, procedure.base, procedure.exit, out)
}

/// Adds a procedure.
#[tactic(auto, unfolding(crate::specs::Spelled::procedure))]
fn put_procedure(
    version: Version,
    region: Region,
    procedure: &ProcedurePlan<'_>,
    out: &mut Vec<u8>,
) -> Result<(), AllocError>
    requires entry { procedure.now.entry ≤ node_limit (number_of version) }
    requires ranges { length procedure.now.ranges.now ≤ 8 }
    requires kept { length procedure.now.kept.now ≤ kept_room_by (is_fourth version) }
    requires said { returns_with (has_unsayable version) procedure.now ≡ false }
    ensures { OnOk result (out.new.items ≡ out.old.items ++ by_version.procedure version region (procedure_of procedure.now)) }
{
    put_node_number(version, procedure.entry, out)?;
    put_body(version, region, procedure, out)
}

/// The base of the procedure with this number, or 0 if there is no such procedure.
fn base_of(procedures: &[ProcedurePlan<'_>], number: u16) -> u16
    ensures { result ≡ (form_of procedures.now number).base }
{
    match procedures.get(number as usize) {
        Some(procedure) => procedure.base,
        None => 0,
    }
}

/// Adds a node of one of these procedures.
#[tactic(auto, using(crate::proofs::Refusing::state_said), unfolding(crate::specs::Spelled::node))]
fn put_node(
    version: Version,
    region: Region,
    procedures: &[ProcedurePlan<'_>],
    node: &NodePlan<'_>,
    out: &mut Vec<u8>,
) -> Result<(), AllocError>
    requires procedure { node.now.procedure ≤ procedure_limit_by (is_fourth version) }
    requires said { stands_with (has_unsayable version) node.now ≡ false }
    ensures { OnOk result (out.new.items ≡ out.old.items ++ by_version.node version region (form_of procedures.now) (node_of node.now)) }
{
    put_procedure_number(version, node.procedure, out)?;
    put(&word(node.address), out)?;
    put(&word(node.bank), out)?;
    let base = base_of(procedures, node.procedure);
    put_state(version, region, base, node.state, out)
}

/// Adds all nodes, where each belongs to one of these procedures.
fn put_nodes(
    version: Version,
    region: Region,
    procedures: &[ProcedurePlan<'_>],
    nodes: &[NodePlan<'_>],
    out: &mut Vec<u8>,
) -> Result<(), WriteFault>
    requires few { length procedures.now ≤ procedure_limit_by (is_fourth version) }
    requires said { list_any (stands_with (has_unsayable version)) nodes.now ≡ false }
    ensures written { OnOk result (out.new.items ≡ out.old.items ++ flat_map (λ n. by_version.node version region (form_of procedures.now) (node_of n)) nodes.now) }
    ensures owners { OnOk result (list_any (has_no_owner (length procedures.now)) nodes.now ≡ false) }
    ensures fault { IfErr result (IsNodeFault (length procedures.now) nodes.now) }
{
    for node in nodes {
        if node.procedure as usize >= procedures.len() {
            return Err(WriteFault::Owner);
        }
        put_node(version, region, procedures, node, out)?;
    }
    Ok(())
}

/// Nothing, where a procedure keeps its limits, or else the one that it doesn't keep.
fn check_procedure(
    version: Version,
    nodes: u32,
    procedure: &ProcedurePlan<'_>,
) -> Result<(), WriteFault>
    ensures kept { OnOk result (ProceduresKeepLimits version nodes (procedure.now ∷ [])) }
    ensures fault { IfErr result (IsProcedureFault version nodes (procedure.now ∷ [])) }
{
    if procedure.ranges.len() > RANGE_LIMIT as usize {
        return Err(WriteFault::Ranges);
    }
    if procedure.need > NEED_LIMIT {
        return Err(WriteFault::Need);
    }
    if procedure.entry >= nodes {
        return Err(WriteFault::Entry);
    }
    if procedure.kept.len() > version.kept_limit() as usize {
        return Err(WriteFault::Kept);
    }
    if procedure.mark != 0 && !version.is_fourth() {
        return Err(WriteFault::Mark);
    }
    Ok(())
}

/// Adds all procedures, where they keep their limits.
fn put_procedures(
    version: Version,
    region: Region,
    nodes: u32,
    procedures: &[ProcedurePlan<'_>],
    out: &mut Vec<u8>,
) -> Result<(), WriteFault>
    requires few { nodes ≤ node_limit (number_of version) }
    requires said { list_any (returns_with (has_unsayable version)) procedures.now ≡ false }
    ensures written { OnOk result (out.new.items ≡ out.old.items ++ flat_map (λ p. by_version.procedure version region (procedure_of p)) procedures.now) }
    ensures kept { OnOk result (ProceduresKeepLimits version nodes procedures.now) }
    ensures fault { IfErr result (IsProcedureFault version nodes procedures.now) }
{
    for procedure in procedures {
        check_procedure(version, nodes, procedure)?;
        put_procedure(version, region, procedure, out)?;
    }
    Ok(())
}

/// Adds a certificate, where its procedures and nodes keep their limits.
#[tactic(auto, using(crate::proofs::Written::certificate_written, crate::proofs::Written::procedure_fault, crate::proofs::Written::node_fault), unfolding(crate::specs::Opened::node_limit))]
fn put_certificate(plan: &CertificatePlan<'_>, out: &mut Vec<u8>) -> Result<(), WriteFault>
    requires facts { length plan.now.facts.now ≤ fact_room_by (is_fourth plan.now.version) }
    requires procedures { length plan.now.procedures.now ≤ procedure_limit_by (is_fourth plan.now.version) }
    requires nodes { length plan.now.nodes.now ≤ node_limit (number_of plan.now.version) }
    requires exits { list_any (returns_with (has_unsayable plan.now.version)) plan.now.procedures.now ≡ false }
    requires states { list_any (stands_with (has_unsayable plan.now.version)) plan.now.nodes.now ≡ false }
    ensures written { OnOk result (out.new.items ≡ out.old.items ++ spelled.spelling (certificate_of plan.now)) }
    ensures kept { OnOk result (ProceduresKeepLimits plan.now.version (length plan.now.nodes.now) plan.now.procedures.now) }
    ensures owners { OnOk result (list_any (has_no_owner (length plan.now.procedures.now)) plan.now.nodes.now ≡ false) }
    ensures fault { IfErr result (IsWriteFault plan.now) }
{
    let version = plan.version;
    put_head(plan, out)?;
    put_facts_by(version, plan.facts, out)?;
    let count = plan.nodes.len() as u32;
    put_procedures(version, plan.region, count, plan.procedures, out)?;
    put_nodes(version, plan.region, plan.procedures, plan.nodes, out)?;
    Ok(())
}

/// The bytes of the certificate of these parts, in a version of the format: its one spelling.
///
/// # Errors
///
/// The limit that isn't kept, by its name, or Memory where memory ran out.
#[tactic(auto, using(crate::proofs::Written::refused_by, crate::proofs::Refusing::exits_said, crate::proofs::Refusing::nodes_said))]
pub fn write_certificate(alloc: Global, plan: &CertificatePlan<'_>) -> Result<Vec<u8>, WriteFault>
    // The bytes are the spelling of these parts.
    ensures spelling { IfOk result (λ bytes. bytes.items ≡ spelled.spelling (certificate_of plan.now)) }
    // They are a certificate where the parts are one.
    ensures spells { IsCertificate (certificate_of plan.now) → IfOk result (λ bytes. Spells bytes.items (certificate_of plan.now)) }
    // Bytes only where each limit is kept.
    ensures limits { OnOk result (KeepsLimits plan.now) }
    // A limit is named only where it is not kept.
    ensures fault { IfErr result (IsWriteFault plan.now) }
    // Where the parts are a certificate only memory may be wanting.
    ensures complete { IsCertificate (certificate_of plan.now) → IfErr result (λ fault. fault ≡ Memory) }
{
    if plan.facts.len() > plan.version.fact_limit() as usize {
        return Err(WriteFault::Facts);
    }
    if plan.procedures.len() > plan.version.procedure_limit() as usize {
        return Err(WriteFault::Procedures);
    }
    if plan.nodes.len() > plan.version.node_limit() as usize {
        return Err(WriteFault::Nodes);
    }
    check(plan)?;
    let mut bytes = Vec::new(alloc);
    put_certificate(plan, &mut bytes)?;
    Ok(bytes)
}

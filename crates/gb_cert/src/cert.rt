//! Certificates, in the bytes of their files.

ghost use Rattle.std.specs.Prelude.{◌≡◌, ◌==◌, ◌<◌, ◌≤◌, ◌-◌, true, false, ℕ, List, length, take, slice_get, Some, Ok, IfSome, IfOk};
ghost use Rattle.gb_domain.specs.Certificate.{Certificate};
ghost use Rattle.gb_domain.specs.Limits.{rules_of};
ghost use Rattle.gb_cert.specs.Places.{upgraded_version};
ghost use Rattle.gb_states.specs.Below.gb_fields.Format.{Gives, GivesUnlessMemory, both};
ghost use Rattle.gb_states.specs.Below.gb_fields.Reading.{word};
ghost use Rattle.gb_states.specs.Forms.{form_by};
ghost use Rattle.gb_states.specs.Rules as older;
ghost use Rattle.gb_states.specs.Spelling as spelled;
ghost use Rattle.gb_states.specs.WholeRules.{IsCertificate, form_in};
ghost use Rattle.gb_states.specs.WholeReading.{number_by, read_certificate};
ghost use Rattle.gb_states.specs.WholeSpelling as whole;
ghost use Rattle.gb_states.specs.WholeSpelling.{Spells};

use crate::node::NodeRef;
use crate::parse::{Walked, walk};
use crate::procedure::ProcedureRef;
use crate::walk::{form_in, skip_body};
use gb_domain::summary::Fact;
use gb_domain::types::Rules;
use gb_ops::machine::Region;
use gb_states::form::procedure_at;
use gb_states::numbers::word;
use gb_states::{CertFault, Form, ProcedureForm, from_place, front_at, node_number};
use std::alloc::{AllocError, Global};
use std::marker::Model;

/// A certificate of version 1, 2, 3 or 4, in the bytes of its file, which it borrows. It keeps its facts, where each procedure
/// and each node stands, and what the spelling of each procedure's states depends on. Contracts see its version, its procedures, its
/// nodes, its stack region and its facts.
#[derive(Drop)]
pub struct Cert<'a> {
    bytes: &'a [u8],
    version: u8,
    region: Region,
    facts: Vec<Fact>,
    forms: Vec<ProcedureForm>,
    procedures: Vec<usize>,
    nodes: Vec<usize>,
}

impl<'a> Model for Cert<'a> {
    ghost use Rattle.gb_domain.specs.Certificate.{Certificate};

    ghost Value = { Certificate };

    ghost use Rattle.gb_cert.specs.Places.{certificate_in, IsLaid};

    ghost view = { λ c. certificate_in c.bytes.now };

    ghost invariant = { λ c. IsLaid c.bytes.now c.version c.region c.facts.items c.forms.items c.procedures.items c.nodes.items (certificate_in c.bytes.now) };
}

/// The procedure, the address and the bank of a node.
#[inline(always)]
fn front_by(version: u8, bytes: &[u8]) -> Result<((u16, (u16, u16)), &[u8]), CertFault>
    ensures { Gives (λ x. (x.0, x.1.now)) result (both (number_by (version == 4)) (both word word) bytes.now) }
{
    if version == 4 {
        let (procedure, rest) = word(bytes)?;
        let (address, rest) = word(rest)?;
        let (bank, rest) = word(rest)?;
        Ok(((procedure, (address, bank)), rest))
    } else {
        let ((procedure, behind), rest) = front_at(bytes)?;
        Ok(((procedure as u16, behind), rest))
    }
}

/// How the states of the procedure with this number are spelled, by all procedures' forms.
#[inline(always)]
fn form_of(version: u8, facts: &[Fact], forms: &[ProcedureForm], procedure: u16) -> Form
    requires { length facts.now < 65536 }
    ensures { result ≡ form_by (version == 4) version (length facts.now) (form_in forms.now procedure) }
{
    if version == 4 {
        Form::Fourth(facts.len() as u16, form_in(forms, procedure))
    } else {
        Form::Older(Rules::of(version))
    }
}

/// The certificate that is all of the bytes.
fn read(alloc: Global, bytes: &[u8]) -> Result<Cert<'_>, CertFault>
    ensures { GivesUnlessMemory (λ c. c) result (read_certificate bytes.now) }
{
    let found = walk(alloc, bytes)?;
    Ok(Cert::of_parts(bytes, found))
}

impl<'a> Cert<'a> {
    ghost use Rattle.gb_cert.specs.Places.{certificate_in, IsFound};

    /// The certificate in these bytes, its parts as they were found.
    fn of_parts(bytes: &'a [u8], found: Walked) -> Cert<'a>
        requires { IsFound bytes.now found.version found.region found.facts.items found.forms.items found.procedures.items found.nodes.items }
        ensures { result ≡ certificate_in bytes.now }
    {
        let Walked {
            version,
            region,
            facts,
            forms,
            procedures,
            nodes,
        } = found;
        Cert {
            bytes,
            version,
            region,
            facts,
            forms,
            procedures,
            nodes,
        }
    }

    /// The certificate that the bytes spell, or the first fault. It borrows the bytes, and takes a place of 8 bytes for each
    /// procedure and each node, and room for its facts.
    pub fn parse(alloc: Global, bytes: &'a [u8]) -> Result<Cert<'a>, CertFault>
        // What is read is spelled so.
        ensures found { IfOk result (λ cert. Spells bytes.now cert) }
        // What is spelled so is read, unless memory runs out.
        ensures only { (cert : Certificate) → Spells bytes.now cert → GivesUnlessMemory (λ c. c) result (Ok cert) }
        // Which fault it is.
        ensures exact { GivesUnlessMemory (λ c. c) result (read_certificate bytes.now) }
    {
        let cert = read(alloc, bytes)?;
        Ok(cert)
    }

    /// Its version: 1, 2, 3 or 4.
    pub fn version(&self) -> u8
        ensures { result ≡ self.now.version }
    {
        self.version
    }

    /// The number of nodes, at most 1,048,576.
    pub fn nodes(&self) -> u32
        ensures { result ≡ length self.now.nodes }
    {
        self.nodes.len() as u32
    }

    /// The number of procedures, at most 65,535, or 255 in versions 1 to 3.
    pub fn procedures(&self) -> u16
        ensures { result ≡ length self.now.procedures }
    {
        self.procedures.len() as u16
    }

    /// The declared stack region. Each certificate keeps the rules of certificates.
    pub fn region(&self) -> Region
        ensures region { result ≡ self.now.region }
        ensures rules { IsCertificate self.now }
    {
        self.region
    }

    /// What it says of RAM for the whole program: nothing in versions 1 to 3.
    pub fn facts(&self) -> &[Fact]
        ensures { result.now ≡ self.now.facts }
    {
        self.facts.as_slice()
    }

    /// A node, by its number.
    #[inline(always)]
    pub fn node(&self, i: u32) -> NodeRef<'a>
        requires { i < length self.now.nodes }
        ensures { slice_get self.now.nodes i ≡ Some result }
    {
        let place = self.nodes[i as usize];
        let facts = self.facts.as_slice();
        let forms = self.forms.as_slice();
        match front_by(self.version, from_place(self.bytes, place)) {
            Ok((front, state)) => {
                let form = form_of(self.version, facts, forms, front.0);
                NodeRef::of_parts(form, front.0, front.1.0, front.1.1, self.region, state)
            }
            Err(_) => unreachable!(),
        }
    }

    /// A procedure, by its number.
    pub fn procedure(&self, i: u16) -> ProcedureRef<'a>
        requires { i < length self.now.procedures }
        ensures { slice_get self.now.procedures i ≡ Some result }
    {
        let place = self.procedures[i as usize];
        let facts = self.facts.as_slice().len() as u16;
        match node_number(self.version, from_place(self.bytes, place)) {
            Ok((entry, body)) => {
                ProcedureRef::of_parts(self.version, facts, i == 0, entry, self.region, body)
            }
            Err(_) => unreachable!(),
        }
    }

    /// The bytes of a procedure of version 1, 2 or 3 after its entry: in version 3 its base, then its need, its ranges and its
    /// exit.
    pub fn procedure_body(&self, i: u16) -> &'a [u8]
        requires number { i < length self.now.procedures }
        requires older { (self.now.version == 4) ≡ false }
        ensures { IfSome (slice_get self.now.procedures i) (λ p. result.now ≡ spelled.body (rules_of self.now.version) p) }
    {
        let start = self.procedures[i as usize];
        let Ok((_entry, body)) = node_number(self.version, from_place(self.bytes, start)) else {
            unreachable!();
        };
        let rules = Rules::of(self.version);
        let Ok(behind) = skip_body(rules, i == 0, self.region, body) else {
            unreachable!();
        };
        taken(body, behind)
    }

    /// All its bytes: its one spelling.
    pub fn bytes(&self) -> &'a [u8]
        ensures { Spells result.now self.now }
    {
        self.bytes
    }

    /// The bytes of all its nodes.
    pub fn node_bytes(&self) -> &'a [u8]
        ensures { result.now ≡ whole.nodes self.now.version self.now.region self.now.procedures self.now.nodes }
    {
        let place = self.nodes[0];
        from_place(self.bytes, place)
    }

    /// The head of the same certificate of version 1, 2 or 3, in version 2 if it is of version 1. After it come for each
    /// procedure its entry in four bytes and its body, and then the bytes of all nodes.
    #[tactic(auto, unfolding(crate::specs::Places::upgraded_version))]
    pub fn upgraded_head(&self) -> [u8; 14]
        requires { (self.now.version == 4) ≡ false }
        ensures head { result ≡ spelled.head (record self.now { version = upgraded_version self.now.version }) }
        ensures certificate { IsCertificate (record self.now { version = upgraded_version self.now.version }) }
    {
        let version = self.version;
        self.head_in(if version == 1 { 2 } else { version })
    }

    /// The head of a certificate of this version, 2 or 3, with the same region and as many procedures and nodes as one of
    /// version 1, 2 or 3.
    #[tactic(auto, unfolding(gb_states::specs::Spelling::head, gb_states::specs::Spelling::node_number))]
    pub fn head_in(&self, version: u8) -> [u8; 14]
        requires other { (version == 1) ≡ false }
        requires older { (self.now.version == 4) ≡ false }
        ensures { result ≡ spelled.head (record self.now { version = version }) }
    {
        let region = self.region();
        let nodes = self.nodes();
        let low = nodes % 65536;
        let high = nodes / 65536;
        [
            b'G',
            b'B',
            b'B',
            match Rules::of(version) {
                Rules::Simple => b'C',
                Rules::Extended => b'X',
            },
            version,
            (region.first % 256) as u8,
            (region.first / 256) as u8,
            (region.last % 256) as u8,
            (region.last / 256) as u8,
            self.procedures() as u8,
            (low % 256) as u8,
            (low / 256) as u8,
            (high % 256) as u8,
            (high / 256) as u8,
        ]
    }
}

/// The bytes before those that are left.
fn taken<'a>(bytes: &'a [u8], left: &[u8]) -> &'a [u8]
    requires { length left.now ≤ length bytes.now }
    ensures { result.now ≡ take (length bytes.now - length left.now) bytes.now }
{
    &bytes[..bytes.len() - left.len()]
}

/// The one spelling of a certificate, in its own version.
pub fn encode(alloc: Global, cert: &Cert<'_>) -> Result<Vec<u8>, AllocError>
    ensures { IfOk result (λ bytes. Spells bytes.items cert.now) }
{
    Vec::from_slice(alloc, cert.bytes())
}

/// A certificate has one spelling, and bytes spell at most one certificate.
pub fn one_spelling()
    ensures spelling { (a b : List ℕ) (cert : Certificate) → Spells a cert → Spells b cert → a ≡ b }
    ensures certificate { (bytes : List ℕ) (a b : Certificate) → Spells bytes a → Spells bytes b → a ≡ b }
{}

/// A certificate of versions 1 to 3 keeps the rules of these, whose definitions don't speak of version 4, and is spelled by them.
pub fn older_rules()
    ensures older { (cert : Certificate) → IsCertificate cert → (cert.version == 4) ≡ false → older.IsCertificate cert }
    ensures whole { (cert : Certificate) → older.IsCertificate cert → IsCertificate cert × ((cert.version == 4) ≡ false) }
    ensures older_spelling { (bytes : List ℕ) (cert : Certificate) → Spells bytes cert → (cert.version == 4) ≡ false → spelled.Spells bytes cert }
    ensures whole_spelling { (bytes : List ℕ) (cert : Certificate) → spelled.Spells bytes cert → Spells bytes cert }
{}

//! The head of a certificate.

ghost use Rattle.std.specs.Prelude.{◌≡◌, ◌==◌, ◌&&◌, nat_le};
ghost use Rattle.gb_fields.specs.Format.{Gives};
ghost use Rattle.gb_domain.specs.Areas.{is_area};
ghost use Rattle.gb_fields.specs.Rules.{is_version_of, is_whole, is_any_version_of, any_rules_of};
ghost use Rattle.gb_fields.specs.Reading.{magic_at, version_at, is_region, region_at, node_count_at, head_at, any_version_at, procedure_count_by, procedure_count_at, head_in, any_head_at};

use crate::fault::CertFault;
use crate::limits::{PROCEDURE_LIMIT, node_limit};
use crate::numbers::{byte, count_within, node_number, word};
use gb_domain::types::Rules;
use gb_ops::machine::Region;

/// What stands before the procedures and the nodes: the version, the stack region, and how many
/// procedures and nodes there are.
#[derive(Clone, Copy)]
pub struct Head {
    pub version: u8,
    pub region: Region,
    pub procedures: u8,
    pub nodes: u32,
}

/// The same in a certificate of any version: in version 4 two bytes say how many procedures there are.
#[derive(Clone, Copy)]
pub struct AnyHead {
    pub version: u8,
    pub region: Region,
    pub procedures: u16,
    pub nodes: u32,
}

/// The letters, by which files of version 3 differ from those of versions 1 and 2.
#[tactic(auto, unfolding(crate::specs::Reading::magic_at))]
fn magic_at(bytes: &[u8]) -> Result<(Rules, &[u8]), CertFault>
    ensures { Gives (λ x. (x.0, x.1.now)) result (magic_at bytes.now) }
{
    let (first, rest) = byte(bytes)?;
    let (second, rest) = byte(rest)?;
    let (third, rest) = byte(rest)?;
    let (fourth, rest) = byte(rest)?;
    let is_known = fourth == b'C' || fourth == b'X';
    if !(first == b'G' && second == b'B' && third == b'B' && is_known) {
        return Err(CertFault::Magic);
    }
    let rules = if fourth == b'X' {
        Rules::Extended
    } else {
        Rules::Simple
    };
    Ok((rules, rest))
}

/// Whether files with these letters have this version.
fn is_version_of(rules: Rules, version: u8) -> bool
    ensures { result ≡ is_version_of rules version }
{
    match rules {
        Rules::Simple => version == 1 || version == 2,
        Rules::Extended => version == 3,
    }
}

/// The letters, and a version that they begin.
#[tactic(auto, unfolding(crate::specs::Reading::version_at))]
fn version_at(bytes: &[u8]) -> Result<(u8, &[u8]), CertFault>
    ensures { Gives (λ x. (x.0, x.1.now)) result (version_at bytes.now) }
{
    let (rules, rest) = magic_at(bytes)?;
    let (version, rest) = byte(rest)?;
    if !is_version_of(rules, version) {
        return Err(CertFault::Version);
    }
    Ok((version, rest))
}

/// Whether so many bytes of the stack can be counted.
#[tactic(auto, unfolding(crate::specs::Limits::unit))]
fn is_whole(rules: Rules, bytes: u32) -> bool
    ensures { result ≡ is_whole rules bytes }
{
    match rules {
        Rules::Simple => bytes % 2 == 0,
        Rules::Extended => true,
    }
}

/// Whether the addresses from first to last are a stack region.
fn is_region(rules: Rules, first: u16, last: u16) -> bool
    ensures { result ≡ is_region rules (first, last) }
{
    let is_in_work_ram = 0xC000 <= first && last <= 0xDFFF;
    let is_in_high_ram = 0xFF80 <= first && last <= 0xFFFE;
    first <= last
        && (is_in_work_ram || is_in_high_ram)
        && is_whole(rules, (last - first) as u32 + 1)
}

#[tactic(auto, unfolding(crate::specs::Reading::region_at))]
fn region_at(rules: Rules, bytes: &[u8]) -> Result<(Region, &[u8]), CertFault>
    ensures { Gives (λ x. (x.0, x.1.now)) result (region_at rules bytes.now) }
{
    let (first, rest) = word(bytes)?;
    let (last, rest) = word(rest)?;
    if !is_region(rules, first, last) {
        return Err(CertFault::Region);
    }
    Ok((Region { first, last }, rest))
}

/// How many nodes there are, by the version.
#[tactic(auto, unfolding(crate::specs::Reading::node_count_at))]
fn node_count_at(version: u8, bytes: &[u8]) -> Result<(u32, &[u8]), CertFault>
    ensures { Gives (λ x. (x.0, x.1.now)) result (node_count_at version bytes.now) }
{
    let (nodes, rest) = node_number(version, bytes)?;
    if nodes > node_limit(version) {
        return Err(CertFault::Count);
    }
    if nodes == 0 {
        return Err(CertFault::Field);
    }
    Ok((nodes, rest))
}

#[tactic(auto, unfolding(crate::specs::Reading::head_at))]
pub fn head_at(bytes: &[u8]) -> Result<(Head, &[u8]), CertFault>
    ensures { Gives (λ x. (x.0, x.1.now)) result (head_at bytes.now) }
{
    let (version, rest) = version_at(bytes)?;
    let (region, rest) = region_at(Rules::of(version), rest)?;
    let (procedures, rest) = count_within(PROCEDURE_LIMIT, rest)?;
    if procedures == 0 {
        return Err(CertFault::Field);
    }
    let (nodes, rest) = node_count_at(version, rest)?;
    let head = Head {
        version,
        region,
        procedures,
        nodes,
    };
    Ok((head, rest))
}

// ---- certificates of any version

/// Whether files with these letters have this version, version 4 too.
fn is_any_version_of(rules: Rules, version: u8) -> bool
    ensures { result ≡ is_any_version_of rules version }
{
    is_version_of(rules, version) || matches!(rules, Rules::Extended) && version == 4
}

/// The letters, and a version that they begin, version 4 too.
#[tactic(auto, unfolding(crate::specs::Reading::any_version_at))]
pub fn any_version_at(bytes: &[u8]) -> Result<(u8, &[u8]), CertFault>
    ensures { Gives (λ x. (x.0, x.1.now)) result (any_version_at bytes.now) }
{
    let (rules, rest) = magic_at(bytes)?;
    let (version, rest) = byte(rest)?;
    if !is_any_version_of(rules, version) {
        return Err(CertFault::Version);
    }
    Ok((version, rest))
}

/// By which rules a version reads the fields that versions 3 and 4 have in common.
pub fn any_rules_of(version: u8) -> Rules
    ensures { result ≡ any_rules_of version }
{
    if version == 4 {
        Rules::Extended
    } else {
        Rules::of(version)
    }
}

/// A number of procedures: in one byte, or in version 4 in two.
fn procedure_number_at(version: u8, bytes: &[u8]) -> Result<(u16, &[u8]), CertFault>
    ensures { Gives (λ x. (x.0, x.1.now)) result (procedure_count_by (version == 4) bytes.now) }
{
    if version == 4 {
        word(bytes)
    } else {
        let (count, rest) = count_within(PROCEDURE_LIMIT, bytes)?;
        Ok((count as u16, rest))
    }
}

/// How many procedures there are.
#[tactic(auto, unfolding(crate::specs::Reading::procedure_count_at))]
fn procedure_count_at(version: u8, bytes: &[u8]) -> Result<(u16, &[u8]), CertFault>
    ensures { Gives (λ x. (x.0, x.1.now)) result (procedure_count_at version bytes.now) }
{
    let (count, rest) = procedure_number_at(version, bytes)?;
    if count == 0 {
        return Err(CertFault::Field);
    }
    Ok((count, rest))
}

#[tactic(auto, unfolding(crate::specs::Reading::any_head_at))]
pub fn any_head_at(bytes: &[u8]) -> Result<(AnyHead, &[u8]), CertFault>
    ensures { Gives (λ x. (head_in x.0, x.1.now)) result (any_head_at bytes.now) }
{
    let (version, rest) = any_version_at(bytes)?;
    let (region, rest) = region_at(any_rules_of(version), rest)?;
    let (procedures, rest) = procedure_count_at(version, rest)?;
    let (nodes, rest) = node_count_at(version, rest)?;
    let head = AnyHead {
        version,
        region,
        procedures,
        nodes,
    };
    Ok((head, rest))
}

//! Reading the fields of procedures and nodes that stand outside their states.

ghost use Rattle.std.specs.Prelude.{◌≡◌, ◌==◌, ◌||◌, nat_le};
ghost use Rattle.gb_domain.specs.declared.rules.Rules.TheVariants.{Extended};
ghost use Rattle.gb_fields.specs.Format.{Gives, mapped, both, byte};
ghost use Rattle.gb_fields.specs.Limits.{unit, need_limit};
ghost use Rattle.gb_fields.specs.Rules.{size, fits, is_base};
ghost use Rattle.gb_fields.specs.Reading.{word, word_between, returns_at, entry_at, base_at, times, need_at, key_at};

use crate::fault::CertFault;
use crate::limits::{NEED_LIMIT, WORD_LIMIT};
use crate::numbers::{byte, node_number, word, word_between, yes_no};
use gb_domain::types::Rules;
use gb_ops::machine::Region;

/// Whether a need fits the region, where it is main's.
fn fits(is_main: bool, region: Region, need: u16) -> bool
    ensures { result ≡ fits is_main region need }
{
    !is_main || need as u32 <= region.last.saturating_sub(region.first) as u32 + 1
}

/// The number of a procedure's first node, one of so many.
#[tactic(auto, unfolding(crate::specs::Reading::entry_at))]
pub fn entry_at(version: u8, nodes: u32, bytes: &[u8]) -> Result<(u32, &[u8]), CertFault>
    ensures { Gives (λ x. (x.0, x.1.now)) result (entry_at version nodes bytes.now) }
{
    let (entry, rest) = node_number(version, bytes)?;
    if entry >= nodes {
        return Err(CertFault::Field);
    }
    Ok((entry, rest))
}

/// Whether a base may be said: main's alone, or any in the region, or none.
fn is_base(is_main: bool, region: Region, base: u16) -> bool
    ensures { result ≡ is_base is_main region base }
{
    let above = region.last as u32 + 1;
    let base = base as u32;
    if is_main {
        base == above
    } else {
        base == 0 || region.first as u32 <= base && base <= above
    }
}

/// The base that a certificate of version 3 says.
#[tactic(auto, unfolding(crate::specs::Reading::base_at))]
pub fn base_at(is_main: bool, region: Region, bytes: &[u8]) -> Result<(u16, &[u8]), CertFault>
    ensures { Gives (λ x. (x.0, x.1.now)) result (base_at Extended is_main region bytes.now) }
{
    let (base, rest) = word(bytes)?;
    if !is_base(is_main, region, base) {
        return Err(CertFault::Field);
    }
    Ok((base, rest))
}

/// A need, in bytes.
#[tactic(auto, unfolding(crate::specs::Limits::unit, crate::specs::Limits::need_limit))]
fn need_bytes_at(rules: Rules, bytes: &[u8]) -> Result<(u16, &[u8]), CertFault>
    ensures { Gives (λ x. (x.0, x.1.now)) result (mapped (times (unit rules)) (word_between 0 (need_limit rules)) bytes.now) }
{
    match rules {
        Rules::Simple => {
            let (words, rest) = word_between(0, WORD_LIMIT, bytes)?;
            Ok((2 * words, rest))
        }
        Rules::Extended => {
            let (need, rest) = word_between(0, NEED_LIMIT, bytes)?;
            Ok((need, rest))
        }
    }
}

/// The bytes of stack that a procedure needs.
#[tactic(auto, unfolding(crate::specs::Reading::need_at))]
pub fn need_at(
    rules: Rules,
    is_main: bool,
    region: Region,
    bytes: &[u8],
) -> Result<(u16, &[u8]), CertFault>
    ensures { Gives (λ x. (x.0, x.1.now)) result (need_at rules is_main region bytes.now) }
{
    let (need, rest) = need_bytes_at(rules, bytes)?;
    if !fits(is_main, region, need) {
        return Err(CertFault::Region);
    }
    Ok((need, rest))
}

/// Whether a procedure returns.
#[tactic(auto, unfolding(crate::specs::Reading::returns_at))]
pub fn returns_at(is_main: bool, bytes: &[u8]) -> Result<(bool, &[u8]), CertFault>
    ensures { Gives (λ x. (x.0, x.1.now)) result (returns_at is_main bytes.now) }
{
    let (returns, rest) = yes_no(bytes)?;
    if returns && is_main {
        return Err(CertFault::Field);
    }
    Ok((returns, rest))
}

/// The procedure's number, of so many, and the address of a node, behind those of the node before.
#[inline(always)]
#[tactic(auto, unfolding(crate::specs::Reading::key_at))]
pub fn key_at(
    procedures: u8,
    before: (u8, u16),
    bytes: &[u8],
) -> Result<((u8, u16), &[u8]), CertFault>
    ensures { Gives (λ x. (x.0, x.1.now)) result (key_at procedures before bytes.now) }
{
    let (procedure, rest) = byte(bytes)?;
    if procedure >= procedures {
        return Err(CertFault::Field);
    }
    if procedure < before.0 {
        return Err(CertFault::Order);
    }
    let (address, rest) = word(rest)?;
    if procedure == before.0 && address < before.1 {
        return Err(CertFault::Order);
    }
    Ok(((procedure, address), rest))
}

/// The procedure, the address and the bank of a node.
#[inline(always)]
pub fn front_at(bytes: &[u8]) -> Result<((u8, (u16, u16)), &[u8]), CertFault>
    ensures { Gives (λ x. (x.0, x.1.now)) result (both byte (both word word) bytes.now) }
{
    let (procedure, rest) = byte(bytes)?;
    let (address, rest) = word(rest)?;
    let (bank, rest) = word(rest)?;
    Ok(((procedure, (address, bank)), rest))
}

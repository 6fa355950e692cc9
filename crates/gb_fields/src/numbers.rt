//! Reading numbers, one after the other.

ghost use Rattle.std.specs.Prelude.{◌≡◌, ◌≤◌, ◌*◌, ◌++◌, ◌∷◌, ◌&&◌, ℕ, List, length, nat_le, drop};
ghost use Rattle.gb_fields.specs.Format.{Gives, byte};
ghost use Rattle.gb_fields.specs.Reading.{word, quad, node_number, byte_between, word_between, count_within, word_count_within, offset_at, yes_no};

use crate::fault::CertFault;
use byteorder::{ByteOrder, LittleEndian};

/// The bytes from a place on, none where it is behind their end.
#[inline(always)]
pub fn from_place(bytes: &[u8], place: usize) -> &[u8]
    ensures { result.now ≡ drop place bytes.now }
{
    if place <= bytes.len() {
        &bytes[place..]
    } else {
        &[]
    }
}

#[inline(always)]
pub fn byte(bytes: &[u8]) -> Result<(u8, &[u8]), CertFault>
    ensures { Gives (λ x. (x.0, x.1.now)) result (byte bytes.now) }
{
    match bytes {
        [] => Err(CertFault::CutShort),
        [first, rest @ ..] => Ok((*first, rest)),
    }
}

#[inline(always)]
#[tactic(auto, unfolding(crate::specs::Reading::word))]
pub fn word(bytes: &[u8]) -> Result<(u16, &[u8]), CertFault>
    ensures { Gives (λ x. (x.0, x.1.now)) result (word bytes.now) }
{
    match bytes {
        [_, _, rest @ ..] => Ok((LittleEndian::read_u16(bytes), rest)),
        _ => Err(CertFault::CutShort),
    }
}

/// Two words, the low one first.
#[tactic(auto, unfolding(crate::specs::Reading::quad))]
fn quad(bytes: &[u8]) -> Result<(u32, &[u8]), CertFault>
    ensures { Gives (λ x. (x.0, x.1.now)) result (quad bytes.now) }
{
    let (low, rest) = word(bytes)?;
    let (high, rest) = word(rest)?;
    Ok((low as u32 + 65536 * high as u32, rest))
}

/// The number of a node, or of all nodes: two bytes in version 1, else four.
#[tactic(auto, unfolding(crate::specs::Reading::node_number))]
pub fn node_number(version: u8, bytes: &[u8]) -> Result<(u32, &[u8]), CertFault>
    ensures { Gives (λ x. (x.0, x.1.now)) result (node_number version bytes.now) }
{
    if version == 1 {
        let (number, rest) = word(bytes)?;
        Ok((number as u32, rest))
    } else {
        quad(bytes)
    }
}

/// A byte from low to high.
#[inline(always)]
pub fn byte_between(low: u8, high: u8, bytes: &[u8]) -> Result<(u8, &[u8]), CertFault>
    ensures { Gives (λ x. (x.0, x.1.now)) result (byte_between low high bytes.now) }
{
    let (number, rest) = byte(bytes)?;
    if low <= number && number <= high {
        Ok((number, rest))
    } else {
        Err(CertFault::Field)
    }
}

/// A word from low to high.
#[inline(always)]
pub fn word_between(low: u16, high: u16, bytes: &[u8]) -> Result<(u16, &[u8]), CertFault>
    ensures { Gives (λ x. (x.0, x.1.now)) result (word_between low high bytes.now) }
{
    let (number, rest) = word(bytes)?;
    if low <= number && number <= high {
        Ok((number, rest))
    } else {
        Err(CertFault::Field)
    }
}

/// A count of at most the limit.
#[inline(always)]
pub fn count_within(limit: u8, bytes: &[u8]) -> Result<(u8, &[u8]), CertFault>
    ensures { Gives (λ x. (x.0, x.1.now)) result (count_within limit bytes.now) }
{
    let (count, rest) = byte(bytes)?;
    if count <= limit {
        Ok((count, rest))
    } else {
        Err(CertFault::Count)
    }
}

/// A count of at most the limit, in two bytes.
pub fn word_count_within(limit: u16, bytes: &[u8]) -> Result<(u16, &[u8]), CertFault>
    ensures { Gives (λ x. (x.0, x.1.now)) result (word_count_within limit bytes.now) }
{
    let (count, rest) = word(bytes)?;
    if count <= limit {
        Ok((count, rest))
    } else {
        Err(CertFault::Count)
    }
}

/// A distance, which is spelled in two's complement, in offset binary.
#[tactic(auto, unfolding(crate::specs::Reading::offset_at))]
pub fn offset_at(bytes: &[u8]) -> Result<(u16, &[u8]), CertFault>
    ensures { Gives (λ x. (x.0, x.1.now)) result (offset_at bytes.now) }
{
    let (distance, rest) = word(bytes)?;
    Ok((distance.wrapping_add(32_768), rest))
}

#[inline(always)]
#[tactic(auto, unfolding(crate::specs::Reading::yes_no))]
pub fn yes_no(bytes: &[u8]) -> Result<(bool, &[u8]), CertFault>
    ensures { Gives (λ x. (x.0, x.1.now)) result (yes_no bytes.now) }
{
    let (number, rest) = byte_between(0, 1, bytes)?;
    Ok((number == 1, rest))
}

/// A list of so many bytes each behind its count, and what is behind it.
pub fn counted(bytes: &[u8], size: usize) -> (&[u8], &[u8])
    requires { size ≤ 6 }
    ensures { (n : ℕ) (xs rest : List ℕ) → bytes.now ≡ n ∷ (xs ++ rest) → length xs ≡ size * n → (result.0.now ≡ xs) × (result.1.now ≡ rest) }
{
    match bytes {
        [count, rest @ ..] => rest.split_at((size * *count as usize).min(rest.len())),
        [] => (bytes, bytes),
    }
}

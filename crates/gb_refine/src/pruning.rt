//! Certificates made smaller as they are: what nothing asks for is left out, if the checker accepts what is left.

use crate::written::is_accepted;
use gb_prune::{Cert, Rom, WriteFault, pruned, reached};
use std::alloc::{AllocError, Global};

/// What came of making a certificate smaller; nothing where it can't be written.
fn or_nothing(outcome: Result<Option<Vec<u8>>, WriteFault>) -> Result<Option<Vec<u8>>, AllocError> {
    match outcome {
        Ok(bytes) => Ok(bytes),
        Err(WriteFault::Memory) => Err(AllocError),
        Err(_) => Ok(None),
    }
}

fn pruned_bytes(alloc: Global, rom: &Rom<'_>, bytes: &[u8]) -> Result<Option<Vec<u8>>, AllocError> {
    match Cert::parse(alloc, bytes) {
        Ok(cert) => or_nothing(pruned(alloc, rom, &cert)),
        Err(_) => Ok(None),
    }
}

fn reached_bytes(
    alloc: Global,
    rom: &Rom<'_>,
    bytes: &[u8],
) -> Result<Option<Vec<u8>>, AllocError> {
    match Cert::parse(alloc, bytes) {
        Ok(cert) => or_nothing(match reached(alloc, rom, &cert) {
            Ok(bytes) => Ok(Some(bytes)),
            Err(fault) => Err(fault),
        }),
        Err(_) => Ok(None),
    }
}

/// An accepted certificate without what nothing asks for; none where that isn't smaller.
pub(crate) fn made_smaller(
    alloc: Global,
    rom: &Rom<'_>,
    bytes: &[u8],
) -> Result<Option<Vec<u8>>, AllocError> {
    let less = pruned_bytes(alloc, rom, bytes)?;
    let fewer = match &less {
        Some(less) => reached_bytes(alloc, rom, less.as_slice())?,
        None => reached_bytes(alloc, rom, bytes)?,
    };
    for smaller in [fewer, less].into_iter().flatten() {
        if smaller.len() < bytes.len() && is_accepted(alloc, rom, &smaller) {
            return Ok(Some(smaller));
        }
    }
    Ok(None)
}

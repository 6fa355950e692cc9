//! The certificate of a run, if it keeps the limits, and whether the checker accepts it.

use gb_prune::gb_ops::machine::Region;
use gb_prune::{Cert, Rom, Run, Verdict, WriteFault, certificate_of, check};
use std::alloc::{AllocError, Global};

/// The certificate of a run with a stack region; none where the run doesn't keep a limit of certificates.
pub(crate) fn written(
    alloc: Global,
    run: &Run<'_>,
    region: Region,
) -> Result<Option<Vec<u8>>, AllocError> {
    match certificate_of(alloc, run, region) {
        Ok(bytes) => Ok(Some(bytes)),
        Err(WriteFault::Memory) => Err(AllocError),
        Err(_) => Ok(None),
    }
}

/// Whether the checker accepts a certificate.
pub(crate) fn is_accepted(alloc: Global, rom: &Rom<'_>, bytes: &[u8]) -> bool {
    match Cert::parse(alloc, bytes) {
        Ok(cert) => matches!(check(rom, &cert), Verdict::Accepted { .. }),
        Err(_) => false,
    }
}

//! The refinement of certificates' maker: runs of the fixpoint, one after another, each under a finer configuration where
//! the one before failed.
//!
//! `make` gives a certificate, or the findings. Nothing here is trusted: who uses it has the certificate checked. Read
//! `attempts`, by which rules it is tried, then `rounds`, `learning`, `idle`, `wild` and `standing`, over gb_plans, which says what to refine after a
//! failure; `tracking` chooses the memory cells that are kept, and `shrink` takes back what a certificate doesn't need.
#![tactic(auto)]

mod attempts;
mod failures;
mod idle;
mod learning;
mod measures;
mod pruning;
mod rounds;
mod shrink;
mod standing;
mod tracking;
mod wild;
mod written;

use attempts::made_certificate;
use gb_prune::Rom;
pub use rounds::{Made, SearchLimits, SearchProgress};
use std::alloc::{AllocError, Global};

// What lies below, for the crates above.
pub use gb_prune::Edition;

/// A certificate of a cartridge, or why there is none. The certificate isn't checked as a last step: that is left to the
/// caller.
///
/// # Errors
///
/// Where memory ran out.
pub fn make<P: SearchProgress>(
    alloc: Global,
    rom: &Rom<'_>,
    limits: SearchLimits,
    progress: &mut P,
) -> Result<Made, AllocError> {
    let made = made_certificate(alloc, rom, limits, progress)?;
    progress.done();
    Ok(made)
}

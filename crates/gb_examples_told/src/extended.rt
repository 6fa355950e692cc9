//! What certificates of version 3 lack, worked by hand from the rules.

use crate::extended_calls::{CALLED_OR_INLINED, DEPTHS};
use crate::extended_pieces::PieceExample;
use crate::extended_returns::{INTERRUPTS, RETURNS};
use crate::refusals::is_told;
use crate::spelled::extended_certificate;
use std::alloc::Global;
use std::test::Fail;

/// Whether what is printed of an example's files is what it says.
fn agrees(alloc: Global, example: &PieceExample) -> Result<bool, Fail> {
    let cert = extended_certificate(example.procedures, example.nodes);
    is_told(
        alloc,
        example.program,
        &cert,
        example.node,
        example.reason,
        example.text,
    )
}

/// Whether that is so of each of these.
fn all_agree(alloc: Global, examples: &[PieceExample]) -> Result<bool, Fail> {
    for example in examples {
        if !agrees(alloc, example)? {
            return Ok(false);
        }
    }
    Ok(true)
}

#[test]
fn what_a_certificate_of_version_3_lacks(rt: HostRuntime) -> Result<(), Fail> {
    for examples in [DEPTHS, CALLED_OR_INLINED, RETURNS, INTERRUPTS] {
        assert!(rt; all_agree(rt.alloc(), examples)?);
    }
    Ok(())
}

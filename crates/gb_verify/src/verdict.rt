//! What a check answers.

use gb_rules::Reason;

/// The verdict on a certificate.
#[derive(Clone, Copy, Debug, PartialEq, Eq)]
pub enum Verdict {
    /// The certificate is right; with its numbers of nodes and procedures.
    Accepted { nodes: u32, procedures: u32 },
    /// The first node that isn't right, with its lowest reason.
    Refused { node: u32, reason: Reason },
}

//! What worked examples are built from: cartridges, certificates, abstract states, programs and streams that fail. No
//! contract of the product speaks of them.
//!
//! Read cartridges.rt first; certificates.rt spells the least cartridge's certificate; spelled.rt
//! reads examples that are given as text.
#![tactic(auto)]

pub mod cartridges;
pub mod certificates;
pub mod programs;
pub mod relations;
pub mod spelled;
pub mod states;
pub mod streams;

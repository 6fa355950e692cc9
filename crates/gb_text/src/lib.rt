//! Lines of text, sinks that take them, and writing them.
//!
//! `put::put_all` writes a text whole, or a beginning of it where the sink failed. Read `sink` first, then `put`, `line`
//! and `cartridge`; `kept_bytes` is a sink for tests.
#![tactic(auto)]

pub mod cartridge;
pub mod kept_bytes;
pub mod line;
pub mod put;
pub mod sink;

pub use kept_bytes::KeptBytes;
pub use line::Line;
pub use sink::{OutFault, Plain, PutFault, Sink};

// What lies below, for the crates above.
pub use gb_header::{HeaderFault, Rom};

//! What both programs do alike: the words after a program's name, its statuses, the verdict's line, and what they say on
//! standard error. The caller gives the program's name.
//!
//! Read `status` first, then `messages`; `words` has the words as text, and what becomes of those that can't be read, `stack` the
//! stack region that they name, and `symbols` the file of symbols.
#![tactic(auto)]

pub mod messages;
pub mod stack;
pub mod status;
pub mod symbols;
pub mod words;

pub use status::Status;

// What lies below, for the crates above.
pub use gb_cert_place::{Cert, CertFault};
pub use gb_explain::{
    HeaderFault, Outcome, Plain, Rom, UpgradeTo, Upgraded, explain, upgrade_bytes, verify_bytes,
};
pub use gb_files::{Trouble, is_input, read_cartridge, read_certificate, read_file, shown_name};
pub use gb_symbols::{SymbolFault, Symbols};

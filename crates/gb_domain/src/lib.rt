//! What abstract states are made of (abstract interpretation: an abstract domain), and what a certificate claims with them:
//! values, cores, items, memory cells and ranges, as data alone. How they are spelled in bytes, what they mean and what is done
//! with them stands in the crates above. `specs/Rules.antt` says which of them there are, `specs/Areas.antt` which areas of
//! memory they speak of, and `specs/Types.antt` and `specs/Certificate.antt` what contracts see.
//!
//! Below values are the low bits of bytes (congruences modulo a power of two) and intervals of bytes of which only each 2^n-th
//! counts (strided intervals), with joins, cuts and covering: each is its definition (`exact`), and it keeps the bytes that it
//! should (`sound`, `leaves`). Read `low_bits`, `interval`, then `values`. `specs/Meaning.antt` says which bytes they are about.
#![tactic(auto)]

mod abs;
pub mod interval;
pub mod low_bits;
pub mod pairs;
pub mod places;
pub mod program;
pub mod relations;
mod rules;
mod setting;
pub mod summary;
pub mod types;
pub mod values;

pub use interval::StridedInterval;
pub use low_bits::LowBits;
pub use pairs::{Bounds, Link, Other, PairBounds, PairFacts, Pairs, WordPair};
pub use places::{OneByte, Place, StackBytes, Test};
pub use program::Program;
pub use relations::Relations;
pub use summary::{BankShadows, Fact, Fill, FillEnd, Reach, Shadows, Summary};
pub use types::{Cell, Core, Ctl, Flg, Halves, ImeSet, KeptBanks, May, Origin, Range, Val};

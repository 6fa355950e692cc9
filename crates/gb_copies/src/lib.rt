//! Places that hold one and the same byte, with what the flags say of it (abstract interpretation: a domain of equalities), and
//! places that shadow a register of the controller, as a variable with the current bank does: a byte that leaves the register as it
//! is, stored into its window (a domain of relations between memory and the controller). Each operation is its definition (`exact`),
//! and what it gives holds of all that the machine makes of registers, memory, flags and the controller of which the places held
//! before (`sound`).
//!
//! Read `places`, whose places come and go with what is written, then `copies`, then `sides`, where a branch narrows all places
//! of a tested byte, and last `covering`. `Meaning` of the definitions says what it is to hold.
//!
//! Of shadows read `windows` first, whose law says what a store leaves, then `shadows`, whose places come and go, then `fitting`,
//! where places bound the register, and last `bank_covering` and `bank_returned`. `ShadowMeaning` says what they are.
#![tactic(auto)]

pub mod bank_covering;
pub mod bank_returned;
pub mod copies;
pub mod covering;
pub mod fitting;
pub mod places;
pub mod shadows;
pub mod sides;
pub mod windows;

pub use bank_covering::Known;
pub use bank_returned::Preserved;
pub use sides::PlaceContents;
pub use windows::BankWindow;

//! Worked examples of what is known of memory for a whole program: low bits of bytes, facts and fills, shadows of the controller's
//! registers, and what instructions leave of them. Each value is worked by hand from the rules, with operands that aren't single. The
//! functions here promise nothing but to be safe.
//!
//! Read low_bits.rt first, then facts.rt and fills.rt, then shadows.rt, and last summaries.rt.
#![tactic(auto)]

#[cfg(test)]
mod facts;
#[cfg(test)]
mod fills;
#[cfg(test)]
mod low_bits;
#[cfg(test)]
mod shadows;
#[cfg(test)]
mod summaries;

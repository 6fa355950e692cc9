//! Worked examples of what is printed for a person: why a certificate is refused, by hand from the rules, on small cartridges,
//! each with a certificate that lacks something; how instructions are spelled; the names of symbols; and of a
//! certificate that can't be read, where in the file its fault is. The facts and the page of a small game are here too, and what
//! a new build of it changed.
//!
//! Read refusals.rt first, then extended.rt, which has the same for version 3, and whole.rt for version 4, then pages.rt, compared.rt,
//! findings.rt and crashes.rt; spelled.rt spells certificates.
#![tactic(auto)]

#[cfg(test)]
mod compared;
#[cfg(test)]
mod crashes;
#[cfg(test)]
mod extended;
#[cfg(test)]
mod extended_calls;
#[cfg(test)]
mod extended_pieces;
#[cfg(test)]
mod extended_returns;
#[cfg(test)]
mod findings;
#[cfg(test)]
mod lines;
#[cfg(test)]
mod linked_places;
#[cfg(test)]
mod pages;
#[cfg(test)]
mod places;
#[cfg(test)]
mod refusals;
#[cfg(test)]
mod spelled;
#[cfg(test)]
mod spellings;
#[cfg(test)]
mod symbols;
#[cfg(test)]
mod whole;

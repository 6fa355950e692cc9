//! Worked examples of abstract states and of what instructions make of them: values worked by hand from the rules, the
//! least bounds that trying each value finds, and each public call once. The functions here promise nothing but to be
//! safe.
//!
//! Read arithmetic.rt first (intervals and flags), then branches.rt, states.rt, effects.rt and strided.rt (low bits); then, for the rules of version 3,
//! stacks.rt, facts.rt (states in few words), together.rt and related.rt; for links with a base, bases.rt, and for
//! those that read a byte of RAM, cells.rt.
#![tactic(auto)]

#[cfg(test)]
mod arithmetic;
#[cfg(test)]
mod bases;
#[cfg(test)]
mod branches;
#[cfg(test)]
mod cells;
#[cfg(test)]
mod effects;
#[cfg(test)]
mod facts;
#[cfg(test)]
mod related;
#[cfg(test)]
mod stacks;
#[cfg(test)]
mod states;
#[cfg(test)]
mod strided;
#[cfg(test)]
mod together;

//! Worked examples of the checker: values from outside (worked by hand from the rules, and an independent
//! implementation's verdicts), what no contract says (text, want of memory, failing sinks), and each public call once.
//! The functions here promise nothing but to be safe.
//!
//! Read controllers.rt, memory.rt and loads.rt first (loads and stores), then kept.rt (calls), certificates.rt, written.rt, links.rt, verdicts.rt and copies.rt. Whole
//! programs with their certificates stand in `gb_worked_examples`.
#![tactic(auto)]

#[cfg(test)]
mod certificates;
#[cfg(test)]
mod controllers;
#[cfg(test)]
mod copies;
#[cfg(test)]
mod kept;
#[cfg(test)]
mod links;
#[cfg(test)]
mod loads;
#[cfg(test)]
mod memory;
#[cfg(test)]
mod verdicts;
#[cfg(test)]
mod version_3;
mod written;
#[cfg(test)]
mod written_whole;

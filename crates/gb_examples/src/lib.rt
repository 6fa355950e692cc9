//! Worked examples of the processor, of the console and of the program: values from outside (the hardware's documents),
//! what no contract says (text, want of memory, failing sinks), and each public call once. The functions here promise
//! nothing but to be safe.
//!
//! Read processors.rt and consoles.rt first, then scripts.rt, watching.rt, texts.rt, certificates.rt and words.rt.
#![tactic(auto)]

#[cfg(test)]
mod certificates;
#[cfg(test)]
mod consoles;
#[cfg(test)]
mod processors;
#[cfg(test)]
mod scripts;
#[cfg(test)]
mod texts;
#[cfg(test)]
mod watching;
#[cfg(test)]
mod words;

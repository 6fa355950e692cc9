//! Worked examples of cartridges, of the console's devices and of its memory: values from outside (the hardware's
//! documents), want of memory, and each public call once. The functions here promise nothing but to be safe.
//!
//! Read instructions.rt, cartridges.rt and devices.rt first, then pictures.rt and memory.rt, where all devices meet.
#![tactic(auto)]

#[cfg(test)]
mod cartridges;
#[cfg(test)]
mod devices;
#[cfg(test)]
mod instructions;
#[cfg(test)]
mod memory;
#[cfg(test)]
mod pictures;

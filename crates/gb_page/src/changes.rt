//! What a new certificate changed since an older one, as plain data with names; `changed` has its words, `json` its object.

use crate::names::{Address, usual_name};
use gb_reports::{
    AFTER_VECTORS, Cert, Difference, Facts, Key, Keyed, Outline, Rom, Sketch, StackStep, Symbols,
    differences, is_same_way, way_from,
};
use std::alloc::{AllocError, Global};
use std::fmt;

/// An older certificate, with its cartridge and its symbols, where they are at hand.
#[derive(Clone, Copy)]
pub struct Older<'a, 'c, 'r, 's> {
    pub cert: &'a Cert<'c>,
    pub rom: Option<&'a Rom<'r>>,
    pub symbols: Option<&'a Symbols<'s>>,
}

/// One of both certificates.
#[derive(Drop)]
pub(crate) struct Build {
    pub outline: Outline,
    /// What each of its sketches is called.
    names: Vec<String>,
    /// The deepest way, by sketches; empty where the cartridge isn't at hand.
    pub way: Vec<usize>,
    /// The bytes of stack that each step of that way holds while the next one runs, and the last one at most.
    held: Vec<u32>,
}

/// What a new certificate changed.
#[derive(Drop)]
pub struct Changes {
    pub(crate) before: Build,
    pub(crate) now: Build,
    pub(crate) differences: Vec<Difference>,
    is_same_way: bool,
}

/// A sketch's name: its symbol, the usual one, or its address.
#[derive(Clone, Copy)]
struct SketchName<'a, 's> {
    sketch: &'a Sketch,
    symbol: Option<&'s str>,
}

impl fmt::Display for SketchName<'_, '_> {
    fn fmt<W: fmt::Write>(&self, f: &mut fmt::Formatter<W>) -> fmt::Result {
        let bank = self.sketch.bank;
        let address = self.sketch.address;
        let number = if self.sketch.is_main { 0 } else { 1 };
        match (self.symbol, usual_name(number, address)) {
            (Some(name), _) => write!(f, "{name}"),
            (None, Some(name)) => write!(f, "{name}"),
            (None, None) => {
                let at = Address { bank, address };
                write!(f, "{at}")
            }
        }
    }
}

/// The symbol at a sketch's first address.
fn symbol_at<'s>(sketch: &Sketch, symbols: Option<&Symbols<'s>>) -> Option<&'s str> {
    let place = symbols?.place(sketch.bank, sketch.address)?;
    if place.offset == 0 {
        Some(place.name)
    } else {
        None
    }
}

/// What the sketches are called.
fn names_of(
    alloc: Global,
    outline: &Outline,
    symbols: Option<&Symbols<'_>>,
) -> Result<Vec<String>, AllocError> {
    let mut names = Vec::new(alloc);
    for sketch in &outline.sketches {
        let symbol = symbol_at(sketch, symbols);
        let name = SketchName { sketch, symbol };
        names.push(format!(in alloc; "{name}")?)?;
    }
    Ok(names)
}

/// By what a sketch is found again.
fn key_of<'s>(sketch: &Sketch, symbols: Option<&Symbols<'s>>) -> Key<'s> {
    if sketch.is_main {
        return Key::Main;
    }
    let Sketch { bank, address, .. } = *sketch;
    match symbol_at(sketch, symbols) {
        // The vectors of RST and of interrupts mean the same in each build.
        Some(name) if address >= AFTER_VECTORS => Key::Named(name),
        _ => Key::At { bank, address },
    }
}

/// By what the sketches are found again.
fn keys_of<'s>(
    alloc: Global,
    outline: &Outline,
    symbols: Option<&Symbols<'s>>,
) -> Result<Vec<Key<'s>>, AllocError> {
    let mut keys = Vec::new(alloc);
    for sketch in &outline.sketches {
        keys.push(key_of(sketch, symbols))?;
    }
    Ok(keys)
}

/// The bytes of stack that a step of a deepest way holds.
fn held_by(facts: &Facts, step: StackStep) -> u32 {
    match step.link {
        Some(link) => u32::from(link.waiting),
        None => match facts.procedures.get(usize::from(step.procedure)) {
            Some(procedure) => u32::from(procedure.own.bytes),
            None => 0,
        },
    }
}

/// The bytes of stack that the steps of the deepest way hold.
fn held_on_way(alloc: Global, facts: &Facts) -> Result<Vec<u32>, AllocError> {
    let mut held = Vec::new(alloc);
    for number in &way_from(alloc, facts, 0)? {
        if let Some(step) = facts.step(*number) {
            held.push(held_by(facts, step))?;
        }
    }
    Ok(held)
}

impl Build {
    /// A certificate with what is at hand of its build: the deepest way needs the cartridge.
    fn of(alloc: Global, build: &Older<'_, '_, '_, '_>) -> Result<Build, AllocError> {
        let outline = Outline::of(alloc, build.cert)?;
        let names = names_of(alloc, &outline, build.symbols)?;
        let (way, held) = match build.rom {
            Some(rom) => {
                let facts = Facts::of(alloc, rom, build.cert)?;
                (outline.way(alloc, &facts)?, held_on_way(alloc, &facts)?)
            }
            None => (Vec::new(alloc), Vec::new(alloc)),
        };
        Ok(Build {
            names,
            way,
            held,
            outline,
        })
    }

    /// The bytes of stack that a step of the deepest way holds.
    pub(crate) fn held_at(&self, step: usize) -> u32 {
        match self.held.get(step) {
            Some(bytes) => *bytes,
            None => 0,
        }
    }

    /// The name of a sketch.
    pub(crate) fn name(&self, place: usize) -> &str {
        match self.names.get(place) {
            Some(name) => name.as_str(),
            None => "",
        }
    }
}

/// What two builds have not in common.
#[derive(Drop)]
struct Comparison {
    differences: Vec<Difference>,
    is_same_way: bool,
}

/// What two builds have not in common, where their sketches have these keys.
fn compare<'x>(
    alloc: Global,
    before: &'x Build,
    old_keys: &'x [Key<'x>],
    now: &'x Build,
    new_keys: &'x [Key<'x>],
) -> Result<Comparison, AllocError> {
    let old = Keyed {
        outline: &before.outline,
        keys: old_keys,
    };
    let new = Keyed {
        outline: &now.outline,
        keys: new_keys,
    };
    Ok(Comparison {
        differences: differences(alloc, &old, &new)?,
        is_same_way: before.way.is_empty()
            || is_same_way(&old, before.way.as_slice(), &new, now.way.as_slice()),
    })
}

/// Compares two builds, and gives each sketch its key. A symbol is one only where both builds have their symbols.
fn compare_by<'x>(
    alloc: Global,
    before: &'x Build,
    now: &'x Build,
    old: Option<&Symbols<'x>>,
    new: Option<&Symbols<'x>>,
) -> Result<Comparison, AllocError> {
    let old_keys = keys_of(alloc, &before.outline, old)?;
    let new_keys = keys_of(alloc, &now.outline, new)?;
    compare(alloc, before, old_keys.as_slice(), now, new_keys.as_slice())
}

impl Changes {
    /// What a certificate changed since an older one.
    ///
    /// # Errors
    ///
    /// Where memory ran out.
    pub fn of(
        alloc: Global,
        rom: &Rom<'_>,
        cert: &Cert<'_>,
        symbols: &Symbols<'_>,
        older: &Older<'_, '_, '_, '_>,
    ) -> Result<Changes, AllocError> {
        let before = Build::of(alloc, older)?;
        let newer = Older {
            cert,
            rom: Some(rom),
            symbols: Some(symbols),
        };
        let now = Build::of(alloc, &newer)?;
        let Comparison {
            differences,
            is_same_way,
        } = match older.symbols {
            Some(old) => compare_by(alloc, &before, &now, Some(old), Some(symbols))?,
            None => compare_by(alloc, &before, &now, None, None)?,
        };
        Ok(Changes {
            before,
            now,
            differences,
            is_same_way,
        })
    }

    /// Whether nothing that is compared is otherwise.
    pub fn is_none(&self) -> bool {
        self.differences.is_empty() && self.is_same_way
    }

    /// Whether the deepest call chain is to be shown: its depth or its procedures changed.
    pub(crate) fn has_way(&self) -> bool {
        !self.is_same_way || self.before.outline.need() != self.now.outline.need()
    }
}

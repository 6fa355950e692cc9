//! The symbols of a file, and which of them an address belongs to, and the author's lines.

use crate::fault::{SymbolFault, SymbolFaultKind};
use crate::format::{Format, NamedAddress, SymbolLine};
use crate::lines::{SourceLine, SourceLines};
use std::alloc::Global;
use std::{fmt, str};

/// A name at a bank and an address.
#[derive(Clone, Copy, PartialEq, Eq)]
pub struct Symbol<'a> {
    pub bank: u16,
    pub address: u16,
    pub name: &'a str,
}

/// An address by a symbol: its name, and how far after it the address is.
#[derive(Clone, Copy, PartialEq, Eq)]
pub struct SymbolOffset<'a> {
    pub name: &'a str,
    pub offset: u16,
}

impl fmt::Display for SymbolOffset<'_> {
    fn fmt<W: fmt::Write>(&self, f: &mut fmt::Formatter<W>) -> fmt::Result {
        let name = self.name;
        let offset = self.offset;
        if offset == 0 {
            write!(f, "{name}")
        } else {
            write!(f, "{name}+${offset:X}")
        }
    }
}

/// The symbols of a file, and the lines of another one.
#[derive(Drop)]
pub struct Symbols<'a> {
    format: Option<Format>,
    /// How many there are.
    count: usize,
    /// One for each address, in the order of their keys, and these keys.
    symbols: Vec<Symbol<'a>>,
    keys: Vec<u32>,
    lines: SourceLines<'a>,
}

/// The most bytes after a label that are named by it: a file of symbols doesn't say where what it names ends.
const REACH: u16 = 0x0400;

/// The first address of the part of memory in which an address lies; a symbol says nothing of addresses in other parts.
///
/// Below 0068 each vector is a part, since code there jumps away or ends before the next one. The entry point with the header,
/// and each I/O register, are parts too (Pan Docs: Memory Map, Jump Vectors).
fn part_of(address: u16) -> u16 {
    match address {
        0x0000..=0x0067 => address & 0xFFF8,
        0x0068..=0x00FF => 0x0068,
        0x0100..=0x014F => 0x0100,
        0x0150..=0x3FFF => 0x0150,
        0x4000..=0x7FFF => 0x4000,
        0x8000..=0x9FFF => 0x8000,
        0xA000..=0xBFFF => 0xA000,
        0xC000..=0xDFFF => 0xC000,
        0xE000..=0xFDFF => 0xE000,
        0xFE00..=0xFEFF => 0xFE00,
        0xFF00..=0xFF7F | 0xFFFF => address,
        0xFF80..=0xFFFE => 0xFF80,
    }
}

/// The order of symbols: by bank, which counts for 4000-7FFF alone, and address.
fn key_of(bank: u16, address: u16) -> u32 {
    let shown = if part_of(address) == 0x4000 { bank } else { 0 };
    u32::from(shown) << 16 | u32::from(address)
}

/// The key of a symbol.
fn symbol_key(symbol: &Symbol<'_>) -> u32 {
    key_of(symbol.bank, symbol.address)
}

/// Whether a symbol says in which bank the function of another one is, and no address: `b_draw` for `_draw`, as SDCC writes it for
/// a banked function, or `___bank_draw` for `___func_draw`, as GBDK's BANKREF does.
fn is_bank_of(symbol: &Symbol<'_>, other: &Symbol<'_>) -> bool {
    if symbol.bank != 0 || symbol.address != other.bank {
        return false;
    }
    match symbol.name.strip_prefix("___bank_") {
        Some(name) => other.name.strip_prefix("___func_") == Some(name),
        None => other.name.starts_with('_') && symbol.name.strip_prefix("b") == Some(other.name),
    }
}

/// Whether a symbol has a name as numbers of banks have, so that the others are looked at.
fn may_be_bank(symbol: &Symbol<'_>) -> bool {
    symbol.name.starts_with("b_") || symbol.name.starts_with("___bank_")
}

/// Whether a symbol is the number of a bank.
fn is_bank(symbol: &Symbol<'_>, symbols: &[Symbol<'_>]) -> bool {
    symbols.iter().any(|other| is_bank_of(symbol, other))
}

/// Where labels begin: what lies below are vectors and the header.
const LABELS: u16 = 0x0150;

/// Whether a name is written in capitals, as those of constants are.
fn is_in_capitals(name: &str) -> bool {
    let mut is_name = false;
    for byte in name.as_bytes() {
        match *byte {
            b'a'..=b'z' => return false,
            b'A'..=b'Z' => is_name = true,
            _ => {}
        }
    }
    is_name
}

/// Whether a symbol is a constant and no label: files of SDCC's have both. A number such as `CH_SIZE` may be an address of the vectors,
/// and one of the controller's registers, as `rROMB0`, is one of ROM's.
fn is_constant(format: Format, symbol: &Symbol<'_>) -> bool {
    if !format.is_of_sdcc() || symbol.bank != 0 {
        return false;
    }
    match symbol.name.strip_prefix("r") {
        Some(name) => symbol.address < 0x8000 && is_in_capitals(name),
        None => symbol.address < LABELS && is_in_capitals(symbol.name),
    }
}

/// A file's symbols, as they are put in order, without constants and numbers of banks: of those at one address the first stays.
fn ordered<'a>(
    alloc: Global,
    format: Format,
    mut found: Vec<Symbol<'a>>,
) -> Result<Symbols<'a>, SymbolFault> {
    found.sort_by_key(|symbol| symbol_key(symbol))?;
    let mut symbols = Vec::new(alloc);
    let mut keys: Vec<u32> = Vec::new(alloc);
    for symbol in &found {
        let key = symbol_key(symbol);
        let is_number = is_constant(format, symbol)
            || (may_be_bank(symbol) && is_bank(symbol, &found));
        if keys.last() != Some(&key) && !is_number {
            keys.push(key)?;
            symbols.push(*symbol)?;
        }
    }
    Ok(Symbols {
        format: Some(format),
        count: found.len(),
        symbols,
        keys,
        lines: SourceLines::none(alloc),
    })
}

impl<'a> Symbols<'a> {
    /// No symbols.
    pub fn none(alloc: Global) -> Symbols<'a> {
        Symbols {
            format: None,
            count: 0,
            symbols: Vec::new(alloc),
            keys: Vec::new(alloc),
            lines: SourceLines::none(alloc),
        }
    }

    /// Reads a file's bytes.
    ///
    /// # Errors
    ///
    /// What is wrong with the file: it isn't text, has no known format, or has a line that doesn't fit its format.
    pub fn parse(alloc: Global, bytes: &'a [u8]) -> Result<Symbols<'a>, SymbolFault> {
        let Ok(text) = str::from_utf8(bytes) else {
            return Err(SymbolFault::of(SymbolFaultKind::NotText));
        };
        let Some(format) = Format::of(text) else {
            return Err(SymbolFault::of(SymbolFaultKind::NoFormat));
        };
        let mut symbols = Vec::new(alloc);
        for (number, line) in text.lines().enumerate() {
            match format.line(line) {
                SymbolLine::Symbol(
                    NamedAddress {
                        bank,
                        address,
                        name,
                    },
                ) => symbols.push(Symbol {
                    bank,
                    address,
                    name,
                })?,
                SymbolLine::Other => {}
                SymbolLine::Wrong => {
                    return Err(SymbolFault {
                        kind: SymbolFaultKind::Line,
                        line: number.saturating_add(1),
                    });
                }
            }
        }
        ordered(alloc, format, symbols)
    }

    /// Reads the lines of sources from a `.cdb` file's bytes, or from a listing's.
    ///
    /// # Errors
    ///
    /// Where the file isn't text or names no line, and where memory ran out; no lines are known then.
    pub fn add_lines(&mut self, alloc: Global, bytes: &'a [u8]) -> Result<(), SymbolFault> {
        self.lines = SourceLines::parse(alloc, bytes)?;
        Ok(())
    }

    /// The first module in assembly of which there are lines: its file's ending isn't known from them.
    pub fn module(&self) -> Option<&'a str> {
        self.lines.module()
    }

    /// The files of modules in assembly end in `.s`, not in `.asm`.
    pub fn end_in_s(&mut self) {
        self.lines.end_in_s();
    }

    /// The line of a source that an address comes from, where it is known. The bank counts for 4000-7FFF alone.
    pub fn line(&self, bank: u16, address: u16) -> Option<SourceLine<'a>> {
        let bank = if part_of(address) == 0x4000 { bank } else { 0 };
        self.lines.line(bank, address)
    }

    /// Who wrote the file, if there was one.
    pub fn format(&self) -> Option<Format> {
        self.format
    }

    /// How many symbols there are.
    pub fn len(&self) -> usize {
        self.count
    }

    /// Whether there are none.
    pub fn is_empty(&self) -> bool {
        self.symbols.is_empty()
    }

    /// Whether the program is in C: a source is, or else the compiler's `_main` is there.
    pub fn is_of_c(&self) -> bool {
        self.lines.has_c()
            || (self.is_of_sdcc() && self.symbols.iter().any(|symbol| symbol.name == "_main"))
    }

    /// Whether SDCC's linker wrote the file.
    fn is_of_sdcc(&self) -> bool {
        match self.format {
            Some(format) => format.is_of_sdcc(),
            None => false,
        }
    }

    /// The symbol that names an address: the last one at or before it, where that is near and in the same part of memory. The
    /// bank counts for 4000-7FFF alone; of symbols at one address the first counts.
    pub fn place(&self, bank: u16, address: u16) -> Option<SymbolOffset<'a>> {
        let place = self.last_before(bank, address)?;
        if place.offset < REACH {
            Some(place)
        } else {
            None
        }
    }

    /// The last symbol at or before an address in the same part of memory, however far that is.
    pub fn last_before(&self, bank: u16, address: u16) -> Option<SymbolOffset<'a>> {
        let key = key_of(bank, address);
        let place = match self.keys.binary_search(&key) {
            Ok(place) => place,
            Err(after) => after.checked_sub(1)?,
        };
        let symbol = self.symbols.get(place)?;
        let is_same_part = part_of(symbol.address) == part_of(address);
        if !is_same_part || symbol_key(symbol) >> 16 != key >> 16 {
            return None;
        }
        Some(SymbolOffset {
            name: symbol.name,
            offset: address.checked_sub(symbol.address)?,
        })
    }
}

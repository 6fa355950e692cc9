//! The author's lines: which line of a source an address comes from, by a `.cdb` file of SDCC's linker, or by an `.rst` listing of
//! its assembler's.

use crate::fault::{SymbolFault, SymbolFaultKind};
use std::alloc::{AllocError, Global};
use std::{fmt, str};

/// What a line was written in.
#[derive(Clone, Copy, PartialEq, Eq)]
enum Language {
    /// The name is a file's, as `game.c`.
    C,
    /// The name is a module's: its file has that name and `.asm`.
    Assembler,
    /// The same with `.s`.
    AssemblerS,
    /// The name is that of a file that a module's file includes.
    Included,
}

/// A line of a source.
#[derive(Clone, Copy, PartialEq, Eq)]
pub struct SourceLine<'a> {
    language: Language,
    name: &'a str,
    number: u32,
}

impl SourceLine<'_> {
    /// Whether the source is in C.
    pub fn is_of_c(&self) -> bool {
        self.language == Language::C
    }
}

impl fmt::Display for SourceLine<'_> {
    fn fmt<W: fmt::Write>(&self, f: &mut fmt::Formatter<W>) -> fmt::Result {
        let name = self.name;
        let number = self.number;
        match self.language {
            Language::C | Language::Included => write!(f, "{name}:{number}"),
            Language::Assembler => write!(f, "{name}.asm:{number}"),
            Language::AssemblerS => write!(f, "{name}.s:{number}"),
        }
    }
}

/// An address at which the code of a line begins.
#[derive(Clone, Copy, PartialEq, Eq)]
struct Mark<'a> {
    bank: u16,
    address: u16,
    line: SourceLine<'a>,
}

/// The lines of all sources.
#[derive(Drop)]
pub(crate) struct SourceLines<'a> {
    marks: Vec<Mark<'a>>,
}

/// A line of a source, as a record names it: `C$game.c$120$1_0$33` or `A$game$57`.
fn source_line<'a>(record: &'a str) -> Option<SourceLine<'a>> {
    let (kind, rest) = record.split_once('$')?;
    let language = match kind {
        "C" => Language::C,
        "A" => Language::Assembler,
        _ => return None,
    };
    let (name, rest) = rest.split_once('$')?;
    let digits = match rest.split_once('$') {
        Some((digits, _)) => digits,
        None => rest,
    };
    let number = digits.parse::<u32>().ok()?;
    Some(SourceLine {
        language,
        name,
        number,
    })
}

/// The address of a line's code, as `L:A$game$57:14000` says; the bank is above the low sixteen bits.
fn mark_of<'a>(line: &'a str) -> Option<Mark<'a>> {
    let (record, digits) = line.strip_prefix("L:")?.rsplit_once(':')?;
    let number = u32::from_str_radix(digits.trim(), 16).ok()?;
    Some(Mark {
        bank: u16::try_from(number >> 16).ok()?,
        address: u16::try_from(number & 0xFFFF).ok()?,
        line: source_line(record)?,
    })
}

/// Where a listing's source begins in each line, after the address, the bytes and the number.
const LISTED_SOURCE: usize = 40;

/// A line of a listing: its number, the source, and the bank and the address of its code, if there is some.
#[derive(Clone, Copy)]
struct Listed<'a> {
    number: u32,
    source: &'a str,
    code: Option<(u16, u16)>,
}

/// The bank and the address where the code of a listing's line begins, as `000150 31 00 E0` says. Of a value alone there is none.
fn listed_code(head: &str) -> Option<(u16, u16)> {
    let (address, bytes) = head.trim().split_once(' ')?;
    let number = u32::from_str_radix(address, 16).ok()?;
    let (first, _) = bytes.split_once(' ')?;
    if address.len() != 6 || first.len() != 2 {
        return None;
    }
    u32::from_str_radix(first, 16).ok()?;
    let bank = u16::try_from(number >> 16).ok()?;
    Some((bank, u16::try_from(number & 0xFFFF).ok()?))
}

/// A line of a listing, if it is one with a number.
fn listed_line<'a>(line: &'a str) -> Option<Listed<'a>> {
    let (head, source) = line.split_at_checked(LISTED_SOURCE)?;
    let (_, digits) = head.trim().rsplit_once(' ').unwrap_or(("", head.trim()));
    Some(Listed {
        number: digits.parse::<u32>().ok()?,
        source,
        code: listed_code(head),
    })
}

/// What a directive of a source's line names: that of `.module snake` is `snake`.
fn named_by<'a>(source: &'a str, directive: &str) -> Option<&'a str> {
    let rest = source.trim().strip_prefix(directive)?;
    let (name, _) = rest.split_once(';').unwrap_or((rest, ""));
    Some(name.trim().trim_start_matches('"').trim_end_matches('"'))
}

/// The files that a listing goes through: those that are included begin with their own line 1, and the line after them has the
/// next number of the file before.
#[derive(Drop)]
struct NamedFiles<'a> {
    /// The file at hand, with its last line.
    at: SourceLine<'a>,
    /// Those that go on after it.
    before: Vec<SourceLine<'a>>,
    /// What the last line includes.
    included: Option<&'a str>,
}

impl<'a> NamedFiles<'a> {
    /// A listing begins.
    fn new(alloc: Global) -> NamedFiles<'a> {
        NamedFiles {
            at: SourceLine {
                language: Language::Assembler,
                name: "",
                number: 0,
            },
            before: Vec::new(alloc),
            included: None,
        }
    }

    /// A line of a listing belongs to a file.
    fn take(&mut self, line: Listed<'a>) -> Result<(), AllocError> {
        let is_next = line.number == self.at.number.saturating_add(1);
        if let Some(name) = self.included.take()
            && line.number == 1
        {
            self.before.push(self.at)?;
            self.at = SourceLine {
                language: Language::Included,
                name,
                number: 0,
            };
        } else if !is_next {
            self.go_back(line.number);
        }
        self.at.number = line.number;
        if let Some(name) = named_by(line.source, ".module ")
            && self.at.name.is_empty()
        {
            self.at.name = name;
        }
        self.included = named_by(line.source, ".include ");
        Ok(())
    }

    /// The file before goes on, where a line has its next number.
    fn go_back(&mut self, number: u32) {
        if let Some(before) = self.before.last()
            && number == before.number.saturating_add(1)
            && let Some(before) = self.before.pop()
        {
            self.at = before;
        }
    }
}

/// The lines of a listing.
fn add_listed<'a>(
    alloc: Global,
    text: &'a str,
    marks: &mut Vec<Mark<'a>>,
) -> Result<(), SymbolFault> {
    let mut files = NamedFiles::new(alloc);
    for line in text.lines() {
        let Some(line) = listed_line(line) else {
            continue
        };
        files.take(line)?;
        if let Some((bank, address)) = line.code
            && !files.at.name.is_empty()
        {
            marks.push(Mark {
                bank,
                address,
                line: files.at,
            })?;
        }
    }
    Ok(())
}

impl<'a> SourceLines<'a> {
    /// No lines.
    pub(crate) fn none(alloc: Global) -> SourceLines<'a> {
        SourceLines {
            marks: Vec::new(alloc),
        }
    }

    /// Reads a file's bytes. What names no line is left out.
    ///
    /// # Errors
    ///
    /// Where the file isn't text or names no line, and where memory ran out.
    pub(crate) fn parse(alloc: Global, bytes: &'a [u8]) -> Result<SourceLines<'a>, SymbolFault> {
        let Ok(text) = str::from_utf8(bytes) else {
            return Err(SymbolFault::of(SymbolFaultKind::NotText));
        };
        let mut marks = Vec::new(alloc);
        for line in text.lines() {
            if let Some(mark) = mark_of(line) {
                marks.push(mark)?;
            }
        }
        if marks.is_empty() {
            add_listed(alloc, text, &mut marks)?;
        }
        if marks.is_empty() {
            Err(SymbolFault::of(SymbolFaultKind::NoLines))
        } else {
            Ok(SourceLines { marks })
        }
    }

    /// The first module in assembly: records have its name without the ending of its file's.
    pub(crate) fn module(&self) -> Option<&'a str> {
        for mark in &self.marks {
            if mark.line.language == Language::Assembler {
                return Some(mark.line.name);
            }
        }
        None
    }

    /// The files of modules end in `.s`.
    pub(crate) fn end_in_s(&mut self) {
        for mark in &mut self.marks {
            if mark.line.language == Language::Assembler {
                mark.line.language = Language::AssemblerS;
            }
        }
    }

    /// Whether a source is in C.
    pub(crate) fn has_c(&self) -> bool {
        self.marks.iter().any(|mark| mark.line.is_of_c())
    }

    /// The line of the assembler, or of a listing, at an address.
    fn assembled(&self, bank: u16, address: u16) -> Option<SourceLine<'a>> {
        for mark in &self.marks {
            let is_there = mark.bank == bank && mark.address == address;
            if mark.line.language != Language::C && is_there {
                return Some(mark.line);
            }
        }
        None
    }

    /// The last line of C at or before an address.
    fn compiled(&self, bank: u16, address: u16) -> Option<Mark<'a>> {
        let mut nearest: Option<Mark<'a>> = None;
        for mark in &self.marks {
            let is_before = mark.bank == bank && mark.address <= address;
            let is_nearer = match nearest {
                None => true,
                Some(other) => other.address <= mark.address,
            };
            if mark.line.language == Language::C && is_before && is_nearer {
                nearest = Some(*mark);
            }
        }
        nearest
    }

    /// The line whose code an address belongs to: of a compiled module the line of C, else the assembler's. None where no
    /// instruction of these lines begins there.
    pub(crate) fn line(&self, bank: u16, address: u16) -> Option<SourceLine<'a>> {
        let assembled = self.assembled(bank, address)?;
        let Some(compiled) = self.compiled(bank, address) else {
            return Some(assembled);
        };
        match self.assembled(bank, compiled.address) {
            Some(first) if first.name == assembled.name => Some(compiled.line),
            _ => Some(assembled),
        }
    }
}

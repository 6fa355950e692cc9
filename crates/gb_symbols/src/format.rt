//! The formats, and what their lines say.

use std::str::SplitWhitespace;

/// Who wrote a file of symbols.
#[derive(Clone, Copy, PartialEq, Eq)]
pub enum Format {
    /// `rgblink -n`: lines `BB:AAAA NAME`.
    RgbdsSym,
    /// `makebin -yS`: the same lines, with the names that SDCC's linker made.
    SdccSym,
    /// SDCC's linker with `-j`: lines `DEF NAME 0xADDR`, the bank above the low sixteen bits.
    SdccNoi,
    /// SDCC's linker with `-m`: tables with lines `ADDR NAME`, the bank above the low sixteen bits.
    SdccMap,
}

/// A name at a bank and an address, as a line says.
#[derive(Clone, Copy, PartialEq, Eq)]
pub(crate) struct NamedAddress<'a> {
    pub(crate) bank: u16,
    pub(crate) address: u16,
    pub(crate) name: &'a str,
}

/// What a line is.
#[derive(Clone, Copy, PartialEq, Eq)]
pub(crate) enum SymbolLine<'a> {
    Symbol(NamedAddress<'a>),
    /// Nothing of interest: a comment, an empty line, or a directive of another kind.
    Other,
    /// Not a line of this format.
    Wrong,
}

/// The text in front of a comment.
fn without_comment(line: &str) -> &str {
    match line.split_once(';') {
        Some((before, _)) => before,
        None => line,
    }
}

/// A hexadecimal number of one to eight digits.
fn hexadecimal(digits: &str) -> Option<u32> {
    if digits.is_empty() || digits.len() > 8 || digits.starts_with('+') {
        return None;
    }
    u32::from_str_radix(digits, 16).ok()
}

/// A name at a number that has the bank above its low sixteen bits.
fn named_at<'a>(number: u32, name: &'a str) -> Option<NamedAddress<'a>> {
    let bank = u16::try_from(number >> 16).ok()?;
    let address = u16::try_from(number & 0xFFFF).ok()?;
    Some(NamedAddress {
        bank,
        address,
        name,
    })
}

/// A bank and an address, as `01:4000`. A bank in words, as RGBDS writes `BOOT`, is bank 0.
fn banked<'a>(place: &str, name: &'a str) -> Option<NamedAddress<'a>> {
    let (bank, address) = place.split_once(':')?;
    let bank = if bank == "BOOT" {
        0
    } else {
        u16::try_from(hexadecimal(bank)?).ok()?
    };
    let address = u16::try_from(hexadecimal(address)?).ok()?;
    Some(NamedAddress {
        bank,
        address,
        name,
    })
}

/// The next word and the one after it.
fn two_words<'a>(words: &mut SplitWhitespace<'a>) -> Option<(&'a str, &'a str)> {
    let first = words.next()?;
    let second = words.next()?;
    Some((first, second))
}

/// A line of an RGBDS file.
fn sym_line<'a>(line: &'a str) -> SymbolLine<'a> {
    let line = without_comment(line).trim();
    if line.is_empty() {
        return SymbolLine::Other;
    }
    let mut words = line.split_whitespace();
    let Some((place, name)) = two_words(&mut words) else {
        return SymbolLine::Wrong;
    };
    match banked(place, name) {
        Some(named) => SymbolLine::Symbol(named),
        None => SymbolLine::Wrong,
    }
}

/// A line of an SDCC `.noi` file; other directives than DEF name no symbol.
fn noi_line<'a>(line: &'a str) -> SymbolLine<'a> {
    let mut words = line.split_whitespace();
    match words.next() {
        None => return SymbolLine::Other,
        Some(word) if word != "DEF" => return SymbolLine::Other,
        Some(_) => {}
    }
    let Some((name, number)) = two_words(&mut words) else {
        return SymbolLine::Wrong;
    };
    let digits = match number.strip_prefix("0x") {
        Some(digits) => digits,
        None => number,
    };
    match hexadecimal(digits).and_then(|number| named_at(number, name)) {
        Some(named) => SymbolLine::Symbol(named),
        None => SymbolLine::Wrong,
    }
}

/// A line of an SDCC `.map` file: most are headings and names of files.
fn map_line<'a>(line: &'a str) -> SymbolLine<'a> {
    let mut words = line.split_whitespace();
    let Some((first, second)) = two_words(&mut words) else {
        return SymbolLine::Other;
    };
    let (digits, name) = if first == "C:" || first == "D:" {
        match words.next() {
            Some(third) => (second, third),
            None => return SymbolLine::Other,
        }
    } else {
        (first, second)
    };
    if digits.len() < 4 {
        return SymbolLine::Other;
    }
    match hexadecimal(digits).and_then(|number| named_at(number, name)) {
        Some(named) => SymbolLine::Symbol(named),
        None => SymbolLine::Other,
    }
}

/// What the author calls a symbol of SDCC's linker; nothing if the linker made it.
///
/// The linker's own names are areas' lengths and starts (`l__CODE`, `s__CODE`), local labels (`00101$`), and by `-y` records for
/// debuggers. Of these a `static` function or variable has its only name, as `Fgame$helper$0$0` or `Lgame.helper$count$1_0$3`.
fn authors_name<'a>(name: &'a str) -> Option<&'a str> {
    if name.starts_with("l__") || name.starts_with("s__") || name.starts_with(".__.") {
        return None;
    }
    if !name.contains('$') {
        return Some(name);
    }
    if !name.starts_with('F') && !name.starts_with('L') {
        return None;
    }
    let (_, rest) = name.split_once('$')?;
    let (name, _) = rest.split_once('$')?;
    Some(name)
}

/// A line of SDCC's linker, with the author's name for its symbol.
fn of_authors<'a>(line: SymbolLine<'a>) -> SymbolLine<'a> {
    match line {
        SymbolLine::Symbol(named) => match authors_name(named.name) {
            Some(name) => SymbolLine::Symbol(NamedAddress { name, ..named }),
            None => SymbolLine::Other,
        },
        other => other,
    }
}

/// Whether only makebin writes such a line into a file of RGBDS's form: its comment at the top, or a name that SDCC's linker
/// always makes, as `.__.CPU.`.
fn is_of_makebin(line: &str) -> bool {
    line.contains("automagically by makebin") || line.contains(" .__.")
}

impl Format {
    /// Whether SDCC's linker writes it.
    pub(crate) fn is_of_sdcc(self) -> bool {
        matches!(self, Format::SdccSym | Format::SdccNoi | Format::SdccMap)
    }

    /// What a line is in this format.
    pub(crate) fn line<'a>(self, line: &'a str) -> SymbolLine<'a> {
        match self {
            Format::RgbdsSym => sym_line(line),
            Format::SdccSym => of_authors(sym_line(line)),
            Format::SdccNoi => of_authors(noi_line(line)),
            Format::SdccMap => of_authors(map_line(line)),
        }
    }

    /// The format of a text, by its first line that shows it; an empty one, or one of comments alone, is RGBDS's.
    pub fn of(text: &str) -> Option<Format> {
        let mut is_blank = true;
        for line in text.lines() {
            if line.contains("Global Defined In Module") {
                return Some(Format::SdccMap);
            }
            if is_of_makebin(line) && sym_line(line) != SymbolLine::Wrong {
                return Some(Format::SdccSym);
            }
            if let SymbolLine::Symbol(_) = noi_line(line) {
                return Some(Format::SdccNoi);
            }
            match sym_line(line) {
                SymbolLine::Symbol(_) => return Some(Format::RgbdsSym),
                SymbolLine::Other => {}
                SymbolLine::Wrong => is_blank = false,
            }
        }
        if is_blank {
            Some(Format::RgbdsSym)
        } else {
            None
        }
    }
}

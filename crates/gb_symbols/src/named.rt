//! Addresses as a person reads them.

use crate::Symbols;
use std::fmt;

/// An address with its bank, where one is mapped there, and then its symbol, where there is one: `00:0150 (Main)`.
#[derive(Clone, Copy)]
pub struct ListedAddress<'a> {
    pub symbols: &'a Symbols<'a>,
    pub bank: Option<u16>,
    pub address: u16,
}

/// A symbol with how far after it the address is, and then the address, as RGBDS writes it: `Main+$3 (00:0153)`. Without a symbol
/// it is the address alone, or the RST that calls it.
#[derive(Clone, Copy)]
pub struct ShownAddress<'a> {
    pub symbols: &'a Symbols<'a>,
    pub bank: Option<u16>,
    pub address: u16,
}

/// A label for an address, or else the RST that calls it, or the address: `Main`, `Main+$3`, `RST $08` or `00:0153`.
#[derive(Clone, Copy)]
pub struct ShownLabel<'a> {
    pub symbols: &'a Symbols<'a>,
    pub bank: Option<u16>,
    pub address: u16,
}

/// An address with its bank, where one is mapped there: RAM has none.
#[derive(Clone, Copy)]
pub struct BankAddress {
    pub bank: Option<u16>,
    pub address: u16,
}

/// A text in which each address of RAM from C000 on, `$` and four digits, is followed by its symbol, where it has one:
/// `$C0A0 (score)`. Of a range it is the first address's, behind the last: `$C0A0-$C0A3 (score)`.
#[derive(Clone, Copy)]
pub struct NamedText<'a> {
    pub symbols: &'a Symbols<'a>,
    pub text: &'a str,
}

impl fmt::Display for BankAddress {
    fn fmt<W: fmt::Write>(&self, f: &mut fmt::Formatter<W>) -> fmt::Result {
        let address = self.address;
        match self.bank {
            Some(bank) if address < 0x8000 => write!(f, "{bank:02X}:{address:04X}"),
            _ => write!(f, "${address:04X}"),
        }
    }
}

/// The address after the vectors of RST.
const AFTER_RST: u16 = 0x0040;

/// An address of an RST's vector by the instruction that calls it: `RST $08`, or `RST $08+$2`.
#[derive(Clone, Copy)]
struct VectorAddress(u16);

impl fmt::Display for VectorAddress {
    fn fmt<W: fmt::Write>(&self, f: &mut fmt::Formatter<W>) -> fmt::Result {
        let vector = self.0 & 0xFFF8;
        let offset = self.0 & 7;
        if offset == 0 {
            write!(f, "RST ${vector:02X}")
        } else {
            write!(f, "RST ${vector:02X}+${offset:X}")
        }
    }
}

impl fmt::Display for ListedAddress<'_> {
    fn fmt<W: fmt::Write>(&self, f: &mut fmt::Formatter<W>) -> fmt::Result {
        let at = BankAddress {
            bank: self.bank,
            address: self.address,
        };
        // RAM's symbols have bank 0.
        match self.symbols.place(self.bank.unwrap_or(0), self.address) {
            Some(symbol) => write!(f, "{at} ({symbol})"),
            None => write!(f, "{at}"),
        }
    }
}

impl fmt::Display for ShownAddress<'_> {
    fn fmt<W: fmt::Write>(&self, f: &mut fmt::Formatter<W>) -> fmt::Result {
        let at = BankAddress {
            bank: self.bank,
            address: self.address,
        };
        match self.symbols.place(self.bank.unwrap_or(0), self.address) {
            Some(symbol) => write!(f, "{symbol} ({at})"),
            None if self.address < AFTER_RST => {
                let vector = VectorAddress(self.address);
                write!(f, "{vector} ({at})")
            }
            None => write!(f, "{at}"),
        }
    }
}

impl fmt::Display for ShownLabel<'_> {
    fn fmt<W: fmt::Write>(&self, f: &mut fmt::Formatter<W>) -> fmt::Result {
        match self.symbols.place(self.bank.unwrap_or(0), self.address) {
            Some(symbol) => write!(f, "{symbol}"),
            None if self.address < AFTER_RST => {
                let vector = VectorAddress(self.address);
                write!(f, "{vector}")
            }
            None => {
                let at = BankAddress {
                    bank: self.bank,
                    address: self.address,
                };
                write!(f, "{at}")
            }
        }
    }
}

/// The first address of RAM that symbols of bank 0 name.
const FIRST_RAM: u16 = 0xC000;

/// An address of RAM, four digits at the start of a text, with its digits and what comes after them.
fn ram_address(text: &str) -> Option<(u16, &str, &str)> {
    let (digits, rest) = text.split_at_checked(4)?;
    let address = u16::from_str_radix(digits, 16).ok()?;
    if address >= FIRST_RAM {
        Some((address, digits, rest))
    } else {
        None
    }
}

impl NamedText<'_> {
    /// What comes after a `$`, with the symbol of the address there. Where that begins a range, or ends the one that began with this
    /// first address, it answers the range's first address while the range goes on.
    fn fmt_after<W: fmt::Write>(
        &self,
        first: Option<u16>,
        text: &str,
        f: &mut fmt::Formatter<W>,
    ) -> Result<Option<u16>, fmt::Error> {
        let Some((address, digits, rest)) = ram_address(text) else {
            write!(f, "${text}")?;
            return Ok(None);
        };
        let address = first.unwrap_or(address);
        write!(f, "${digits}")?;
        if rest == "-" {
            write!(f, "-")?;
            return Ok(Some(address));
        }
        if let Some(symbol) = self.symbols.place(0, address) {
            write!(f, " ({symbol})")?;
        }
        write!(f, "{rest}")?;
        Ok(None)
    }
}

impl fmt::Display for NamedText<'_> {
    fn fmt<W: fmt::Write>(&self, f: &mut fmt::Formatter<W>) -> fmt::Result {
        let mut first = None;
        for (number, text) in self.text.split('$').enumerate() {
            if number == 0 {
                write!(f, "{text}")?;
            } else {
                first = self.fmt_after(first, text, f)?;
            }
        }
        Ok(())
    }
}

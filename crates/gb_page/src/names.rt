//! Addresses, symbols and procedures as the page names them.

use crate::escaped::Escaped;
use crate::page::Page;
use gb_reports::{INTERRUPTS, Interrupt, ProcedureFacts, SymbolOffset, Symbols};
use std::fmt;

/// An address with its bank, where one is shown there.
#[derive(Clone, Copy)]
pub struct Address {
    pub bank: u16,
    pub address: u16,
}

impl Address {
    /// Where a procedure begins.
    pub(crate) fn of(procedure: &ProcedureFacts) -> Address {
        Address {
            bank: procedure.bank,
            address: procedure.address,
        }
    }
}

impl fmt::Display for Address {
    fn fmt<W: fmt::Write>(&self, f: &mut fmt::Formatter<W>) -> fmt::Result {
        let bank = self.bank;
        let address = self.address;
        if address < 0x8000 {
            write!(f, "{bank:02X}:{address:04X}")
        } else {
            write!(f, "${address:04X}")
        }
    }
}

/// A symbol, and how far after it an address is.
#[derive(Clone, Copy)]
struct ShownSymbol<'a>(SymbolOffset<'a>);

impl fmt::Display for ShownSymbol<'_> {
    fn fmt<W: fmt::Write>(&self, f: &mut fmt::Formatter<W>) -> fmt::Result {
        let name = Escaped(self.0.name);
        let offset = self.0.offset;
        if offset == 0 {
            write!(f, "{name}")
        } else {
            write!(f, "{name}+${offset:X}")
        }
    }
}

/// The symbol of an address; nothing where there is none.
#[derive(Clone, Copy)]
pub struct SymbolAt<'a, 's> {
    pub symbols: &'a Symbols<'s>,
    pub at: Address,
}

impl fmt::Display for SymbolAt<'_, '_> {
    fn fmt<W: fmt::Write>(&self, f: &mut fmt::Formatter<W>) -> fmt::Result {
        match self.symbols.place(self.at.bank, self.at.address) {
            Some(place) => {
                let place = ShownSymbol(place);
                write!(f, "{place}")
            }
            None => Ok(()),
        }
    }
}

/// What an interrupt's handler is called.
fn handler_name(interrupt: Interrupt) -> &'static str {
    match interrupt {
        Interrupt::VBlank => "VBlank handler",
        Interrupt::Lcd => "STAT handler",
        Interrupt::Timer => "timer handler",
        Interrupt::Serial => "serial handler",
        Interrupt::Joypad => "joypad handler",
    }
}

/// The name of a procedure without a symbol at its first address.
pub(crate) fn usual_name(number: u16, address: u16) -> Option<&'static str> {
    if number == 0 {
        return Some("main");
    }
    for interrupt in INTERRUPTS {
        if interrupt.vector() == address {
            return Some(handler_name(*interrupt));
        }
    }
    None
}

/// The name of a procedure without a symbol at its first address: the usual one, or else the symbol before, or its address.
fn fmt_unnamed<W: fmt::Write>(
    number: u16,
    at: Address,
    before: Option<SymbolOffset<'_>>,
    f: &mut fmt::Formatter<W>,
) -> fmt::Result {
    match (usual_name(number, at.address), before) {
        (Some(text), _) => write!(f, "{text}"),
        (None, Some(place)) => {
            let place = ShownSymbol(place);
            write!(f, "{place}")
        }
        (None, None) => write!(f, "{at}"),
    }
}

/// The name of a procedure.
fn fmt_name<W: fmt::Write>(
    symbols: &Symbols<'_>,
    number: u16,
    procedure: &ProcedureFacts,
    f: &mut fmt::Formatter<W>,
) -> fmt::Result {
    let at = Address::of(procedure);
    match symbols.place(at.bank, at.address) {
        Some(place) if place.offset == 0 => {
            let name = Escaped(place.name);
            write!(f, "{name}")
        }
        before => fmt_unnamed(number, at, before, f),
    }
}

/// A procedure's name.
#[derive(Clone, Copy)]
pub struct ProcedureName<'a, 'p, 'r, 'c, 's> {
    pub page: &'a Page<'p, 'r, 'c, 's>,
    pub number: u16,
}

impl fmt::Display for ProcedureName<'_, '_, '_, '_, '_> {
    fn fmt<W: fmt::Write>(&self, f: &mut fmt::Formatter<W>) -> fmt::Result {
        let number = self.number;
        match self.page.facts.procedures.get(usize::from(number)) {
            Some(procedure) => fmt_name(self.page.symbols, number, procedure, f),
            None => write!(f, "{number}"),
        }
    }
}

/// A procedure's name that leads to what is said of it.
#[derive(Clone, Copy)]
pub struct ProcedureLink<'a, 'p, 'r, 'c, 's> {
    pub page: &'a Page<'p, 'r, 'c, 's>,
    pub number: u16,
}

impl fmt::Display for ProcedureLink<'_, '_, '_, '_, '_> {
    fn fmt<W: fmt::Write>(&self, f: &mut fmt::Formatter<W>) -> fmt::Result {
        let number = self.number;
        let name = ProcedureName {
            page: self.page,
            number,
        };
        write!(f, "<a href=\"#p{number}\">{name}</a>")
    }
}

/// A node's address with its symbol, which leads to it in the listing where it is listed.
#[derive(Clone, Copy)]
pub struct NodeLink<'a, 'p, 'r, 'c, 's> {
    pub page: &'a Page<'p, 'r, 'c, 's>,
    pub node: u32,
}

/// Where a node lies.
fn address_of(page: &Page<'_, '_, '_, '_>, number: u32) -> Option<Address> {
    if number >= page.cert.nodes() {
        return None;
    }
    let node = page.cert.node(number);
    Some(Address {
        bank: node.bank(),
        address: node.address(),
    })
}

impl fmt::Display for NodeLink<'_, '_, '_, '_, '_> {
    fn fmt<W: fmt::Write>(&self, f: &mut fmt::Formatter<W>) -> fmt::Result {
        let node = self.node;
        let Some(at) = address_of(self.page, node) else {
            return write!(f, "node {node}");
        };
        let symbol = SymbolAt {
            symbols: self.page.symbols,
            at,
        };
        if self.page.is_listed(node) {
            write!(
                f,
                "<a href=\"#n{node}\"><code>{at}</code></a> <span class=\"symbol\">{symbol}</span>"
            )
        } else {
            write!(
                f,
                "<code>{at}</code> <span class=\"symbol\">{symbol}</span>"
            )
        }
    }
}

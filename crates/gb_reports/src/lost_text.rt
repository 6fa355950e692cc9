//! What is said of a bank that was left mapped.

use gb_facts::interrupt_at;
use gb_findings::gb_fixpoint::code_point::CodePoint;
use gb_findings::gb_symbols::{ShownAddress, Symbols};
use gb_findings::lost_bank::{BankLoser, LostBank, Mapping};
use std::fmt;

/// A bank that was left mapped, in some sentences.
#[derive(Clone, Copy)]
pub(crate) struct ShownLoss<'a> {
    pub(crate) lost: &'a LostBank,
    pub(crate) symbols: &'a Symbols<'a>,
}

/// An address as a person reads it.
fn shown<'a>(symbols: &'a Symbols<'a>, point: CodePoint) -> ShownAddress<'a> {
    ShownAddress {
        symbols,
        bank: point.bank,
        address: point.address,
    }
}

/// Code at 4000-7FFF that goes on in another bank.
fn fmt_going_on<W: fmt::Write>(
    shown_loss: &ShownLoss<'_>,
    f: &mut fmt::Formatter<W>,
) -> fmt::Result {
    let LostBank { by, was, now, .. } = *shown_loss.lost;
    match by {
        BankLoser::Handler { vector } => {
            let name = interrupt_at(vector).unwrap_or("interrupt");
            write!(
                f,
                "The {name} handler may leave {now} mapped. It interrupts this code in {was}, which then goes on in {now}."
            )
        }
        BankLoser::Routine { target } => {
            let routine = shown(shown_loss.symbols, target);
            write!(
                f,
                "{routine} is called here in {was}, and may return with {now} mapped. This code then goes on in {now}."
            )
        }
        BankLoser::Instruction => write!(
            f,
            "This maps {now}, while its own code is in {was}. The next instruction comes from {now}."
        ),
    }
}

/// Code at 4000-7FFF that is entered in another bank.
fn fmt_entering<W: fmt::Write>(
    shown_loss: &ShownLoss<'_>,
    f: &mut fmt::Formatter<W>,
) -> fmt::Result {
    let LostBank {
        by,
        was,
        now,
        at,
        ..
    } = *shown_loss.lost;
    write!(f, "This enters code at $4000-$7FFF in {now}.")?;
    let at = shown(shown_loss.symbols, at);
    match by {
        BankLoser::Handler { vector } => {
            let name = interrupt_at(vector).unwrap_or("interrupt");
            write!(
                f,
                " The {name} handler may leave {now} mapped, where it interrupts {at} with {was} mapped."
            )
        }
        BankLoser::Routine { target } => {
            let routine = shown(shown_loss.symbols, target);
            write!(f, " {routine}, called at {at}, may leave {now} mapped.")
        }
        BankLoser::Instruction => Ok(()),
    }
}

/// Where the bank is switched last.
fn fmt_mapping<W: fmt::Write>(
    mapping: &Mapping,
    symbols: &Symbols<'_>,
    f: &mut fmt::Formatter<W>,
) -> fmt::Result {
    let code = mapping.code;
    let point = mapping.point;
    let at = ShownAddress {
        symbols: &*symbols,
        bank: point.bank,
        address: point.address,
    };
    write!(f, " The last bank switch is at {at}: {code}")?;
    match mapping.variable {
        Some(address) => {
            let variable = ShownAddress {
                symbols: &*symbols,
                bank: None,
                address,
            };
            write!(f, ", with the number in {variable}.")
        }
        None => write!(f, "."),
    }
}

impl fmt::Display for ShownLoss<'_> {
    fn fmt<W: fmt::Write>(&self, f: &mut fmt::Formatter<W>) -> fmt::Result {
        if self.lost.goes_on {
            fmt_going_on(self, f)?;
        } else {
            fmt_entering(self, f)?;
        }
        let is_shown_by_place = self.lost.goes_on && self.lost.by == BankLoser::Instruction;
        match &self.lost.mapping {
            Some(mapping) if !is_shown_by_place => fmt_mapping(mapping, self.symbols, f),
            _ => Ok(()),
        }
    }
}

//! The procedures that begin at an address.

ghost use Rattle.std.specs.Prelude.{◌≡◌, ◌==◌, ◌<◌, ◌≤◌, true, length, slice_get, Some};
ghost use Rattle.gb_states.specs.WholeRules.{entry_in};
ghost use Rattle.gb_cert.specs.Namesakes.{starts, AreNamesakes};

use crate::cert::Cert;
use gb_rows::{Rows, find_in};

/// The procedures behind main, as rows, and how many of their keys were asked for. The address alone decides: the keys
/// have one procedure number.
#[derive(Drop)]
struct EntryRows<'c, 'a> {
    cert: &'c Cert<'a>,
    asked: u32,
}

impl<'c, 'a> Rows for EntryRows<'c, 'a> {
    ghost use Rattle.std.specs.Prelude.{◌≡◌, min};
    ghost use Rattle.gb_cert.specs.Namesakes.{starts};

    ghost keys = { λ rows. starts rows.cert.now };

    // As many as were asked for, or the most that can be counted.
    ghost asked = { λ rows n. rows.asked ≡ min n 4294967295 };

    fn len(&self) -> u32 {
        let cert = self.cert;
        u32::from(cert.procedures()).saturating_sub(1)
    }

    fn key(&mut self, i: u32) -> (u16, u16) {
        self.asked = self.asked.saturating_add(1);
        let cert = self.cert;
        (0, cert.start(i))
    }
}

/// The procedures that begin at an address, main apart: those from `first` to below `after`. And how many keys were asked
/// for to find them.
#[derive(Clone, Copy, PartialEq, Eq)]
pub struct Namesakes {
    pub first: u16,
    pub after: u16,
    pub asked: u32,
}

impl<'a> Cert<'a> {
    /// The procedures behind main as rows, none of whose keys was asked for.
    fn entry_rows(&self) -> EntryRows<'_, 'a>
        ensures cert { result.cert.now ≡ self.now }
        ensures asked { result.asked ≡ 0 }
    {
        EntryRows {
            cert: self,
            asked: 0,
        }
    }

    /// The address at which a procedure begins, by its number.
    fn entry_address(&self, number: u16) -> u16
        requires { number < length self.now.procedures }
        ensures { result ≡ entry_in self.now.nodes (slice_get self.now.procedures number) }
    {
        let entry = self.procedure(number).entry();
        if entry >= self.nodes() {
            return 0;
        }
        self.node(entry).address()
    }

    /// The address at which a procedure behind main begins, by its number among these.
    fn start(&self, i: u32) -> u16
        requires { i < length (starts self.now) }
        ensures { slice_get (starts self.now) i ≡ Some (0, result) }
    {
        let _count = self.procedures();
        self.entry_address(i as u16 + 1)
    }

    /// The numbers of the procedures that begin at an address, main apart, in a certificate of version 4, whose procedures
    /// stand by these addresses. At most 32 keys are asked for.
    pub fn find_procedures(&self, address: u16) -> Namesakes
        requires { (self.now.version == 4) ≡ true }
        ensures found { AreNamesakes self.now address result.first result.after }
        ensures few { result.asked ≤ 32 }
    {
        let _region = self.region();
        let mut rows = self.entry_rows();
        let found = find_in(&mut rows, 0, address);
        Namesakes {
            first: found.first as u16 + 1,
            after: found.after as u16 + 1,
            asked: rows.asked,
        }
    }
}

//! The nodes with a key.

ghost use Rattle.std.specs.Prelude.{◌≡◌, ◌<◌, ◌≤◌, false, map, length, ℕ, List};
ghost use Rattle.gb_states.specs.Rules.{key};
ghost use Rattle.gb_rows.specs.Rows.{IsFound, IsBetween};

use crate::cert::Cert;
use gb_rows::{Found, Rows, find_in, first_near, found_from};

/// The nodes of a certificate, as rows, and how many of their keys were asked for.
#[derive(Drop)]
struct NodeRows<'c, 'a> {
    cert: &'c Cert<'a>,
    asked: u32,
}

impl<'c, 'a> Rows for NodeRows<'c, 'a> {
    ghost use Rattle.std.specs.Prelude.{◌≡◌, min};

    ghost keys = { λ rows. map key rows.cert.now.nodes };

    // As many as were asked for, or the most that can be counted.
    ghost asked = { λ rows n. rows.asked ≡ min n 4294967295 };

    fn len(&self) -> u32 {
        let cert = self.cert;
        cert.nodes()
    }

    fn key(&mut self, i: u32) -> (u16, u16) {
        self.asked = self.asked.saturating_add(1);
        let cert = self.cert;
        let node = cert.node(i);
        (node.procedure(), node.address())
    }
}

/// The nodes with a key, and how many keys were asked for to find them.
#[derive(Clone, Copy, PartialEq, Eq)]
pub struct Search {
    pub found: Found,
    pub asked: u32,
}

/// The number of nodes before a key, and how many keys were asked for to find it.
#[derive(Clone, Copy, PartialEq, Eq)]
pub struct First {
    pub number: u32,
    pub asked: u32,
}

impl<'a> Cert<'a> {
    /// The nodes as rows, none of whose keys was asked for.
    fn rows(&self) -> NodeRows<'_, 'a>
        ensures cert { result.cert.now ≡ self.now }
        ensures asked { result.asked ≡ 0 }
    {
        NodeRows {
            cert: self,
            asked: 0,
        }
    }

    /// The numbers of the nodes of a procedure at an address, by `find_in`: at most 32 keys are asked for among
    /// 65,535 nodes, 42 among 1,048,576.
    pub fn find(&self, procedure: u16, address: u16) -> Search
        ensures found { IsFound (map key self.now.nodes) (procedure, address) result.found.first result.found.after }
        ensures few { length self.now.nodes ≤ 65535 → result.asked ≤ 32 }
        ensures most { length self.now.nodes ≤ 1048576 → result.asked ≤ 42 }
    {
        let _region = self.region();
        let mut rows = self.rows();
        let found = find_in(&mut rows, procedure, address);
        Search {
            found,
            asked: rows.asked,
        }
    }

    /// The number of the first node of a procedure at an address, by `first_near`: quickly found where it is a little above
    /// `near`. Where there is none it is the number of nodes before. At most 32 keys are asked for among 65,535 nodes, 42
    /// among 1,048,576.
    pub fn first_near(&self, near: u32, procedure: u16, address: u16) -> First
        ensures first { IsBetween (map key self.now.nodes) false (procedure, address) result.number result.number }
        ensures few { length self.now.nodes ≤ 65535 → result.asked ≤ 32 }
        ensures most { length self.now.nodes ≤ 1048576 → result.asked ≤ 42 }
    {
        let _region = self.region();
        let mut rows = self.rows();
        let number = first_near(&mut rows, near, procedure, address);
        First {
            number,
            asked: rows.asked,
        }
    }

    /// The numbers of the nodes of a procedure at an address, the first of which is known, by `found_from`. At most 32 keys
    /// are asked for among 65,535 nodes, 42 among 1,048,576.
    pub fn found_from(&self, first: u32, procedure: u16, address: u16) -> Search
        requires { IsBetween (map key self.now.nodes) false (procedure, address) first first }
        ensures found { IsFound (map key self.now.nodes) (procedure, address) result.found.first result.found.after }
        ensures few { length self.now.nodes ≤ 65535 → result.asked ≤ 32 }
        ensures most { length self.now.nodes ≤ 1048576 → result.asked ≤ 42 }
    {
        let _region = self.region();
        let mut rows = self.rows();
        let found = found_from(&mut rows, first, procedure, address);
        Search {
            found,
            asked: rows.asked,
        }
    }
}

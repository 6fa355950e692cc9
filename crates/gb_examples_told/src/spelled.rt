//! Certificates of some procedures and nodes, spelled.

use gb_samples::cartridges::put;
use gb_samples::certificates::least;

/// Offsets in a state, each with the byte that is there instead of power-up's.
pub type Changes = &'static [(usize, u8)];

/// No words and no cells.
pub const EMPTY: &[u8] = &[0, 0];

/// A procedure: its entry, its need, its ranges with their count, and where it returns, the changes of its exit.
#[derive(Clone, Copy)]
pub struct SpelledProcedure {
    pub entry: u8,
    pub need: u8,
    pub ranges: &'static [u8],
    pub exit: Option<Changes>,
}

/// A node in bank 0: its state is power-up's with its stack set, with changes, and with these words and cells.
#[derive(Clone, Copy)]
pub struct SpelledNode {
    pub procedure: u8,
    pub address: u16,
    pub changes: Changes,
    pub held: &'static [u8],
}

/// A state of version 3: the changes of its core, how many items it has, and these, what is known together, and cells.
#[derive(Clone, Copy)]
pub struct ExtendedState {
    pub changes: Changes,
    pub items: u8,
    pub held: &'static [u8],
}

/// A procedure of version 3.
#[derive(Clone, Copy)]
pub struct ExtendedProcedure {
    pub entry: u8,
    pub base: u16,
    pub need: u16,
    pub ranges: &'static [u8],
    pub exit: Option<ExtendedState>,
}

/// A node of version 3 in bank 0.
#[derive(Clone, Copy)]
pub struct ExtendedNode {
    pub procedure: u8,
    pub address: u16,
    pub state: ExtendedState,
}

/// A state of version 4: the changes of its core, how many items it has, and these, what is known together and claimed for the whole
/// program, and cells.
#[derive(Clone, Copy)]
pub struct WholeState {
    pub changes: Changes,
    pub items: u8,
    pub held: &'static [u8],
}

/// A procedure of version 4: its ranges and the addresses that it keeps, each with their count, and no mark.
#[derive(Clone, Copy)]
pub struct WholeProcedure {
    pub entry: u8,
    pub base: u16,
    pub need: u16,
    pub ranges: &'static [u8],
    pub kept: &'static [u8],
    pub exit: Option<WholeState>,
}

/// A node of version 4 in bank 0.
#[derive(Clone, Copy)]
pub struct WholeNode {
    pub procedure: u8,
    pub address: u16,
    pub state: WholeState,
}

/// The most bytes that are spelled.
const ROOM: usize = 1280;

/// The bytes of a file from its beginning on, and how many there are.
#[derive(Drop)]
pub struct Spelled {
    bytes: [u8; ROOM],
    length: usize,
}

impl Spelled {
    /// The bytes that are spelled.
    pub fn as_slice(&self) -> &[u8] {
        self.bytes.get(..self.length).unwrap_or(&[])
    }

    fn add(&mut self, piece: &[u8]) {
        put(&mut self.bytes, self.length, piece);
        self.length = self.length.wrapping_add(piece.len());
    }

    /// A state before its words: power-up's with its stack set, and with changes.
    fn add_core(&mut self, changes: Changes) {
        let first = self.length;
        self.add(&least()[23..63]);
        put(&mut self.bytes, first.wrapping_add(2), &[1]);
        for (offset, value) in changes {
            put(&mut self.bytes, first.wrapping_add(*offset), &[*value]);
        }
    }

    fn add_procedure(&mut self, procedure: &SpelledProcedure) {
        self.add(&[procedure.entry, 0, procedure.need, 0]);
        self.add(procedure.ranges);
        match procedure.exit {
            None => self.add(&[0]),
            Some(changes) => {
                self.add(&[1]);
                self.add_core(changes);
                self.add(EMPTY);
            }
        }
    }

    fn add_node(&mut self, node: &SpelledNode) {
        let [low, high] = node.address.to_le_bytes();
        self.add(&[node.procedure, low, high, 0, 0]);
        self.add_core(node.changes);
        self.add(node.held);
    }

    fn add_extended_state(&mut self, state: &ExtendedState) {
        self.add_core(state.changes);
        self.add(&[state.items]);
        self.add(state.held);
    }

    fn add_extended_procedure(&mut self, procedure: &ExtendedProcedure) {
        self.add(&[procedure.entry, 0, 0, 0]);
        self.add(&procedure.base.to_le_bytes());
        self.add(&procedure.need.to_le_bytes());
        self.add(procedure.ranges);
        match procedure.exit {
            None => self.add(&[0]),
            Some(state) => {
                self.add(&[1]);
                self.add_extended_state(&state);
            }
        }
    }

    fn add_extended_node(&mut self, node: &ExtendedNode) {
        let [low, high] = node.address.to_le_bytes();
        self.add(&[node.procedure, low, high, 0, 0]);
        self.add_extended_state(&node.state);
    }
}

/// All of the controller's registers are kept, in version 4.
const ALL_KEPT: Changes = &[(13, 0x1F)];

impl Spelled {
    fn add_whole_state(&mut self, state: &WholeState) {
        let first = self.length;
        self.add_core(ALL_KEPT);
        for (offset, value) in state.changes {
            put(&mut self.bytes, first.wrapping_add(*offset), &[*value]);
        }
        self.add(&[state.items]);
        self.add(state.held);
    }

    fn add_whole_procedure(&mut self, procedure: &WholeProcedure) {
        self.add(&[procedure.entry, 0, 0, 0]);
        self.add(&procedure.base.to_le_bytes());
        self.add(&procedure.need.to_le_bytes());
        self.add(procedure.ranges);
        self.add(procedure.kept);
        self.add(&[0]);
        match procedure.exit {
            None => self.add(&[0]),
            Some(state) => {
                self.add(&[1]);
                self.add_whole_state(&state);
            }
        }
    }

    fn add_whole_node(&mut self, node: &WholeNode) {
        let [low, high] = node.address.to_le_bytes();
        self.add(&[node.procedure, 0, low, high, 0, 0]);
        self.add_whole_state(&node.state);
    }
}

/// No bytes yet.
fn nothing() -> Spelled {
    Spelled {
        bytes: [0; ROOM],
        length: 0,
    }
}

/// A certificate of version 1, whose stack region is FF80 to FFFD, so that the stack is set from the start.
pub fn certificate(procedures: &[SpelledProcedure], nodes: &[SpelledNode]) -> Spelled {
    let mut cert = nothing();
    cert.add(&[0x47, 0x42, 0x42, 0x43, 0x01, 0x80, 0xFF, 0xFD, 0xFF]);
    cert.add(&[(procedures.len() % 256) as u8, (nodes.len() % 256) as u8, 0]);
    for procedure in procedures {
        cert.add_procedure(procedure);
    }
    for node in nodes {
        cert.add_node(node);
    }
    cert
}

/// A certificate of version 3 with the same stack region, so that main's base is FFFE.
pub fn extended_certificate(procedures: &[ExtendedProcedure], nodes: &[ExtendedNode]) -> Spelled {
    let mut cert = nothing();
    cert.add(&[0x47, 0x42, 0x42, 0x58, 0x03, 0x80, 0xFF, 0xFD, 0xFF]);
    let (procedure_count, node_count) = (procedures.len() % 256, nodes.len() % 256);
    cert.add(&[procedure_count as u8, node_count as u8, 0, 0, 0]);
    for procedure in procedures {
        cert.add_extended_procedure(procedure);
    }
    for node in nodes {
        cert.add_extended_node(node);
    }
    cert
}

/// A certificate of version 4 with the same stack region, and with these facts, eight bytes each.
pub fn whole_certificate(
    facts: &[u8],
    procedures: &[WholeProcedure],
    nodes: &[WholeNode],
) -> Spelled {
    let mut cert = nothing();
    cert.add(&[0x47, 0x42, 0x42, 0x58, 0x04, 0x80, 0xFF, 0xFD, 0xFF]);
    let (procedure_count, node_count) = (procedures.len() % 256, nodes.len() % 256);
    let fact_count = facts.len() / 8 % 256;
    cert.add(&[procedure_count as u8, 0, node_count as u8, 0, 0, 0]);
    cert.add(&[fact_count as u8, 0]);
    cert.add(facts);
    for procedure in procedures {
        cert.add_whole_procedure(procedure);
    }
    for node in nodes {
        cert.add_whole_node(node);
    }
    cert
}

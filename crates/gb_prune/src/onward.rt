//! Where a node of an accepted certificate leads to: the nodes, exits and procedures that stand for what it leaves.

use crate::parts::{Wanted, weakened};
use crate::standing::{Standby, Standing};
use gb_draft::gb_ops::decode::decode;
use gb_draft::gb_ops::op::Row;
use gb_draft::{
    Abs, Cert, INTERRUPT_COUNT, PairBounds, Program, Resumed, Rom, Rules, Setting, Stack,
    Successor, Successors, Target, callee_at, exit_of, handler, kept_of, known_bytes,
    left_by_dispatch, may_come, program_of, ranges_of, resume, stack_of, successors_of, taken_by,
    vector_of,
};
use std::alloc::{AllocError, Global};

/// The number of the first interrupt among the ways from a node: after an instruction's three.
const FIRST_INTERRUPT: u8 = 3;

/// What a way from a node leads to.
#[derive(Clone, Copy, PartialEq, Eq)]
pub(crate) enum Onward {
    Nodes(Standby),
    /// The exit of the node's procedure.
    Exit,
    /// A procedure, and what stands for the state after it, where it returns.
    Enters { callee: u16, back: Option<Standby> },
}

/// A way from a node, by its number: an instruction's three, then the interrupts that may come.
#[derive(Clone, Copy, PartialEq, Eq)]
pub(crate) struct LeadsTo {
    pub(crate) way: u8,
    pub(crate) onward: Onward,
}

/// A node of a certificate, and its instruction.
#[derive(Clone, Copy)]
pub(crate) struct NodeSite<'c, 'a> {
    pub(crate) rom: &'c Rom<'c>,
    pub(crate) cert: &'c Cert<'a>,
    pub(crate) procedure: u16,
    pub(crate) address: u16,
    pub(crate) stack: Stack,
    pub(crate) row: Row,
}

/// The state of the node with a number.
pub(crate) fn state_of(cert: &Cert<'_>, number: u32) -> Option<Abs> {
    if number < cert.nodes() {
        Some(cert.node(number).state())
    } else {
        None
    }
}

impl<'c, 'a> NodeSite<'c, 'a> {
    /// The node with a number, whose state is given. None where its instruction isn't known.
    pub(crate) fn of(
        rom: &'c Rom<'c>,
        cert: &'c Cert<'a>,
        number: u32,
        state: &Abs,
    ) -> Option<NodeSite<'c, 'a>> {
        if number >= cert.nodes() {
            return None;
        }
        let node = cert.node(number);
        let bytes = known_bytes(&program_of(rom, cert), rom, state, node.address())?;
        let row = decode(&bytes)?;
        Some(NodeSite {
            rom,
            cert,
            procedure: node.procedure(),
            address: node.address(),
            stack: stack_of(cert, node.procedure()),
            row,
        })
    }

    /// The same node, where pairs lay within these bounds as its procedure was entered.
    pub(crate) fn entered_within(&self, entered: PairBounds) -> NodeSite<'c, 'a> {
        let setting = Setting {
            entered,
            ..self.stack.setting
        };
        let stack = Stack {
            setting,
            ..self.stack
        };
        NodeSite { stack, ..*self }
    }

    /// Where the instruction leads from a state.
    pub(crate) fn step<'s>(&self, state: &'s Abs) -> Successors<'s> {
        let program = self.program();
        successors_of(
            self.stack,
            &program,
            self.rom,
            self.row,
            self.address,
            state,
        )
    }

    /// What an interrupt's dispatch leaves.
    pub(crate) fn dispatched(&self, state: &Abs) -> Abs {
        left_by_dispatch(Rules::Extended, self.address, state)
    }

    /// The state after a way from a state, whose successors are given.
    pub(crate) fn state_after(&self, ways: &Successors<'_>, way: u8, state: &Abs) -> Option<Abs> {
        let successor = match way {
            0 => &ways.taken,
            1 => &ways.not_taken,
            2 => &ways.stays,
            _ => return Some(self.dispatched(state)),
        };
        match successor {
            Some(successor) => Some(successor.state()),
            None => None,
        }
    }

    /// What the certificate's states may speak of beside themselves.
    pub(crate) fn program(&self) -> Program<'_> {
        program_of(self.rom, self.cert)
    }

    /// What a state goes on with after a procedure with an exit.
    pub(crate) fn resumed(&self, callee: u16, state: &Abs, exit: &Abs) -> Resumed {
        let ranges = ranges_of(self.cert, callee);
        let taken = taken_by(self.cert, callee);
        let program = self.program();
        resume(
            &program,
            self.stack.setting,
            self.stack.region,
            taken,
            ranges.as_slice(),
            &kept_of(self.cert, callee),
            state,
            exit,
        )
    }

    /// A procedure is entered in a state, and goes on at an address.
    fn enters(&self, callee: u16, back: u16, state: &Abs, standing: &mut Standing) -> Onward {
        let back = match exit_of(self.cert, callee) {
            Some(exit) => match self.resumed(callee, state, &exit) {
                Resumed::States(after) => standing.standing_for(
                    &self.program(),
                    self.cert,
                    self.procedure,
                    back,
                    &after,
                ),
                Resumed::Nothing | Resumed::TooDeep => None,
            },
            None => None,
        };
        Onward::Enters { callee, back }
    }

    /// What a successor leads to.
    fn onward(&self, successor: &Successor<'_>, standing: &mut Standing) -> Option<Onward> {
        let state = successor.state();
        match successor.target {
            Target::At(address) => {
                let nodes = standing.standing_for(
                    &self.program(),
                    self.cert,
                    self.procedure,
                    address,
                    &state,
                )?;
                Some(Onward::Nodes(nodes))
            }
            Target::Main(address) => {
                let nodes = standing.standing_for(&self.program(), self.cert, 0, address, &state)?;
                Some(Onward::Nodes(nodes))
            }
            Target::Call(address) => match callee_at(
                &self.program(),
                self.cert,
                self.stack.setting,
                successor,
            ) {
                Some(callee) => Some(self.enters(callee, successor.next, &state, standing)),
                None => {
                    let nodes = standing.standing_for(
                        &self.program(),
                        self.cert,
                        self.procedure,
                        address,
                        &state,
                    )?;
                    Some(Onward::Nodes(nodes))
                }
            },
            Target::Return => Some(Onward::Exit),
            Target::Unknown | Target::Lost => None,
        }
    }

    /// Adds what a successor leads to, if there is one.
    fn add_way(
        &self,
        way: u8,
        successor: &Option<Successor<'_>>,
        standing: &mut Standing,
        all: &mut Vec<LeadsTo>,
    ) -> Result<(), AllocError> {
        if let Some(successor) = successor
            && let Some(onward) = self.onward(successor, standing)
        {
            all.push(LeadsTo { way, onward })?;
        }
        Ok(())
    }

    /// What an interrupt leads to, 0 to 4, where it may come.
    fn interrupted(&self, interrupt: u8, state: &Abs, standing: &mut Standing) -> Option<Onward> {
        if interrupt >= INTERRUPT_COUNT || !may_come(interrupt, state.core()) {
            return None;
        }
        let setting = self.stack.setting;
        let left = self.dispatched(state);
        match handler(
            &self.program(),
            self.cert,
            setting,
            interrupt,
            self.address,
            state,
        ) {
            Some(callee) => Some(self.enters(callee, self.address, &left, standing)),
            None => {
                let vector = vector_of(interrupt);
                let nodes = standing.standing_for(
                    &self.program(),
                    self.cert,
                    self.procedure,
                    vector,
                    &left,
                )?;
                Some(Onward::Nodes(nodes))
            }
        }
    }

    /// All that a state at the node leads to.
    pub(crate) fn leads_to(
        &self,
        alloc: Global,
        state: &Abs,
        standing: &mut Standing,
    ) -> Result<Vec<LeadsTo>, AllocError> {
        let mut all = Vec::new(alloc);
        let ways = self.step(state);
        self.add_way(0, &ways.taken, standing, &mut all)?;
        self.add_way(1, &ways.not_taken, standing, &mut all)?;
        self.add_way(2, &ways.stays, standing, &mut all)?;
        for interrupt in 0..INTERRUPT_COUNT {
            if let Some(onward) = self.interrupted(interrupt, state, standing) {
                all.push(LeadsTo {
                    way: FIRST_INTERRUPT + interrupt,
                    onward,
                })?;
            }
        }
        Ok(all)
    }
}

/// The state of a node, of which this is wanted alone.
pub(crate) fn weakened_node(cert: &Cert<'_>, number: u32, wanted: Wanted) -> Option<Abs> {
    let state = state_of(cert, number)?;
    Some(weakened(&state, wanted))
}

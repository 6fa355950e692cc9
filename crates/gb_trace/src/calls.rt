//! The calls that are open.

use gb_ops::decode::decode;
use gb_ops::machine::{CodePlace, Event, Write};
use gb_ops::op::Op;
use gb_witness::Stepped;
use std::alloc::{AllocError, Global};

/// The most calls that are kept: a stack of 8 KiB has no more.
const MOST: usize = 4096;

/// What was called.
#[derive(Clone, Copy, PartialEq, Eq)]
pub enum CallTarget {
    /// The routine at a place.
    Routine(CodePlace),
    /// The handler of an interrupt.
    Interrupt(u8),
}

/// A call that has not returned.
#[derive(Clone, Copy)]
pub struct OpenCall {
    /// The call, or the instruction that an interrupt came before.
    pub from: CodePlace,
    pub called: CallTarget,
    /// SP after the call: where the return address lies.
    sp: u16,
}

impl OpenCall {
    /// Whether another call is the same one, at another depth.
    pub fn is_like(&self, other: &OpenCall) -> bool {
        self.from == other.from && self.called == other.called
    }
}

/// The calls that have not returned, the innermost last.
#[derive(Drop)]
pub struct OpenCalls {
    calls: Vec<OpenCall>,
}

/// Whether an instruction is a call.
fn is_call(bytes: &[u8; 3]) -> bool {
    match decode(bytes) {
        Some(row) => matches!(row.op, Op::Call(_) | Op::CallIf(..) | Op::Restart(_)),
        None => false,
    }
}

/// What an event calls, with SP after it; `place` is where it leads.
fn call_made(stepped: &Stepped, place: CodePlace) -> Option<(CallTarget, u16)> {
    let Write::Push(sp, _) = stepped.met.write else {
        return None;
    };
    let sp = sp.wrapping_sub(2);
    match stepped.event {
        Event::Irq(number) => Some((CallTarget::Interrupt(number), sp)),
        Event::Run { .. } if is_call(&stepped.met.bytes) => Some((CallTarget::Routine(place), sp)),
        _ => None,
    }
}

impl OpenCalls {
    /// No calls.
    pub fn none(alloc: Global) -> OpenCalls {
        OpenCalls {
            calls: Vec::new(alloc),
        }
    }

    /// Closes the calls whose return addresses are no longer on the stack.
    fn close(&mut self, sp: u16) {
        for _ in 0..self.calls.len() {
            match self.calls.last() {
                Some(call) if call.sp < sp => {}
                _ => return,
            }
            self.calls.pop();
        }
    }

    /// Takes an event in: it was at `from`, and left PC at `place` and SP at `sp`.
    ///
    /// # Errors
    ///
    /// AllocError where memory ran out.
    pub fn take(
        &mut self,
        from: CodePlace,
        stepped: &Stepped,
        place: CodePlace,
        sp: u16,
    ) -> Result<(), AllocError> {
        self.close(sp);
        if let Some((called, sp)) = call_made(stepped, place) {
            if self.calls.len() < MOST {
                self.calls.push(OpenCall { from, called, sp })?;
            }
        }
        Ok(())
    }

    /// The calls, the innermost last.
    pub fn as_slice(&self) -> &[OpenCall] {
        self.calls.as_slice()
    }
}

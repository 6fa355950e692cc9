//! The last instructions before a fault.

use gb_ops::machine::{CodePlace, Event};
use gb_witness::Stepped;

/// How many are kept.
const STEPS: usize = 16;

/// What the processor did at a place.
#[derive(Clone, Copy, PartialEq, Eq)]
pub enum StepKind {
    /// The instruction with these bytes.
    Instruction([u8; 3]),
    /// The dispatch of an interrupt.
    Interrupt(u8),
}

/// The bytes that hardware gave an instruction, where that is known.
#[derive(Clone, Copy, PartialEq, Eq)]
pub enum HardwareBytes {
    Nothing,
    Byte(u8),
    Bytes(u8, u8),
}

/// A step, where it was, and what hardware gave it.
#[derive(Clone, Copy, PartialEq, Eq)]
pub struct TraceStep {
    pub place: CodePlace,
    pub kind: StepKind,
    pub given: HardwareBytes,
}

impl TraceStep {
    /// What an event did; None where time passed and nothing else.
    pub fn of(place: CodePlace, stepped: &Stepped, given: HardwareBytes) -> Option<TraceStep> {
        let kind = match stepped.event {
            Event::Run { .. } => StepKind::Instruction(stepped.met.bytes),
            Event::HaltStay | Event::HaltBug => StepKind::Instruction([0x76, 0, 0]),
            Event::Irq(number) => StepKind::Interrupt(number),
            Event::Wait(_) => return None,
        };
        Some(TraceStep { place, kind, given })
    }
}

/// A step, and how often it came in a row, as that of a loop of one instruction or of HALT.
#[derive(Clone, Copy)]
pub struct RepeatedStep {
    pub step: TraceStep,
    pub times: u32,
}

/// The last steps, the oldest at `next`.
#[derive(Clone, Copy)]
pub struct Recent {
    steps: [Option<RepeatedStep>; STEPS],
    next: u8,
}

impl Recent {
    /// No steps.
    pub fn none() -> Recent {
        Recent {
            steps: [None; STEPS],
            next: 0,
        }
    }

    /// Keeps one more, in place of the oldest; one that is the last again is counted.
    pub fn push(&mut self, step: TraceStep) {
        let last = (usize::from(self.next) + STEPS - 1) % STEPS;
        if let Some(repeated) = &mut self.steps[last]
            && repeated.step == step
        {
            repeated.times = repeated.times.saturating_add(1);
            return;
        }
        let place = usize::from(self.next) % STEPS;
        self.steps[place] = Some(RepeatedStep { step, times: 1 });
        self.next = ((place + 1) % STEPS) as u8;
    }

    /// The step that came so many steps after the oldest.
    pub fn step(&self, number: u8) -> Option<RepeatedStep> {
        self.steps[(usize::from(self.next) + usize::from(number)) % STEPS]
    }
}

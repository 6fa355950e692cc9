//! The trace of a fault.

use crate::happening::Happening;
use crate::keys::HeldKeys;
use crate::listing::{SpelledStep, bank_of, fmt_calls, fmt_first, fmt_recent, shown};
use crate::recent::{HardwareBytes, StepKind, TraceStep};
use crate::recorder::{Moment, Recorder};
use crate::touch::{TouchedByte, touch_at_fault};
use bitflags::Flags;
use gb_ops::machine::{CodePlace, Event, Region};
use gb_symbols::{ShownAddress, Symbols};
use gb_witness::{Console, Keys, Progress, Rom, Sighting, keys_at};
use std::alloc::Global;
use std::fmt;

/// A script's run that met a fault.
#[derive(Clone, Copy)]
pub struct FaultyRun<'a> {
    /// The keys, a byte for each frame.
    pub script: &'a [u8],
    /// The frame of the fault, counted from 0.
    pub frame: u32,
    pub sighting: Sighting,
    /// The stack region for which it is one.
    pub region: Region,
}

/// When a fault came, counted from 0.
#[derive(Clone, Copy)]
pub enum FaultMoment {
    /// In a frame of a script, with these keys.
    Frame(u32, Keys),
    /// At an event of a list.
    Event(u64),
}

/// A fault, and what is known of it.
#[derive(Clone, Copy)]
pub struct TracedFault {
    pub moment: FaultMoment,
    pub sighting: Sighting,
    /// The stack region for which it is one.
    pub region: Region,
    /// The byte that is at fault, and its place.
    pub touch: Option<(TouchedByte, CodePlace)>,
    /// Whether the cartridge has RAM or a clock.
    pub has_ram: bool,
}

/// What happened before a fault. It prints in several lines, the last without an end.
#[derive(Drop)]
pub struct Trace<'a> {
    symbols: &'a Symbols<'a>,
    fault: TracedFault,
    recorder: Recorder,
}

/// Plays a run again, up to its fault. None where memory ran out.
pub fn trace_fault<'a, P: Progress>(
    alloc: Global,
    rom: &Rom<'_>,
    run: &FaultyRun<'_>,
    symbols: &'a Symbols<'a>,
    progress: &mut P,
) -> Option<Trace<'a>> {
    let mut console = Console::new(alloc, rom).ok()?;
    let mut recorder = Recorder::none(alloc);
    let moment = Moment {
        frame: run.frame,
        event: run.sighting.number,
    };
    recorder
        .play(&mut console, run.script, moment, progress)
        .ok()?;
    let touch = match touch_at_fault(&run.sighting, run.region) {
        Some(touch) => {
            let address = touch.address;
            let bank = if address < 0x8000 {
                console.memory().shown_bank(address)
            } else {
                0
            };
            Some((touch, CodePlace { address, bank }))
        }
        None => None,
    };
    let fault = TracedFault {
        moment: FaultMoment::Frame(run.frame, keys_at(run.script, run.frame)),
        sighting: run.sighting,
        region: run.region,
        touch,
        has_ram: has_ram(rom),
    };
    Some(Trace::new(symbols, fault, recorder))
}

/// Whether a cartridge has RAM or a clock.
pub fn has_ram(rom: &Rom<'_>) -> bool {
    rom.ram_banks() > 0 || rom.has_clock()
}

impl<'a> Trace<'a> {
    /// The trace of a fault, with what was kept of the run up to it.
    pub fn new(symbols: &'a Symbols<'a>, fault: TracedFault, recorder: Recorder) -> Trace<'a> {
        Trace {
            symbols,
            fault,
            recorder,
        }
    }

    /// What the processor was about to do.
    fn step(&self) -> TraceStep {
        let kind = match self.fault.sighting.event {
            Event::Irq(number) => StepKind::Interrupt(number),
            Event::HaltStay | Event::HaltBug => StepKind::Instruction([0x76, 0, 0]),
            Event::Run { .. } | Event::Wait(_) => StepKind::Instruction(
                self.fault.sighting.met.bytes,
            ),
        };
        TraceStep {
            place: self.fault.sighting.place,
            kind,
            given: HardwareBytes::Nothing,
        }
    }

    /// SP, and how much of the stack is left.
    fn fmt_stack<W: fmt::Write>(&self, f: &mut fmt::Formatter<W>) -> fmt::Result {
        let sp = self.fault.sighting.processor.sp;
        let Region { first, last } = self.fault.region;
        let size = u32::from(last).saturating_sub(u32::from(first)) + 1;
        let left = u32::from(sp).saturating_sub(u32::from(first));
        if sp >= first && left <= size {
            write!(
                f,
                "\n  SP: ${sp:04X}, {left} of {size} bytes of the stack are free"
            )
        } else {
            write!(
                f,
                "\n  SP: ${sp:04X}, outside the stack (${first:04X}..${last:04X})"
            )
        }
    }

    /// What went wrong, where, and how much of the stack was left.
    fn fmt_head<W: fmt::Write>(&self, f: &mut fmt::Formatter<W>) -> fmt::Result {
        let happening = Happening {
            sighting: &self.fault.sighting,
            region: self.fault.region,
            touch: self.fault.touch.map(|touched| touched.0),
            has_ram: self.fault.has_ram,
        };
        match self.fault.moment {
            FaultMoment::Frame(number, _) => write!(f, "frame {number}: {happening}")?,
            FaultMoment::Event(number) => write!(f, "event {number}: {happening}")?,
        }
        let step = self.step();
        let at = shown(self.symbols, step.place);
        let spelled = SpelledStep { step };
        write!(f, "\n  At: {at}: {spelled}")?;
        if let Some((_, place)) = self.fault.touch {
            let touched = ShownAddress {
                symbols: self.symbols,
                bank: bank_of(place),
                address: place.address,
            };
            write!(f, "\n  Address: {touched}")?;
        }
        self.fmt_stack(f)
    }
}

impl fmt::Display for Trace<'_> {
    fn fmt<W: fmt::Write>(&self, f: &mut fmt::Formatter<W>) -> fmt::Result {
        self.fmt_head(f)?;
        if let FaultMoment::Frame(_, keys) = self.fault.moment {
            let keys = HeldKeys {
                keys: keys.bits(),
                between: ", ",
            };
            write!(f, "\n  Keys: {keys}")?;
        }
        fmt_calls(self.symbols, self.recorder.calls.as_slice(), f)?;
        fmt_first(self.recorder.first, f)?;
        fmt_recent(self.symbols, &self.recorder.recent, f)
    }
}

/// The beginning of a trace: what went wrong, where, and how much of the stack was left.
#[derive(Clone, Copy)]
pub struct TraceHead<'t, 'a>(pub &'t Trace<'a>);

impl fmt::Display for TraceHead<'_, '_> {
    fn fmt<W: fmt::Write>(&self, f: &mut fmt::Formatter<W>) -> fmt::Result {
        self.0.fmt_head(f)
    }
}

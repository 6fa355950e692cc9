//! The faults of an event.

ghost use Rattle.std.specs.Prelude.{◌≡◌, ◌≤◌, if◌then◌else◌};
ghost use Rattle.gb_ops.specs.Faults as Spec;
ghost use Rattle.gb_faults.specs.Meeting as Meeting;

use crate::accesses::{either_faults, fetch_faults, load_faults, no_faults, store_faults};
use crate::limits::Limits;
use gb_cpu::step::Met;
use gb_effects::advance::{length_of, second_address, third_address};
use gb_ops::decode::decode;
use gb_ops::machine::{Event, Faults, Region, Write};
use gb_ops::op::Row;
use gb_ops::registers::Processor;

/// The faults of fetching a byte, if it is wanted, and others.
fn with_fetch(at: &Limits<'_>, wanted: bool, address: u16, others: Faults) -> Faults
    ensures { result ≡ (if wanted then Spec.either_faults (Spec.fetch_faults at.now address) others else others) }
{
    if wanted {
        either_faults(fetch_faults(at, address), others)
    } else {
        others
    }
}

/// The faults of fetching the instruction at PC, its bytes given.
#[tactic(auto, using(crate::proofs::Fetches::all_are), unfolding(gb_ops::specs::Faults::fetch_addresses))]
fn all_fetch_faults(at: &Limits<'_>, processor: Processor, bytes: &[u8; 3]) -> Faults
    ensures { result ≡ Spec.all_fetch_faults at.now (Spec.fetch_addresses processor bytes.now) }
{
    let length = length_of(bytes[0]);
    let third = with_fetch(at, length >= 3, third_address(processor), no_faults());
    let second = with_fetch(at, length >= 2, second_address(processor), third);
    with_fetch(at, true, processor.pc, second)
}

/// The faults of an instruction after its fetch.
fn row_faults(region: Region, at: &Limits<'_>, row: Option<Row>, met: Met) -> Faults
    ensures { result ≡ Meeting.row_faults row region at.now met }
{
    match row {
        None => Faults {
            undefined_opcode: true,
            ..no_faults()
        },
        Some(_) => either_faults(
            load_faults(at, met.read),
            store_faults(region, at, met.write),
        ),
    }
}

/// The faults of an event that is possible: the processor and the limits as they were before it, and what
/// it met.
#[tactic(auto, unfolding(crate::specs::Meeting::met_faults))]
pub fn event_faults(
    region: Region,
    at: &Limits<'_>,
    processor: Processor,
    event: Event,
    met: Met,
) -> Faults
    ensures { result ≡ Meeting.met_faults region at.now processor event met }
{
    match event {
        Event::Run { .. } => either_faults(
            all_fetch_faults(at, processor, &met.bytes),
            row_faults(region, at, decode(&met.bytes), met),
        ),
        Event::HaltStay | Event::HaltBug => fetch_faults(at, processor.pc),
        Event::Irq(_) => store_faults(region, at, Write::Push(processor.sp, processor.pc)),
        Event::Wait(_) => no_faults(),
    }
}

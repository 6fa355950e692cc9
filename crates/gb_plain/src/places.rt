//! The places that an event fetches.

ghost use Rattle.std.specs.Prelude.{◌≡◌, ◌<◌, ◌≤◌, [], ◌∷◌, ◌++◌, length, map};
ghost use Rattle.gb_ops.specs.Faults as Spec;
ghost use Rattle.gb_ops.specs.Play as Play;
ghost use Rattle.gb_plain.specs.Shown.{resting};

use crate::fetch::fetched;
use crate::possible::is_possible;
use crate::state::MachineState;
use gb_effects::advance::{length_of, second_address, third_address};
use gb_ops::machine::{CodePlace, Event};
use gb_ops::registers::Processor;
use std::marker::Model;

/// Up to three places, in their order.
#[derive(Drop)]
pub struct PlaceList {
    list: [CodePlace; 3],
    count: usize,
}

impl Model for PlaceList {
    ghost use Rattle.std.specs.Prelude.{List, ◌≤◌, take};
    ghost use Rattle.gb_ops.specs.declared.machine.CodePlace.{CodePlace};

    ghost Value = { List CodePlace };

    ghost view = { λ s. take s.count s.list };

    ghost invariant = { λ s. s.count ≤ 3 };
}

impl PlaceList {
    fn new() -> PlaceList
        ensures { result ≡ [] }
    {
        let empty = CodePlace {
            address: 0,
            bank: 0,
        };
        PlaceList {
            list: [empty; 3],
            count: 0,
        }
    }

    fn push(&mut self, place: CodePlace)
        requires { length self.old < 3 }
        ensures { self.new ≡ self.old ++ place ∷ [] }
    {
        self.list[self.count] = place;
        self.count += 1;
    }

    /// The places.
    pub fn as_slice(&self) -> &[CodePlace]
        ensures { result.now ≡ self.now }
    {
        &self.list[..self.count]
    }
}

/// The place of a byte; RAM has bank 0.
#[tactic(auto, unfolding(gb_ops::specs::Faults::code_place))]
fn code_place(state: &MachineState, address: u16) -> CodePlace
    ensures { result ≡ Spec.code_place (resting state.now.rom state.now.machine) address }
{
    let bank = if address < 0x8000 {
        state.cartridge().shown_bank(address)
    } else {
        0
    };
    CodePlace { address, bank }
}

/// The places of the instruction at PC, its bytes given.
#[tactic(auto, unfolding(gb_ops::specs::Faults::fetch_addresses))]
fn run_places(state: &MachineState, bytes: &[u8; 3]) -> PlaceList
    ensures { result ≡ map (Spec.code_place (resting state.now.rom state.now.machine)) (Spec.fetch_addresses state.now.machine.processor bytes.now) }
{
    let processor = state.processor();
    let length = length_of(bytes[0]);
    let mut places = PlaceList::new();
    places.push(code_place(state, processor.pc));
    if length >= 2 {
        places.push(code_place(state, second_address(processor)));
    }
    if length >= 3 {
        places.push(code_place(state, third_address(processor)));
    }
    places
}

/// The places that an event fetches; one that isn't possible fetches none.
#[tactic(auto, unfolding(gb_ops::specs::Play::places, gb_ops::specs::Play::within, gb_ops::specs::Faults::event_places))]
pub fn places(state: &MachineState, event: Event) -> PlaceList
    ensures { result ≡ Play.places state.now.rom state.now.machine event }
{
    let mut places = PlaceList::new();
    if !is_possible(state, event) {
        return places;
    }
    match event {
        Event::Run { fetch, reads: _ } => {
            let bytes = fetched(state, &fetch);
            return run_places(state, &bytes);
        }
        Event::HaltStay | Event::HaltBug => {
            places.push(code_place(state, state.processor().pc));
        }
        Event::Irq(_) | Event::Wait(_) => {}
    }
    places
}

//! What a store leaves of what is said of the whole program.

ghost use Rattle.std.specs.Prelude.{◌≡◌, map, take};
ghost use Rattle.gb_ram_bounds.specs.Facts as Facts;
ghost use Rattle.gb_ram_bounds.specs.Fills as Fills;
ghost use Rattle.gb_relations.specs.Sound.{IsByteFree};
ghost use Rattle.gb_summaries.specs.Elsewhere.{StaysFree};
ghost use Rattle.gb_summaries.specs.Stores as Stores;
ghost use Rattle.gb_summaries.specs.Stores.{IsSoundStore, IsSoundSwitch};

use crate::known::first_of;
use arrayvec::ArrayVec;
use gb_domain::StridedInterval;
use gb_domain::pairs::Bounds;
use gb_domain::places::{OneByte, Place};
use gb_domain::program::Program;
use gb_domain::summary::{BankShadows, Fact, Fill, Shadows, Summary};
use gb_domain::types::Cell;
use gb_ops::machine::{Kind, Region};
use gb_ops::op::{Pointer, Register};
use gb_ram_bounds::AddressSet;
use gb_ram_bounds::addresses::is_in;
use gb_ram_bounds::facts::level_after;
use gb_ram_bounds::fills::filled;
use gb_relations::places::stored_place;
use gb_relations::{BankWindow, copied_to_address, is_in_window, stored};

/// A store of a byte to RAM.
#[derive(Clone, Copy)]
pub struct Store {
    /// Where it may be stored.
    pub addresses: AddressSet,
    /// The pointer that it goes through.
    pub through: Option<Pointer>,
    /// The register whose byte it is.
    pub from: Option<Register>,
    pub value: StridedInterval,
}

fn address_left(addresses: AddressSet, address: Option<u16>) -> Option<u16>
    ensures { result ≡ Stores.address_left addresses address }
{
    match address {
        Some(address) if is_in(addresses, address) => None,
        _ => address,
    }
}

#[tactic(auto, unfolding(crate::specs::Stores::without_stored))]
fn without_stored(addresses: AddressSet, shadows: &Shadows) -> Shadows
    ensures { result ≡ Stores.without_stored addresses shadows.now }
{
    Shadows {
        address: address_left(addresses, shadows.address),
        ..*shadows
    }
}

#[tactic(auto, unfolding(crate::specs::Stores::shadows_stored))]
fn shadows_stored(region: Region, store: &Store, shadows: &Shadows) -> Shadows
    ensures { result ≡ Stores.shadows_stored region store.now shadows.now }
{
    let addresses = Bounds {
        first: store.addresses.first,
        last: store.addresses.last,
    };
    match (stored_place(region, addresses), store.from) {
        (Some(Place::Address(address)), Some(from)) => {
            copied_to_address(address, Place::Register(from), shadows)
        }
        _ => without_stored(store.addresses, shadows),
    }
}

#[tactic(auto, using(crate::proofs::StoreLaws::level_within))]
fn level_stored(facts: &[Fact], cells: &[Cell], store: &Store, level: u16) -> u16
    ensures { result ≡ Facts.level_after (take level facts.now) cells.now store.now.addresses store.now.value }
{
    let known = first_of(facts, level);
    level_after(known, cells, store.addresses, store.value) as u16
}

fn fills_stored(cells: &[Cell], store: &Store, summary: &Summary) -> ArrayVec<Fill, 8>
    ensures { result.items ≡ map (Fills.filled cells.now store.now.addresses store.now.through store.now.value) summary.now.fills }
{
    let mut fills = ArrayVec::new();
    for fill in summary.fills() {
        fills.push(filled(cells, store.addresses, store.through, store.value, *fill));
    }
    fills
}

#[tactic(auto, unfolding(crate::specs::Stores::stored_in_ram))]
fn after_store(
    region: Region,
    facts: &[Fact],
    cells: &[Cell],
    store: &Store,
    summary: &Summary,
) -> Summary
    ensures { result ≡ Stores.stored_in_ram region facts.now cells.now store.now summary.now }
{
    let shadows = summary.shadows();
    Summary::of_parts(
        level_stored(facts, cells, store, summary.level()),
        fills_stored(cells, store, summary),
        BankShadows {
            first: shadows_stored(region, store, &shadows.first),
            second: shadows_stored(region, store, &shadows.second),
        },
        summary.aside(),
    )
}

fn after_store_in(
    program: &Program<'_>,
    region: Region,
    cells: &[Cell],
    store: &Store,
    summary: &Summary,
) -> Summary
    ensures { result ≡ Stores.stored_in_ram region program.now.facts cells.now store.now summary.now }
{
    after_store(region, program.facts, cells, store, summary)
}

/// What is said of the whole program after a store to RAM: the facts before the first that it breaks; fills, of which those that end at
/// the store's pointer go one address further, and others grow where they may be stored to; and the stored register's address shadows
/// what the register does, while no other address that may be stored to shadows anything. The cells are those after the store.
#[tactic(auto, using(crate::proofs::StoreLaws::stored_in_ram_sound, crate::proofs::ElsewhereLaws::stored_in_ram_free))]
pub fn stored_in_ram(
    program: &Program<'_>,
    region: Region,
    cells: &[Cell],
    store: &Store,
    summary: &Summary,
) -> Summary
    ensures exact { result ≡ Stores.stored_in_ram region program.now.facts cells.now store.now summary.now }
    ensures sound { IsSoundStore program.now cells.now store.now summary.now result }
    ensures free { StaysFree region summary.now result }
{
    after_store_in(program, region, cells, store, summary)
}

fn fills_copied(summary: &Summary) -> ArrayVec<Fill, 8>
    ensures { result.items ≡ summary.now.fills }
{
    let mut fills = ArrayVec::new();
    if fills.try_extend_from_slice(summary.fills()).is_err() {
        unreachable!();
    }
    fills
}

#[tactic(auto, unfolding(crate::specs::Stores::switched_window))]
fn switched_window(
    kind: Kind,
    window: BankWindow,
    address: u16,
    from: Option<Register>,
    byte: &OneByte,
    shadows: &Shadows,
) -> Shadows
    ensures { result ≡ Stores.switched_window kind window address from byte.now shadows.now }
{
    if is_in_window(kind, window, address) {
        stored(from, byte)
    } else {
        *shadows
    }
}

#[tactic(auto, unfolding(crate::specs::Stores::switched))]
fn after_switch(
    kind: Kind,
    address: u16,
    from: Option<Register>,
    byte: &OneByte,
    summary: &Summary,
) -> Summary
    ensures { result ≡ Stores.switched kind address from byte.now summary.now }
{
    let shadows = summary.shadows();
    Summary::of_parts(
        summary.level(),
        fills_copied(summary),
        BankShadows {
            first: switched_window(kind, BankWindow::First, address, from, byte, &shadows.first),
            second: switched_window(
                kind,
                BankWindow::Second,
                address,
                from,
                byte,
                &shadows.second,
            ),
        },
        summary.aside(),
    )
}

/// What is said of the whole program after a store into the controller, at an address of the same windows as this one: where a register
/// is stored, it and all places that hold its byte shadow the window's register, and nothing else does.
#[tactic(auto, using(crate::proofs::StoreLaws::switched_sound, crate::proofs::ElsewhereLaws::switched_free))]
pub fn switched(
    program: &Program<'_>,
    address: u16,
    from: Option<Register>,
    byte: &OneByte,
    summary: &Summary,
) -> Summary
    ensures exact { result ≡ Stores.switched program.now.kind address from byte.now summary.now }
    ensures sound { IsSoundSwitch program.now address from byte.now summary.now result }
    ensures free { (region : Region) → IsByteFree region byte.now.address → StaysFree region summary.now result }
{
    after_switch(program.kind, address, from, byte, summary)
}

//! Where an instruction reads or stores a byte that places may hold.

ghost use Rattle.std.specs.Prelude.{◌≡◌, true};
ghost use Rattle.gb_domain.specs.Areas.{is_place_at};
ghost use Rattle.gb_relations.specs.Places as Places;

use gb_domain::pairs::Bounds;
use gb_domain::places::{Place, StackBytes};
use gb_ops::machine::Region;
use gb_pairs::bounds::is_one;

/// Whether an address is one of RAM.
pub fn is_ram(address: u16) -> bool
    ensures { result ≡ Places.is_ram address }
{
    0xC000 <= address && address <= 0xDFFF || 0xFF80 <= address && address <= 0xFFFE
}

/// Whether an address is one of RAM outside the stack region.
fn is_free(region: Region, address: u16) -> bool
    ensures { result ≡ Places.is_free region address }
{
    is_ram(address) && !(address <= region.last && region.first <= address)
}

fn place_where(is_one: bool, address: u16) -> Option<Place>
    ensures { result ≡ Places.place_where is_one address }
{
    if is_one {
        Some(Place::Address(address))
    } else {
        None
    }
}

fn free_place(region: Region, address: u16) -> Option<Place>
    ensures { result ≡ Places.free_place region address }
{
    place_where(is_free(region, address), address)
}

/// Where a store to these addresses stores, where that is one known address.
#[tactic(auto, unfolding(crate::specs::Places::stored_place))]
pub fn stored_place(region: Region, addresses: Bounds) -> Option<Place>
    ensures { result ≡ Places.stored_place region addresses }
{
    if is_one(addresses) {
        free_place(region, addresses.first)
    } else {
        None
    }
}

fn is_echo(address: u16) -> bool
    ensures { result ≡ Places.is_echo address }
{
    0xE000 <= address && address <= 0xFDFF
}

/// The echo of work RAM reads it.
fn behind_echo(address: u16) -> u16
    ensures { result ≡ Places.behind_echo address }
{
    if is_echo(address) {
        address - 0x2000
    } else {
        address
    }
}

/// Where a load from these addresses reads, where that is one known address.
#[tactic(auto, unfolding(crate::specs::Places::loaded_place))]
pub fn loaded_place(region: Region, addresses: Bounds) -> Option<Place>
    ensures { result ≡ Places.loaded_place region addresses }
{
    if is_one(addresses) {
        free_place(region, behind_echo(addresses.first))
    } else {
        None
    }
}

// ---- places of the one byte

/// Whether a byte may be a place at an address: one of RAM, outside the stack region or an item's.
pub fn is_place_at(stack: StackBytes, address: u16) -> bool
    ensures { result ≡ is_place_at stack address }
{
    is_free(stack.region, address) || is_ram(address) && stack.is_item(address)
}

/// Where a store to these addresses stores, where that is one known address at which the one byte may be.
#[tactic(auto, unfolding(crate::specs::Places::stored_at))]
pub fn stored_at(stack: StackBytes, addresses: Bounds) -> Option<Place>
    ensures { result ≡ Places.stored_at stack addresses }
{
    if is_one(addresses) {
        place_where(is_place_at(stack, addresses.first), addresses.first)
    } else {
        None
    }
}

/// Through the echo no item is read as a place.
fn place_read(stack: StackBytes, address: u16) -> Option<Place>
    ensures { result ≡ Places.place_read stack address }
{
    if is_echo(address) {
        free_place(stack.region, address - 0x2000)
    } else {
        place_where(is_place_at(stack, address), address)
    }
}

/// Where a load from these addresses reads, where that is one known address at which the one byte may be.
#[tactic(auto, unfolding(crate::specs::Places::loaded_at))]
pub fn loaded_at(stack: StackBytes, addresses: Bounds) -> Option<Place>
    ensures { result ≡ Places.loaded_at stack addresses }
{
    if is_one(addresses) {
        place_read(stack, addresses.first)
    } else {
        None
    }
}

//! The entries of procedures, by the places of procedures and nodes.

ghost use Rattle.std.specs.Prelude.{◌≡◌, ◌==◌, Some, slice_get};
ghost use Rattle.gb_cert.specs.Entries.{key_at_place, entry_key, entry_address, is_of_number, is_in_order_at, is_uncrowded_at, entry_fault_at, entries_fault_at};

use gb_states::form::procedure_at;
use gb_states::limits::NAMESAKE_LIMIT;
use gb_states::numbers::word;
use gb_states::{CertFault, from_place, node_number};

/// The number of the procedure, and the address, of the node at this place.
fn key_at_place(version: u8, bytes: &[u8], place: usize) -> Option<(u16, u16)>
    ensures { result ≡ key_at_place (version == 4) bytes.now (Some place) }
{
    let Ok((procedure, rest)) = procedure_at(version, from_place(bytes, place)) else {
        return None;
    };
    match word(rest) {
        Ok((address, _)) => Some((procedure, address)),
        Err(_) => None,
    }
}

/// The same of the entry node of the procedure at this place.
#[tactic(auto, unfolding(crate::specs::Entries::entry_key))]
fn entry_key(version: u8, bytes: &[u8], nodes: &[usize], place: usize) -> Option<(u16, u16)>
    ensures { result ≡ entry_key version bytes.now nodes.now place }
{
    let Ok((entry, _)) = node_number(version, from_place(bytes, place)) else {
        return None;
    };
    match nodes.get(entry as usize) {
        Some(node) => key_at_place(version, bytes, *node),
        None => None,
    }
}

/// The address at which a procedure begins, by its number; 0 if there is no such procedure.
fn entry_address(
    version: u8,
    bytes: &[u8],
    nodes: &[usize],
    procedures: &[usize],
    number: usize,
) -> u16
    ensures { result ≡ entry_address version bytes.now nodes.now (slice_get procedures.now number) }
{
    let Some(place) = procedures.get(number) else {
        return 0;
    };
    match entry_key(version, bytes, nodes, *place) {
        Some((_, address)) => address,
        None => 0,
    }
}

/// Whether the procedure with this number begins at no lower address than the one before it, main apart.
#[tactic(auto, unfolding(crate::specs::Entries::is_in_order_at))]
fn is_in_order_at(
    version: u8,
    bytes: &[u8],
    nodes: &[usize],
    procedures: &[usize],
    number: usize,
) -> bool
    ensures { result ≡ is_in_order_at version bytes.now nodes.now procedures.now number }
{
    if number < 2 {
        return true;
    }
    let before = entry_address(version, bytes, nodes, procedures, number - 1);
    before <= entry_address(version, bytes, nodes, procedures, number)
}

/// Whether another address begins 1,024 procedures before the one with this number, main apart.
#[tactic(auto, unfolding(crate::specs::Entries::is_uncrowded_at))]
fn is_uncrowded_at(
    version: u8,
    bytes: &[u8],
    nodes: &[usize],
    procedures: &[usize],
    number: usize,
) -> bool
    ensures { result ≡ is_uncrowded_at version bytes.now nodes.now procedures.now number }
{
    let limit = NAMESAKE_LIMIT as usize;
    if number <= limit {
        return true;
    }
    let address = entry_address(version, bytes, nodes, procedures, number);
    address != entry_address(version, bytes, nodes, procedures, number - limit)
}

/// Whether the procedure with this number, at this place, has its entry at one of its own nodes.
fn is_own_at(version: u8, bytes: &[u8], nodes: &[usize], number: usize, place: usize) -> bool
    ensures { result ≡ is_of_number number (entry_key version bytes.now nodes.now place) }
{
    match entry_key(version, bytes, nodes, place) {
        Some((procedure, _)) => procedure as usize == number,
        None => false,
    }
}

/// What is wrong with the entry of the procedure with this number, at this place.
#[tactic(auto, unfolding(crate::specs::Entries::entry_fault_at))]
fn entry_fault_at(
    version: u8,
    bytes: &[u8],
    nodes: &[usize],
    procedures: &[usize],
    number: usize,
    place: usize,
) -> Option<CertFault>
    ensures { result ≡ entry_fault_at version bytes.now nodes.now procedures.now number place }
{
    let is_any_order = version != 4;
    if !(is_any_order || is_uncrowded_at(version, bytes, nodes, procedures, number)) {
        return Some(CertFault::Count);
    }
    if !is_own_at(version, bytes, nodes, number, place) {
        return Some(CertFault::Field);
    }
    if !(is_any_order || is_in_order_at(version, bytes, nodes, procedures, number)) {
        return Some(CertFault::Order);
    }
    None
}

/// What is wrong with the first entry that is wrong.
pub fn entries_fault_at(
    version: u8,
    bytes: &[u8],
    nodes: &[usize],
    procedures: &[usize],
) -> Option<CertFault>
    ensures { result ≡ entries_fault_at version bytes.now nodes.now procedures.now 0 procedures.now }
{
    let mut number = 0;
    for place in procedures {
        let fault = entry_fault_at(version, bytes, nodes, procedures, number, *place);
        if fault.is_some() {
            return fault;
        }
        number += 1;
    }
    None
}

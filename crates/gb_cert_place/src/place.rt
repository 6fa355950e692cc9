//! Where in the file a certificate's fault is.

ghost use Rattle.std.specs.Prelude.{◌≡◌, ◌≤◌, ◌-◌, length, Ok, Err, IfOk, IfSome};
ghost use Rattle.gb_states.specs.WholeReading.{read_certificate};
ghost use Rattle.gb_cert_place.specs.Stops.{IsFaultAt, Stopped, parts_at};
ghost use Rattle.gb_cert_place.specs.Places.{is_memory, place_of, behind, IsFaultOf, IsAnswer};

use crate::block::{Part, Stop, is_missing};
use crate::field::{Field, field_at};
use crate::walk::walk_parts;
use gb_cert::{Cert, CertFault};
use std::alloc::{AllocError, Global};

/// Where in the file a certificate's fault is.
#[derive(Clone, Copy, PartialEq, Eq)]
pub struct FaultPlace {
    /// What is wrong: C1 to C8.
    pub fault: CertFault,
    /// The part of the certificate that was being read.
    pub part: Part,
    /// The field that was being read.
    pub field: Field,
    /// Where in the file the field begins.
    pub offset: usize,
    /// How many bytes of the file decide: where reading stopped, which is behind the field that is
    /// wrong, or at the end of a file that ends within a field.
    pub end: usize,
}

/// The place of a stop in a file of so many bytes.
fn place_of(length: usize, stop: Stop) -> FaultPlace
    requires order { stop.left ≤ stop.before }
    requires few { stop.before ≤ length }
    ensures { result ≡ place_of length stop }
{
    let taken = stop.before - stop.left;
    // The field that is wrong ends there; the one that is cut goes on there.
    let byte = if is_missing(stop.fault) {
        taken
    } else {
        taken.saturating_sub(1)
    };
    let (field, first) = field_at(stop.block, byte);
    FaultPlace {
        fault: stop.fault,
        part: stop.part,
        field,
        offset: length - stop.before + first,
        end: length - stop.left,
    }
}

/// What there is to say of the bytes of a file.
#[derive(Clone, Copy, PartialEq, Eq)]
pub enum Sought {
    /// They are a certificate.
    Certificate,
    /// They are none, and this is where the fault is.
    Fault(FaultPlace),
    /// Memory ran out: nothing is said of the bytes.
    NoMemory,
}

/// The place of a fault behind the last node, where so many bytes end.
fn behind(end: usize, fault: CertFault) -> FaultPlace
    ensures { result ≡ behind end fault }
{
    let field = match fault {
        CertFault::LeftOver => Field::LeftOver,
        _ => Field::Entries,
    };
    FaultPlace {
        fault,
        part: Part::End,
        field,
        offset: end,
        end,
    }
}

fn is_memory(fault: CertFault) -> bool
    ensures { result ≡ is_memory fault }
{
    matches!(fault, CertFault::Memory)
}

/// What is wrong with the bytes, if they are no certificate.
fn fault_of(alloc: Global, bytes: &[u8]) -> Option<CertFault>
    ensures { IsFaultOf bytes.now result }
{
    match Cert::parse(alloc, bytes) {
        Ok(_) => None,
        Err(fault) => Some(fault),
    }
}

/// Where in the file the fault of a certificate of version 1, 2, 3 or 4 is, if the bytes are none. The bytes are
/// read again. Memory is taken only where each field is right by itself: a place of 8 bytes for each procedure
/// and each node, and room for the facts, as reading a certificate takes.
pub fn fault_place(alloc: Global, bytes: &[u8]) -> Sought
    ensures { IsAnswer bytes.now result }
{
    match walk_parts(bytes) {
        Ok(rest) => match fault_of(alloc, bytes) {
            None => Sought::Certificate,
            Some(fault) => {
                if is_memory(fault) {
                    Sought::NoMemory
                } else {
                    Sought::Fault(behind(bytes.len().saturating_sub(rest.len()), fault))
                }
            }
        },
        Err(stop) => Sought::Fault(place_of(bytes.len(), stop)),
    }
}

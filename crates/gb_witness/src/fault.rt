//! Which fault of an event is told.

ghost use Rattle.std.specs.Prelude.{◌≡◌};
ghost use Rattle.gb_witness.specs.Fault.{lowest_fault, fault_number, LowestFaultApplies};

use gb_ops::machine::Faults;

/// The faults of an event, in the order of their numbers.
#[derive(Clone, Copy, Debug, PartialEq, Eq)]
pub enum FaultKind {
    /// F1: an undefined opcode was executed.
    UndefinedOpcode,
    /// F2: a byte of an instruction came from elsewhere than ROM, work RAM or high RAM.
    FetchedOutside,
    /// F3: a push, a call or a dispatch stored outside the stack region.
    StackOutside,
    /// F4: cartridge RAM was touched while it was disabled, or where there is none.
    RamClosed,
    /// F5: memory other than high RAM was touched during an OAM transfer.
    TransferMet,
}

impl FaultKind {
    /// Its number, from 1 to 5.
    pub fn number(self) -> u8
        ensures { result ≡ fault_number self }
    {
        match self {
            FaultKind::UndefinedOpcode => 1,
            FaultKind::FetchedOutside => 2,
            FaultKind::StackOutside => 3,
            FaultKind::RamClosed => 4,
            FaultKind::TransferMet => 5,
        }
    }
}

/// The lowest of the faults of an event that has one.
#[tactic(auto, unfolding(crate::specs::Fault::lowest_fault))]
pub fn lowest_fault(faults: Faults) -> FaultKind
    ensures { result ≡ lowest_fault faults }
{
    if faults.undefined_opcode {
        FaultKind::UndefinedOpcode
    } else if faults.fetched_outside {
        FaultKind::FetchedOutside
    } else if faults.stack_outside {
        FaultKind::StackOutside
    } else if faults.ram_closed {
        FaultKind::RamClosed
    } else {
        FaultKind::TransferMet
    }
}

/// The law of the fault that is told: an event that has faults has this one, and none with a lower number.
pub fn lowest_fault_applies()
    ensures { LowestFaultApplies }
{}

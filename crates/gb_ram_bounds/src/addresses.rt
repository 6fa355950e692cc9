//! Sets of addresses that a store may reach.

ghost use Rattle.std.specs.Prelude.{◌≡◌};
ghost use Rattle.gb_ram_bounds.specs.Addresses as Addresses;

use gb_domain::LowBits;
use gb_domain::low_bits::are_congruent;

/// The addresses from `first` to `last` whose low byte has the low bits.
#[derive(Clone, Copy)]
pub struct AddressSet {
    pub first: u16,
    pub last: u16,
    pub low: LowBits,
}

/// Whether an address is one of them.
#[tactic(auto, unfolding(crate::specs::Addresses::is_in))]
pub fn is_in(addresses: AddressSet, address: u16) -> bool
    ensures { result ≡ Addresses.is_in addresses address }
{
    addresses.first <= address
        && address <= addresses.last
        && are_congruent(addresses.low.count, address, addresses.low.bits.into())
}

/// Whether there is only one.
#[tactic(auto, unfolding(crate::specs::Addresses::is_one))]
pub fn is_one(addresses: AddressSet) -> bool
    ensures { result ≡ Addresses.is_one addresses }
{
    addresses.first == addresses.last
}

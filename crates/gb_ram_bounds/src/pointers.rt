//! The pointers at which fills end.

ghost use Rattle.std.specs.Prelude.{◌≡◌};
ghost use Rattle.gb_ram_bounds.specs.Fills as Fills;

use gb_ops::op::Pointer;

/// Something of each pointer.
#[derive(Clone, Copy)]
pub struct Pointers<T> {
    pub bc: T,
    pub de: T,
    pub hl: T,
    pub high_c: T,
}

impl<T: Copy> Pointers<T> {
    /// What there is of one.
    pub fn get(&self, pointer: Pointer) -> T
        ensures { result ≡ Fills.at_pointer pointer self.now }
    {
        match pointer {
            Pointer::Bc => self.bc,
            Pointer::De => self.de,
            Pointer::Hl => self.hl,
            Pointer::HighC => self.high_c,
        }
    }
}

fn number_of(pointer: Pointer) -> u8
    ensures { result ≡ Fills.pointer_number pointer }
{
    match pointer {
        Pointer::Bc => 0,
        Pointer::De => 1,
        Pointer::Hl => 2,
        Pointer::HighC => 3,
    }
}

/// Whether both are one.
pub(crate) fn is_same(pointer: Pointer, other: Pointer) -> bool
    ensures { result ≡ Fills.is_same_pointer pointer other }
{
    number_of(pointer) == number_of(other)
}

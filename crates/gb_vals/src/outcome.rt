//! The outcome of an operation: a value, and the flags after it.

ghost use Rattle.std.specs.Prelude.{◌≡◌};
ghost use Rattle.gb_vals.specs.Outcomes.{exact};

use crate::flags::known_flags;
use crate::vals::single;
use gb_domain::types::{Flg, Val};
use gb_ops::machine::Computed;

/// What an operation may give: an interval of values, and the flags after it.
#[derive(Clone, Copy, PartialEq, Eq)]
pub struct AbsComputed {
    pub val: Val,
    pub flags: Flg,
}

/// What the machine computes, and nothing else.
pub(crate) fn exact(computed: Computed) -> AbsComputed
    ensures { result ≡ exact computed }
{
    AbsComputed {
        val: single(computed.value),
        flags: known_flags(computed.flags),
    }
}

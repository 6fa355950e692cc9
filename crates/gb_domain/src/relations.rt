//! What is known of several parts of a state together (abstract interpretation: relational domains; own format).

ghost use Rattle.std.specs.Prelude.{◌≡◌};
ghost use Rattle.gb_domain.specs.Relations.{no_relations};

use crate::pairs::{Pairs, WordPair};
use crate::places::OneByte;

/// What is known of several parts of a state together.
#[derive(Clone, Copy)]
pub struct Relations {
    /// Places that hold one byte.
    pub byte: OneByte,
    /// Z is set exactly where this pair is 0.
    pub zero: Option<WordPair>,
    pub pairs: Pairs,
}

impl Default for Relations {
    ghost is_default = { λ relations. relations ≡ no_relations };

    /// Nothing is known.
    fn default() -> Relations {
        Relations {
            byte: OneByte::default(),
            zero: None,
            pairs: Pairs::default(),
        }
    }
}

//! What a certificate says of a procedure that operations on its states ask for.

ghost use Rattle.std.specs.Prelude.{◌≡◌};
ghost use Rattle.gb_domain.specs.Settings.{known_base};

use crate::pairs::PairBounds;
use crate::rules::Rules;

/// Where a state stands: by which rules it is taken on, in which procedure, and above which address its items end.
#[derive(Clone, Copy, PartialEq, Eq)]
pub struct Setting {
    pub rules: Rules,
    /// The rules are those of version 4, which know what the whole program does to memory and to the controller.
    pub is_whole: bool,
    /// The procedure is main.
    pub is_main: bool,
    /// The address above the oldest item, as the certificate says; 0 where it says nothing.
    pub base: u16,
    /// Within which bounds the pairs lay as the procedure was entered, as far as its rules know; links may speak of these words.
    pub entered: PairBounds,
}

impl Setting {
    /// The base, where it is known.
    #[tactic(auto, unfolding(crate::specs::Settings::known_base))]
    pub fn known_base(self) -> Option<u16>
        ensures { result ≡ known_base self }
    {
        if self.base == 0 {
            None
        } else {
            Some(self.base)
        }
    }
}

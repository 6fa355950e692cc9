//! By which rules states are taken on.

ghost use Rattle.std.specs.Prelude.{◌≡◌, ◌≤◌};
ghost use Rattle.gb_domain.specs.Limits.{rules_of, item_room, cell_room};

/// The rules of certificates of versions 1 and 2, whose parts are known each by itself, or those of versions 3 and 4.
#[derive(Clone, Copy, PartialEq, Eq)]
pub enum Rules {
    Simple,
    Extended,
}

impl Rules {
    /// Of a certificate of this version.
    #[tactic(auto, unfolding(crate::specs::Limits::rules_of))]
    pub fn of(version: u8) -> Rules
        ensures { result ≡ rules_of version }
    {
        if version == 3 || version == 4 {
            Rules::Extended
        } else {
            Rules::Simple
        }
    }

    /// The most bytes of the stack that a state holds.
    #[tactic(auto, unfolding(crate::specs::Limits::item_room))]
    pub fn item_room(self) -> usize
        ensures room { result ≡ item_room self }
        ensures few { result ≤ 255 }
    {
        match self {
            Rules::Simple => 32,
            Rules::Extended => 255,
        }
    }

    /// The most memory cells that a state holds.
    #[tactic(auto, unfolding(crate::specs::Limits::cell_room))]
    pub fn cell_room(self) -> usize
        ensures room { result ≡ cell_room self }
        ensures few { result ≤ 64 }
    {
        match self {
            Rules::Simple => 32,
            Rules::Extended => 64,
        }
    }
}

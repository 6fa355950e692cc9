//! Why a node of a certificate is refused.

ghost use Rattle.std.specs.Prelude.{◌≡◌};
ghost use Rattle.gb_abs.specs.Reason.{reason_number};

/// The reasons, by their numbers 1 to 17.
#[derive(Clone, Copy, Debug, PartialEq, Eq)]
pub enum Reason {
    /// Main's entry isn't at 0100 in bank 0, or doesn't cover power-up.
    Entry,
    /// The instruction lies outside the areas for code, or leaves its area.
    Area,
    /// The shown bank isn't known, or isn't the node's.
    Bank,
    /// A byte of the instruction isn't known.
    Unreadable,
    UndefinedOpcode,
    Stop,
    /// HALT where interrupts may be off.
    Halt,
    /// A stack operation without a known stack, or an instruction that moves SP to where it isn't known.
    Stack,
    /// The stack would grow over the procedure's need.
    Depth,
    /// A store where none is allowed.
    Store,
    /// Cartridge RAM may be met with the gate closed, or where there is none.
    CartridgeRam,
    /// An access outside high RAM during an OAM transfer.
    OamTransfer,
    /// JP HL with HL not known.
    JumpHl,
    /// A successor isn't covered.
    Uncovered,
    /// No procedure can be called.
    Callee,
    /// A return that the procedure may not make.
    Return,
    /// An interrupt may come that isn't provided for.
    Interrupt,
}

impl Reason {
    /// The reason's number.
    pub fn number(self) -> u8
        ensures { result ≡ reason_number self }
    {
        match self {
            Reason::Entry => 1,
            Reason::Area => 2,
            Reason::Bank => 3,
            Reason::Unreadable => 4,
            Reason::UndefinedOpcode => 5,
            Reason::Stop => 6,
            Reason::Halt => 7,
            Reason::Stack => 8,
            Reason::Depth => 9,
            Reason::Store => 10,
            Reason::CartridgeRam => 11,
            Reason::OamTransfer => 12,
            Reason::JumpHl => 13,
            Reason::Uncovered => 14,
            Reason::Callee => 15,
            Reason::Return => 16,
            Reason::Interrupt => 17,
        }
    }
}

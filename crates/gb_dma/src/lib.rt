//! How long an OAM transfer goes on: `Transfer` counts its M-cycles down from 161 (`specs/Transfer.antt`).
//! What is copied stands in the bus.
#![tactic(auto)]

ghost use Rattle.std.specs.Prelude.{◌≡◌, ◌≤◌};
ghost use Rattle.gb_dma.specs.Transfer.{started, left_after};

use std::marker::Model;

/// The count as a transfer starts.
const STARTED: u8 = 161;

/// The M-cycles that an OAM transfer still limits the processor (Pan Docs: OAM DMA Transfer; the count itself is this project's own).
#[derive(Clone, Copy)]
pub struct Transfer {
    left: u8,
}

impl Model for Transfer {
    ghost use Rattle.std.specs.Prelude.{ℕ, ◌≤◌};
    ghost use Rattle.gb_dma.specs.Transfer.{started};

    ghost Value = { ℕ };

    ghost view = { λ t. t.left };

    ghost inverse = { λ n. record { left = n } };

    ghost invariant = { λ t. t.left ≤ started };
}

impl Transfer {
    /// No transfer: the count is 0.
    pub fn new() -> Transfer
        ensures { result ≡ 0 }
    {
        Transfer { left: 0 }
    }

    /// A transfer starts, whether or not one goes on.
    pub fn start(&mut self)
        ensures { self.new ≡ started }
    {
        self.left = STARTED;
    }

    /// Lets n M-cycles pass.
    #[tactic(auto, unfolding(crate::specs::Transfer::left_after))]
    pub fn advance(&mut self, n: u8)
        ensures { self.new ≡ left_after self.old n }
    {
        self.left = self.left.saturating_sub(n);
    }

    /// The count: 0 where no transfer goes on, and 161 at most.
    pub fn left(&self) -> u8
        ensures count { result ≡ self.now }
        ensures bound { result ≤ started }
    {
        self.left
    }
}

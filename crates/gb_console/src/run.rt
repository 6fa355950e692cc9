//! Runs: steps one after another.

ghost use Rattle.gb_console.specs.Run.{IsRun, StepsArePlayed};

use crate::console::Console;
use gb_cpu::Keys;

/// What one step takes.
#[derive(Clone, Copy, PartialEq, Eq)]
pub struct Input {
    /// The keys that are held from now on.
    pub keys: Keys,
    /// The seconds that passed for the cartridge's clock.
    pub seconds: u32,
}

impl Console<'_> {
    /// A step for each input, in their order. The state behind them is the one to which the machine's
    /// run over the events that the steps answered leads.
    pub fn steps(&mut self, inputs: &[Input])
        ensures { IsRun self.old inputs.now self.new }
    {
        for input in inputs {
            self.step(input.keys, input.seconds);
        }
    }
}

/// The law of the console's runs: however its steps are called, the states are those of the machine's
/// run (`play`) over the events that the steps answered.
#[tactic(auto, using(crate::proofs::Running::steps_played))]
pub fn steps_are_played()
    ensures { StepsArePlayed }
{}

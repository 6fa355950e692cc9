//! The processor at power-up.

ghost use Rattle.std.specs.Prelude.{◌≡◌, false};
ghost use Rattle.gb_ops.specs.Play.{processor_at_power_up};

use crate::step::Cpu;
use gb_ops::registers::{Flags, Ime, Processor, Registers};

/// Where the header has its checksum.
const CHECKSUM: usize = 0x14D;

impl Cpu {
    /// The processor of a cartridge, in the bytes of its file, at power-up (Pan Docs: Power Up Sequence): H and C
    /// are clear where the header's checksum is 00.
    #[tactic(auto, unfolding(gb_ops::specs::Play::processor_at_power_up))]
    pub fn at_power_up(cartridge: &[u8]) -> Cpu
        ensures processor { result.processor ≡ processor_at_power_up cartridge.now }
        ensures waiting { result.is_waiting ≡ false }
    {
        let others = cartridge.get(CHECKSUM).copied().unwrap_or(0) != 0;
        let processor = Processor {
            registers: Registers {
                a: 0x01,
                b: 0x00,
                c: 0x13,
                d: 0x00,
                e: 0xD8,
                h: 0x01,
                l: 0x4D,
            },
            flags: Flags {
                zero: true,
                subtract: false,
                half_carry: others,
                carry: others,
            },
            sp: 0xFFFE,
            pc: 0x0100,
            ime: Ime::Off,
            halt_mark: false,
            locked: false,
            stopped: false,
        };
        Cpu {
            processor,
            is_waiting: false,
        }
    }
}

//! The I/O registers.

ghost use Rattle.std.specs.Prelude.{◌≡◌, ◌<◌, bit_or};
ghost use Rattle.gb_mbc.specs.Clock as Clock;
ghost use Rattle.gb_ppu.specs.Below.gb_timer.Interrupts.{irq_bits};
ghost use Rattle.gb_ppu.specs.Below.gb_timer.Joypad.{key_bits};
ghost use Rattle.gb_bus.specs.Registers as Registers;
ghost use Rattle.gb_bus.specs.Access.{shared_bits};

use crate::hardware::IoRegister;
use crate::memory::Memory;
use bitflags::Flags;
use gb_ppu::{Irqs, Keys};

/// The interrupts that are enabled and requested.
pub(crate) fn pending_of(interrupt_enable: u8, requests: Irqs) -> u8
    ensures { result ≡ shared_bits interrupt_enable (irq_bits requests) }
{
    if interrupt_enable % 32 == 0 {
        0
    } else {
        (interrupt_enable & requests.bits()) % 32
    }
}

impl Memory<'_> {
    /// The interrupts that are requested become these.
    #[inline]
    pub(crate) fn set_requests(&mut self, requests: Irqs)
        requires { irq_bits requests < 32 }
        ensures { self.new ≡ record self.old { requests = irq_bits requests } }
    {
        self.pending = pending_of(self.interrupt_enable, requests);
        self.requests = requests;
    }

    /// IE becomes this byte.
    pub(crate) fn set_interrupt_enable(&mut self, value: u8)
        ensures { self.new ≡ record self.old { view = record self.old.view { storage = record self.old.view.storage { ie = value } } } }
    {
        self.pending = pending_of(value, self.requests);
        self.interrupt_enable = value;
    }

    /// More interrupts are requested.
    #[tactic(auto, using(crate::proofs::Requests::or_small))]
    pub(crate) fn request(&mut self, irqs: Irqs)
        requires { irq_bits irqs < 32 }
        ensures { self.new ≡ record self.old { requests = bit_or self.old.requests (irq_bits irqs) } }
    {
        let both = self.requests.union(irqs);
        self.set_requests(both);
    }

    /// The keys that are held from now on; where a line of the joypad falls, its interrupt is requested.
    pub fn set_keys(&mut self, keys: Keys)
        ensures { self.new ≡ Registers.with_pad self.old (record self.old.pad { keys = key_bits keys }) }
    {
        if self.joypad.set(keys) {
            self.request(Irqs::JOYPAD);
        }
    }

    /// So many seconds pass for the cartridge's clock.
    pub fn advance_clock(&mut self, seconds: u32)
        ensures { self.new ≡ record self.old { clock = Clock.advanced self.old.clock seconds } }
    {
        self.clock.advance(seconds);
    }

    /// What an I/O register reads.
    #[tactic(auto, unfolding(crate::specs::Registers::io_byte))]
    pub(crate) fn io_byte(&self, register: IoRegister) -> u8
        ensures { result ≡ Registers.io_byte register self.now }
    {
        match register {
            IoRegister::Joypad => self.joypad.read(),
            IoRegister::Divider => self.devices.timer().div(),
            IoRegister::TimerCounter => self.devices.timer().tima(),
            IoRegister::TimerModulo => self.devices.timer().tma(),
            IoRegister::TimerControl => self.devices.timer().tac(),
            IoRegister::Requests => 0xE0 + self.requests.bits(),
        }
    }

    /// A write to an I/O register.
    #[tactic(auto, unfolding(crate::specs::Registers::io_written))]
    pub(crate) fn write_io(&mut self, register: IoRegister, value: u8)
        ensures { self.new ≡ Registers.io_written register self.old value }
    {
        match register {
            IoRegister::Joypad => {
                if self.joypad.select(value) {
                    self.request(Irqs::JOYPAD);
                }
            }
            IoRegister::Divider => {
                let mut timer = self.devices.timer();
                timer.clear_div();
                self.devices.set_timer(timer);
            }
            IoRegister::TimerCounter => {
                let mut timer = self.devices.timer();
                timer.set_tima(value);
                self.devices.set_timer(timer);
            }
            IoRegister::TimerModulo => {
                let mut timer = self.devices.timer();
                timer.set_tma(value);
                self.devices.set_timer(timer);
            }
            IoRegister::TimerControl => {
                let mut timer = self.devices.timer();
                timer.set_tac(value);
                self.devices.set_timer(timer);
            }
            IoRegister::Requests => self.set_requests(Irqs::from_bits_retain(value % 32)),
        }
    }
}

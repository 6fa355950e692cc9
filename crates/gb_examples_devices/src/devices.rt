//! The timer, the joypad, interrupts and the count of a transfer.

use bitflags::Flags;
use gb_dma::Transfer;
use gb_timer::irqs::{Irqs, Keys, next_irq};
use gb_timer::joypad::Joypad;
use gb_timer::timer::Timer;

fn timer(tac: u8, tima: u8, tma: u8) -> Timer {
    let mut timer = Timer::new();
    timer.set_tac(tac);
    timer.set_tima(tima);
    timer.set_tma(tma);
    timer
}

/// TAC, TIMA, TMA; M-cycles; overflows and TIMA.
type Period = (u8, u8, u8, u8, u32, u8);

const PERIODS: [Period; 8] = [
    (0, 0x00, 0x00, 255, 0, 0x00),
    (4, 0x00, 0x00, 255, 0, 0),
    (5, 0x00, 0x00, 255, 0, 63),
    (6, 0x00, 0x00, 255, 0, 15),
    (7, 0x00, 0x00, 255, 0, 3),
    (5, 0xFE, 0xAB, 7, 0, 0xFF),
    (5, 0xFE, 0xAB, 8, 1, 0xAB),
    (5, 0xFF, 0xFF, 16, 4, 0xFF),
];

#[test]
fn the_timer_counts_by_its_period(rt: HostRuntime) {
    for (tac, tima, tma, cycles, overflows, after) in PERIODS {
        let mut timer = timer(tac, tima, tma);
        assert!(rt; timer.advance(cycles) == overflows, "{cycles} at {tac}");
        assert!(rt; timer.tima() == after, "{cycles} at {tac}");
        assert!(rt; timer.tma() == tma && timer.tac() == 0xF8 | tac);
    }
}

#[test]
fn div_counts_64_cycles_and_is_cleared(rt: HostRuntime) {
    let mut timer = timer(5, 0, 0);
    for _ in 0..64 {
        timer.advance(255);
    }
    timer.advance(63);
    assert!(rt; timer.div() == 0xFF);
    timer.advance(1);
    assert!(rt; timer.div() == 0);
    timer.advance(67);
    assert!(rt; timer.div() == 1);
    let before = timer.tima();
    timer.clear_div();
    assert!(rt; timer.div() == 0);
    // TIMA's period begins anew.
    timer.advance(3);
    assert!(rt; timer.tima() == before);
    timer.advance(1);
    assert!(rt; timer.tima() == before.wrapping_add(1));
}

/// What is done to a joypad, and whether that requests its interrupt.
#[derive(Clone, Copy)]
enum DeviceChange {
    Select(u8, bool),
    /// The keys that are held, by their bits.
    Hold(u8, bool),
}

/// Does a change, and answers whether it requests what it says.
fn agrees(joypad: &mut Joypad, change: DeviceChange) -> bool {
    match change {
        DeviceChange::Select(value, requests) => joypad.select(value) == requests,
        DeviceChange::Hold(bits, requests) => joypad.set(Keys::from_bits_retain(bits)) == requests,
    }
}

/// Changes, each with what the joypad reads then.
const CHANGES: [(DeviceChange, u8); 7] = [
    (DeviceChange::Select(0x00, false), 0xCF),
    (DeviceChange::Hold(0x01, true), 0xCE),
    (DeviceChange::Select(0x10, false), 0xDE),
    (DeviceChange::Hold(0x01, false), 0xDE),
    (DeviceChange::Hold(0x81, false), 0xDE),
    (DeviceChange::Select(0x20, true), 0xE7),
    (DeviceChange::Select(0x30, false), 0xFF),
];

#[test]
fn the_joypad_shows_selected_keys_and_requests_where_a_line_falls(rt: HostRuntime) {
    assert!(rt; Keys::A.bits() == 0x01 && Keys::A.union(Keys::DOWN).bits() == 0x81);
    let mut joypad = Joypad::new();
    for (i, (step, read)) in CHANGES.iter().enumerate() {
        assert!(rt; agrees(&mut joypad, *step), "change {i}");
        assert!(rt; joypad.read() == *read, "change {i}");
    }
}

/// IME, IE and IF, and the interrupt that is next.
const NEXT: [(bool, u8, u8, Option<u8>); 4] = [
    (true, 0x1F, 0x14, Some(2)),
    (false, 0x1F, 0x14, None),
    (true, 0xE0, 0xFF, None),
    (true, 0xF0, 0xFF, Some(4)),
];

#[test]
fn the_lowest_interrupt_is_next(rt: HostRuntime) {
    assert!(rt; Irqs::JOYPAD.union(Irqs::TIMER).bits() == 0x14);
    for (ime, enabled, flags, next) in NEXT {
        let flags = Irqs::from_bits_retain(flags);
        assert!(rt; next_irq(ime, enabled, flags) == next, "{enabled:x}");
    }
    assert!(rt; Irqs::all().bits() == 0x1F && Keys::all().bits() == 0xFF);
    assert!(rt; Irqs::from_bits_truncate(0xE1) == Irqs::VBLANK);
}

#[test]
fn a_transfer_takes_161_cycles(rt: HostRuntime) {
    let mut transfer = Transfer::new();
    assert!(rt; transfer.left() == 0);
    transfer.start();
    assert!(rt; transfer.left() == 161);
    transfer.advance(3);
    assert!(rt; transfer.left() == 158);
    transfer.advance(200);
    assert!(rt; transfer.left() == 0);
}

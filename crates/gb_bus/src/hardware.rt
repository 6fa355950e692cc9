//! Where the memory map has hardware.

ghost use Rattle.std.specs.Prelude.{◌≡◌, ◌≤◌};
ghost use Rattle.gb_bus.specs.Hardware as Map;

use gb_ppu::registers::LcdRegister;

/// The I/O registers that the console has, but for the picture's and for FF46, which the memory map
/// has apart.
#[derive(Clone, Copy, PartialEq, Eq)]
pub enum IoRegister {
    /// FF00, JOYP.
    Joypad,
    /// FF04, DIV.
    Divider,
    /// FF05, TIMA.
    TimerCounter,
    /// FF06, TMA.
    TimerModulo,
    /// FF07, TAC.
    TimerControl,
    /// FF0F, IF.
    Requests,
}

/// What stands at an address from 8000 to 9FFF or from FE00 to FF7F.
#[derive(Clone, Copy, PartialEq, Eq)]
pub enum Hardware {
    /// A byte of video RAM, by its index.
    VideoRam(u16),
    /// A byte of OAM, by its index.
    Oam(u16),
    Io(IoRegister),
    /// A register of the picture.
    Lcd(LcdRegister),
    /// It reads FF, and writes are dropped.
    Nothing,
}

/// What stands at such an address (Pan Docs: Memory Map; Hardware Registers List).
#[tactic(auto, unfolding(crate::specs::Hardware::hardware_at, crate::specs::Hardware::register_at))]
pub fn hardware_at(address: u16) -> Hardware
    requires { 0x8000 ≤ address }
    ensures value { result ≡ Map.hardware_at address }
    ensures held { Map.IsHeld result }
{
    match address {
        0x0000..=0x9FFF => Hardware::VideoRam(address - 0x8000),
        0xFE00..=0xFE9F => Hardware::Oam(address - 0xFE00),
        0xFF00 => Hardware::Io(IoRegister::Joypad),
        0xFF04 => Hardware::Io(IoRegister::Divider),
        0xFF05 => Hardware::Io(IoRegister::TimerCounter),
        0xFF06 => Hardware::Io(IoRegister::TimerModulo),
        0xFF07 => Hardware::Io(IoRegister::TimerControl),
        0xFF0F => Hardware::Io(IoRegister::Requests),
        0xFF40 => Hardware::Lcd(LcdRegister::Lcdc),
        0xFF41 => Hardware::Lcd(LcdRegister::Stat),
        0xFF42 => Hardware::Lcd(LcdRegister::Scy),
        0xFF43 => Hardware::Lcd(LcdRegister::Scx),
        0xFF44 => Hardware::Lcd(LcdRegister::Ly),
        0xFF45 => Hardware::Lcd(LcdRegister::Lyc),
        0xFF47 => Hardware::Lcd(LcdRegister::Bgp),
        0xFF48 => Hardware::Lcd(LcdRegister::Obp0),
        0xFF49 => Hardware::Lcd(LcdRegister::Obp1),
        0xFF4A => Hardware::Lcd(LcdRegister::Wy),
        0xFF4B => Hardware::Lcd(LcdRegister::Wx),
        _ => Hardware::Nothing,
    }
}

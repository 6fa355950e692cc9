//! What single bytes of the header stand for.

ghost use Rattle.std.specs.Prelude.{◌≡◌, ◌≤◌, length};
ghost use Rattle.gb_ops.specs.Cartridge;
ghost use Rattle.gb_header.specs.Header;

use gb_ops::machine::Kind;

/// Where the header has the cartridge's type.
pub const TYPE: usize = 0x147;

/// Where the header has the ROM's size.
pub const ROM_SIZE: usize = 0x148;

/// Where the header has the RAM's size.
pub const RAM_SIZE: usize = 0x149;

/// Where the header has its checksum.
pub const CHECKSUM: usize = 0x14D;

/// The kind of controller that a type byte stands for.
#[tactic(auto, unfolding(gb_ops::specs::Cartridge::kind_of_type))]
pub fn kind_of_type(type_byte: u8) -> Option<Kind>
    ensures { result ≡ Cartridge.kind_of_type type_byte }
{
    match type_byte {
        0x00 => Some(Kind::Rom),
        0x01..=0x03 => Some(Kind::Mbc1),
        0x0F..=0x13 => Some(Kind::Mbc3),
        0x19..=0x1E => Some(Kind::Mbc5),
        _ => None,
    }
}

/// Whether cartridges of this type have RAM of their own.
#[tactic(auto, unfolding(gb_ops::specs::Cartridge::type_has_ram))]
pub fn type_has_ram(type_byte: u8) -> bool
    ensures { result ≡ Cartridge.type_has_ram type_byte }
{
    matches!(type_byte, 0x02..=0x03 | 0x10 | 0x12..=0x13 | 0x1A..=0x1B | 0x1D..=0x1E)
}

/// Whether cartridges of this type have a clock.
#[tactic(auto, unfolding(gb_ops::specs::Cartridge::type_has_clock))]
pub fn type_has_clock(type_byte: u8) -> bool
    ensures { result ≡ Cartridge.type_has_clock type_byte }
{
    matches!(type_byte, 0x0F..=0x10)
}

/// Whether cartridges of this type have a rumble motor.
#[tactic(auto, unfolding(gb_ops::specs::Cartridge::type_has_rumble))]
pub fn type_has_rumble(type_byte: u8) -> bool
    ensures { result ≡ Cartridge.type_has_rumble type_byte }
{
    matches!(type_byte, 0x1C..=0x1E)
}

/// The banks of 16 KiB that a ROM size byte stands for.
#[tactic(auto, unfolding(gb_ops::specs::Cartridge::rom_banks_of_size))]
pub fn rom_banks_of_size(size: u8) -> Option<u16>
    ensures { result ≡ Cartridge.rom_banks_of_size size }
{
    if size <= 8 { Some(2 << size) } else { None }
}

/// The banks of 8 KiB that a RAM size byte stands for.
#[tactic(auto, unfolding(gb_ops::specs::Cartridge::ram_banks_of_size))]
pub fn ram_banks_of_size(size: u8) -> Option<u8>
    ensures { result ≡ Cartridge.ram_banks_of_size size }
{
    match size {
        0 => Some(0),
        2 => Some(1),
        3 => Some(4),
        4 => Some(16),
        5 => Some(8),
        _ => None,
    }
}

/// The most ROM banks that a controller serves.
#[tactic(auto, unfolding(crate::specs::Header::greatest_rom_banks))]
pub fn greatest_rom_banks(kind: Kind) -> u16
    ensures { result ≡ Header.greatest_rom_banks kind }
{
    match kind {
        Kind::Rom => 2,
        Kind::Mbc1 | Kind::Mbc3 => 128,
        Kind::Mbc5 => 512,
    }
}

/// The most RAM banks that a cartridge of this kind and type has.
#[tactic(auto, unfolding(crate::specs::Header::greatest_ram_banks))]
pub fn greatest_ram_banks(kind: Kind, type_byte: u8) -> u8
    ensures { result ≡ Header.greatest_ram_banks kind type_byte }
{
    match kind {
        Kind::Rom => 0,
        Kind::Mbc1 | Kind::Mbc3 => 4,
        Kind::Mbc5 => if type_has_rumble(type_byte) { 8 } else { 16 },
    }
}

/// The kind of controller that a header names.
#[tactic(auto, unfolding(gb_ops::specs::Cartridge::kind_of))]
pub fn kind_of(bytes: &[u8]) -> Kind
    requires { 0x150 ≤ length bytes.now }
    ensures { result ≡ Cartridge.kind_of bytes.now }
{
    kind_of_type(bytes[TYPE]).unwrap_or(Kind::Rom)
}

/// The ROM banks that a header names.
#[tactic(auto, unfolding(gb_ops::specs::Cartridge::rom_banks))]
pub fn rom_banks(bytes: &[u8]) -> u16
    requires { 0x150 ≤ length bytes.now }
    ensures { result ≡ Cartridge.rom_banks bytes.now }
{
    rom_banks_of_size(bytes[ROM_SIZE]).unwrap_or(0)
}

/// The RAM banks that a header names; a type without RAM has none.
#[tactic(auto, unfolding(gb_ops::specs::Cartridge::ram_banks))]
pub fn ram_banks(bytes: &[u8]) -> u8
    requires { 0x150 ≤ length bytes.now }
    ensures { result ≡ Cartridge.ram_banks bytes.now }
{
    if type_has_ram(bytes[TYPE]) {
        ram_banks_of_size(bytes[RAM_SIZE]).unwrap_or(0)
    } else {
        0
    }
}

/// The checksum with one more byte.
#[tactic(auto, unfolding(crate::specs::Header::checksum_after))]
pub fn checksum_after(sum: u8, byte: u8) -> u8
    ensures { result ≡ Header.checksum_after sum byte }
{
    sum.wrapping_sub(byte).wrapping_sub(1)
}

/// The checksum that a header has to have.
#[tactic(auto, using(std::proofs::lemmas::List::Sums::fold_more), unfolding(crate::specs::Header::checksum_of))]
pub fn checksum_of(bytes: &[u8]) -> u8
    requires { 0x150 ≤ length bytes.now }
    ensures { result ≡ Header.checksum_of bytes.now }
{
    let mut sum = 0;
    for &byte in &bytes[0x134..0x14D] {
        sum = checksum_after(sum, byte);
    }
    sum
}

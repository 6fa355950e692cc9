//! The tests that make a file a cartridge. Each presumes what the earlier ones found.

ghost use Rattle.std.specs.Prelude.{◌≡◌, ◌≤◌, length};
ghost use Rattle.gb_header.specs.Header;

use crate::facts;
use crate::fault::HeaderFault;

/// The bytes of the smallest cartridge.
const SMALLEST: usize = 0x8000;

#[tactic(auto, unfolding(crate::specs::Header::has_unknown_type))]
fn has_unknown_type(bytes: &[u8]) -> bool
    requires { 0x150 ≤ length bytes.now }
    ensures { result ≡ Header.has_unknown_type bytes.now }
{
    facts::kind_of_type(bytes[facts::TYPE]).is_none()
}

#[tactic(auto, unfolding(crate::specs::Header::has_unknown_rom_size))]
fn has_unknown_rom_size(bytes: &[u8]) -> bool
    requires { 0x150 ≤ length bytes.now }
    ensures { result ≡ Header.has_unknown_rom_size bytes.now }
{
    facts::rom_banks_of_size(bytes[facts::ROM_SIZE]).is_none()
}

#[tactic(auto, unfolding(crate::specs::Header::has_wrong_length))]
fn has_wrong_length(bytes: &[u8]) -> bool
    requires { 0x150 ≤ length bytes.now }
    ensures { result ≡ Header.has_wrong_length bytes.now }
{
    bytes.len() != 0x4000 * facts::rom_banks(bytes) as usize
}

#[tactic(auto, unfolding(crate::specs::Header::has_unknown_ram_size))]
fn has_unknown_ram_size(bytes: &[u8]) -> bool
    requires { 0x150 ≤ length bytes.now }
    ensures { result ≡ Header.has_unknown_ram_size bytes.now }
{
    facts::type_has_ram(bytes[facts::TYPE])
        && facts::ram_banks_of_size(bytes[facts::RAM_SIZE]).is_none()
}

#[tactic(auto, unfolding(crate::specs::Header::is_too_large))]
fn is_too_large(bytes: &[u8]) -> bool
    requires { 0x150 ≤ length bytes.now }
    ensures { result ≡ Header.is_too_large bytes.now }
{
    let kind = facts::kind_of(bytes);
    facts::rom_banks(bytes) > facts::greatest_rom_banks(kind)
        || facts::ram_banks(bytes) > facts::greatest_ram_banks(kind, bytes[facts::TYPE])
}

#[tactic(auto, unfolding(crate::specs::Header::has_wrong_checksum))]
fn has_wrong_checksum(bytes: &[u8]) -> bool
    requires { 0x150 ≤ length bytes.now }
    ensures { result ≡ Header.has_wrong_checksum bytes.now }
{
    bytes[facts::CHECKSUM] != facts::checksum_of(bytes)
}

/// The lowest fault of a file.
#[tactic(auto, unfolding(crate::specs::Header::fault_of, crate::specs::Header::has_fault, crate::specs::Header::is_too_short))]
pub fn fault_of(bytes: &[u8]) -> Option<HeaderFault>
    ensures { result ≡ Header.fault_of bytes.now }
{
    if bytes.len() < SMALLEST {
        Some(HeaderFault::TooShort)
    } else if has_unknown_type(bytes) {
        Some(HeaderFault::Type)
    } else if has_unknown_rom_size(bytes) {
        Some(HeaderFault::RomSize)
    } else if has_wrong_length(bytes) {
        Some(HeaderFault::Length)
    } else if has_unknown_ram_size(bytes) {
        Some(HeaderFault::RamSize)
    } else if is_too_large(bytes) {
        Some(HeaderFault::TooLarge)
    } else if has_wrong_checksum(bytes) {
        Some(HeaderFault::Checksum)
    } else {
        None
    }
}

//! A cartridge for the Game Boy Color, which is analysed as if it ran on a DMG.

use gb_findings::gb_fixpoint::Rom;

/// The header's byte that says whether the cartridge is for the Color (Pan Docs: 0143, CGB flag).
const COLOR_FLAG: usize = 0x0143;

/// What there is to say of a cartridge whose header has the Color flag: nothing of another one.
pub fn color_note(rom: &Rom<'_>) -> Option<&'static str> {
    match rom.bytes().get(COLOR_FLAG) {
        Some(flag) if *flag >= 0xC0 => Some(
            "The header says Game Boy Color only ($0143 = $C0), and the ROM is analysed as on a DMG. Code that only a Color runs isn't checked.",
        ),
        Some(flag) if *flag >= 0x80 => Some(
            "The header has the Color flag ($0143 = $80), and the ROM is analysed as on a DMG. Code that only a Color runs isn't checked.",
        ),
        _ => None,
    }
}

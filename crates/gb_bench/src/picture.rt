//! Frames of a full scene: background, window, and 40 objects.

use crate::report;
use gb_cpu::{Bus, Memory};
use gb_verify::Rom;
use std::io;
use std::rt::Clock;
use std::time::Instant;

/// The frames that are drawn.
const FRAMES: u32 = 100;

/// A cartridge of zeros.
fn cartridge() -> [u8; 0x8000] {
    let mut rom = [0; 0x8000];
    rom[0x14D] = 0xE7;
    rom
}

/// Fills video RAM and OAM, and turns everything on.
fn fill(memory: &mut Memory<'_>) {
    memory.write(0xFF40, 0x00);
    let mut byte: u8 = 0;
    for address in 0x8000..0xA000 {
        memory.write(address, byte);
        byte = byte.wrapping_mul(5).wrapping_add(77);
    }
    for address in 0xFE00..0xFEA0 {
        memory.write(address, byte);
        byte = byte.wrapping_mul(5).wrapping_add(77);
    }
    memory.write(0xFF47, 0xE4);
    memory.write(0xFF48, 0xD8);
    memory.write(0xFF4A, 40);
    memory.write(0xFF4B, 87);
    memory.write(0xFF40, 0xF7);
}

/// Draws the frames.
fn pass_frames<R: Eprint + Clock>(rt: &R, memory: &mut Memory<'_>) -> io::Result<()> {
    let since = Instant::now(rt)?;
    // A frame is 17,556 M-cycles: 4,389 times 4.
    for _ in 0..FRAMES * 4389 {
        memory.pass(4);
    }
    report(rt, "100 frames of a full scene", &since)
}

/// Whether the screen shows anything.
fn shows(memory: &Memory<'_>) -> bool {
    for line in memory.screen() {
        for shade in line {
            if *shade != 0 {
                return true;
            }
        }
    }
    false
}

/// Draws the frames, and answers whether the last one shows anything.
pub fn draw<R: Eprint + Clock + AllocGlobal>(rt: &R) -> io::Result<bool> {
    let bytes = cartridge();
    let Ok(rom) = Rom::parse(&bytes) else {
        return Ok(false);
    };
    let mut memory = Memory::new(rt.alloc(), &rom)?;
    fill(&mut memory);
    let told = pass_frames(rt, &mut memory);
    let shown = shows(&memory);
    drop(memory);
    told?;
    Ok(shown)
}

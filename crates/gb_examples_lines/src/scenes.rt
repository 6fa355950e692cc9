//! The scenes that are drawn.

use gb_ppu::scene::{OAM, Scene, VIDEO_RAM};
use gb_samples::cartridges::put;
use gb_samples::programs::{OBJECTS, tiles};

/// What lies in video RAM and in OAM.
#[derive(Clone, Copy)]
pub enum Filling {
    /// Three tiles, and the worked example's eleven objects.
    Objects,
    /// Three tiles, and the second map all of tile 1.
    SecondMap,
    /// Bytes that vary, and 40 objects of which many meet each line.
    Varied,
}

/// A scene by its name and its registers.
#[derive(Clone, Copy)]
pub struct Named {
    pub name: &'static str,
    filling: Filling,
    lcdc: u8,
    window_line: Option<u8>,
}

/// The worked examples' scenes, and all layers at once with tiles by an unsigned and by a signed index.
pub const SCENES: [Named; 5] = [
    Named {
        name: "ten objects",
        filling: Filling::Objects,
        lcdc: 0x93,
        window_line: None,
    },
    Named {
        name: "the window",
        filling: Filling::SecondMap,
        lcdc: 0xF1,
        window_line: Some(3),
    },
    Named {
        name: "all layers, objects of 16 lines",
        filling: Filling::Varied,
        lcdc: 0xF7,
        window_line: Some(40),
    },
    Named {
        name: "all layers, signed tiles",
        filling: Filling::Varied,
        lcdc: 0xAB,
        window_line: Some(129),
    },
    Named {
        name: "objects alone",
        filling: Filling::Varied,
        lcdc: 0xB2,
        window_line: Some(7),
    },
];

/// A scene's memories and registers.
#[derive(Drop)]
pub struct Layers {
    video_ram: [u8; VIDEO_RAM],
    oam: [u8; OAM],
    lcdc: u8,
    window_line: Option<u8>,
}

/// Video RAM with three tiles behind tile 0.
fn with_tiles() -> [u8; VIDEO_RAM] {
    let mut video_ram = [0; VIDEO_RAM];
    put(&mut video_ram, 16, &tiles());
    video_ram
}

/// The byte behind another one, where bytes vary.
fn next(byte: u8) -> u8 {
    byte.wrapping_mul(5).wrapping_add(77)
}

/// Video RAM of bytes that vary, also from one 256 to the next.
fn varied_video_ram() -> [u8; VIDEO_RAM] {
    let mut video_ram = [0; VIDEO_RAM];
    let mut byte: u8 = 3;
    for (place, at) in video_ram.iter_mut().enumerate() {
        *at = byte ^ (place / 256 % 256) as u8;
        byte = next(byte);
    }
    video_ram
}

/// Objects all over the screen, with each attribute, many with an X in common.
fn varied_oam() -> [u8; OAM] {
    let mut oam = [0; OAM];
    let mut byte: u8 = 11;
    for (place, at) in oam.iter_mut().enumerate() {
        *at = match place % 4 {
            0 => byte % 160,
            1 => byte % 61 * 3,
            _ => byte,
        };
        byte = next(byte);
    }
    oam
}

impl Layers {
    pub fn of(named: Named) -> Layers {
        let mut video_ram = match named.filling {
            Filling::Varied => varied_video_ram(),
            _ => with_tiles(),
        };
        let mut oam = [0; OAM];
        match named.filling {
            Filling::Objects => {
                put(&mut video_ram, 0x1802, &[3]);
                put(&mut oam, 0, &OBJECTS);
            }
            Filling::SecondMap => put(&mut video_ram, 0x1C00, &[1; 0x400]),
            Filling::Varied => oam = varied_oam(),
        }
        Layers {
            video_ram,
            oam,
            lcdc: named.lcdc,
            window_line: named.window_line,
        }
    }

    pub fn scene(&self) -> Scene<'_> {
        Scene {
            video_ram: &self.video_ram,
            oam: &self.oam,
            lcdc: self.lcdc,
            scx: 83,
            scy: 37,
            wx: 87,
            bgp: 0xE4,
            obp0: 0xD8,
            obp1: 0x1E,
            window_line: self.window_line,
        }
    }
}

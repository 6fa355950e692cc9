//! What a line is drawn from.

/// The bytes of video RAM.
pub const VIDEO_RAM: usize = 0x2000;

/// The bytes of OAM.
pub const OAM: usize = 0xA0;

/// Video RAM, OAM and the registers, as a line's mode 3 begins.
#[derive(Clone, Copy)]
pub struct Scene<'a> {
    pub video_ram: &'a [u8; VIDEO_RAM],
    pub oam: &'a [u8; OAM],
    pub lcdc: u8,
    pub scx: u8,
    pub scy: u8,
    pub wx: u8,
    pub bgp: u8,
    pub obp0: u8,
    pub obp1: u8,
    /// The window's own line, from the line on at whose start LY equalled WY in this frame.
    pub window_line: Option<u8>,
}

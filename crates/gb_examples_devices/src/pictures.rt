//! The picture by itself: lines, modes and requests.

use bitflags::Flags;
use gb_ppu::lanes::{shades, tile_row};
use gb_ppu::line::{WIDTH, render_line};
use gb_ppu::mode::Mode;
use gb_ppu::ppu::Ppu;
use gb_ppu::registers::LcdRegister;
use gb_ppu::scene::{OAM, Scene, VIDEO_RAM};
use gb_samples::cartridges::put;
use gb_samples::programs::{FIRST_LINE, OBJECTS, tiles};
use gb_timer::irqs::Irqs;
use std::process::Abort;
use std::simd::prelude::*;

/// Video RAM with three tiles behind tile 0.
fn with_tiles() -> [u8; VIDEO_RAM] {
    let mut video_ram = [0; VIDEO_RAM];
    put(&mut video_ram, 16, &tiles());
    video_ram
}

/// The second map is of tile 1.
fn with_second_map() -> [u8; VIDEO_RAM] {
    let mut video_ram = with_tiles();
    put(&mut video_ram, 0x1C00, &[1; 0x400]);
    video_ram
}

fn with_objects() -> [u8; OAM] {
    let mut oam = [0; OAM];
    put(&mut oam, 0, &OBJECTS);
    oam
}

/// A scene with the usual palettes and no window.
fn plain<'a>(video_ram: &'a [u8; VIDEO_RAM], oam: &'a [u8; OAM], lcdc: u8) -> Scene<'a> {
    Scene {
        video_ram,
        oam,
        lcdc,
        scx: 0,
        scy: 0,
        wx: 0,
        bgp: 0xE4,
        obp0: 0xE4,
        obp1: 0xE4,
        window_line: None,
    }
}

/// Asserts that a line is runs of shades.
fn assert_runs(rt: &impl Abort, line: &[u8; WIDTH], runs: &[(u8, usize)]) {
    let mut expected = [0; WIDTH];
    let mut x = 0;
    for (shade, length) in runs {
        for _ in 0..*length {
            if x < WIDTH {
                expected[x] = *shade;
                x += 1;
            }
        }
    }
    assert!(rt; x == WIDTH);
    assert!(rt; line == &expected);
}

/// The worked example's line: ten objects before the background's colours.
#[test]
fn draws_ten_objects_of_a_line(rt: HostRuntime) {
    let mut video_ram = with_tiles();
    put(&mut video_ram, 0x1802, &[3]);
    let oam = with_objects();
    let scene = plain(&video_ram, &oam, 0x93);
    let mut line = [9; WIDTH];
    render_line(&scene, 0, &mut line);
    assert_runs(&rt, &line, &FIRST_LINE);
}

/// The first row of the tile that the hardware's documents spell out, and two palettes.
#[test]
fn rows_and_palettes_in_lanes(rt: HostRuntime) {
    let row = tile_row(0x3C, 0x7E);
    assert!(rt; row.to_array() == [0, 2, 3, 3, 3, 3, 2, 0]);
    let colours = u8x16::from_array([0, 1, 2, 3, 0, 1, 2, 3, 0, 0, 0, 0, 3, 3, 3, 3]);
    let upwards = shades(0xE4, colours);
    assert!(rt; upwards.to_array() == [0, 1, 2, 3, 0, 1, 2, 3, 0, 0, 0, 0, 3, 3, 3, 3]);
    let downwards = shades(0x1B, colours);
    assert!(rt; downwards.to_array() == [3, 2, 1, 0, 3, 2, 1, 0, 3, 3, 3, 3, 0, 0, 0, 0]);
}

/// Turned off and on again, with WY as given and the window on its own map.
fn with_window(wy: u8, wx: u8) -> Ppu {
    let mut ppu = Ppu::new();
    for (register, value) in [
        (LcdRegister::Lcdc, 0x00),
        (LcdRegister::Bgp, 0xE4),
        (LcdRegister::Wy, wy),
        (LcdRegister::Wx, wx),
        (LcdRegister::Lcdc, 0xF1),
    ] {
        let _ = ppu.write(register, value);
    }
    ppu
}

/// The line whose mode 3 begins next.
fn next_line(ppu: &mut Ppu, video_ram: &[u8; VIDEO_RAM]) -> [u8; WIDTH] {
    let mut line = [9; WIDTH];
    let oam = [0; OAM];
    if let Some(n) = ppu.until_drawing() {
        for _ in 0..n {
            let _ = ppu.advance(1);
        }
    }
    let y = ppu.line();
    if y < 144 {
        render_line(&ppu.scene(video_ram, &oam), y, &mut line);
    }
    line
}

#[test]
fn draws_the_window_from_its_line_on(rt: HostRuntime) {
    let video_ram = with_second_map();
    for (wx, shown) in [(0x0F, 152), (0xA6, 1), (0xA7, 0)] {
        let mut ppu = with_window(2, wx);
        let _ = next_line(&mut ppu, &video_ram);
        let line_1 = next_line(&mut ppu, &video_ram);
        assert_runs(&rt, &line_1, &[(0, 160)]);
        let line_2 = next_line(&mut ppu, &video_ram);
        assert!(rt; ppu.line() == 2);
        assert_runs(&rt, &line_2, &[(0, 160 - shown), (3, shown)]);
    }
}

/// Lines 0, 1 and 3 show the background's rows 0, 1 and 3; lines 2 and 4 the window's rows 0 and 1.
#[test]
fn counts_the_windows_own_lines(rt: HostRuntime) {
    let mut video_ram = with_tiles();
    // Row 0 of tile 0 is colour 0, row 1 colour 3, row 2 colour 0.
    put(&mut video_ram, 2, &[0xFF, 0xFF]);
    let mut ppu = with_window(2, 7);
    let mut seen = [0; 5];
    for (y, shade) in seen.iter_mut().enumerate() {
        let lcdc = if y == 3 { 0xD1 } else { 0xF1 };
        let _ = ppu.write(LcdRegister::Lcdc, lcdc);
        let line = next_line(&mut ppu, &video_ram);
        *shade = line[80];
    }
    assert!(rt; seen == [0, 3, 0, 0, 3]);
}

/// What is done to a picture, with the interrupts that it then requests, or what it shows.
#[derive(Clone, Copy)]
enum PictureStep {
    /// So many M-cycles pass.
    Pass(u8, Option<Irqs>),
    Write(LcdRegister, u8, Option<Irqs>),
    Reads(LcdRegister, u8),
    Mode(Mode),
    Line(u8),
    IsOn(bool),
    UntilDrawing(Option<u16>),
}

/// Whether these requests are the expected ones, or none.
fn is_requested(requests: Irqs, expected: Option<Irqs>) -> bool {
    match expected {
        Some(irqs) => requests == irqs,
        None => requests == Irqs::empty(),
    }
}

/// Does a step, and answers whether the picture does what it says.
fn agrees(ppu: &mut Ppu, step: PictureStep) -> bool {
    match step {
        PictureStep::Pass(n, requests) => is_requested(ppu.advance(n), requests),
        PictureStep::Write(register, value, requests) => {
            is_requested(ppu.write(register, value), requests)
        }
        PictureStep::Reads(register, value) => ppu.read(register) == value,
        PictureStep::Mode(mode) => ppu.mode() == mode,
        PictureStep::Line(line) => ppu.line() == line,
        PictureStep::IsOn(is_on) => ppu.is_on() == is_on,
        PictureStep::UntilDrawing(n) => ppu.until_drawing() == n,
    }
}

fn play(rt: &impl Abort, ppu: &mut Ppu, steps: &[PictureStep]) {
    for (i, step) in steps.iter().enumerate() {
        assert!(rt; agrees(ppu, *step), "step {i}");
    }
}

/// The first line with its modes.
const FIRST: &[PictureStep] = &[
    PictureStep::IsOn(true),
    PictureStep::Reads(LcdRegister::Stat, 0x86),
    PictureStep::Pass(20, None),
    PictureStep::Mode(Mode::Drawing),
    PictureStep::Pass(43, None),
    PictureStep::Mode(Mode::HBlank),
    PictureStep::Pass(51, None),
    PictureStep::Line(1),
    PictureStep::Mode(Mode::ObjectScan),
];

/// From 114 M-cycles on: with 67 times 243 and 20 they are 16,415.
const TO_VBLANK: &[PictureStep] = &[
    PictureStep::Pass(20, None),
    PictureStep::Line(143),
    PictureStep::Pass(1, Some(Irqs::VBLANK)),
    PictureStep::Mode(Mode::VBlank),
    PictureStep::UntilDrawing(Some(1160)),
];

#[test]
fn goes_through_a_frame(rt: HostRuntime) {
    let mut ppu = Ppu::new();
    play(&rt, &mut ppu, FIRST);
    for _ in 0..67 {
        play(&rt, &mut ppu, &[PictureStep::Pass(243, None)]);
    }
    play(&rt, &mut ppu, TO_VBLANK);
}

const SIGNALS: &[PictureStep] = &[
    PictureStep::Write(LcdRegister::Lyc, 0xFF, None),
    // Sources mode 2 and mode 0: the write comes in mode 2.
    PictureStep::Write(LcdRegister::Stat, 0x28, Some(Irqs::STAT)),
    PictureStep::Pass(62, None),
    PictureStep::Pass(1, Some(Irqs::STAT)),
    // From mode 0 to mode 2 the signal stays.
    PictureStep::Pass(113, None),
    PictureStep::Pass(1, Some(Irqs::STAT)),
    // LY becomes LYC.
    PictureStep::Write(LcdRegister::Stat, 0x40, None),
    PictureStep::Write(LcdRegister::Lyc, 2, None),
    PictureStep::Pass(50, None),
    PictureStep::Pass(1, Some(Irqs::STAT)),
    PictureStep::Pass(114, None),
    // Off: LY is 0, and goes on being compared.
    PictureStep::Write(LcdRegister::Lcdc, 0x11, None),
    PictureStep::Reads(LcdRegister::Ly, 0),
    PictureStep::Write(LcdRegister::Lyc, 0, None),
    PictureStep::Reads(LcdRegister::Stat, 0xC4),
    PictureStep::Pass(255, None),
    PictureStep::IsOn(false),
    PictureStep::UntilDrawing(None),
    // On again: line 0 begins.
    PictureStep::Write(LcdRegister::Lcdc, 0x91, Some(Irqs::STAT)),
];

#[test]
fn requests_where_the_signal_rises(rt: HostRuntime) {
    play(&rt, &mut Ppu::new(), SIGNALS);
}

//! Draws whole scenes twice, by the picture unit and pixel by pixel, and says whether they are the same: each of the 144
//! lines at each of the 256 values of SCX, and at each of WX. The gate runs it as both compilers build it.
//!
//! `plain` draws pixel by pixel, and `scenes` has what is drawn. The functions here promise nothing but to be safe.
#![tactic(auto)]

mod plain;
mod scenes;

use crate::plain::plain_line;
use crate::scenes::{Layers, SCENES};
use gb_ppu::line::{WIDTH, render_line};
use gb_ppu::scene::Scene;
use std::io;

/// The register that takes each of its values.
#[derive(Clone, Copy)]
enum Varied {
    Scx,
    Wx,
}

impl Varied {
    /// The scene with another value of the register.
    fn at(self, scene: Scene<'_>, value: u8) -> Scene<'_> {
        match self {
            Varied::Scx => Scene {
                scx: value,
                ..scene
            },
            Varied::Wx => Scene { wx: value, ..scene },
        }
    }

    fn name(self) -> &'static str {
        match self {
            Varied::Scx => "SCX",
            Varied::Wx => "WX",
        }
    }
}

/// Whether both ways draw a line alike.
fn agrees(scene: &Scene<'_>, y: u8) -> bool {
    if y >= 144 {
        return true;
    }
    let mut line = [9; WIDTH];
    render_line(scene, y, &mut line);
    line == plain_line(scene, y)
}

/// How many lines are drawn alike, among all lines at all values of the register.
fn count_of_agreeing(scene: Scene<'_>, varied: Varied) -> u32 {
    let mut count: u32 = 0;
    for value in 0..=255 {
        let changed = varied.at(scene, value);
        for y in 0..144 {
            count = count.saturating_add(u32::from(agrees(&changed, y)));
        }
    }
    count
}

fn main(rt: HostRuntime) -> io::Result<()> {
    for named in SCENES {
        let layers = Layers::of(named);
        for varied in [Varied::Scx, Varied::Wx] {
            let count = count_of_agreeing(layers.scene(), varied);
            println!(rt;
                "{}: {count} of 36864 lines at all values of {} are the same",
                named.name,
                varied.name()
            )?;
        }
    }
    Ok(())
}

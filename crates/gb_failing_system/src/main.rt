//! The whole programs, `gulmyrek` and `certify`, on a stage in place of the system: files and a standard input that are
//! missing, refused, cut off, slow, interrupted, failing or without an end, an output that takes so many bytes and no more,
//! and a standard error that takes nothing.
//!
//! rows.rt, events.rt, crashes.rt, faulty.rt and cuts.rt have the examples, with the line and the status that docs/REFERENCE.md says. Each is played as it is, with a
//! standard error that fails, and with an output that fails behind each number of bytes (play.rt): then the beginning of the
//! line is out, the status is 3, and standard error says so. A line for each example says how often it was played and how often it did
//! otherwise: twice, and once for each byte of its line (of a screen's lines, for every 389th). A page and a crash's keys are
//! written on a disk (disk.rt) that can't give them their names, or is full behind so many bytes: then nothing is left of a file that
//! isn't whole.
#![tactic(auto)]

mod crashes;
mod cuts;
mod device;
mod disk;
mod events;
mod faulty;
mod play;
mod rows;
mod said;
mod stage;
mod unordered;

use crashes::{CRASHES, HUNTS};
use cuts::CUTS;
use events::EVENTS;
use faulty::FAULTY;
use gb_samples::cartridges::{PLAIN, SMALLEST, put, small};
use gb_samples::certificates::{least, least_in_version_2};
use gb_samples::programs::{LOOP, ROM_STACK, STOPS, UNDEFINED};
use play::{Contents, Plays, play, play_cuts, play_page};
use rows::{ExpectedPage, PAGES, PLAYED, READ, Scenario};
use std::alloc::Global;
use std::io::{self, Write};

/// Says how an example went.
fn write_plays<W: Write>(out: &mut W, about: &str, plays: Plays) -> io::Result<()> {
    let (played, wrong) = (plays.played, plays.wrong);
    writeln!(out, "{about}: {played} plays, {wrong} wrong")
}

/// Symbols whose names are markup.
const MARKUP: &[u8] =
    b"00:0100 <script>alert(0x0100)\n00:0150 <script/src=//a.b>\"'&<b>\n01:4000 </section><script>\n";

// Each table has a function of its own: all of them are too much for one proof.

/// Plays examples, and says how each went.
fn write_rows<W: Write>(
    alloc: Global,
    contents: &Contents<'_>,
    rows: &[Scenario],
    out: &mut W,
) -> io::Result<()> {
    for row in rows {
        let plays = play(alloc, contents, row);
        write_plays(out, row.about, plays)?;
    }
    Ok(())
}

/// The examples that are read.
fn write_read<W: Write>(alloc: Global, contents: &Contents<'_>, out: &mut W) -> io::Result<()> {
    write_rows(alloc, contents, READ, out)
}

/// The examples that are played.
fn write_played<W: Write>(alloc: Global, contents: &Contents<'_>, out: &mut W) -> io::Result<()> {
    write_rows(alloc, contents, PLAYED, out)
}

/// The examples of lists of events.
fn write_events<W: Write>(alloc: Global, contents: &Contents<'_>, out: &mut W) -> io::Result<()> {
    write_rows(alloc, contents, EVENTS, out)
}

/// The examples with something wrong.
fn write_faulty<W: Write>(alloc: Global, contents: &Contents<'_>, out: &mut W) -> io::Result<()> {
    write_rows(alloc, contents, FAULTY, out)
}

/// The examples of hunts.
fn write_hunts<W: Write>(alloc: Global, contents: &Contents<'_>, out: &mut W) -> io::Result<()> {
    write_rows(alloc, contents, HUNTS, out)
}

/// The examples that write these files.
fn write_written<W: Write>(
    alloc: Global,
    contents: &Contents<'_>,
    rows: &[ExpectedPage],
    out: &mut W,
) -> io::Result<()> {
    for page in rows {
        let plays = play_page(alloc, contents, page);
        write_plays(out, page.whole.about, plays)?;
    }
    Ok(())
}

/// The examples that are cut off.
fn write_cuts<W: Write>(alloc: Global, contents: &Contents<'_>, out: &mut W) -> io::Result<()> {
    for cuts in CUTS {
        let lengths = (cuts.most, cuts.step);
        let plays = play_cuts(alloc, contents, &cuts.row, cuts.place, lengths);
        write_plays(out, cuts.row.about, plays)?;
    }
    Ok(())
}

/// The examples of pages.
fn write_pages<W: Write>(alloc: Global, contents: &Contents<'_>, out: &mut W) -> io::Result<()> {
    write_written(alloc, contents, PAGES, out)
}

/// The examples of the keys of a crash.
fn write_crashes<W: Write>(alloc: Global, contents: &Contents<'_>, out: &mut W) -> io::Result<()> {
    write_written(alloc, contents, CRASHES, out)
}

/// The cartridge with an undefined opcode and the Color flag, which the header's checksum counts.
fn colored() -> [u8; SMALLEST] {
    let mut rom = small(PLAIN, UNDEFINED);
    let checksum = rom[0x14D].wrapping_sub(0x80);
    put(&mut rom, 0x143, &[0x80]);
    put(&mut rom, 0x14D, &[checksum]);
    rom
}

fn main(rt: HostRuntime) -> io::Result<()> {
    let mut longer = [0; 160];
    put(&mut longer, 0, &least());
    let contents = Contents {
        cartridge: &small(PLAIN, LOOP),
        undefined: &small(PLAIN, UNDEFINED),
        stopping: &small(PLAIN, STOPS),
        rom_stack: &small(PLAIN, ROM_STACK),
        colored: &colored(),
        longer: &longer,
        upgraded: &least_in_version_2(),
        markup: MARKUP,
    };
    let mut out = io::writer(&rt);
    write_read(rt.alloc(), &contents, &mut out)?;
    write_played(rt.alloc(), &contents, &mut out)?;
    write_events(rt.alloc(), &contents, &mut out)?;
    write_faulty(rt.alloc(), &contents, &mut out)?;
    write_pages(rt.alloc(), &contents, &mut out)?;
    write_hunts(rt.alloc(), &contents, &mut out)?;
    write_crashes(rt.alloc(), &contents, &mut out)?;
    write_cuts(rt.alloc(), &contents, &mut out)
}

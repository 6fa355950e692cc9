//! Reads cartridges, certificates and symbols from standard input, as text, and prints verdicts, what the maker of certificates
//! makes or tells of the cartridges, and how some of them run, so that the gate compares them with worked examples.
//!
//! The lines of given certificates come from the rules by hand, and from an independent implementation; those of the games'
//! broken variants come from the bugs by hand: the place from the assembler's listing, the cause from the rules, and the way
//! there from the bytes. The facts of the games come from their certificates' bytes by a program that shares nothing with this
//! one, and how deep the stack gets from their sources by hand.
//!
//! An example is some lines: `about` with a sentence; `sizes` with the bytes 0147 to 0149; `rom` with an offset and bytes
//! that lie there, beside the start at 0100 and the header; `fill` with the byte that the whole file has, or `length` with the
//! file's own; `cert` with bytes that follow one another, as often as it takes; `symbol` with a line of its file of symbols,
//! `line` with one of its file of the sources' lines;
//! `keys` with the bytes of a script; `most` with the nodes and the procedures that a certificate which is made may have, the rounds that may be taken, and the
//! version by whose rules alone it is made, if one is named;
//! and what is to be done: `verdict`, `certify`, `report`, which tells facts or the way to the first finding
//! as well, `json`, and `frames` with a number. `upgrades` tells how many certificates so
//! far were accepted in version 1 or 2, and how many of them in version 3 too.
//! Numbers are hexadecimal, and other lines mean nothing. `examples/text` writes those of the games.
#![tactic(auto)]

mod judging;
mod making;
mod reporting;
mod running;

use gb_refine::Edition;
use gb_samples::cartridges::put;
use gb_samples::spelled::{Example, bytes_of, number_of, word_of};
use judging::{Ceiling, Upgrades, judge, tell_upgrades};
use making::{Telling, certify};
use running::run;
use std::alloc::Global;
use std::io::{self, BufRead, BufReader, BufWriter, Write};

/// A cartridge and a certificate, the texts of its symbols and of its sources' lines, the keys that are held in each frame, how large a certificate may be
/// that is made, and what came of all certificates so far in version 3.
#[derive(Drop)]
struct Played {
    files: Example,
    symbols: String,
    lines: String,
    keys: Vec<u8>,
    most: Option<Ceiling>,
    upgrades: Upgrades,
}

impl Played {
    /// An example without bytes.
    fn new(alloc: Global) -> Played {
        Played {
            files: Example::new(alloc),
            symbols: String::new(alloc),
            lines: String::new(alloc),
            keys: Vec::new(alloc),
            most: None,
            upgrades: Upgrades {
                accepted: 0,
                still: 0,
            },
        }
    }

    fn rom(&self) -> &[u8] {
        self.files.rom.as_slice()
    }

    /// Prints the verdict on its certificate.
    fn judge<W: Write>(&mut self, alloc: Global, out: &mut W) -> io::Result<()> {
        let (rom, cert) = (self.files.rom.as_slice(), self.files.cert.as_slice());
        judge(alloc, out, rom, cert, &mut self.upgrades)
    }

    /// Makes a certificate of the cartridge.
    fn certify<W: Write>(
        &mut self,
        alloc: Global,
        out: &mut W,
        telling: Telling,
    ) -> io::Result<()> {
        certify(
            alloc,
            out,
            self.files.rom.as_slice(),
            (self.symbols.as_bytes(), self.lines.as_bytes()),
            telling,
            self.most,
            &mut self.upgrades,
        )
    }
}

/// The bytes, cut off or followed by zeros, so that they are so many.
fn resized(alloc: Global, bytes: &[u8], length: usize) -> io::Result<Vec<u8>> {
    let mut resized = vec![in alloc; 0; length]?;
    put(resized.as_mut_slice(), 0, bytes);
    Ok(resized)
}

/// The ceiling of three numbers, and of a version behind them.
fn ceiling_of(rest: &str) -> Ceiling {
    let (nodes, rest) = word_of(rest);
    let (procedures, rest) = word_of(rest);
    let (rounds, version) = word_of(rest);
    Ceiling {
        nodes: number_of(nodes),
        procedures: number_of(procedures),
        rounds: number_of(rounds),
        edition: match version {
            "3" => Some(Edition::Third),
            "4" => Some(Edition::Fourth),
            _ => None,
        },
    }
}

/// Takes a line that says what the example is.
fn take(alloc: Global, played: &mut Played, word: &str, rest: &str) -> io::Result<()> {
    match word {
        "fill" => {
            let value = (number_of(rest) % 256) as u8;
            played.files.rom.as_mut_slice().fill(value);
        }
        "length" => played.files.rom = resized(alloc, played.rom(), number_of(rest))?,
        "symbol" => {
            played.symbols.push_str(rest)?;
            played.symbols.push('\n')?;
        }
        "line" => {
            played.lines.push_str(rest)?;
            played.lines.push('\n')?;
        }
        "keys" => played.keys = bytes_of(alloc, rest),
        "most" => played.most = Some(ceiling_of(rest)),
        _ => played.files.take(alloc, word, rest)?,
    }
    Ok(())
}

/// Does what a line says.
fn play<W: Write>(alloc: Global, out: &mut W, played: &mut Played, line: &str) -> io::Result<()> {
    let (word, rest) = word_of(line);
    match word {
        "about" => {
            *played = Played {
                upgrades: played.upgrades,
                ..Played::new(alloc)
            };
            writeln!(out, "{rest}")
        }
        "verdict" => played.judge(alloc, out),
        "upgrades" => tell_upgrades(out, &played.upgrades),
        "certify" => played.certify(alloc, out, Telling::Words),
        "report" => played.certify(alloc, out, Telling::Report),
        "json" => played.certify(alloc, out, Telling::Json),
        "frames" => run(
            alloc,
            out,
            played.rom(),
            played.keys.as_slice(),
            number_of(rest),
        ),
        _ => take(alloc, played, word, rest),
    }
}

fn main(rt: HostRuntime) -> io::Result<()> {
    let mut played = Played::new(rt.alloc());
    let mut out = BufWriter::new(rt.alloc(), io::writer(&rt))?;
    let lines = BufReader::new(rt.alloc(), rt.reader())?.lines(rt.alloc());
    for line in lines {
        let line = line?;
        play(rt.alloc(), &mut out, &mut played, line.as_str())?;
    }
    out.flush()
}

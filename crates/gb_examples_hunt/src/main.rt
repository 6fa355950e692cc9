//! Reads cartridges with scripts of keys and lists of events from standard input, as text, and prints the first fault that each
//! leads to, so that the gate compares them with worked examples.
//!
//! An example is some lines: `about` with a sentence; `length`, `fill` and `rom` with the cartridge's bytes, as in
//! gb_worked_examples; `stack` with the first and the last address of the stack region; `keys` with bytes of the script that follow
//! one another, `rounds` with a number and bytes that come so often; `event` with a line of a list of events; and what is to
//! be done: `watch` plays the script on the console, `play` the list on the plain machine, `hunt` searches so many frames with a seed,
//! after `want` towards a bank's address, and `words` puts so many changes of the script's keys into words.
//! Numbers are hexadecimal, but for those of events, and other lines mean nothing.
//!
//! The place of each fault comes from the assembler's listing and from the bug by hand, and its kind from the rules. Only the place of
//! catch/handler_not_critical is this program's own answer: its list of events runs thousands of instructions first.
#![tactic(auto)]

use gb_events::{
    EventList, Hunt, HuntProgress, KeyWords, PressedKeys, Replayed, machine_of, play_again,
    play_events, read_events,
};
use gb_header::Rom;
use gb_ops::machine::{CodePlace, Faults, Region};
use gb_samples::cartridges::put;
use gb_samples::spelled::{bytes_of, number_of, place, word_of};
use std::alloc::Global;
use std::io::{self, BufRead, BufReader, BufWriter, Write};

/// A cartridge with what is played on it.
#[derive(Drop)]
struct Witness {
    rom: Vec<u8>,
    region: Region,
    script: Vec<u8>,
    events: String,
    /// A place that searches go towards.
    wanted: Option<CodePlace>,
}

/// Nobody waits.
#[derive(Drop)]
struct Unhurried;

impl HuntProgress for Unhurried {
    fn goes_on(&mut self, _frames: u64) -> bool {
        true
    }
}

impl Witness {
    /// An example without bytes.
    fn new(alloc: Global) -> Witness {
        Witness {
            rom: Vec::new(alloc),
            region: Region {
                first: 0xC000,
                last: 0xDFFF,
            },
            script: Vec::new(alloc),
            events: String::new(alloc),
            wanted: None,
        }
    }

    /// Takes a line that says what the example is.
    fn take(&mut self, alloc: Global, word: &str, rest: &str) -> io::Result<()> {
        match word {
            "length" => self.rom = vec![in alloc; 0; number_of(rest) % 0x80_0001]?,
            "fill" => self.rom.as_mut_slice().fill((number_of(rest) % 256) as u8),
            "rom" => place(alloc, self.rom.as_mut_slice(), rest),
            "stack" => self.region = region_of(rest),
            "keys" => self
                .script
                .extend_from_slice(bytes_of(alloc, rest).as_slice())?,
            "rounds" => self.repeat(alloc, rest)?,
            "want" => self.wanted = Some(place_of(rest)),
            "event" => {
                self.events.push_str(rest)?;
                self.events.push('\n')?;
            }
            _ => {}
        }
        Ok(())
    }

    /// Adds bytes to the script so often.
    fn repeat(&mut self, alloc: Global, rest: &str) -> io::Result<()> {
        let (times, digits) = word_of(rest);
        let keys = bytes_of(alloc, digits);
        for _ in 0..number_of(times) {
            self.script.extend_from_slice(keys.as_slice())?;
        }
        Ok(())
    }

    /// Plays the script on the console.
    fn watch<W: Write>(&self, alloc: Global, out: &mut W) -> io::Result<()> {
        let Ok(rom) = Rom::parse(&self.rom) else {
            return writeln!(out, "not a cartridge");
        };
        match play_again(alloc, &rom, &self.script, self.region)? {
            Some(find) => {
                let frame = find.frame as u64;
                let sighting = find.sighting;
                write_fault(out, sighting.faults, "frame", frame, sighting.place)
            }
            None => {
                let frames = self.script.len();
                writeln!(out, "WHOLE frames {frames}")
            }
        }
    }

    /// Plays the list of events on the plain machine.
    fn play<W: Write>(&self, alloc: Global, out: &mut W) -> io::Result<()> {
        match read_events(alloc, self.events.as_str())? {
            Ok(list) => self.play_list(alloc, out, &list),
            Err(bad) => {
                let number = bad.number;
                writeln!(out, "line {number} is no event")
            }
        }
    }

    fn play_list<W: Write>(&self, alloc: Global, out: &mut W, list: &EventList) -> io::Result<()> {
        let Ok(rom) = Rom::parse(&self.rom) else {
            return writeln!(out, "not a cartridge");
        };
        let mut machine = machine_of(alloc, &rom)?;
        match play_events(&mut machine, list, self.region) {
            Replayed::Faulty(faulty) => {
                write_fault(out, faulty.faults, "event", faulty.number, faulty.place)
            }
            Replayed::Whole(number) => writeln!(out, "WHOLE events {number}"),
        }
    }

    /// Writes the script in words, and as `tools/keys` reads it.
    fn words<W: Write>(&self, out: &mut W, rest: &str) -> io::Result<()> {
        let script = self.script.as_slice();
        let most = number_of(rest);
        let pressed = PressedKeys { script, most };
        let words = KeyWords(script);
        writeln!(out, "{pressed}")?;
        writeln!(out, "{words}")
    }

    /// Searches.
    fn hunt<W: Write>(&self, alloc: Global, out: &mut W, rest: &str) -> io::Result<()> {
        let Ok(rom) = Rom::parse(&self.rom) else {
            return writeln!(out, "not a cartridge");
        };
        let (frames, seed) = word_of(rest);
        let frames = number_of(frames) as u64;
        let mut hunt = Hunt::new(alloc, &rom, self.region, number_of(seed) as u64)?;
        if let Some(place) = self.wanted {
            hunt.want(place);
        }
        match hunt.search(frames, &mut Unhurried)? {
            Some(script) => {
                let is_found = play_again(alloc, &rom, &script, self.region)?.is_some();
                let found = if is_found { "FOUND" } else { "NOT AGAIN" };
                writeln!(out, "{found}")
            }
            None => writeln!(out, "NO FAULT frames {frames}"),
        }
    }
}

/// The region between two addresses.
fn region_of(rest: &str) -> Region {
    let (first, last) = word_of(rest);
    Region {
        first: (number_of(first) % 0x1_0000) as u16,
        last: (number_of(last) % 0x1_0000) as u16,
    }
}

/// An address after its bank.
fn place_of(rest: &str) -> CodePlace {
    let (bank, address) = word_of(rest);
    CodePlace {
        address: (number_of(address) % 0x1_0000) as u16,
        bank: (number_of(bank) % 0x1_0000) as u16,
    }
}

/// The number of the lowest fault.
fn number_of_fault(faults: Faults) -> u8 {
    if faults.undefined_opcode {
        1
    } else if faults.fetched_outside {
        2
    } else if faults.stack_outside {
        3
    } else if faults.ram_closed {
        4
    } else {
        5
    }
}

/// Writes the line of a fault.
fn write_fault<W: Write>(
    out: &mut W,
    faults: Faults,
    unit: &str,
    number: u64,
    place: CodePlace,
) -> io::Result<()> {
    let fault = number_of_fault(faults);
    let CodePlace { address, bank } = place;
    writeln!(
        out,
        "FAULT F{fault} {unit} {number} pc {address:04X} bank {bank:03X}"
    )
}

/// Does what a line says.
fn play<W: Write>(alloc: Global, out: &mut W, witness: &mut Witness, line: &str) -> io::Result<()> {
    let (word, rest) = word_of(line);
    match word {
        "about" => {
            *witness = Witness::new(alloc);
            writeln!(out, "{rest}")
        }
        "watch" => witness.watch(alloc, out),
        "play" => witness.play(alloc, out),
        "hunt" => witness.hunt(alloc, out, rest),
        "words" => witness.words(out, rest),
        _ => witness.take(alloc, word, rest),
    }
}

fn main(rt: HostRuntime) -> io::Result<()> {
    let mut witness = Witness::new(rt.alloc());
    let mut out = BufWriter::new(rt.alloc(), io::writer(&rt))?;
    let lines = BufReader::new(rt.alloc(), rt.reader())?.lines(rt.alloc());
    for line in lines {
        let line = line?;
        play(rt.alloc(), &mut out, &mut witness, line.as_str())?;
    }
    out.flush()
}

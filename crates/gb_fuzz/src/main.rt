//! Storms: cartridges and certificates with bytes changed, cut off and put in, words in any order, and frames with random
//! keys. Of each file the calls that read it have to say the same; a certificate that can be read is written again byte for
//! byte, and a fault's place lies in the file; where the checker accepts, each frame is whole, and some node means what the
//! machine holds.
//!
//! Examples come from standard input, as lines: `about` with a sentence; `sizes`, `rom` and `cert` (gb_samples); then `storm`
//! with how many certificates, cartridges and frames, `parts` with how many certificates are changed in what version 4 has, and
//! `both` with how many cartridges are changed at once with their certificates. `words` reads so many lists of words, and
//! `seen` says which faults were met, and which kinds of claims were compared with the machine; `claims` says how many. `cuts` cuts
//! both files off at each of their lengths; `check` with offsets and bytes, as 117=05, gives the verdict on the certificate with
//! these bytes; `planted` with a kind of claims and such a list says whether the machine tells this certificate from the right
//! one, whatever the checker would say; `stays` with a number runs a frame, and then so many more, which change nothing where
//! the console is locked or stopped. The program's word multiplies the storms' numbers, so that `1000` makes storms of millions.
#![tactic(auto)]

mod banks;
mod both;
mod cartridges;
mod certificates;
mod changes;
mod claims;
mod edits;
mod meaning;
mod parts;
mod random;
mod reached;
mod related;
mod stack;
mod tally;
mod values;
mod words;

use certificates::{Aim, Certificates};
use claims::KINDS;
use gb_header::Rom;
use gb_printed::{Outcome, verify_bytes};
use gb_samples::spelled::{Example, word_of};
use gb_text::kept_bytes::KeptBytes;
use random::Random;
use reached::{SEEN, reached_states};
use std::alloc::Global;
use std::env;
use std::io::{self, BufRead, BufReader, BufWriter, Write};
use tally::Tally;

/// What all storms share.
#[derive(Drop)]
struct Weather {
    random: Random,
    factor: usize,
    certificates: Certificates,
    /// Of the certificates alone whose parts were changed.
    parts: Tally,
    cartridges: Tally,
    both: Certificates,
}

/// A number of a line, in decimal digits, times the factor.
fn number_of(digits: &str, factor: usize) -> usize {
    digits.parse::<usize>().unwrap_or(0).wrapping_mul(factor)
}

/// Whether the example is accepted as it is.
fn is_accepted(alloc: Global, example: &Example) -> bool {
    let mut out = KeptBytes::new(96, 96);
    verify_bytes(
        alloc,
        example.rom.as_slice(),
        example.cert.as_slice(),
        &mut out,
    ) == Ok(Outcome::Accepted)
}

/// Runs frames of the example with random keys and seconds.
fn runs(alloc: Global, random: &mut Random, example: &Example, frames: usize) -> bool {
    match Rom::parse(example.rom.as_slice()) {
        Ok(rom) => cartridges::runs(alloc, random, &rom, frames),
        Err(_) => false,
    }
}

/// So many changed certificates of an example.
fn storm_of_certificates(
    alloc: Global,
    random: &mut Random,
    example: &Example,
    aim: Aim,
    count: usize,
) -> io::Result<Certificates> {
    let (file, cert) = (example.rom.as_slice(), example.cert.as_slice());
    let Ok(rom) = Rom::parse(file) else {
        return Ok(Certificates::new());
    };
    let mut reached = reached_states(alloc, &rom, SEEN)?;
    certificates::storm(
        alloc,
        random,
        (file, cert),
        reached.as_mut_slice(),
        aim,
        count,
    )
}

/// The storms of an example, with these numbers of certificates, cartridges and frames.
fn storm<W: Write>(
    alloc: Global,
    out: &mut W,
    weather: &mut Weather,
    example: &mut Example,
    counts: (usize, usize, usize),
) -> io::Result<()> {
    if !is_accepted(alloc, example) {
        return writeln!(out, "it isn't accepted");
    }
    let certificates = storm_of_certificates(
        alloc,
        &mut weather.random,
        example,
        Aim::Bytes,
        counts.0,
    )?;
    let cartridges = cartridges::storm(
        alloc,
        &mut weather.random,
        example.rom.as_mut_slice(),
        example.cert.as_slice(),
        counts.1,
    );
    writeln!(
        out,
        "{} certificates, {} wrong; {} cartridges, {} wrong",
        certificates.all.inputs, certificates.all.wrong, cartridges.inputs, cartridges.wrong
    )?;
    weather.certificates = weather.certificates.joined(&certificates);
    weather.cartridges = weather.cartridges.joined(&cartridges);
    if runs(alloc, &mut weather.random, example, counts.2) {
        writeln!(out, "{} frames are whole", counts.2)
    } else {
        writeln!(out, "a frame isn't whole")
    }
}

/// The storm of an example's certificate, with changes that aim at what version 4 says.
fn storm_of_parts<W: Write>(
    alloc: Global,
    out: &mut W,
    weather: &mut Weather,
    example: &Example,
    count: usize,
) -> io::Result<()> {
    let met = storm_of_certificates(alloc, &mut weather.random, example, Aim::Parts, count)?;
    weather.certificates = weather.certificates.joined(&met);
    weather.parts = weather.parts.joined(&met.all);
    writeln!(
        out,
        "{} certificates with changed parts, {} wrong",
        met.all.inputs, met.all.wrong
    )
}

/// The storm of an example and its certificate, both changed at once.
fn storm_of_both<W: Write>(
    alloc: Global,
    out: &mut W,
    weather: &mut Weather,
    example: &mut Example,
    count: usize,
) -> io::Result<()> {
    let met = both::storm(
        alloc,
        &mut weather.random,
        example.rom.as_mut_slice(),
        example.cert.as_slice(),
        count,
    )?;
    weather.both = weather.both.joined(&met);
    writeln!(
        out,
        "{} cartridges with certificates, {} wrong",
        met.all.inputs, met.all.wrong
    )
}

fn yes_or_no(is_so: bool) -> &'static str {
    if is_so { "yes" } else { "no" }
}

/// Says what the storms met, so that none of them passes by meeting nothing.
fn write_seen<W: Write>(out: &mut W, weather: &Weather) -> io::Result<()> {
    let (certificates, cartridges) = (&weather.certificates.all, &weather.cartridges);
    writeln!(
        out,
        "each of C1 to C8 was met: {}; each of H1 to H7: {}",
        yes_or_no(certificates.has_all(8)),
        yes_or_no(cartridges.has_all(7))
    )?;
    writeln!(
        out,
        "certificates were read: {}; accepted: {}; refused: {}",
        yes_or_no(certificates.readable > 0),
        yes_or_no(certificates.accepted > 0),
        yes_or_no(certificates.accepted < certificates.readable)
    )?;
    writeln!(
        out,
        "cartridges were read: {}; accepted: {}; refused: {}",
        yes_or_no(cartridges.readable > 0),
        yes_or_no(cartridges.accepted > 0),
        yes_or_no(cartridges.accepted < cartridges.readable)
    )?;
    writeln!(
        out,
        "both changed, some were accepted: {}; some not: {}",
        yes_or_no(weather.both.all.accepted > 0),
        yes_or_no(weather.both.all.accepted < weather.both.all.inputs)
    )
}

/// Says what was met of a version alone.
fn write_seen_of_version<W: Write>(
    out: &mut W,
    version: u8,
    alone: &Tally,
    both: &Tally,
) -> io::Result<()> {
    writeln!(
        out,
        "of version {version}: accepted: {}; refused: {}; not readable: {}",
        yes_or_no(alone.accepted > 0),
        yes_or_no(alone.accepted < alone.readable),
        yes_or_no(alone.readable < alone.inputs)
    )?;
    write!(out, "of version {version}, refused for the reasons")?;
    for number in 1..=17u8 {
        if alone.has_reason(number) || both.has_reason(number) {
            write!(out, " {number}")?;
        }
    }
    writeln!(out)
}

/// Says what was met of the versions that have letters of their own.
fn write_seen_of_versions<W: Write>(out: &mut W, weather: &Weather) -> io::Result<()> {
    let (alone, both) = (&weather.certificates, &weather.both);
    write_seen_of_version(out, 3, &alone.third, &both.third)?;
    write_seen_of_version(out, 4, &alone.fourth, &both.fourth)?;
    writeln!(
        out,
        "parts changed, some were accepted: {}; refused: {}",
        yes_or_no(weather.parts.accepted > 0),
        yes_or_no(weather.parts.accepted < weather.parts.readable)
    )
}

/// Each kind of claims that was compared with the machine, and how many of it.
fn claims_of(weather: &Weather) -> [(&'static str, u64); KINDS] {
    let (alone, both) = (&weather.certificates.all, &weather.both.all);
    alone.claims.joined(&both.claims).named()
}

/// Says of each kind of claims whether some were compared with the machine.
fn write_compared<W: Write>(out: &mut W, weather: &Weather) -> io::Result<()> {
    write!(out, "compared with the machine")?;
    for (name, count) in claims_of(weather) {
        write!(out, "; {name}: {}", yes_or_no(count > 0))?;
    }
    writeln!(out)
}

/// Says how many claims of each kind were compared with the machine.
fn write_claims<W: Write>(out: &mut W, weather: &Weather) -> io::Result<()> {
    write!(out, "compared with the machine")?;
    for (name, count) in claims_of(weather) {
        write!(out, "; {name}: {count}")?;
    }
    writeln!(out)
}

/// Reads lists of words.
fn storm_of_words<W: Write>(
    alloc: Global,
    out: &mut W,
    random: &mut Random,
    count: usize,
) -> io::Result<()> {
    let tally = words::storm(alloc, random, count);
    writeln!(
        out,
        "{} lists of words, {} wrong; tasks were read: {}; others were refused: {}",
        tally.inputs,
        tally.wrong,
        yes_or_no(tally.readable > 0),
        yes_or_no(tally.readable < tally.inputs)
    )
}

/// Takes a line.
fn take<W: Write>(
    alloc: Global,
    out: &mut W,
    weather: &mut Weather,
    example: &mut Example,
    line: &str,
) -> io::Result<()> {
    let (word, rest) = word_of(line);
    match word {
        "about" => {
            *example = Example::new(alloc);
            writeln!(out, "{rest}")?;
        }
        "storm" => {
            let (certificates, rest) = word_of(rest);
            let (cartridges, frames) = word_of(rest);
            let counts = (
                number_of(certificates, weather.factor),
                number_of(cartridges, weather.factor),
                number_of(frames, weather.factor),
            );
            storm(alloc, out, weather, example, counts)?;
        }
        "words" => {
            let count = number_of(rest, weather.factor);
            storm_of_words(alloc, out, &mut weather.random, count)?;
        }
        "both" => {
            let count = number_of(rest, weather.factor);
            storm_of_both(alloc, out, weather, example, count)?;
        }
        "parts" => {
            let count = number_of(rest, weather.factor);
            storm_of_parts(alloc, out, weather, example, count)?;
        }
        "seen" => {
            write_seen(out, weather)?;
            write_seen_of_versions(out, weather)?;
            write_compared(out, weather)?;
        }
        "claims" => write_claims(out, weather)?,
        "cuts" => changes::write_cuts(alloc, out, example)?,
        "check" => changes::write_verdict(alloc, out, example, rest)?,
        "planted" => changes::write_planted(alloc, out, example, rest)?,
        "stays" => {
            let frames = number_of(rest, 1);
            changes::write_stay(alloc, out, &mut weather.random, example, frames)?;
        }
        _ => example.take(alloc, word, rest)?,
    }
    Ok(())
}

fn main(rt: HostRuntime) -> io::Result<()> {
    let mut factor = 1;
    for word in env::args(&rt)?.skip(1) {
        factor = number_of(word.as_str(), 1).max(1);
    }
    let mut weather = Weather {
        random: Random::new(0x5DEE_CE66),
        factor,
        certificates: Certificates::new(),
        parts: Tally::new(),
        cartridges: Tally::new(),
        both: Certificates::new(),
    };
    let mut example = Example::new(rt.alloc());
    let mut out = BufWriter::new(rt.alloc(), io::writer(&rt))?;
    let lines = BufReader::new(rt.alloc(), rt.reader())?.lines(rt.alloc());
    for line in lines {
        take(
            rt.alloc(),
            &mut out,
            &mut weather,
            &mut example,
            line?.as_str(),
        )?;
    }
    out.flush()
}

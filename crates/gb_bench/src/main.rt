//! How long a parse and a check of large certificates take, beside reading their bytes once; the
//! processor's steps; and frames of a full scene. The times go to standard error; what is printed on standard
//! output is the same each time.
//!
//! Nothing is promised here. `processor.rt`, `picture.rt`, `certificates.rt`, `calls.rt`, `crowded.rt` and `whole.rt` have what is measured.
#![tactic(auto)]

mod calls;
mod certificates;
mod crowded;
mod picture;
mod processor;
mod shortcuts;
mod whole;

use certificates::Sample;
use gb_verify::check::check;
use gb_verify::verdict::Verdict;
use gb_verify::{Cert, Rom};
use std::io;
use std::rt::Clock;
use std::time::Instant;

/// A sum that needs each byte.
fn sum_of(bytes: &[u8]) -> u8 {
    let mut sum: u8 = 0;
    for byte in bytes {
        sum = sum.wrapping_add(*byte);
    }
    sum
}

/// Prints the microseconds since a moment.
fn report<R: Eprint + Clock>(rt: &R, what: &str, since: &Instant) -> io::Result<()> {
    let micros = since.elapsed(rt)?.as_micros();
    eprintln!(rt; "{what}: {micros} microseconds")
}

/// Reads the bytes once, and answers their sum.
fn read_once<R: Eprint + Clock>(rt: &R, bytes: &[u8]) -> io::Result<u8> {
    let start = Instant::now(rt)?;
    let sum = sum_of(bytes);
    report(rt, "reading the bytes once", &start)?;
    Ok(sum)
}

/// Checks the certificate.
fn checked<R: Eprint + Clock>(rt: &R, rom: &Rom<'_>, cert: &Cert<'_>) -> io::Result<Verdict> {
    let start = Instant::now(rt)?;
    let verdict = check(rom, cert);
    report(rt, "check", &start)?;
    Ok(verdict)
}

/// Parses the certificate and checks it; no verdict where it can't be read.
fn judged<R: Eprint + Clock + AllocGlobal>(
    rt: &R,
    rom: &Rom<'_>,
    bytes: &[u8],
) -> io::Result<Option<Verdict>> {
    let start = Instant::now(rt)?;
    match Cert::parse(rt.alloc(), bytes) {
        Ok(cert) => {
            let told = report(rt, "parse", &start);
            let verdict = checked(rt, rom, &cert);
            drop(cert);
            told?;
            Ok(Some(verdict?))
        }
        Err(_) => Ok(None),
    }
}

/// Prints the verdict.
fn tell<R: Print>(rt: &R, length: usize, sum: u8, verdict: Verdict) -> io::Result<()> {
    match verdict {
        Verdict::Accepted { nodes, procedures } => {
            println!(rt;
                "{length} bytes, sum {sum}: accepted, nodes {nodes} procedures {procedures}"
            )
        }
        Verdict::Refused { node, reason } => {
            println!(rt;
                "{length} bytes, sum {sum}: refused, node {node} reason {}",
                reason.number()
            )
        }
    }
}

/// Reads, parses and checks the bytes of a certificate, for a cartridge.
fn measure<R: Print + Eprint + Clock + AllocGlobal>(
    rt: &R,
    rom: &Rom<'_>,
    bytes: &[u8],
) -> io::Result<()> {
    let sum = read_once(rt, bytes)?;
    match judged(rt, rom, bytes)? {
        Some(verdict) => tell(rt, bytes.len(), sum, verdict),
        None => println!(rt; "no certificate"),
    }
}

/// Makes a certificate, and measures what it takes.
fn measure_sample<R: Print + Eprint + Clock + AllocGlobal>(
    rt: &R,
    sample: Sample,
) -> io::Result<()> {
    let name = sample.name();
    eprintln!(rt; "{name}")?;
    let cartridge = sample.cartridge();
    let Ok(rom) = Rom::parse(&cartridge) else {
        return println!(rt; "no cartridge");
    };
    match sample.bytes(rt.alloc(), &rom) {
        Ok(bytes) => measure(rt, &rom, bytes.as_slice()),
        Err(_) => println!(rt; "no certificate is written"),
    }
}

fn main(rt: HostRuntime) -> io::Result<()> {
    shortcuts::count(&rt, &processor::cartridge())?;
    let cycles = processor::run(&rt)?;
    println!(rt; "the processor's steps took {cycles} M-cycles")?;
    let drawn = picture::draw(&rt)?;
    println!(rt; "a full scene was drawn: {drawn}")?;
    for sample in certificates::SAMPLES {
        measure_sample(&rt, *sample)?;
    }
    Ok(())
}

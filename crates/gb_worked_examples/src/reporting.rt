//! The reports on a cartridge: facts of a certificate, and whether its page and its object for programs have them, or the way to
//! what is in the way.

use gb_console::Cert;
use gb_page::{
    Extras, Facts, Finding, FindingsExtras, InstructionFinding, Outline, Sketch, Symbols,
    facts_json, findings_page, page_of,
};
use gb_text::Rom;
use std::alloc::{AllocError, Global};
use std::fmt;
use std::io::{self, Write};

/// The name of where procedures begin: main, their symbol, or their address.
#[derive(Clone, Copy)]
struct Name<'a, 's> {
    sketch: &'a Sketch,
    symbols: &'a Symbols<'s>,
}

impl fmt::Display for Name<'_, '_> {
    fn fmt<W: fmt::Write>(&self, f: &mut fmt::Formatter<W>) -> fmt::Result {
        let address = self.sketch.address;
        if self.sketch.is_main {
            return write!(f, "main");
        }
        match self.symbols.place(self.sketch.bank, address) {
            Some(place) if place.offset == 0 => {
                let name = place.name;
                write!(f, "{name}")
            }
            _ => write!(f, "{address:04X}"),
        }
    }
}

/// A certificate with all that was made of it.
#[derive(Drop)]
struct Report<'a, 's> {
    alloc: Global,
    symbols: &'a Symbols<'s>,
    facts: Facts,
    outline: Outline,
    page: String,
    json: String,
}

/// The report on a certificate.
fn report_of<'a, 's>(
    alloc: Global,
    rom: &Rom<'_>,
    cert: &Cert<'_>,
    symbols: &'a Symbols<'s>,
) -> Result<Report<'a, 's>, AllocError> {
    Ok(Report {
        alloc,
        symbols,
        facts: Facts::of(alloc, rom, cert)?,
        outline: Outline::of(alloc, cert)?,
        page: page_of(alloc, rom, cert, symbols, Extras::none())?,
        json: facts_json(alloc, rom, cert, symbols, Extras::none())?,
    })
}

impl Report<'_, '_> {
    /// The bytes of stack that are ever used.
    fn used(&self) -> u32 {
        match self.facts.procedures.first() {
            Some(main) => main.depth,
            None => 0,
        }
    }

    /// The name of a sketch.
    fn name<'x>(&'x self, sketch: &'x Sketch) -> Name<'x, 'x> {
        Name {
            sketch,
            symbols: self.symbols,
        }
    }

    /// Prints how deep the stack gets, and by which way.
    fn tell_stack<W: Write>(&self, out: &mut W) -> io::Result<()> {
        let used = self.used();
        write!(out, "  stack: {used} bytes, by")?;
        for place in &self.outline.way(self.alloc, &self.facts)? {
            if let Some(sketch) = self.outline.sketches.get(*place) {
                let name = self.name(sketch);
                write!(out, " {name}")?;
            }
        }
        writeln!(out)
    }

    /// Prints what may be written.
    fn tell_written<W: Write>(&self, out: &mut W, sketch: &Sketch) -> io::Result<()> {
        for range in &sketch.written(self.alloc)? {
            let (first, last) = (range.first, range.last);
            write!(out, ", writes {first:04X}-{last:04X}")?;
        }
        Ok(())
    }

    /// Prints what there is to say of where procedures begin: the bytes of stack that they are allowed, what they may write,
    /// which main always may, and which interrupts may come, by their bits.
    fn tell_sketch<W: Write>(&self, out: &mut W, sketch: &Sketch) -> io::Result<()> {
        let name = self.name(sketch);
        let need = sketch.need;
        write!(out, "  {name}: {need} bytes")?;
        if !sketch.is_main {
            self.tell_written(out, sketch)?;
        }
        for interrupt in &sketch.comings {
            let bit = interrupt.bit();
            write!(out, ", interrupt {bit}")?;
        }
        writeln!(out)
    }

    /// Whether the page has a text.
    fn has(&self, text: Result<String, AllocError>) -> Result<bool, AllocError> {
        let text = text?;
        Ok(self.page.as_str().contains(text.as_str()))
    }

    /// Whether the page has all ranges that procedures may write.
    fn has_ranges(&self) -> Result<bool, AllocError> {
        for procedure in &self.facts.procedures {
            for range in procedure.ranges.as_slice() {
                let (first, last) = (range.first, range.last);
                if first < last
                    && !self.has(format!(in self.alloc; "<code>${first:04X}-${last:04X}</code>"))?
                {
                    return Ok(false);
                }
            }
        }
        Ok(true)
    }

    /// Whether page and object say how deep the stack gets, and the page what may be written.
    fn is_told(&self) -> Result<bool, AllocError> {
        let used = self.used();
        let is_on_page = self.has(format!(in self.alloc; "At most <b>{used} bytes</b>"))?;
        let member = format!(in self.alloc; "\"used\":{used}")?;
        let is_in_object = self.json.as_str().contains(member.as_str());
        Ok(is_on_page && is_in_object && self.has_ranges()?)
    }

    /// Prints all facts.
    fn tell<W: Write>(&self, out: &mut W) -> io::Result<()> {
        self.tell_stack(out)?;
        for sketch in &self.outline.sketches {
            self.tell_sketch(out, sketch)?;
        }
        if self.is_told()? {
            Ok(())
        } else {
            writeln!(out, "  The page or the object says otherwise")
        }
    }
}

/// Prints the facts of a certificate.
pub fn tell_report<W: Write>(
    alloc: Global,
    out: &mut W,
    rom: &Rom<'_>,
    cert: &[u8],
    symbols: &Symbols<'_>,
) -> io::Result<()> {
    let Ok(cert) = Cert::parse(alloc, cert) else {
        return writeln!(out, "  no certificate");
    };
    report_of(alloc, rom, &cert, symbols)?.tell(out)
}

/// Prints the last addresses that were gone through to a failure, and answers whether the page has a link to each.
fn tell_way<W: Write>(
    alloc: Global,
    out: &mut W,
    finding: &InstructionFinding,
    page: &str,
) -> io::Result<bool> {
    let mut is_told = true;
    write!(out, "  way:")?;
    for (place, segment) in finding.path.segments.iter().enumerate() {
        let (first, last) = (segment.first, segment.last);
        write!(out, " {first:04X}-{last:04X}")?;
        let link = match segment.bank {
            Some(bank) => {
                format!(in alloc; "<a href=\"#o1s{place}\"><code>{bank:02X}:{first:04X}")?
            }
            None => format!(in alloc; "<a href=\"#o1s{place}\"><code>${first:04X}")?,
        };
        is_told = is_told && page.contains(link.as_str());
    }
    writeln!(out)?;
    Ok(is_told)
}

/// Whether the page has what is known there, how the code gets there, how to fix it, and the rule.
fn has_parts(alloc: Global, finding: &InstructionFinding, page: &str) -> Result<bool, AllocError> {
    let reason = finding.cause.reason().number();
    let rule = format!(in alloc; "<p class=\"quiet\">Rule {reason}. More: docs/FINDINGS.md#")?;
    Ok(
        page.contains(rule.as_str())
            && page.contains("<h3>What is known there</h3>\n<pre class=\"known\">    A=")
            && page.contains("<h3>How the code gets there</h3>\n<p><code>")
            && page.contains("<h3>How to fix it</h3>\n<p>"),
    )
}

/// Prints the way to the first finding.
pub fn report_findings<W: Write>(
    alloc: Global,
    out: &mut W,
    rom: &Rom<'_>,
    findings: &[Finding],
    symbols: &Symbols<'_>,
) -> io::Result<()> {
    let page = findings_page(alloc, rom, findings, symbols, FindingsExtras::none())?;
    let Some(Finding::Instruction(finding)) = findings.first() else {
        return Ok(());
    };
    let has_way = tell_way(alloc, out, finding, page.as_str())?;
    if has_way && has_parts(alloc, finding, page.as_str())? {
        Ok(())
    } else {
        writeln!(out, "  The page says otherwise")
    }
}

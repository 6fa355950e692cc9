//! What a cartridge's header says, in one line.

ghost use Rattle.std.specs.Prelude.{◌≡◌, ◌≤◌, false, is_err, OnOk, OnErr, length};
ghost use Rattle.gb_text.specs.Sink.{Gains};
ghost use Rattle.gb_text.specs.Text.{GainsBeginning};
ghost use Rattle.gb_printed.specs.HeaderLine.{kind_name, yes_or_no, header_text};

use gb_ops::machine::Kind;
use gb_text::Rom;
use gb_text::line::Line;
use gb_text::put::put_all;
use gb_text::sink::{OutFault, Sink};

fn kind_name(kind: Kind) -> &'static [u8]
    ensures text { result.now ≡ kind_name kind }
    ensures short { length result.now ≤ 4 }
{
    match kind {
        Kind::Rom => b"ROM",
        Kind::Mbc1 => b"MBC1",
        Kind::Mbc3 => b"MBC3",
        Kind::Mbc5 => b"MBC5",
    }
}

pub(crate) fn yes_or_no(is_so: bool) -> &'static [u8]
    ensures text { result.now ≡ yes_or_no is_so }
    ensures short { length result.now ≤ 3 }
{
    if is_so { b"yes" } else { b"no" }
}

/// The line of a cartridge's header.
#[tactic(auto, unfolding(crate::specs::HeaderLine::header_text))]
pub(crate) fn text_of(rom: &Rom<'_>) -> Line
    ensures { result ≡ header_text rom.now }
{
    let mut line = Line::new();
    line.push_text(b"type ");
    line.push_byte(rom.type_byte());
    line.push_text(b" ");
    line.push_text(kind_name(rom.kind()));
    line.push_text(b" rom ");
    line.push_number(u64::from(rom.banks()));
    line.push_text(b" ram ");
    line.push_number(u64::from(rom.ram_banks()));
    line.push_text(b" clock ");
    line.push_text(yes_or_no(rom.has_clock()));
    line.push_text(b" checksum ");
    line.push_byte(rom.checksum());
    line.end();
    line
}

/// Writes what a cartridge's header says: `type TT NAME rom N ram M clock yes checksum CC` (or `clock no`). NAME
/// is the controller's; N counts banks of 16 KiB, M of 8 KiB.
///
/// # Errors
///
/// OutFault where the sink fails before it took the line; it then has a beginning of it.
pub fn header_line<W: Sink>(rom: &Rom<'_>, out: &mut W) -> Result<(), OutFault>
    requires { W.has_failed out.old ≡ false }
    ensures line { OnOk result (Gains (W.contents out.old) (header_text rom.now) (W.contents out.new)) }
    ensures beginning { OnErr result (GainsBeginning (W.contents out.old) (header_text rom.now) (W.contents out.new)) }
    ensures failed { W.has_failed out.new ≡ is_err result }
{
    let line = text_of(rom);
    put_all(out, line.as_slice())
}

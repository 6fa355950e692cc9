//! The line of a file that is no cartridge.

ghost use Rattle.std.specs.Prelude.{◌≡◌};
ghost use Rattle.gb_text.specs.Cartridge.{cartridge_text};

use crate::line::Line;
use gb_header::HeaderFault;

/// `CARTRIDGE Hn`, with the number of the fault (own text).
pub fn cartridge_line(fault: HeaderFault) -> Line
    ensures { result ≡ cartridge_text fault }
{
    let mut line = Line::new();
    line.push_text(b"CARTRIDGE H");
    line.push_number(u64::from(fault.number()));
    line.end();
    line
}

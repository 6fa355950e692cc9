//! The modes of the picture (Pan Docs: Rendering).

/// What the picture does in an M-cycle.
#[derive(Clone, Copy, PartialEq, Eq)]
pub enum Mode {
    /// Mode 0, at the end of a line, or with the LCD off.
    HBlank,
    /// Mode 1, lines 144 to 153.
    VBlank,
    /// Mode 2, at the start of a line.
    ObjectScan,
    /// Mode 3, which draws the line.
    Drawing,
}

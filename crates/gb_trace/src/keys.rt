//! Keys in words.

use std::fmt;

/// The name of a key, by its bit.
fn key_name(bit: u8) -> &'static str {
    match bit {
        0 => "A",
        1 => "B",
        2 => "Select",
        3 => "Start",
        4 => "Right",
        5 => "Left",
        6 => "Up",
        _ => "Down",
    }
}

/// The letter of a key, by its bit, as `tools/keys` reads it.
fn key_letter(bit: u8) -> char {
    match bit {
        0 => 'A',
        1 => 'B',
        2 => 's',
        3 => 'S',
        4 => 'R',
        5 => 'L',
        6 => 'U',
        _ => 'D',
    }
}

/// The keys that are held in a frame, by its byte of a script.
#[derive(Clone, Copy)]
pub(crate) struct HeldKeys {
    pub(crate) keys: u8,
    /// What is between two names.
    pub(crate) between: &'static str,
}

impl fmt::Display for HeldKeys {
    fn fmt<W: fmt::Write>(&self, f: &mut fmt::Formatter<W>) -> fmt::Result {
        if self.keys == 0 {
            return write!(f, "none");
        }
        let mut between = "";
        for bit in 0..8 {
            if self.keys >> bit & 1 == 1 {
                let name = key_name(bit);
                write!(f, "{between}{name}")?;
                between = self.between;
            }
        }
        Ok(())
    }
}

/// How many frames at the beginning of a script have the same keys.
fn held_frames(script: &[u8]) -> usize {
    let first = script.first();
    let mut count = 0usize;
    for keys in script {
        if Some(keys) != first {
            break;
        }
        count = count.saturating_add(1);
    }
    count
}

/// The keys of a script in words, up to so many changes: `none for 60 frames, Start for 4, A + Right for 7`.
#[derive(Clone, Copy)]
pub struct PressedKeys<'a> {
    pub script: &'a [u8],
    pub most: usize,
}

impl fmt::Display for PressedKeys<'_> {
    fn fmt<W: fmt::Write>(&self, f: &mut fmt::Formatter<W>) -> fmt::Result {
        let mut left = self.script;
        let mut before = "";
        for _ in 0..self.most {
            let Some(first) = left.first() else {
                return Ok(());
            };
            let keys = HeldKeys {
                keys: *first,
                between: " + ",
            };
            let frames = held_frames(left);
            write!(f, "{before}{keys} for {frames}")?;
            if before.is_empty() {
                let unit = if frames == 1 { " frame" } else { " frames" };
                write!(f, "{unit}")?;
            }
            before = ", ";
            left = &left[left.len().min(frames)..];
        }
        let more = left.len();
        if more > 0 {
            write!(f, ", and {more} more frames")?;
        }
        Ok(())
    }
}

/// The keys of a script as the words that `tools/keys` makes it from: `60 4S 7AR`.
#[derive(Clone, Copy)]
pub struct KeyWords<'a>(pub &'a [u8]);

impl fmt::Display for KeyWords<'_> {
    fn fmt<W: fmt::Write>(&self, f: &mut fmt::Formatter<W>) -> fmt::Result {
        let mut left = self.0;
        let mut before = "";
        for _ in 0..self.0.len() {
            let Some(keys) = left.first() else {
                return Ok(());
            };
            let frames = held_frames(left);
            write!(f, "{before}{frames}")?;
            for bit in 0..8 {
                if *keys >> bit & 1 == 1 {
                    let letter = key_letter(bit);
                    write!(f, "{letter}")?;
                }
            }
            before = " ";
            left = &left[left.len().min(frames)..];
        }
        Ok(())
    }
}

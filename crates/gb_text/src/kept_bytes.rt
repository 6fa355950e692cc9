//! A sink that keeps what it takes, for whoever tests what is written.

ghost use Rattle.std.specs.Prelude.{◌≡◌, ◌<◌, ◌≤◌, [], false, Some, is_err, length, take, IfOk, OnErr};
ghost use Rattle.gb_text.specs.Sink.{Gains};
ghost use Rattle.gb_text.specs.KeptBytes.{takes};

use crate::line::Line;
use crate::sink::{PutFault, Sink};
use arrayvec::ArrayVec;
use std::marker::Model;

/// The bytes that there is room for: more than a screen's lines.
const ROOM: usize = 12_288;

/// A sink that tells its bytes: it takes so many at once, and fails behind so many in all.
#[derive(Drop)]
pub struct KeptBytes {
    bytes: ArrayVec<u8, ROOM>,
    at_once: usize,
    most: usize,
    has_failed: bool,
}

impl Model for KeptBytes {
    ghost use Rattle.gb_text.specs.KeptBytes.{Kept};

    ghost Value = { Kept };

    ghost view = { λ s. record { bytes = s.bytes.items; at_once = s.at_once; most = s.most; has_failed = s.has_failed } };
}

impl KeptBytes {
    /// It takes at most `at_once` bytes with each put, and fails behind `most` bytes in all (12,288 at most).
    pub fn new(at_once: usize, most: usize) -> KeptBytes
        ensures { result ≡ record { bytes = []; at_once = at_once; most = most; has_failed = false } }
    {
        KeptBytes {
            bytes: ArrayVec::new(),
            at_once,
            most,
            has_failed: false,
        }
    }

    /// The bytes that it took.
    pub fn kept(&self) -> &[u8]
        ensures { result.now ≡ self.now.bytes }
    {
        self.bytes.as_slice()
    }

    /// The first 96 of the bytes that it took, as a line.
    pub fn into_line(self) -> Line
        ensures { result ≡ take 96 self.bytes }
    {
        let bytes = self.bytes.as_slice();
        let mut line = Line::new();
        line.push_text(&bytes[..bytes.len().min(96)]);
        line
    }
}

impl Sink for KeptBytes {
    ghost contents = { λ s. Some s.bytes };

    ghost has_failed = { λ s. s.has_failed };

    fn put(&mut self, bytes: &[u8]) -> Result<usize, PutFault>
        ensures least { IfOk result (λ n. 0 < n) }
        ensures most { IfOk result (λ n. n ≤ length bytes.now) }
        ensures took { IfOk result (λ n. Gains (Some self.old.bytes) (take n bytes.now) (Some self.new.bytes)) }
        ensures none { OnErr result (self.new.bytes ≡ self.old.bytes) }
        ensures failed { self.new.has_failed ≡ is_err result }
        ensures count { IfOk result (λ n. n ≡ takes self.old (length bytes.now)) }
        ensures refused { OnErr result (takes self.old (length bytes.now) ≡ 0) }
        ensures at_once { self.new.at_once ≡ self.old.at_once }
        ensures in_all { self.new.most ≡ self.old.most }
    {
        let room = self.most.min(ROOM).saturating_sub(self.bytes.len());
        let taken = bytes.len().min(self.at_once.min(room));
        self.has_failed = taken == 0;
        if self.has_failed {
            return Err(PutFault);
        }
        if self.bytes.try_extend_from_slice(&bytes[..taken]).is_err() {
            unreachable!();
        }
        Ok(taken)
    }

    fn failed(&self) -> bool {
        self.has_failed
    }
}

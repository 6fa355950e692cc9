//! Where text goes: sinks that take bytes a piece at a time and may fail.

ghost use Rattle.std.specs.Prelude.{◌≡◌, ◌<◌, ◌≤◌, ℕ, Bool, false, List, Option, None, is_err, length, take, IfOk, OnErr};
ghost use Rattle.gb_text.specs.Sink.{Gains};

use std::io::Write;
use thiserror::Error;

/// A sink took nothing of what it was given.
#[derive(Clone, Copy, Debug, PartialEq, Eq, Error)]
#[error("the sink took nothing")]
pub struct PutFault;

/// A sink failed during the call; what went out is a beginning of the call's text.
#[derive(Clone, Copy, Debug, PartialEq, Eq, Error)]
#[error("the output could not be written")]
pub struct OutFault;

/// Takes bytes in order.
pub trait Sink {
    /// The bytes that it took, or None where it doesn't tell them.
    ghost contents: { Self → Option (List ℕ) };

    /// Whether it failed.
    ghost has_failed: { Self → Bool };

    /// Takes a beginning of the bytes, at least one, and answers how many it took.
    ///
    /// # Errors
    ///
    /// PutFault where it took none; from then on it has failed.
    fn put(&mut self, bytes: &[u8]) -> Result<usize, PutFault>
        requires some { 0 < length bytes.now }
        requires works { has_failed self.old ≡ false }
        ensures least { IfOk result (λ n. 0 < n) }
        ensures most { IfOk result (λ n. n ≤ length bytes.now) }
        ensures took { IfOk result (λ n. Gains (contents self.old) (take n bytes.now) (contents self.new)) }
        ensures none { OnErr result (contents self.new ≡ contents self.old) }
        ensures failed { has_failed self.new ≡ is_err result };

    /// Whether it failed.
    fn failed(&self) -> bool
        ensures { result ≡ has_failed self.now };
}

/// A sink over one of std's writers. It doesn't tell its bytes.
#[derive(Drop)]
pub struct Plain<W: Write> {
    writer: W,
    has_failed: bool,
}

impl<W: Write> Plain<W> {
    ghost use Rattle.gb_text.specs.Plain.{has_failed, writer_of};

    /// A sink that hasn't failed.
    pub fn new(writer: W) -> Plain<W>
        ensures works { has_failed result ≡ false }
        ensures writer { writer_of result ≡ writer }
    {
        Plain {
            writer,
            has_failed: false,
        }
    }

    /// The writer, with whatever it took.
    pub fn into_inner(self) -> W
        ensures { result ≡ writer_of self }
    {
        self.writer
    }
}

impl<W: Write> Sink for Plain<W> {
    ghost contents = { λ s. None };

    ghost has_failed = { λ s. s.has_failed };

    fn put(&mut self, bytes: &[u8]) -> Result<usize, PutFault> {
        match self.writer.write(bytes) {
            Ok(n) if 0 < n => Ok(n),
            _ => {
                self.has_failed = true;
                Err(PutFault)
            }
        }
    }

    fn failed(&self) -> bool {
        self.has_failed
    }
}

//! Where bytes are written to.
ghost use Rattle.std.specs.Prelude.{⊤, ◌≡◌, ◌<◌, ℕ, List, Option, Some, length, IfOk};
ghost use Rattle.std.specs.Io.{WritesAtMost};
ghost use Rattle.std.specs.Io.KnownBytes.{WriteAppends};
ghost use Rattle.hip_raw.specs.Sources.{failed_writes, writer_of};
ghost use Rattle.hip_raw.specs.Sink.{unwritten};
ghost use Rattle.hip_raw.specs.Transfer.{CountsRefusal};

use crate::filling::Filling;
use crate::io_fault::IoFault;
use crate::meter::Meter;
use std::alloc::{AllocError, Global};
use std::io::Write;
use std::marker::Model;

/// A sink of bytes, seen as the bytes written and a count of the writes that failed.
///
/// Any implementor that keeps these contracts may be written to. Where a sink doesn't tell its bytes, as a file doesn't, the clauses about
/// them say nothing.
pub trait ByteSink {
    // The bytes written, where the sink tells them, and the number of writes that failed.
    ghost written: { Self → Option (List ℕ) };

    ghost failures: { Self → ℕ };

    // Whether the sink is one that may just have taken none of some bytes.
    ghost may_be_full: { Self → Type 0 } = { λ _. ⊤ };

    /// Writes a front of the bytes, and says how many. A write that fails moves no byte.
    fn write(&mut self, bytes: &[u8]) -> Result<usize, IoFault>
        ensures within { WritesAtMost result bytes.now }
        ensures bytes { WriteAppends (written self.old) (written self.new) result bytes.now }
        ensures full { IfOk result
            (λ count. count ≡ 0 → 0 < length bytes.now → may_be_full self.new) }
        ensures failures { CountsRefusal result (failures self.old) (failures self.new) };

    /// The number of writes that failed. The count stays at `u64::MAX`.
    fn failures(&self) -> u64
        ensures { result ≡ failures self.now };
}

/// Writes into a vector. A write that finds no memory fails, and each other one takes all its bytes.
#[derive(Drop)]
pub struct VecSink {
    filling: Filling,
    failures: u64,
}

impl Model for VecSink {
    ghost use Rattle.hip_raw.specs.Sink.{Sink};

    ghost Value = { Sink };

    ghost view = { λ sink. record { items = sink.filling.items; failures = sink.failures } };
}

impl VecSink {
    /// Nothing written. The vector takes its memory from `alloc`.
    #[inline]
    pub fn new(alloc: Global) -> Self
        ensures { result ≡ unwritten }
    {
        VecSink {
            filling: Filling::new(alloc),
            failures: 0,
        }
    }

    /// The bytes written.
    #[inline]
    pub fn into_vec(self) -> Vec<u8>
        ensures { result.items ≡ self.items }
    {
        self.filling.into_vec()
    }
}

impl ByteSink for VecSink {
    ghost written = { λ sink. Some sink.items };

    ghost failures = { λ sink. sink.failures };

    ghost may_be_full = { λ _. ⊥ };

    #[inline]
    fn write(&mut self, bytes: &[u8]) -> Result<usize, IoFault>
        ensures within { WritesAtMost result bytes.now }
        ensures bytes { WriteAppends (Some self.old.items) (Some self.new.items) result bytes.now }
        ensures full { IfOk result (λ count. count ≡ 0 → 0 < length bytes.now → ⊥) }
        ensures failures { CountsRefusal result self.old.failures self.new.failures }
        ensures whole { IfOk result (λ count. count ≡ length bytes.now) }
    {
        match self.filling.push_slice(bytes, &mut Meter::new()) {
            Ok(()) => Ok(bytes.len()),
            Err(AllocError) => {
                self.failures = self.failures.saturating_add(1);
                Err(IoFault)
            }
        }
    }

    #[inline]
    fn failures(&self) -> u64 {
        self.failures
    }
}

/// Writes to a writer of the standard library. Each error that it answers counts as a failed write, an interruption too.
#[derive(Drop)]
pub struct ToWrite<W> {
    writer: W,
    failures: u64,
}

impl<W> ToWrite<W> {
    /// All that is written goes to this writer.
    #[inline]
    pub fn new(writer: W) -> Self
        ensures writer { writer_of result ≡ writer }
        ensures failures { failed_writes result ≡ 0 }
    {
        ToWrite {
            writer,
            failures: 0,
        }
    }
}

impl<W: Write> ByteSink for ToWrite<W> {
    ghost written = { λ sink. W.contents (writer_of sink) };

    ghost failures = { λ sink. failed_writes sink };

    #[inline]
    fn write(&mut self, bytes: &[u8]) -> Result<usize, IoFault> {
        match self.writer.write(bytes) {
            Ok(count) => Ok(count),
            Err(_) => {
                self.failures = self.failures.saturating_add(1);
                Err(IoFault)
            }
        }
    }

    #[inline]
    fn failures(&self) -> u64 {
        self.failures
    }
}

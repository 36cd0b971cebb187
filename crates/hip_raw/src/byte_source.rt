//! Where bytes are read from.
ghost use Rattle.std.specs.Prelude.{◌≡◌, ℕ, List, Option, Some, length, min, IfOk};
ghost use Rattle.std.specs.Io.{ReadsAtMost};
ghost use Rattle.std.specs.Io.KnownBytes.{ReadConsumes};
ghost use Rattle.hip_raw.specs.Sources.{failed_reads, reader_of, rest_of};
ghost use Rattle.hip_raw.specs.Transfer.{CountsRefusal};

use crate::io_fault::IoFault;
use crate::meter::{Meter, fill_counted};
use std::io::Read;

/// A source of bytes, seen as the bytes still to come and a count of the reads that failed.
///
/// Any implementor that keeps these contracts may be read from. Where a source doesn't tell its bytes, as a file doesn't, the clauses
/// about them say nothing.
pub trait ByteSource {
    // The bytes still to come, where the source tells them, and the number of reads that failed.
    ghost to_come: { Self → Option (List ℕ) };

    ghost failures: { Self → ℕ };

    /// Reads bytes into the front of the room, and says how many. None into some room means that there are no more. A read that fails
    /// moves no byte.
    fn read(&mut self, room: &mut [u8]) -> Result<usize, IoFault>
        ensures within { ReadsAtMost result room.new }
        ensures bytes { ReadConsumes (to_come self.old) (to_come self.new) result room.new }
        ensures failures { CountsRefusal result (failures self.old) (failures self.new) };

    /// The number of reads that failed. The count stays at `u64::MAX`.
    fn failures(&self) -> u64
        ensures { result ≡ failures self.now };
}

/// The bytes of a slice, from its front. No read fails, and each gives as many bytes as there are and fit.
#[derive(Clone, Copy, Debug)]
pub struct SliceSource<'a> {
    rest: &'a [u8],
}

impl<'a> SliceSource<'a> {
    /// All bytes of the slice.
    #[inline]
    pub fn new(bytes: &'a [u8]) -> Self
        ensures { rest_of result ≡ bytes.now }
    {
        SliceSource { rest: bytes }
    }

    /// The bytes still to come.
    #[inline]
    pub fn rest(&self) -> &'a [u8]
        ensures { result.now ≡ rest_of self.now }
    {
        self.rest
    }
}

impl<'a> ByteSource for SliceSource<'a> {
    ghost to_come = { λ source. Some (rest_of source) };

    ghost failures = { λ _. 0 };

    #[inline]
    fn read(&mut self, room: &mut [u8]) -> Result<usize, IoFault>
        ensures within { ReadsAtMost result room.new }
        ensures bytes { ReadConsumes (Some (rest_of self.old))
            (Some (rest_of self.new)) result room.new }
        ensures failures { CountsRefusal result 0 0 }
        ensures as_many { IfOk result
            (λ count. count ≡ min (length room.old) (length (rest_of self.old))) }
    {
        let count = room.len().min(self.rest.len());
        fill_counted(&mut room[..count], &self.rest[..count], &mut Meter::new());
        self.rest = &self.rest[count..];
        Ok(count)
    }

    #[inline]
    fn failures(&self) -> u64 {
        0
    }
}

/// The bytes of a reader of the standard library. Each error that it answers counts as a failed read, an interruption too.
#[derive(Drop)]
pub struct FromRead<R> {
    reader: R,
    failures: u64,
}

impl<R> FromRead<R> {
    /// All bytes of the reader.
    #[inline]
    pub fn new(reader: R) -> Self
        ensures reader { reader_of result ≡ reader }
        ensures failures { failed_reads result ≡ 0 }
    {
        FromRead {
            reader,
            failures: 0,
        }
    }
}

impl<R: Read> ByteSource for FromRead<R> {
    ghost to_come = { λ source. R.remaining (reader_of source) };

    ghost failures = { λ source. failed_reads source };

    #[inline]
    fn read(&mut self, room: &mut [u8]) -> Result<usize, IoFault> {
        match self.reader.read(room) {
            Ok(count) => Ok(count),
            Err(_) => {
                self.failures = self.failures.saturating_add(1);
                Err(IoFault)
            }
        }
    }

    #[inline]
    fn failures(&self) -> u64 {
        self.failures
    }
}

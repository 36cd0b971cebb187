//! A reader or writer that moves few bytes a call, and fails at one call.
ghost use Rattle.std.specs.Prelude.{◌≡◌, ◌≤◌, ◌-◌, ◌↔◌, max, IfOk, IsErr};
ghost use Rattle.std.specs.Io.{ReadsAtMost, WritesAtMost};
ghost use Rattle.std.specs.Io.KnownBytes.{Keeps, ReadConsumes, WriteAppends};
ghost use Rattle.hip_raw.specs.Fuse.{calls_before, inner_of, most_of};

use std::io;
use std::io::{ErrorKind, Read, Write};

/// A reader or writer around another, for tests: a call moves few bytes, and one call fails, having moved none. Reads and writes are
/// the calls that count; a flush is passed on.
#[derive(Debug, Drop)]
pub struct Fuse<T> {
    inner: T,
    most: usize,
    // The number of calls up to the one that fails, that one included. At 0 none fails.
    left: u64,
}

impl<T> Fuse<T> {
    /// Moves at most `most` bytes a call, and fails at its `k`-th call alone, at none for 0. As a reader it takes a `most` of 0 as 1,
    /// since a read of no bytes says that there are no more.
    pub fn new(inner: T, most: usize, k: u64) -> Self
        ensures inner { inner_of result ≡ inner }
        ensures most { most_of result ≡ most }
        ensures calls { calls_before result ≡ k }
    {
        Fuse {
            inner,
            most,
            left: k,
        }
    }

    /// The source or sink that it stands around.
    pub fn into_inner(self) -> T
        ensures { result ≡ inner_of self }
    {
        self.inner
    }

    // Counts a call.
    fn burn(&mut self) -> io::Result<()>
        ensures inner { inner_of self.new ≡ inner_of self.old }
        ensures most { most_of self.new ≡ most_of self.old }
        ensures calls { calls_before self.new ≡ calls_before self.old - 1 }
        ensures failing { IsErr result ↔ (calls_before self.old ≡ 1) }
    {
        let is_failing = self.left == 1;
        self.left = self.left.saturating_sub(1);
        if is_failing {
            return Err(io::Error::from(ErrorKind::BrokenPipe));
        }
        Ok(())
    }
}

impl<T: Read> Read for Fuse<T> {
    ghost remaining = { λ fuse. T.remaining (inner_of fuse) };

    fn read(&mut self, buf: &mut [u8]) -> io::Result<usize>
        ensures bound { ReadsAtMost result buf.new }
        ensures bytes { ReadConsumes (T.remaining (inner_of self.old))
            (T.remaining (inner_of self.new)) result buf.new }
        ensures few { IfOk result (λ count. count ≤ max 1 (most_of self.old)) }
        ensures most { most_of self.new ≡ most_of self.old }
        ensures calls { calls_before self.new ≡ calls_before self.old - 1 }
        ensures failing { calls_before self.old ≡ 1
            → IsErr result × (inner_of self.new ≡ inner_of self.old) }
    {
        self.burn()?;
        let most = self.most.max(1).min(buf.len());
        self.inner.read(&mut buf[..most])
    }
}

impl<T: Write> Write for Fuse<T> {
    ghost contents = { λ fuse. T.contents (inner_of fuse) };

    fn write(&mut self, buf: &[u8]) -> io::Result<usize>
        ensures bound { WritesAtMost result buf.now }
        ensures bytes { WriteAppends (T.contents (inner_of self.old))
            (T.contents (inner_of self.new)) result buf.now }
        ensures few { IfOk result (λ count. count ≤ most_of self.old) }
        ensures most { most_of self.new ≡ most_of self.old }
        ensures calls { calls_before self.new ≡ calls_before self.old - 1 }
        ensures failing { calls_before self.old ≡ 1
            → IsErr result × (inner_of self.new ≡ inner_of self.old) }
    {
        self.burn()?;
        let most = self.most.min(buf.len());
        self.inner.write(&buf[..most])
    }

    fn flush(&mut self) -> io::Result<()>
        ensures bytes { Keeps (T.contents (inner_of self.old)) (T.contents (inner_of self.new)) }
        ensures most { most_of self.new ≡ most_of self.old }
        ensures calls { calls_before self.new ≡ calls_before self.old }
    {
        self.inner.flush()
    }
}

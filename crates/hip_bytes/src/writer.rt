//! A handle that is written to.
ghost use Rattle.std.specs.Prelude.{◌≡◌, Some, length, IfOk, IsOk, OnErr, OnOk};
ghost use Rattle.std.specs.Fmt.{AppendsText};
ghost use Rattle.std.specs.Io.{WritesAtMost};
ghost use Rattle.std.specs.Io.KnownBytes.{Appends, Keeps, WriteAppends};
ghost use Rattle.hip_bytes.specs.Change.{PushAnswers, PushesText};

use crate::hip_byt::HipByt;
use hip_raw::Backend;
use std::alloc::{AllocError, Global};
use std::fmt::Display;
use std::io;

/// A handle with its allocator, for `write!` and as an [`io::Write`]. [`HipByt::writer`] makes one.
///
/// What was written stands in the handle at once, and there is nothing to flush. A proof over a handle of a named lifetime learns what it
/// holds afterwards where the writer is made of its fields, `Writer { bytes: &mut bytes, alloc }`, and not by a call.
#[derive(Drop)]
pub struct Writer<'a, 'b, B: Backend> {
    /// The handle, at whose end is written.
    pub bytes: &'a mut HipByt<'b, B>,
    /// The allocator of what is written.
    pub alloc: Global,
}

impl<'a, 'b, B: Backend> Writer<'a, 'b, B> {
    /// What `write!` calls: [`HipByt::write_fmt`].
    pub fn write_fmt<D: Display + Drop>(&mut self, value: D) -> Result<(), AllocError>
        ensures items { OnOk result
            (AppendsText self.old.bytes.now.items self.new.bytes.now.items (D.output value)) }
        ensures pushed { OnOk result
            (PushesText B.SHARES self.old.bytes.now self.new.bytes.now) }
        ensures err { OnErr result (self.new.bytes.now ≡ self.old.bytes.now) }
        ensures same_reference { self.new.bytes.ghost_name ≡ self.old.bytes.ghost_name }
    {
        self.bytes.write_fmt(self.alloc, value)
    }
}

impl<'a, 'b, B: Backend> io::Write for Writer<'a, 'b, B> {
    ghost contents = { λ writer. Some writer.bytes.now.items };

    /// Adds all the bytes, or none where there is no memory.
    #[inline]
    fn write(&mut self, buf: &[u8]) -> io::Result<usize>
        ensures push { PushAnswers B.SHARES self.old.bytes.now buf.now result self.new.bytes.now }
        ensures count { IfOk result (λ n. n ≡ length buf.now) }
        ensures bound { WritesAtMost result buf.now }
        ensures bytes { WriteAppends (Some self.old.bytes.now.items)
            (Some self.new.bytes.now.items) result buf.now }
        ensures same_reference { self.new.bytes.ghost_name ≡ self.old.bytes.ghost_name }
    {
        self.bytes.push_slice(self.alloc, buf)?;
        Ok(buf.len())
    }

    /// Like [`Writer::write`](io::Write::write), whole.
    #[inline]
    fn write_all(&mut self, buf: &[u8]) -> io::Result<()>
        ensures push { PushAnswers B.SHARES self.old.bytes.now buf.now result self.new.bytes.now }
        ensures bytes { OnOk result (Appends (Some self.old.bytes.now.items)
            (Some self.new.bytes.now.items) buf.now) }
        ensures same_reference { self.new.bytes.ghost_name ≡ self.old.bytes.ghost_name }
    {
        self.bytes.push_slice(self.alloc, buf)?;
        Ok(())
    }

    /// There is nothing to flush.
    #[inline]
    fn flush(&mut self) -> io::Result<()>
        ensures ok { IsOk result }
        ensures unchanged { self.new.bytes.now ≡ self.old.bytes.now }
        ensures bytes { Keeps (Some self.old.bytes.now.items) (Some self.new.bytes.now.items) }
        ensures same_reference { self.new.bytes.ghost_name ≡ self.old.bytes.ghost_name }
    {
        Ok(())
    }
}

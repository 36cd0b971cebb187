//! Borsh.
ghost use Rattle.std.specs.Prelude.{◌≡◌, ◌<◌, ℕ, Err, length, slice_index, vec_items};
ghost use Rattle.hip_bytes.specs.Borsh.{BorshReads, BorshWrites, CountsReads, CountsWrites};
ghost use Rattle.hip_bytes.specs.Moved.{CountsOut, MovesIn, MovesOut};

use super::HipByt;
use crate::borsh_fault::BorshFault;
use crate::kind::INLINE_CAPACITY;
use hip_raw::{Backend, ByteSink, ByteSource, Inline, IoFault};
use std::alloc::Global;

/// The greatest number of bytes that a vector grows by in one step of a read, so that a false length allocates little.
const AT_ONCE: usize = 4096;

impl<'b, B: Backend> HipByt<'b, B> {
    /// Writes the Borsh form: the length as four bytes, the least first, and then the bytes. A write that fails isn't tried again.
    pub fn serialize<W: ByteSink>(&self, sink: &mut W) -> Result<(), BorshFault>
        ensures written { BorshWrites self.now.items (W.written sink.old)
            (W.written sink.new) result }
        ensures failures { CountsWrites result (W.may_be_full sink.new) (W.failures sink.old)
            (W.failures sink.new) }
        ensures too_long { result ≡ Err BorshFault.TooLong → sink.new ≡ sink.old }
    {
        let bytes = self.as_slice();
        let Ok(len) = u32::try_from(bytes.len()) else {
            return Err(BorshFault::TooLong);
        };
        write_whole(sink, &len.to_le_bytes())?;
        write_whole(sink, bytes)?;
        Ok(())
    }

    /// Reads a Borsh form, as [`HipByt::serialize`] writes it, and takes no byte behind it. It allocates as the bytes come, at most 4,096
    /// bytes ahead of them. A read that fails isn't tried again.
    pub fn deserialize_reader<R: ByteSource>(
        alloc: Global,
        source: &mut R,
    ) -> Result<Self, BorshFault>
        ensures read { BorshReads (R.to_come source.old) (R.to_come source.new) result }
        ensures failures { CountsReads result (R.failures source.old) (R.failures source.new) }
    {
        let mut head = [0; 4];
        read_whole(source, &mut head)?;
        let len = u32::from_le_bytes(head) as usize;
        if len <= INLINE_CAPACITY {
            let mut inline = Inline::zeroed(len);
            read_whole(source, inline.as_mut_slice())?;
            return Ok(HipByt::from_inline(inline));
        }
        match HipByt::from_vec(alloc, read_vec(alloc, source, len)?) {
            Ok(handle) => Ok(handle),
            Err(_) => Err(BorshFault::Memory),
        }
    }
}

/// Writes all these bytes.
fn write_whole<W: ByteSink>(sink: &mut W, bytes: &[u8]) -> Result<(), IoFault>
    ensures moved { MovesOut bytes.now (W.written sink.old) (W.written sink.new) result }
    ensures failures { CountsOut result (W.may_be_full sink.new) (W.failures sink.old)
        (W.failures sink.new) }
{
    let mut done = 0;
    while done < bytes.len() {
        let count = sink.write(&bytes[done..])?;
        if count == 0 {
            return Err(IoFault);
        }
        done += count;
    }
    Ok(())
}

/// Reads until the room is full.
fn read_whole<R: ByteSource>(source: &mut R, room: &mut [u8]) -> Result<(), BorshFault>
    ensures moved { MovesIn (λ _. room.new) (length room.old) (R.to_come source.old)
        (R.to_come source.new) result }
    ensures failures { CountsReads result (R.failures source.old) (R.failures source.new) }
    ensures memory { result ≡ Err BorshFault.Memory → ⊥ }
    ensures bytes { (i : ℕ) → slice_index room.new i < 256 }
{
    let mut done = 0;
    while done < room.len() {
        let count = source.read(&mut room[done..])?;
        if count == 0 {
            return Err(BorshFault::Truncated);
        }
        done += count;
    }
    Ok(())
}

/// Reads `len` bytes into a vector, which grows as they come.
fn read_vec<R: ByteSource>(alloc: Global, source: &mut R, len: usize) -> Result<Vec<u8>, BorshFault>
    ensures moved { MovesIn vec_items len (R.to_come source.old) (R.to_come source.new) result }
    ensures failures { CountsReads result (R.failures source.old) (R.failures source.new) }
{
    let mut vec = Vec::new(alloc);
    while vec.len() < len {
        let start = vec.len();
        vec.resize(start + (len - start).min(AT_ONCE), 0)?;
        read_whole(source, vec.slice_mut(start..))?;
    }
    Ok(vec)
}

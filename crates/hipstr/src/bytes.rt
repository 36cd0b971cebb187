//! Byte strings, and the calls that take them apart.
pub use hip_bytes::{
    Block, BorshFault, GrowFault, HipByt, INLINE_CAPACITY, JsonFault, Kind, MutateFault, RefMut,
    SliceError, SliceErrorKind, SliceRefusal, Source, Writer, mutate, mutate_metered, with_mutated,
    with_mutated_metered,
};
pub use hip_cuts::{ByteCuts, BytePieces};
pub use hip_match::byte_lines::ByteLines;
pub use hip_match::marked_parts::SplitByte;
pub use hip_match::ranges::{ByteRanges, CloneByteRanges};

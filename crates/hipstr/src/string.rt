//! Texts, and the calls that take them apart.
pub use hip_cuts::{IterWrapper, Pieces, PiecesAt, TextCuts, Unnumbered, Walk};
pub use hip_text::{
    BorshFault, BytesFault, FromUtf8Error, HipStr, JsonFault, MutateFault, RefMut, SliceError,
    SliceErrorKind, SliceRefusal, TextSource, Utf16Fault, Writer, mutate, mutate_metered,
    with_mutated, with_mutated_metered,
};

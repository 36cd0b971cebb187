//! The calls that the scenarios make on a handle, each by its own name, with an impl for each type. The calls have no contracts, so that a
//! scenario knows nothing but what it compares. A call that a type lacks ends the test; each impl names all of them, so that a new one has
//! to be put to a call of each type's, or to those that it lacks, before anything compiles.
use super::calls::Place;
use super::held::Held;
use hipstr::bytes::JsonFault;
use serde_json::Value;
use std::alloc::{AllocError, Global};
use std::process::Abort;

/// A call that changes a handle.
#[derive(Clone, Copy)]
pub enum Change {
    Push,
    PushSlice,
    PushStr,
    WriteFmt,
    WriteThrough,
    Extend,
    ShrinkTo,
    ShrinkToFit,
    MakeAsciiUppercase,
    MakeAsciiLowercase,
    ToMutSlice,
    WithToMutSlice,
}

/// A call that makes a handle of another.
#[derive(Clone, Copy)]
pub enum Copying {
    Clone,
    Slice,
    SliceUnchecked,
    TrySlice,
    TrySliceBounds,
    Repeat,
    RepeatOnce,
    ToAsciiUppercase,
    ToAsciiLowercase,
    Cut(Cut),
    ToStr,
    ToStrLossy,
}

/// A call that makes texts of a text. The last that it makes is the handle.
#[derive(Clone, Copy)]
pub enum Cut {
    Trim,
    TrimStart,
    TrimEnd,
    TrimMatches,
    TrimStartMatches,
    TrimEndMatches,
    StripPrefix,
    StripSuffix,
    SplitOnce,
    RsplitOnce,
    Split,
    Lines,
    MatchIndices,
}

/// A call that makes something else of a handle.
#[derive(Clone, Copy)]
pub enum Conversion {
    IntoOwned,
    IntoVec,
    IntoVecCopied,
    IntoString,
    IntoStringCopied,
    IntoCow,
    IntoOsString,
    IntoPathBuf,
    TryIntoVec,
    FromUtf8Lossy,
}

/// A call that makes a handle of what it takes over.
#[derive(Clone, Copy)]
pub enum Taking {
    New,
    FromVec,
    FromCow,
    FromString,
    TryFromVec,
}

/// A call that makes a handle of what stays as it is.
#[derive(Clone, Copy)]
pub enum Making {
    WithCapacity,
    FromSlice,
    FromStr,
    ConcatSlices,
    Concat,
    JoinSlices,
    Join,
    FromIterated,
    TryFromSlice,
    FromUtf16,
    FromUtf16Lossy,
    FromJson,
    DeserializeReader,
    CopyCounted,
}

/// A call that tells of a handle.
#[derive(Clone, Copy)]
pub enum Telling {
    ToJson,
    Serialize,
}

/// A call that lends a handle's bytes out for writing.
#[derive(Clone, Copy)]
pub enum Lending {
    Mutate,
    WithMutated,
}

pub trait Handle: Drop {
    /// The bytes that its values have.
    fn texts() -> &'static [&'static [u8]];

    /// How they can be held.
    fn each_held() -> &'static [Held];

    /// A handle that takes these bytes over, with their room.
    fn of_vec(alloc: Global, vec: Vec<u8>) -> Result<Self, AllocError>;

    fn lent(bytes: &'static [u8]) -> Result<Self, AllocError>;

    fn clone(&self, alloc: Global) -> Result<Self, AllocError>;

    /// Its bytes, what `is_inline`, `is_borrowed` and `is_allocated` say, and its capacity.
    fn seen(&self) -> (&[u8], Place);

    /// Whether it was changed.
    fn change(&mut self, rt: &impl Abort, alloc: Global, change: Change) -> bool;

    fn copy(&self, rt: &impl Abort, alloc: Global, copying: Copying) -> Result<Self, AllocError>;

    /// Whether it has these bytes then.
    fn convert(
        self,
        rt: &impl Abort,
        alloc: Global,
        conversion: Conversion,
        bytes: &[u8],
    ) -> Result<bool, Self>;

    /// The vector is handed back where it was refused.
    fn take(rt: &impl Abort, alloc: Global, taking: Taking, vec: Vec<u8>) -> Result<Self, Vec<u8>>;

    /// A JSON value that a handle is made of.
    fn value(alloc: Global) -> Result<Value, JsonFault>;

    /// Where it was refused, whether for memory.
    fn make(rt: &impl Abort, alloc: Global, making: Making, value: &Value) -> Result<Self, bool>;

    /// Whether it was told.
    fn tell(&self, rt: &impl Abort, alloc: Global, telling: Telling) -> bool;

    /// The vector that was lent, where it couldn't be put back; none where it couldn't be lent.
    fn lend(
        &mut self,
        rt: &impl Abort,
        alloc: Global,
        lending: Lending,
    ) -> Result<(), Option<Vec<u8>>>;
}

//! The calls that the tests make on any handle, and on one that has a form or a JSON value. The methods have no contracts, so that a test knows
//! nothing but what it compares.
use hip_bytes::{BorshFault, ByteSink, ByteSource, JsonFault, Kind};
use serde_json::Value;
use std::alloc::Global;

/// A handle of any of the four types.
pub trait Handle: Drop {
    /// A handle of these lent bytes; the reason where they make none.
    fn lent(bytes: &'static [u8]) -> Result<Self, &'static str>;

    fn bytes(&self) -> &[u8];

    /// The kind by `is_inline`, `is_borrowed` and `is_allocated`; `None` unless just one of these is true.
    fn kind(&self) -> Option<Kind>;
}

/// A handle that has a form.
pub trait Form: Handle {
    fn serialize<W: ByteSink>(&self, sink: &mut W) -> Result<(), BorshFault>;

    fn deserialize_reader<R: ByteSource>(alloc: Global, from: &mut R) -> Result<Self, BorshFault>;
}

/// A handle that has a JSON value.
pub trait Json: Handle {
    fn to_json(&self, alloc: Global) -> Result<Value, JsonFault>;

    fn from_json(alloc: Global, value: &Value) -> Result<Self, JsonFault>;
}

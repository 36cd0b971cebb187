//! The tests' calls of a text.
use super::handle::{Form, Handle, Json};
use super::support::kind_of;
use hip_bytes::{Backend, BorshFault, ByteSink, ByteSource, HipByt, JsonFault, Kind};
use hip_text::HipStr;
use serde_json::Value;
use std::alloc::Global;

impl<B: Backend> Handle for HipStr<'static, B> {
    fn lent(bytes: &'static [u8]) -> Result<Self, &'static str> {
        HipStr::from_utf8(HipByt::borrowed(bytes)).or(Err("it isn't UTF-8"))
    }

    fn bytes(&self) -> &[u8] {
        self.as_bytes()
    }

    fn kind(&self) -> Option<Kind> {
        kind_of(self.is_inline(), self.is_borrowed(), self.is_allocated())
    }
}

impl<B: Backend> Json for HipStr<'static, B> {
    fn to_json(&self, alloc: Global) -> Result<Value, JsonFault> {
        self.to_json(alloc).or(Err(JsonFault::Memory))
    }

    fn from_json(alloc: Global, value: &Value) -> Result<Self, JsonFault> {
        HipStr::from_json(alloc, value)
    }
}

impl<B: Backend> Form for HipStr<'static, B> {
    fn serialize<W: ByteSink>(&self, sink: &mut W) -> Result<(), BorshFault> {
        self.serialize(sink)
    }

    fn deserialize_reader<R: ByteSource>(alloc: Global, from: &mut R) -> Result<Self, BorshFault> {
        HipStr::deserialize_reader(alloc, from)
    }
}

//! The tests' calls of a byte string.
use super::handle::{Form, Handle, Json};
use super::support::kind_of;
use hip_bytes::{Backend, BorshFault, ByteSink, ByteSource, HipByt, JsonFault, Kind};
use serde_json::Value;
use std::alloc::Global;

impl<B: Backend> Handle for HipByt<'static, B> {
    fn lent(bytes: &'static [u8]) -> Result<Self, &'static str> {
        Ok(HipByt::borrowed(bytes))
    }

    fn bytes(&self) -> &[u8] {
        self.as_slice()
    }

    fn kind(&self) -> Option<Kind> {
        kind_of(self.is_inline(), self.is_borrowed(), self.is_allocated())
    }
}

impl<B: Backend> Form for HipByt<'static, B> {
    fn serialize<W: ByteSink>(&self, sink: &mut W) -> Result<(), BorshFault> {
        self.serialize(sink)
    }

    fn deserialize_reader<R: ByteSource>(alloc: Global, from: &mut R) -> Result<Self, BorshFault> {
        HipByt::deserialize_reader(alloc, from)
    }
}

impl<B: Backend> Json for HipByt<'static, B> {
    fn to_json(&self, alloc: Global) -> Result<Value, JsonFault> {
        self.to_json(alloc).or(Err(JsonFault::Memory))
    }

    fn from_json(alloc: Global, value: &Value) -> Result<Self, JsonFault> {
        HipByt::from_json(alloc, value)
    }
}

//! Borsh and JSON.
ghost use Rattle.std.specs.Prelude.{◌≡◌, Err, IfOk};
ghost use Rattle.serde_json.specs.Data.{string};
ghost use Rattle.serde_json.specs.View.{view};
ghost use Rattle.hip_bytes.specs.Borsh.{BorshWrites, CountsReads, CountsWrites};
ghost use Rattle.hip_bytes.specs.Json.{JsonReadsString};
ghost use Rattle.hip_text.specs.BorshText.{BorshReadsText};

use super::HipStr;
use hip_bytes::{Backend, BorshFault, ByteSink, ByteSource, HipByt, JsonFault};
use serde_json::Value;
use std::alloc::{AllocError, Global};

impl<'b, B: Backend> HipStr<'b, B> {
    /// Writes the Borsh form, which is that of the bytes. A write that fails isn't tried again.
    #[inline]
    pub fn serialize<W: ByteSink>(&self, sink: &mut W) -> Result<(), BorshFault>
        ensures written { BorshWrites self.now.items (W.written sink.old)
            (W.written sink.new) result }
        ensures failures { CountsWrites result (W.may_be_full sink.new) (W.failures sink.old)
            (W.failures sink.new) }
        ensures too_long { result ≡ Err BorshFault.TooLong → sink.new ≡ sink.old }
    {
        self.bytes.serialize(sink)
    }

    /// Reads a Borsh form, as [`HipStr::serialize`] writes it, and takes no byte behind it. Whether the bytes are UTF-8 is tested once all
    /// are there. It allocates as the bytes come, at most 4,096 bytes ahead of them. A read that fails isn't tried again.
    pub fn deserialize_reader<R: ByteSource>(
        alloc: Global,
        source: &mut R,
    ) -> Result<Self, BorshFault>
        ensures read { BorshReadsText (R.to_come source.old) (R.to_come source.new) result }
        ensures failures { CountsReads result (R.failures source.old) (R.failures source.new) }
    {
        match HipStr::from_utf8(HipByt::deserialize_reader(alloc, source)?) {
            Ok(text) => Ok(text),
            Err(_) => Err(BorshFault::NotUtf8),
        }
    }

    /// The JSON string of the text.
    #[inline]
    pub fn to_json(&self, alloc: Global) -> Result<Value, AllocError>
        ensures value { IfOk result (λ value. view value ≡ string self.now.items) }
    {
        Value::try_from_str(alloc, self.as_str())
    }

    /// The text of a JSON string.
    pub fn from_json(alloc: Global, value: &Value) -> Result<Self, JsonFault>
        ensures read { JsonReadsString (view value.now) result }
    {
        match value.as_str() {
            Some(text) => Ok(HipStr::from_str(alloc, text)?),
            None => Err(JsonFault::NotJsonString),
        }
    }
}

//! JSON.
ghost use Rattle.serde_json.specs.View.{view};
ghost use Rattle.hip_bytes.specs.Json.{JsonReadsString};
ghost use Rattle.hip_names.specs.JsonPath.{JsonPathAnswers};

use super::HipPath;
use hip_bytes::{Backend, JsonFault};
use serde_json::Value;
use simdutf8::basic;
use std::alloc::Global;

impl<'b, B: Backend> HipPath<'b, B> {
    /// The JSON string of the path, where its bytes are UTF-8, which is tested first.
    pub fn to_json(&self, alloc: Global) -> Result<Value, JsonFault>
        ensures value { JsonPathAnswers self.now.items result }
    {
        match basic::from_utf8(self.as_path()) {
            Ok(text) => Ok(Value::try_from_str(alloc, text)?),
            Err(_) => Err(JsonFault::NotUtf8),
        }
    }

    /// The path of a JSON string.
    pub fn from_json(alloc: Global, value: &Value) -> Result<Self, JsonFault>
        ensures read { JsonReadsString (view value.now) result }
    {
        match value.as_str() {
            Some(text) => Ok(HipPath::from_str(alloc, text)?),
            None => Err(JsonFault::NotJsonString),
        }
    }
}

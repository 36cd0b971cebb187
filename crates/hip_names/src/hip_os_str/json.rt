//! JSON.
ghost use Rattle.std.specs.Prelude.{◌≡◌, IfOk, option_map};
ghost use Rattle.serde_json.specs.View.{view};
ghost use Rattle.hip_bytes.specs.Json.{JsonReadsUnix, json_unix, unix_of};

use super::HipOsStr;
use hip_bytes::{Backend, HipByt, JsonFault};
use serde_json::{Map, Value};
use std::alloc::{AllocError, Global};

/// The key under which hipstr has the bytes of an OS string on Unix.
const UNIX: &str = "Unix";

impl<'b, B: Backend> HipOsStr<'b, B> {
    /// The JSON object with the one key `Unix`, under which the array of the bytes stands.
    pub fn to_json(&self, alloc: Global) -> Result<Value, AllocError>
        ensures value { IfOk result (λ value. view value ≡ json_unix self.now.items) }
    {
        let mut members = Map::new(alloc);
        serde_json::put(&mut members, alloc, UNIX, self.bytes.to_json(alloc)?)?;
        Ok(Value::Object(members))
    }

    /// The bytes of the array under the one key `Unix` of a JSON object.
    pub fn from_json(alloc: Global, value: &Value) -> Result<Self, JsonFault>
        ensures read { JsonReadsUnix (view value.now) result }
    {
        match under_unix(value) {
            Some(inner) => Ok(HipOsStr {
                bytes: HipByt::from_json_array(alloc, inner)?,
            }),
            None => Err(JsonFault::NotJsonUnix),
        }
    }
}

/// The value under the one key of an object, if that is `Unix`.
#[tactic(auto, using(crate::proofs::Json::unix))]
fn under_unix(value: &Value) -> Option<&Value>
    ensures { option_map (λ inner. view inner.now) result ≡ unix_of (view value.now) }
{
    let members = value.as_object()?;
    if members.len() != 1 {
        return None;
    }
    let (key, inner) = members.first_key_value()?;
    if key.as_str() == UNIX {
        Some(inner)
    } else {
        None
    }
}

//! JSON.
ghost use Rattle.std.specs.Prelude.{◌≡◌, ℕ, List, length, map, IfErr, IfOk, OnOk};
ghost use Rattle.serde_json.specs.View.{items_of, view};
ghost use Rattle.hip_bytes.specs.Json.{AreBytes, JsonReadsArray, JsonReadsBytes, JsonReadsItems, byte_of, json_bytes};
ghost use Rattle.hip_bytes.specs.JsonItems.{TellsFirstOther};

use super::HipByt;
use crate::json_fault::JsonFault;
use crate::kind::INLINE_CAPACITY;
use hip_raw::{Backend, Inline};
use serde_json::Value;
use std::alloc::{AllocError, Global};

impl<'b, B: Backend> HipByt<'b, B> {
    /// The JSON array of the bytes as numbers.
    pub fn to_json(&self, alloc: Global) -> Result<Value, AllocError>
        ensures value { IfOk result (λ value. view value ≡ json_bytes self.now.items) }
    {
        let bytes = self.as_slice();
        let mut items = Vec::with_capacity(alloc, bytes.len())?;
        for byte in bytes {
            items.push_reserved(Value::from(*byte));
        }
        Ok(Value::Array(items))
    }

    /// The bytes of a JSON string, or those of an array of whole numbers from 0 to 255.
    pub fn from_json(alloc: Global, value: &Value) -> Result<Self, JsonFault>
        ensures read { JsonReadsBytes (view value.now) result }
    {
        match value.as_str() {
            Some(text) => Ok(HipByt::from_slice(alloc, text.as_bytes())?),
            None => Self::from_json_array(alloc, value),
        }
    }

    /// [`HipByt::from_json`] of an array alone.
    pub fn from_json_array(alloc: Global, value: &Value) -> Result<Self, JsonFault>
        ensures read { JsonReadsArray (view value.now) result }
    {
        match value.as_array() {
            Some(items) => Self::from_json_items(alloc, items),
            None => Err(JsonFault::NotJsonBytes(None)),
        }
    }

    /// The bytes that these items are.
    fn from_json_items(alloc: Global, items: &[Value]) -> Result<Self, JsonFault>
        ensures read { JsonReadsItems (items_of (map view items.now)) result }
    {
        let len = items.len();
        if len <= INLINE_CAPACITY {
            let mut inline = Inline::zeroed(len);
            fill(inline.as_mut_slice(), items)?;
            return Ok(HipByt::from_inline(inline));
        }
        let mut vec = Vec::new(alloc);
        if vec.resize(len, 0).is_err() {
            test(items)?;
            return Err(JsonFault::Memory);
        }
        fill(vec.as_mut_slice(), items)?;
        match HipByt::from_vec(alloc, vec) {
            Ok(handle) => Ok(handle),
            Err(_) => Err(JsonFault::Memory),
        }
    }
}

/// The byte that a value is.
#[inline]
fn byte_in(value: &Value) -> Option<u8>
    ensures { result ≡ byte_of (view value.now) }
{
    let number = value.as_u64()?;
    if number < 256 {
        Some(number as u8)
    } else {
        None
    }
}

/// Fills the room with the bytes that the items are.
fn fill(room: &mut [u8], items: &[Value]) -> Result<(), JsonFault>
    requires { length room.old ≡ length items.now }
    ensures items { OnOk result (AreBytes (items_of (map view items.now)) room.new) }
    ensures err { IfErr result (TellsFirstOther (items_of (map view items.now))) }
{
    for at in 0..items.len() {
        let Some(byte) = byte_in(&items[at]) else {
            return Err(JsonFault::NotJsonBytes(Some(at)));
        };
        room[at] = byte;
    }
    Ok(())
}

/// Tests that the items are bytes.
#[cold]
fn test(items: &[Value]) -> Result<(), JsonFault>
    ensures items { OnOk result
        ((bytes : List ℕ) × AreBytes (items_of (map view items.now)) bytes
        × (length bytes ≡ length items.now)) }
    ensures err { IfErr result (TellsFirstOther (items_of (map view items.now))) }
{
    for i in 0..items.len() {
        let Some(_byte) = byte_in(&items[i]) else {
            return Err(JsonFault::NotJsonBytes(Some(i)));
        };
    }
    Ok(())
}

//! The calls of owners.
use super::calls::Place;
use super::handle::{Change, Conversion, Copying, Handle, Lending, Making, Taking, Telling};
use super::held::{BROKEN, Held, LISTS};
use super::outcomes::of_memory;
use hipstr::bytes::JsonFault;
use hipstr::{Allocated, Appended, Backend, Meter, copy_counted};
use serde_json::Value;
use std::alloc::{AllocError, Global};
use std::process::Abort;

impl<B: Backend> Handle for Allocated<B> {
    fn texts() -> &'static [&'static [u8]] {
        LISTS
    }

    fn each_held() -> &'static [Held] {
        &[Held::Sole, Held::Shared]
    }

    fn of_vec(alloc: Global, vec: Vec<u8>) -> Result<Self, AllocError> {
        Allocated::new(alloc, vec).or(Err(AllocError))
    }

    fn lent(_bytes: &'static [u8]) -> Result<Self, AllocError> {
        Err(AllocError)
    }

    fn clone(&self, alloc: Global) -> Result<Self, AllocError> {
        self.slice_unchecked(alloc, 0..self.len())
    }

    fn seen(&self) -> (&[u8], Place) {
        let kinds = (false, false, true);
        (self.as_slice(), (kinds, self.capacity()))
    }

    fn change(&mut self, rt: &impl Abort, alloc: Global, change: Change) -> bool {
        match change {
            Change::PushSlice => self.push_slice(alloc, &[b'!'; 200]) != Appended::Memory,
            Change::ShrinkTo => self.shrink_to(alloc, 24).is_ok(),
            Change::Push
            | Change::PushStr
            | Change::WriteFmt
            | Change::WriteThrough
            | Change::Extend
            | Change::ShrinkToFit
            | Change::MakeAsciiUppercase
            | Change::MakeAsciiLowercase
            | Change::ToMutSlice
            | Change::WithToMutSlice => panic!(rt; "no call of owners that takes memory"),
        }
    }

    fn copy(&self, rt: &impl Abort, alloc: Global, copying: Copying) -> Result<Self, AllocError> {
        match copying {
            Copying::SliceUnchecked => self.slice_unchecked(alloc, 0..self.len()),
            Copying::Clone
            | Copying::Slice
            | Copying::TrySlice
            | Copying::TrySliceBounds
            | Copying::Repeat
            | Copying::RepeatOnce
            | Copying::ToAsciiUppercase
            | Copying::ToAsciiLowercase
            | Copying::Cut(_)
            | Copying::ToStr
            | Copying::ToStrLossy => panic!(rt; "no call of owners"),
        }
    }

    fn convert(
        self,
        rt: &impl Abort,
        alloc: Global,
        conversion: Conversion,
        bytes: &[u8],
    ) -> Result<bool, Self> {
        match conversion {
            Conversion::TryIntoVec => Ok(self.try_into_vec(alloc)?.as_slice() == bytes),
            Conversion::IntoOwned
            | Conversion::IntoVec
            | Conversion::IntoVecCopied
            | Conversion::IntoString
            | Conversion::IntoStringCopied
            | Conversion::IntoCow
            | Conversion::IntoOsString
            | Conversion::IntoPathBuf
            | Conversion::FromUtf8Lossy => panic!(rt; "no call of owners"),
        }
    }

    fn take(rt: &impl Abort, alloc: Global, taking: Taking, vec: Vec<u8>) -> Result<Self, Vec<u8>> {
        match taking {
            Taking::New => Allocated::new(alloc, vec),
            Taking::FromVec | Taking::FromCow | Taking::FromString | Taking::TryFromVec => {
                panic!(rt; "no call of owners")
            }
        }
    }

    fn value(_alloc: Global) -> Result<Value, JsonFault> {
        Ok(Value::Null)
    }

    fn make(rt: &impl Abort, alloc: Global, making: Making, _value: &Value) -> Result<Self, bool> {
        match making {
            Making::FromSlice => of_memory(Allocated::from_slice(alloc, BROKEN)),
            Making::CopyCounted => {
                let vec = of_memory(copy_counted(alloc, BROKEN, &mut Meter::new()))?;
                Allocated::new(alloc, vec).or(Err(true))
            }
            Making::WithCapacity
            | Making::FromStr
            | Making::ConcatSlices
            | Making::Concat
            | Making::JoinSlices
            | Making::Join
            | Making::FromIterated
            | Making::TryFromSlice
            | Making::FromUtf16
            | Making::FromUtf16Lossy
            | Making::FromJson
            | Making::DeserializeReader => panic!(rt; "no call of owners"),
        }
    }

    fn tell(&self, rt: &impl Abort, _alloc: Global, telling: Telling) -> bool {
        match telling {
            Telling::ToJson | Telling::Serialize => panic!(rt; "no call of owners"),
        }
    }

    fn lend(
        &mut self,
        rt: &impl Abort,
        _alloc: Global,
        lending: Lending,
    ) -> Result<(), Option<Vec<u8>>> {
        match lending {
            Lending::Mutate | Lending::WithMutated => panic!(rt; "no call of owners"),
        }
    }
}

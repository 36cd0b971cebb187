//! The calls of OS strings and of paths.
use super::calls::Place;
use super::handle::{Change, Conversion, Copying, Handle, Lending, Making, Taking, Telling};
use super::held::{ADDED, EACH_HELD, Held, LISTS, TEXT, TEXTS};
use super::outcomes::{lent_back, of_json, of_memory, put_back, string_of};
use hipstr::Backend;
use hipstr::bytes::{HipByt, JsonFault};
use hipstr::os_string::HipOsStr;
use hipstr::path::HipPath;
use serde_json::Value;
use std::alloc::{AllocError, Global};
use std::process::Abort;

impl<B: Backend> Handle for HipOsStr<'static, B> {
    fn texts() -> &'static [&'static [u8]] {
        LISTS
    }

    fn each_held() -> &'static [Held] {
        EACH_HELD
    }

    fn of_vec(alloc: Global, vec: Vec<u8>) -> Result<Self, AllocError> {
        match HipByt::from_vec(alloc, vec) {
            Ok(bytes) => Ok(HipOsStr::from(bytes)),
            Err(_) => Err(AllocError),
        }
    }

    fn lent(bytes: &'static [u8]) -> Result<Self, AllocError> {
        Ok(HipOsStr::from(HipByt::borrowed(bytes)))
    }

    fn clone(&self, alloc: Global) -> Result<Self, AllocError> {
        self.clone(alloc)
    }

    fn seen(&self) -> (&[u8], Place) {
        let kinds = (self.is_inline(), self.is_borrowed(), self.is_allocated());
        (self.as_os_str(), (kinds, self.capacity()))
    }

    fn change(&mut self, rt: &impl Abort, alloc: Global, change: Change) -> bool {
        match change {
            Change::Push => self.push(alloc, ADDED).is_ok(),
            Change::ShrinkTo => self.shrink_to(alloc, 24).is_ok(),
            Change::ShrinkToFit => self.shrink_to_fit(alloc).is_ok(),
            Change::PushSlice
            | Change::PushStr
            | Change::WriteFmt
            | Change::WriteThrough
            | Change::Extend
            | Change::MakeAsciiUppercase
            | Change::MakeAsciiLowercase
            | Change::ToMutSlice
            | Change::WithToMutSlice => panic!(rt; "no call of OS strings"),
        }
    }

    fn copy(&self, rt: &impl Abort, alloc: Global, copying: Copying) -> Result<Self, AllocError> {
        match copying {
            Copying::Clone => self.clone(alloc),
            Copying::ToStr => match self.to_str(alloc)? {
                Some(text) => Ok(HipOsStr::from(text)),
                None => Ok(HipOsStr::new()),
            },
            Copying::ToStrLossy => Ok(HipOsStr::from(self.to_str_lossy(alloc)?)),
            Copying::Slice
            | Copying::SliceUnchecked
            | Copying::TrySlice
            | Copying::TrySliceBounds
            | Copying::Repeat
            | Copying::RepeatOnce
            | Copying::ToAsciiUppercase
            | Copying::ToAsciiLowercase
            | Copying::Cut(_) => panic!(rt; "no call of OS strings"),
        }
    }

    fn convert(
        self,
        rt: &impl Abort,
        alloc: Global,
        conversion: Conversion,
        bytes: &[u8],
    ) -> Result<bool, Self> {
        match conversion {
            Conversion::IntoOwned => Ok(self.into_owned(alloc)?.as_os_str() == bytes),
            Conversion::IntoOsString => Ok(self.into_os_string(alloc)?.as_slice() == bytes),
            Conversion::IntoVec
            | Conversion::IntoVecCopied
            | Conversion::IntoString
            | Conversion::IntoStringCopied
            | Conversion::IntoCow
            | Conversion::IntoPathBuf
            | Conversion::TryIntoVec
            | Conversion::FromUtf8Lossy => panic!(rt; "no call of OS strings"),
        }
    }

    fn take(rt: &impl Abort, alloc: Global, taking: Taking, vec: Vec<u8>) -> Result<Self, Vec<u8>> {
        match taking {
            Taking::FromString => match HipOsStr::from_string(alloc, string_of(vec)?) {
                Ok(name) => Ok(name),
                Err(back) => Err(back.into_bytes()),
            },
            Taking::New | Taking::FromVec | Taking::FromCow | Taking::TryFromVec => {
                panic!(rt; "no call of OS strings")
            }
        }
    }

    fn value(alloc: Global) -> Result<Value, JsonFault> {
        HipOsStr::<B>::borrowed(TEXT)
            .to_json(alloc)
            .or(Err(JsonFault::Memory))
    }

    fn make(rt: &impl Abort, alloc: Global, making: Making, value: &Value) -> Result<Self, bool> {
        match making {
            Making::WithCapacity => of_memory(HipOsStr::with_capacity(alloc, 64)),
            Making::FromStr => of_memory(HipOsStr::from_str(alloc, TEXT)),
            Making::FromJson => of_json(HipOsStr::from_json(alloc, value)),
            Making::FromSlice
            | Making::ConcatSlices
            | Making::Concat
            | Making::JoinSlices
            | Making::Join
            | Making::FromIterated
            | Making::TryFromSlice
            | Making::FromUtf16
            | Making::FromUtf16Lossy
            | Making::DeserializeReader
            | Making::CopyCounted => panic!(rt; "no call of OS strings"),
        }
    }

    fn tell(&self, rt: &impl Abort, alloc: Global, telling: Telling) -> bool {
        match telling {
            Telling::ToJson => self.to_json(alloc).is_ok(),
            Telling::Serialize => panic!(rt; "no call of OS strings"),
        }
    }

    fn lend(
        &mut self,
        _rt: &impl Abort,
        alloc: Global,
        lending: Lending,
    ) -> Result<(), Option<Vec<u8>>> {
        match lending {
            Lending::Mutate => match self.mutate(alloc) {
                Ok(guard) => put_back(guard.finish(alloc)),
                Err(_) => Err(None),
            },
            Lending::WithMutated => { lent_back(self.with_mutated(alloc, |_vec: &mut Vec<u8>| ())) }
        }
    }
}

impl<B: Backend> Handle for HipPath<'static, B> {
    fn texts() -> &'static [&'static [u8]] {
        TEXTS
    }

    fn each_held() -> &'static [Held] {
        EACH_HELD
    }

    fn of_vec(alloc: Global, vec: Vec<u8>) -> Result<Self, AllocError> {
        match HipByt::from_vec(alloc, vec) {
            Ok(bytes) => Ok(HipPath::from(HipOsStr::from(bytes))),
            Err(_) => Err(AllocError),
        }
    }

    fn lent(bytes: &'static [u8]) -> Result<Self, AllocError> {
        Ok(HipPath::from(HipOsStr::from(HipByt::borrowed(bytes))))
    }

    fn clone(&self, alloc: Global) -> Result<Self, AllocError> {
        self.clone(alloc)
    }

    fn seen(&self) -> (&[u8], Place) {
        let kinds = (self.is_inline(), self.is_borrowed(), self.is_allocated());
        (self.as_path(), (kinds, self.capacity()))
    }

    fn change(&mut self, rt: &impl Abort, alloc: Global, change: Change) -> bool {
        match change {
            Change::ShrinkTo => self.shrink_to(alloc, 24).is_ok(),
            Change::ShrinkToFit => self.shrink_to_fit(alloc).is_ok(),
            Change::Push
            | Change::PushSlice
            | Change::PushStr
            | Change::WriteFmt
            | Change::WriteThrough
            | Change::Extend
            | Change::MakeAsciiUppercase
            | Change::MakeAsciiLowercase
            | Change::ToMutSlice
            | Change::WithToMutSlice => panic!(rt; "no call of paths"),
        }
    }

    fn copy(&self, rt: &impl Abort, alloc: Global, copying: Copying) -> Result<Self, AllocError> {
        match copying {
            Copying::Clone => self.clone(alloc),
            Copying::Slice
            | Copying::SliceUnchecked
            | Copying::TrySlice
            | Copying::TrySliceBounds
            | Copying::Repeat
            | Copying::RepeatOnce
            | Copying::ToAsciiUppercase
            | Copying::ToAsciiLowercase
            | Copying::Cut(_)
            | Copying::ToStr
            | Copying::ToStrLossy => panic!(rt; "no call of paths"),
        }
    }

    fn convert(
        self,
        rt: &impl Abort,
        alloc: Global,
        conversion: Conversion,
        bytes: &[u8],
    ) -> Result<bool, Self> {
        match conversion {
            Conversion::IntoOwned => Ok(self.into_owned(alloc)?.as_path() == bytes),
            Conversion::IntoOsString => Ok(self.into_os_string(alloc)?.as_slice() == bytes),
            Conversion::IntoPathBuf => Ok(self.into_path_buf(alloc)?.as_slice() == bytes),
            Conversion::IntoVec
            | Conversion::IntoVecCopied
            | Conversion::IntoString
            | Conversion::IntoStringCopied
            | Conversion::IntoCow
            | Conversion::TryIntoVec
            | Conversion::FromUtf8Lossy => panic!(rt; "no call of paths"),
        }
    }

    fn take(rt: &impl Abort, alloc: Global, taking: Taking, vec: Vec<u8>) -> Result<Self, Vec<u8>> {
        match taking {
            Taking::FromString => match HipPath::from_string(alloc, string_of(vec)?) {
                Ok(path) => Ok(path),
                Err(back) => Err(back.into_bytes()),
            },
            Taking::New | Taking::FromVec | Taking::FromCow | Taking::TryFromVec => {
                panic!(rt; "no call of paths")
            }
        }
    }

    fn value(alloc: Global) -> Result<Value, JsonFault> {
        HipPath::<B>::borrowed(TEXT).to_json(alloc)
    }

    fn make(rt: &impl Abort, alloc: Global, making: Making, value: &Value) -> Result<Self, bool> {
        match making {
            Making::FromStr => of_memory(HipPath::from_str(alloc, TEXT)),
            Making::FromJson => of_json(HipPath::from_json(alloc, value)),
            Making::WithCapacity
            | Making::FromSlice
            | Making::ConcatSlices
            | Making::Concat
            | Making::JoinSlices
            | Making::Join
            | Making::FromIterated
            | Making::TryFromSlice
            | Making::FromUtf16
            | Making::FromUtf16Lossy
            | Making::DeserializeReader
            | Making::CopyCounted => panic!(rt; "no call of paths"),
        }
    }

    fn tell(&self, rt: &impl Abort, alloc: Global, telling: Telling) -> bool {
        match telling {
            Telling::ToJson => self.to_json(alloc).is_ok(),
            Telling::Serialize => panic!(rt; "no call of paths"),
        }
    }

    fn lend(
        &mut self,
        _rt: &impl Abort,
        alloc: Global,
        lending: Lending,
    ) -> Result<(), Option<Vec<u8>>> {
        match lending {
            Lending::Mutate => match self.mutate(alloc) {
                Ok(guard) => put_back(guard.finish(alloc)),
                Err(_) => Err(None),
            },
            Lending::WithMutated => { lent_back(self.with_mutated(alloc, |_vec: &mut Vec<u8>| ())) }
        }
    }
}

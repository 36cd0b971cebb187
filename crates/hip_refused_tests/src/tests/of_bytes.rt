//! The calls of byte strings.
use super::calls::Place;
use super::handle::{Change, Conversion, Copying, Cut, Handle, Lending, Making, Taking, Telling};
use super::held::{ADDED, BROKEN, EACH_HELD, FORM, Held, LISTS, PARTS};
use super::outcomes::{
    is_cow, is_written, lent_back, of_borsh, of_growth, of_json, of_memory, put_back,
};
use hipstr::bytes::{ByteCuts, HipByt, JsonFault};
use hipstr::string::HipStr;
use hipstr::{Backend, SliceSource, VecSink};
use serde_json::Value;
use std::alloc::{AllocError, Global};
use std::borrow::CowSlice;
use std::ops::Bound;
use std::process::Abort;

impl<B: Backend> Handle for HipByt<'static, B> {
    fn texts() -> &'static [&'static [u8]] {
        LISTS
    }

    fn each_held() -> &'static [Held] {
        EACH_HELD
    }

    fn of_vec(alloc: Global, vec: Vec<u8>) -> Result<Self, AllocError> {
        HipByt::from_vec(alloc, vec).or(Err(AllocError))
    }

    fn lent(bytes: &'static [u8]) -> Result<Self, AllocError> {
        Ok(HipByt::borrowed(bytes))
    }

    fn clone(&self, alloc: Global) -> Result<Self, AllocError> {
        self.clone(alloc)
    }

    fn seen(&self) -> (&[u8], Place) {
        let kinds = (self.is_inline(), self.is_borrowed(), self.is_allocated());
        (self.as_slice(), (kinds, self.capacity()))
    }

    fn change(&mut self, rt: &impl Abort, alloc: Global, change: Change) -> bool {
        match change {
            Change::Push => self.push(alloc, b'!').is_ok(),
            Change::PushSlice => self.push_slice(alloc, &[b'!'; 200]).is_ok(),
            Change::WriteFmt => {
                let written = self.write_fmt(alloc, format_args!("{ADDED}-{}", 1));
                written.is_ok()
            }
            Change::WriteThrough => {
                let mut out = self.writer(alloc);
                let written = write!(out, "{ADDED}-{}", 1);
                written.is_ok()
            }
            Change::Extend => self.extend_bytes(alloc, [b'!'; 200]).is_ok(),
            Change::ShrinkTo => self.shrink_to(alloc, 24).is_ok(),
            Change::ShrinkToFit => self.shrink_to_fit(alloc).is_ok(),
            Change::MakeAsciiUppercase => self.make_ascii_uppercase(alloc).is_ok(),
            Change::MakeAsciiLowercase => self.make_ascii_lowercase(alloc).is_ok(),
            Change::ToMutSlice => match self.to_mut_slice(alloc) {
                Ok(bytes) => {
                    bytes.reverse();
                    true
                }
                Err(_) => false,
            },
            Change::WithToMutSlice => {
                let written = self.with_to_mut_slice(alloc, |bytes| bytes.reverse());
                written.is_ok()
            }
            Change::PushStr => panic!(rt; "no call of byte strings"),
        }
    }

    fn copy(&self, rt: &impl Abort, alloc: Global, copying: Copying) -> Result<Self, AllocError> {
        match copying {
            Copying::Clone => self.clone(alloc),
            Copying::Slice => self.slice(alloc, ..),
            Copying::SliceUnchecked => self.slice_unchecked(alloc, ..),
            Copying::TrySlice => self.try_slice(alloc, ..).or(Err(AllocError)),
            Copying::TrySliceBounds => {
                let slice = self.try_slice_bounds(alloc, Bound::Unbounded, Bound::Unbounded);
                slice.or(Err(AllocError))
            }
            Copying::Repeat => self.repeat(alloc, 2).or(Err(AllocError)),
            Copying::RepeatOnce => self.repeat(alloc, 1).or(Err(AllocError)),
            Copying::ToAsciiUppercase => self.to_ascii_uppercase(alloc),
            Copying::ToAsciiLowercase => self.to_ascii_lowercase(alloc),
            Copying::Cut(cut) => cut_of(rt, self, alloc, cut),
            Copying::ToStr | Copying::ToStrLossy => panic!(rt; "no call of byte strings"),
        }
    }

    fn convert(
        self,
        rt: &impl Abort,
        alloc: Global,
        conversion: Conversion,
        bytes: &[u8],
    ) -> Result<bool, Self> {
        match conversion {
            Conversion::IntoOwned => Ok(self.into_owned(alloc)?.as_slice() == bytes),
            Conversion::IntoVec => Ok(self.into_vec(alloc)?.as_slice() == bytes),
            Conversion::IntoVecCopied => Ok(self.into_vec_copied(alloc)?.as_slice() == bytes),
            Conversion::IntoCow => Ok(is_cow(self.into_cow(alloc)?, bytes)),
            Conversion::FromUtf8Lossy => {
                let text = HipStr::from_utf8_lossy(alloc, self)?;
                Ok(text.len() == bytes.len() || text.len() == bytes.len().saturating_add(2))
            }
            Conversion::IntoString
            | Conversion::IntoStringCopied
            | Conversion::IntoOsString
            | Conversion::IntoPathBuf
            | Conversion::TryIntoVec => panic!(rt; "no call of byte strings"),
        }
    }

    fn take(rt: &impl Abort, alloc: Global, taking: Taking, vec: Vec<u8>) -> Result<Self, Vec<u8>> {
        match taking {
            Taking::FromVec => HipByt::from_vec(alloc, vec),
            Taking::FromCow => match HipByt::from_cow(alloc, CowSlice::Owned(vec)) {
                Ok(handle) => Ok(handle),
                Err(CowSlice::Owned(back)) => Err(back),
                Err(CowSlice::Borrowed(_)) => Err(Vec::new(alloc)),
            },
            Taking::New | Taking::FromString | Taking::TryFromVec => {
                panic!(rt; "no call of byte strings")
            }
        }
    }

    fn value(alloc: Global) -> Result<Value, JsonFault> {
        HipByt::<B>::borrowed(BROKEN)
            .to_json(alloc)
            .or(Err(JsonFault::Memory))
    }

    fn make(rt: &impl Abort, alloc: Global, making: Making, value: &Value) -> Result<Self, bool> {
        match making {
            Making::WithCapacity => of_memory(HipByt::with_capacity(alloc, 64)),
            Making::FromSlice => of_memory(HipByt::from_slice(alloc, BROKEN)),
            Making::ConcatSlices => of_growth(HipByt::concat_slices(alloc, &PARTS)),
            Making::Concat => of_growth(HipByt::concat(alloc, PARTS)),
            Making::JoinSlices => of_growth(HipByt::join_slices(alloc, &PARTS, b"-")),
            Making::Join => of_growth(HipByt::join(alloc, PARTS, b"-")),
            Making::FromIterated => of_growth(HipByt::from_bytes(alloc, [b'!'; 200])),
            Making::FromJson => of_json(HipByt::from_json(alloc, value)),
            Making::DeserializeReader => {
                let mut source = SliceSource::new(FORM);
                of_borsh(HipByt::deserialize_reader(alloc, &mut source))
            }
            Making::FromStr
            | Making::TryFromSlice
            | Making::FromUtf16
            | Making::FromUtf16Lossy
            | Making::CopyCounted => panic!(rt; "no call of byte strings"),
        }
    }

    fn tell(&self, _rt: &impl Abort, alloc: Global, telling: Telling) -> bool {
        match telling {
            Telling::ToJson => self.to_json(alloc).is_ok(),
            Telling::Serialize => {
                let mut sink = VecSink::new(alloc);
                let written = self.serialize(&mut sink);
                is_written(written, &sink)
            }
        }
    }

    fn lend(
        &mut self,
        _rt: &impl Abort,
        alloc: Global,
        lending: Lending,
    ) -> Result<(), Option<Vec<u8>>> {
        match lending {
            Lending::Mutate => match self.mutate(alloc) {
                Ok(guard) => put_back(guard.finish(alloc)),
                Err(_) => Err(None),
            },
            Lending::WithMutated => { lent_back(self.with_mutated(alloc, |_vec: &mut Vec<u8>| ())) }
        }
    }
}

/// The part of bytes that a call cuts out, or the last one where it gives several.
fn cut_of<B: Backend>(
    rt: &impl Abort,
    bytes: &HipByt<'static, B>,
    alloc: Global,
    cut: Cut,
) -> Result<HipByt<'static, B>, AllocError> {
    match cut {
        Cut::Trim => bytes.trim_ascii(alloc),
        Cut::TrimStart => bytes.trim_ascii_start(alloc),
        Cut::TrimEnd => bytes.trim_ascii_end(alloc),
        Cut::SplitOnce => Ok(behind(bytes.split_once(alloc, b',')?)),
        Cut::RsplitOnce => Ok(behind(bytes.rsplit_once(alloc, b',')?)),
        Cut::Split => Ok(
            bytes
                .split(alloc, b',')
                .collect()?
                .pop()
                .unwrap_or_default(),
        ),
        Cut::Lines => Ok(bytes.lines(alloc).collect()?.pop().unwrap_or_default()),
        Cut::TrimMatches
        | Cut::TrimStartMatches
        | Cut::TrimEndMatches
        | Cut::StripPrefix
        | Cut::StripSuffix
        | Cut::MatchIndices => panic!(rt; "no call of byte strings"),
    }
}

/// The second part, if there are two.
fn behind<B: Backend>(
    parts: Option<(HipByt<'static, B>, HipByt<'static, B>)>,
) -> HipByt<'static, B> {
    match parts {
        Some((_front, back)) => back,
        None => HipByt::new(),
    }
}

//! The calls of texts.
use super::calls::Place;
use super::handle::{Change, Conversion, Copying, Cut, Handle, Lending, Making, Taking, Telling};
use super::held::{
    ADDED, BYTES, EACH_HELD, FORM, Held, PART, TEXT, TEXT_PARTS, TEXTS, UNITS, UNITS_AND_ONE,
};
use super::outcomes::{
    bytes_back, is_written, lent_back, of_borsh, of_bytes, of_growth, of_json, of_memory, of_utf16,
    put_back, string_of,
};
use hipstr::bytes::{HipByt, JsonFault};
use hipstr::string::{HipStr, TextCuts};
use hipstr::{Backend, SliceSource, VecSink};
use serde_json::Value;
use std::alloc::{AllocError, Global};
use std::borrow::CowStr;
use std::ops::Bound;
use std::process::Abort;

impl<B: Backend> Handle for HipStr<'static, B> {
    fn texts() -> &'static [&'static [u8]] {
        TEXTS
    }

    fn each_held() -> &'static [Held] {
        EACH_HELD
    }

    fn of_vec(alloc: Global, vec: Vec<u8>) -> Result<Self, AllocError> {
        HipStr::try_from_vec(alloc, vec).or(Err(AllocError))
    }

    fn lent(bytes: &'static [u8]) -> Result<Self, AllocError> {
        HipStr::from_utf8(HipByt::borrowed(bytes)).or(Err(AllocError))
    }

    fn clone(&self, alloc: Global) -> Result<Self, AllocError> {
        self.clone(alloc)
    }

    fn seen(&self) -> (&[u8], Place) {
        let kinds = (self.is_inline(), self.is_borrowed(), self.is_allocated());
        (self.as_bytes(), (kinds, self.capacity()))
    }

    fn change(&mut self, rt: &impl Abort, alloc: Global, change: Change) -> bool {
        match change {
            Change::Push => self.push(alloc, 'é').is_ok(),
            Change::PushStr => self.push_str(alloc, ADDED).is_ok(),
            Change::WriteFmt => {
                let written = self.write_fmt(alloc, format_args!("{ADDED}-{}", 1));
                written.is_ok()
            }
            Change::WriteThrough => {
                let mut out = self.writer(alloc);
                let written = write!(out, "{ADDED}-{}", 1);
                written.is_ok()
            }
            Change::Extend => self.extend_chars(alloc, ['é'; 20]).is_ok(),
            Change::ShrinkTo => self.shrink_to(alloc, 24).is_ok(),
            Change::ShrinkToFit => self.shrink_to_fit(alloc).is_ok(),
            Change::MakeAsciiUppercase => self.make_ascii_uppercase(alloc).is_ok(),
            Change::MakeAsciiLowercase => self.make_ascii_lowercase(alloc).is_ok(),
            Change::PushSlice | Change::ToMutSlice | Change::WithToMutSlice => {
                panic!(rt; "no call of texts")
            }
        }
    }

    fn copy(&self, rt: &impl Abort, alloc: Global, copying: Copying) -> Result<Self, AllocError> {
        match copying {
            Copying::Clone => self.clone(alloc),
            // Whether the whole is a range of the text is tested first, which allocates as the
            // slice does.
            Copying::Slice => match self.try_slice(alloc, ..) {
                Ok(_) => self.slice(alloc, ..),
                Err(_) => Err(AllocError),
            },
            Copying::SliceUnchecked => match self.try_slice(alloc, ..) {
                Ok(_) => self.slice_unchecked(alloc, ..),
                Err(_) => Err(AllocError),
            },
            Copying::TrySlice => self.try_slice(alloc, ..).or(Err(AllocError)),
            Copying::TrySliceBounds => {
                let slice = self.try_slice_bounds(alloc, Bound::Unbounded, Bound::Unbounded);
                slice.or(Err(AllocError))
            }
            Copying::Repeat => self.repeat(alloc, 2).or(Err(AllocError)),
            Copying::RepeatOnce => self.repeat(alloc, 1).or(Err(AllocError)),
            Copying::ToAsciiUppercase => self.to_ascii_uppercase(alloc),
            Copying::ToAsciiLowercase => self.to_ascii_lowercase(alloc),
            Copying::Cut(cut) => cut_of(self, alloc, cut),
            Copying::ToStr | Copying::ToStrLossy => panic!(rt; "no call of texts"),
        }
    }

    fn convert(
        self,
        rt: &impl Abort,
        alloc: Global,
        conversion: Conversion,
        bytes: &[u8],
    ) -> Result<bool, Self> {
        match conversion {
            Conversion::IntoOwned => Ok(self.into_owned(alloc)?.as_bytes() == bytes),
            Conversion::IntoString => Ok(self.into_string(alloc)?.as_bytes() == bytes),
            Conversion::IntoStringCopied => Ok(self.into_string_copied(alloc)?.as_bytes() == bytes),
            Conversion::IntoCow => match self.into_cow(alloc)? {
                CowStr::Borrowed(lent) => Ok(lent.as_bytes() == bytes),
                CowStr::Owned(string) => Ok(string.as_bytes() == bytes),
            },
            Conversion::IntoVec
            | Conversion::IntoVecCopied
            | Conversion::IntoOsString
            | Conversion::IntoPathBuf
            | Conversion::TryIntoVec
            | Conversion::FromUtf8Lossy => panic!(rt; "no call of texts"),
        }
    }

    fn take(rt: &impl Abort, alloc: Global, taking: Taking, vec: Vec<u8>) -> Result<Self, Vec<u8>> {
        match taking {
            Taking::TryFromVec => match HipStr::try_from_vec(alloc, vec) {
                Ok(text) => Ok(text),
                Err((_fault, back)) => Err(back),
            },
            Taking::FromCow => match HipStr::from_cow(alloc, CowStr::Owned(string_of(vec)?)) {
                Ok(text) => Ok(text),
                Err(CowStr::Owned(back)) => Err(back.into_bytes()),
                Err(CowStr::Borrowed(_)) => Err(Vec::new(alloc)),
            },
            Taking::FromString => match HipStr::from_string(alloc, string_of(vec)?) {
                Ok(text) => Ok(text),
                Err(back) => Err(back.into_bytes()),
            },
            Taking::New | Taking::FromVec => panic!(rt; "no call of texts"),
        }
    }

    fn value(alloc: Global) -> Result<Value, JsonFault> {
        HipStr::<B>::borrowed(TEXT)
            .to_json(alloc)
            .or(Err(JsonFault::Memory))
    }

    fn make(rt: &impl Abort, alloc: Global, making: Making, value: &Value) -> Result<Self, bool> {
        match making {
            Making::WithCapacity => of_memory(HipStr::with_capacity(alloc, 64)),
            Making::FromStr => of_memory(HipStr::from_str(alloc, TEXT)),
            Making::ConcatSlices => of_growth(HipStr::concat_slices(alloc, &TEXT_PARTS)),
            Making::Concat => of_growth(HipStr::concat(alloc, TEXT_PARTS)),
            Making::JoinSlices => of_growth(HipStr::join_slices(alloc, &TEXT_PARTS, "-")),
            Making::Join => of_growth(HipStr::join(alloc, TEXT_PARTS, "-")),
            Making::TryFromSlice => of_bytes(HipStr::try_from_slice(alloc, BYTES)),
            Making::FromUtf16 => of_utf16(HipStr::from_utf16(alloc, UNITS)),
            Making::FromUtf16Lossy => of_memory(HipStr::from_utf16_lossy(alloc, UNITS_AND_ONE)),
            Making::FromIterated => of_growth(HipStr::from_chars(alloc, ['é'; 20])),
            Making::FromJson => of_json(HipStr::from_json(alloc, value)),
            Making::DeserializeReader => {
                let mut source = SliceSource::new(FORM);
                of_borsh(HipStr::deserialize_reader(alloc, &mut source))
            }
            Making::FromSlice | Making::CopyCounted => panic!(rt; "no call of texts"),
        }
    }

    fn tell(&self, _rt: &impl Abort, alloc: Global, telling: Telling) -> bool {
        match telling {
            Telling::ToJson => self.to_json(alloc).is_ok(),
            Telling::Serialize => {
                let mut sink = VecSink::new(alloc);
                let written = self.serialize(&mut sink);
                is_written(written, &sink)
            }
        }
    }

    fn lend(
        &mut self,
        _rt: &impl Abort,
        alloc: Global,
        lending: Lending,
    ) -> Result<(), Option<Vec<u8>>> {
        match lending {
            Lending::Mutate => match self.mutate(alloc) {
                Ok(guard) => bytes_back(put_back(guard.finish(alloc))),
                Err(_) => Err(None),
            },
            Lending::WithMutated => {
                bytes_back(lent_back(self.with_mutated(alloc, |_string: &mut String| ())))
            }
        }
    }
}

/// The part of a text that a call cuts out, or the last one where it gives several.
fn cut_of<B: Backend>(
    text: &HipStr<'static, B>,
    alloc: Global,
    cut: Cut,
) -> Result<HipStr<'static, B>, AllocError> {
    match cut {
        Cut::Trim => text.trim(alloc),
        Cut::TrimStart => text.trim_start(alloc),
        Cut::TrimEnd => text.trim_end(alloc),
        Cut::TrimMatches => text.trim_matches(alloc, ' '),
        Cut::TrimStartMatches => text.trim_start_matches(alloc, " "),
        Cut::TrimEndMatches => text.trim_end_matches(alloc, " "),
        Cut::StripPrefix => Ok(text.strip_prefix(alloc, " ")?.unwrap_or_default()),
        Cut::StripSuffix => Ok(text.strip_suffix(alloc, " ")?.unwrap_or_default()),
        Cut::SplitOnce => Ok(behind(text.split_once(alloc, ",")?)),
        Cut::RsplitOnce => Ok(behind(text.rsplit_once(alloc, ',')?)),
        Cut::Split => Ok(text.split(alloc, ',').collect()?.pop().unwrap_or_default()),
        Cut::Lines => Ok(text.lines(alloc).collect()?.pop().unwrap_or_default()),
        Cut::MatchIndices => {
            let mut matches = text.match_indices(alloc, PART).collect()?;
            Ok(match matches.pop() {
                Some((_, found)) => found,
                None => HipStr::new(),
            })
        }
    }
}

/// The second part, if there are two.
fn behind<B: Backend>(
    parts: Option<(HipStr<'static, B>, HipStr<'static, B>)>,
) -> HipStr<'static, B> {
    match parts {
        Some((_front, back)) => back,
        None => HipStr::new(),
    }
}

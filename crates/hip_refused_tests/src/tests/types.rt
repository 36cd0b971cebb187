//! The calls of each type that may allocate.
use super::calls::{Call, Type, of, on_both};
use super::handle::{Change, Conversion, Copying, Cut, Lending, Making, Taking, Telling};
use hipstr::bytes::HipByt;
use hipstr::os_string::HipOsStr;
use hipstr::path::HipPath;
use hipstr::string::HipStr;
use hipstr::{Allocated, Backend};
use std::alloc::Global;
use std::process::Abort;

const OF_OWNERS: &[Call] = &[
    Call::Change(Change::PushSlice),
    Call::Change(Change::ShrinkTo),
    Call::Copying(Copying::SliceUnchecked),
    Call::Conversion(Conversion::TryIntoVec),
    Call::Taking(Taking::New),
    Call::Making(Making::FromSlice),
    Call::Making(Making::CopyCounted),
];

/// The calls that all handles have.
const OF_ALL: &[Call] = &[
    Call::Change(Change::ShrinkTo),
    Call::Change(Change::ShrinkToFit),
    Call::Copying(Copying::Clone),
    Call::Conversion(Conversion::IntoOwned),
    Call::Making(Making::FromJson),
    Call::Telling(Telling::ToJson),
    Call::Lending(Lending::Mutate),
    Call::Lending(Lending::WithMutated),
];

/// The calls that byte strings and texts have.
const OF_LISTS: &[Call] = &[
    Call::Change(Change::Push),
    Call::Change(Change::WriteFmt),
    Call::Change(Change::WriteThrough),
    Call::Change(Change::Extend),
    Call::Change(Change::MakeAsciiUppercase),
    Call::Change(Change::MakeAsciiLowercase),
    Call::Copying(Copying::Slice),
    Call::Copying(Copying::SliceUnchecked),
    Call::Copying(Copying::TrySlice),
    Call::Copying(Copying::TrySliceBounds),
    Call::Copying(Copying::Repeat),
    Call::Copying(Copying::RepeatOnce),
    Call::Copying(Copying::ToAsciiUppercase),
    Call::Copying(Copying::ToAsciiLowercase),
    Call::Conversion(Conversion::IntoCow),
    Call::Taking(Taking::FromCow),
    Call::Making(Making::WithCapacity),
    Call::Making(Making::ConcatSlices),
    Call::Making(Making::Concat),
    Call::Making(Making::JoinSlices),
    Call::Making(Making::Join),
    Call::Making(Making::FromIterated),
    Call::Making(Making::DeserializeReader),
    Call::Telling(Telling::Serialize),
];

const OF_BYTES: &[Call] = &[
    Call::Change(Change::PushSlice),
    Call::Change(Change::ToMutSlice),
    Call::Change(Change::WithToMutSlice),
    Call::Conversion(Conversion::IntoVec),
    Call::Conversion(Conversion::IntoVecCopied),
    Call::Conversion(Conversion::FromUtf8Lossy),
    Call::Taking(Taking::FromVec),
    Call::Making(Making::FromSlice),
];

const OF_TEXTS: &[Call] = &[
    Call::Change(Change::PushStr),
    Call::Conversion(Conversion::IntoString),
    Call::Conversion(Conversion::IntoStringCopied),
    Call::Taking(Taking::FromString),
    Call::Taking(Taking::TryFromVec),
    Call::Making(Making::FromStr),
    Call::Making(Making::TryFromSlice),
    Call::Making(Making::FromUtf16),
    Call::Making(Making::FromUtf16Lossy),
];

const OF_CUTS: &[Call] = &[
    Call::Copying(Copying::Cut(Cut::Trim)),
    Call::Copying(Copying::Cut(Cut::TrimStart)),
    Call::Copying(Copying::Cut(Cut::TrimEnd)),
    Call::Copying(Copying::Cut(Cut::TrimMatches)),
    Call::Copying(Copying::Cut(Cut::TrimStartMatches)),
    Call::Copying(Copying::Cut(Cut::TrimEndMatches)),
    Call::Copying(Copying::Cut(Cut::StripPrefix)),
    Call::Copying(Copying::Cut(Cut::StripSuffix)),
    Call::Copying(Copying::Cut(Cut::SplitOnce)),
    Call::Copying(Copying::Cut(Cut::RsplitOnce)),
    Call::Copying(Copying::Cut(Cut::Split)),
    Call::Copying(Copying::Cut(Cut::Lines)),
    Call::Copying(Copying::Cut(Cut::MatchIndices)),
];

const OF_BYTE_CUTS: &[Call] = &[
    Call::Copying(Copying::Cut(Cut::Trim)),
    Call::Copying(Copying::Cut(Cut::TrimStart)),
    Call::Copying(Copying::Cut(Cut::TrimEnd)),
    Call::Copying(Copying::Cut(Cut::SplitOnce)),
    Call::Copying(Copying::Cut(Cut::RsplitOnce)),
    Call::Copying(Copying::Cut(Cut::Split)),
    Call::Copying(Copying::Cut(Cut::Lines)),
];

const OF_OS_STRINGS: &[Call] = &[
    Call::Change(Change::Push),
    Call::Copying(Copying::ToStr),
    Call::Copying(Copying::ToStrLossy),
    Call::Conversion(Conversion::IntoOsString),
    Call::Taking(Taking::FromString),
    Call::Making(Making::WithCapacity),
    Call::Making(Making::FromStr),
];

const OF_PATHS: &[Call] = &[
    Call::Conversion(Conversion::IntoOsString),
    Call::Conversion(Conversion::IntoPathBuf),
    Call::Taking(Taking::FromString),
    Call::Making(Making::FromStr),
];

struct Owners;

impl Type for Owners {
    fn refused<B: Backend>(rt: &impl Abort, alloc: Global, call: Call) -> usize {
        of::<Allocated<B>>(rt, alloc, call)
    }
}

#[test]
fn calls_of_owners(rt: HostRuntime) {
    on_both::<Owners>(&rt, rt.alloc(), &[OF_OWNERS]);
}

struct ByteStrings;

impl Type for ByteStrings {
    fn refused<B: Backend>(rt: &impl Abort, alloc: Global, call: Call) -> usize {
        of::<HipByt<'static, B>>(rt, alloc, call)
    }
}

#[test]
fn calls_of_byte_strings(rt: HostRuntime) {
    let tables = [OF_ALL, OF_LISTS, OF_BYTES, OF_BYTE_CUTS];
    on_both::<ByteStrings>(&rt, rt.alloc(), &tables);
}

struct Texts;

impl Type for Texts {
    fn refused<B: Backend>(rt: &impl Abort, alloc: Global, call: Call) -> usize {
        of::<HipStr<'static, B>>(rt, alloc, call)
    }
}

#[test]
fn calls_of_texts(rt: HostRuntime) {
    let tables = [OF_ALL, OF_LISTS, OF_TEXTS, OF_CUTS];
    on_both::<Texts>(&rt, rt.alloc(), &tables);
}

struct OsStrings;

impl Type for OsStrings {
    fn refused<B: Backend>(rt: &impl Abort, alloc: Global, call: Call) -> usize {
        of::<HipOsStr<'static, B>>(rt, alloc, call)
    }
}

#[test]
fn calls_of_os_strings(rt: HostRuntime) {
    let tables = [OF_ALL, OF_OS_STRINGS];
    on_both::<OsStrings>(&rt, rt.alloc(), &tables);
}

struct Paths;

impl Type for Paths {
    fn refused<B: Backend>(rt: &impl Abort, alloc: Global, call: Call) -> usize {
        of::<HipPath<'static, B>>(rt, alloc, call)
    }
}

#[test]
fn calls_of_paths(rt: HostRuntime) {
    let tables = [OF_ALL, OF_PATHS];
    on_both::<Paths>(&rt, rt.alloc(), &tables);
}

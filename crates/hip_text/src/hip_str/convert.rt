//! Conversions.
ghost use Rattle.std.specs.Prelude.{◌≡◌, ◌<◌, IsOkAnd, IfOk, IfErr, OnOk, OnErr, length};
ghost use Rattle.std.specs.Cow.{cow_str_bytes, IsBorrowedStr, IsOwnedStr};
ghost use Rattle.std.specs.String.{string_bytes};
ghost use Rattle.hip_bytes.specs.Cost.{lent_count, owned_cost, taken_cost};
ghost use Rattle.hip_bytes.specs.Kinds.{by_length, HasCapacity};
ghost use Rattle.hip_bytes.specs.Made.{MakeAnswers, OwnedAnswers};
ghost use Rattle.hip_bytes.specs.Meter.{RisesAtLeast, RisesAtMost};
ghost use Rattle.hip_bytes.specs.declared.kind.TheConstants.{INLINE_CAPACITY};

use super::HipStr;
use hip_bytes::{Backend, HipByt, Kind, Meter};
use std::alloc::Global;
use std::borrow::CowStr;

impl<'b, B: Backend> HipStr<'b, B> {
    /// An equal text that no other value lends. Only lent bytes are copied. A refused value is handed back.
    #[inline]
    pub fn into_owned(self, alloc: Global) -> Result<HipStr<'static, B>, Self>
        ensures owned { OwnedAnswers self.entry result }
    {
        self.into_owned_metered(alloc, &mut Meter::new())
    }

    /// [`HipStr::into_owned`], counted.
    #[tactic(auto, using(crate::proofs::Texts::texts))]
    #[inline]
    pub fn into_owned_metered(
        self,
        alloc: Global,
        meter: &mut Meter,
    ) -> Result<HipStr<'static, B>, Self>
        ensures owned { OwnedAnswers self.entry result }
        ensures counted { RisesAtMost meter.old meter.new
            (owned_cost B.SHARES self.entry.kind (length self.entry.items)) }
        ensures copied { OnOk result (RisesAtLeast meter.old meter.new
            (lent_count self.entry.kind (length self.entry.items))) }
    {
        match self.into_bytes().into_owned_metered(alloc, meter) {
            Ok(bytes) => Ok(HipStr { bytes }),
            Err(bytes) => Err(HipStr { bytes }),
        }
    }

    /// The text of a `String`, which is taken over where it is too long for the handle itself. A refused one is handed back.
    #[inline]
    pub fn from_string(alloc: Global, string: String) -> Result<Self, String>
        ensures made { MakeAnswers (string_bytes string) result }
        ensures handed_back { IfErr result (λ back. back ≡ string) }
    {
        Self::from_string_metered(alloc, string, &mut Meter::new())
    }

    /// [`HipStr::from_string`], counted.
    #[tactic(auto, using(crate::proofs::Texts::strings))]
    #[inline]
    pub fn from_string_metered(
        alloc: Global,
        string: String,
        meter: &mut Meter,
    ) -> Result<Self, String>
        ensures made { MakeAnswers (string_bytes string) result }
        ensures counted { RisesAtMost meter.old meter.new
            (taken_cost B.SHARES (length (string_bytes string))) }
        ensures handed_back { IfErr result (λ back. back ≡ string) }
    {
        match HipByt::from_vec_metered(alloc, string.into_bytes(), meter) {
            Ok(bytes) => Ok(HipStr { bytes }),
            Err(vec) => Err(unsafe { String::from_utf8_unchecked(vec) }),
        }
    }

    /// The text in a `String`, where that takes no copy: it lies with an owner that no other handle shares. Any other value is handed
    /// back.
    #[tactic(auto, using(crate::proofs::Texts::texts))]
    #[inline]
    pub fn into_string(self, alloc: Global) -> Result<String, Self>
        ensures items { IfOk result (λ string. string_bytes string ≡ self.entry.items) }
        ensures kind { OnOk result (self.entry.kind ≡ Kind.Allocated) }
        ensures handed_back { IfErr result (λ back. back ≡ self.entry) }
    {
        match self.into_bytes().into_vec(alloc) {
            Ok(vec) => Ok(unsafe { String::from_utf8_unchecked(vec) }),
            Err(bytes) => Err(HipStr { bytes }),
        }
    }

    /// The text in a `String`, copied where [`HipStr::into_string`] hands the value back. A refused value is handed back.
    #[inline]
    pub fn into_string_copied(self, alloc: Global) -> Result<String, Self>
        ensures items { IfOk result (λ string. string_bytes string ≡ self.entry.items) }
        ensures handed_back { IfErr result (λ back. back ≡ self.entry) }
    {
        match self.into_bytes().into_vec_copied(alloc) {
            Ok(vec) => Ok(unsafe { String::from_utf8_unchecked(vec) }),
            Err(bytes) => Err(HipStr { bytes }),
        }
    }

    /// The text of a `Cow`: a borrowed one stays so, and a `String` is taken over as by [`HipStr::from_string`]. A refused one is
    /// handed back.
    #[inline]
    pub fn from_cow(alloc: Global, cow: CowStr<'b>) -> Result<Self, CowStr<'b>>
        ensures items { IfOk result (λ text. text.items ≡ cow_str_bytes cow.entry) }
        ensures borrowed { IsBorrowedStr cow.entry
            → IsOkAnd result (λ text. text.kind ≡ Kind.Borrowed) }
        ensures owned { IsOwnedStr cow.entry
            → IfOk result (λ text. text.kind ≡ by_length (length (cow_str_bytes cow.entry))) }
        ensures capacity { IfOk result
            (λ text. HasCapacity text.kind (length text.items) text.capacity) }
        ensures memory { OnErr result (INLINE_CAPACITY < length (cow_str_bytes cow.entry)) }
        ensures handed_back { IfErr result (λ back. back ≡ cow.entry) }
    {
        match cow {
            CowStr::Borrowed(text) => Ok(HipStr::borrowed(text)),
            CowStr::Owned(string) => match HipStr::from_string(alloc, string) {
                Ok(text) => Ok(text),
                Err(string) => Err(CowStr::Owned(string)),
            },
        }
    }

    /// The text as a `Cow`: a borrowed one stays so, others go into a `String` as by [`HipStr::into_string_copied`]. A refused value
    /// is handed back.
    #[inline]
    pub fn into_cow(self, alloc: Global) -> Result<CowStr<'b>, Self>
        ensures items { IfOk result (λ cow. cow_str_bytes cow ≡ self.entry.items) }
        ensures borrowed { self.entry.kind ≡ Kind.Borrowed → IfOk result IsBorrowedStr }
        ensures owned { (self.entry.kind ≡ Kind.Borrowed → ⊥) → IfOk result IsOwnedStr }
        ensures memory { OnErr result (self.entry.kind ≡ Kind.Borrowed → ⊥) }
        ensures handed_back { IfErr result (λ back. back ≡ self.entry) }
    {
        match self.as_borrowed() {
            Some(text) => Ok(CowStr::Borrowed(text)),
            None => Ok(CowStr::Owned(self.into_string_copied(alloc)?)),
        }
    }
}

impl<'b, B: Backend> From<HipStr<'b, B>> for HipByt<'b, B> {
    ghost from_gives = { λ text bytes. bytes ≡ text };

    #[inline]
    fn from(text: HipStr<'b, B>) -> Self {
        text.into_bytes()
    }
}

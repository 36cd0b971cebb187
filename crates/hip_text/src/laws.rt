//! Laws of texts: the contract of each function is the law.
ghost use Rattle.std.specs.Prelude.{ℕ, List, ◌≡◌, ◌+◌, ◌-◌, ◌≤◌, IsOkAnd, length, slice_range};
ghost use Rattle.std.specs.Str.{IsCharBoundary};
ghost use Rattle.hip_text.specs.Utf16.{SpellsWhatEncodes};

use crate::from_utf8_error::FromUtf8Error;
use crate::hip_str::HipStr;
use hip_bytes::Backend;

/// A slice of a slice of a text is one slice of the text, at summed positions, which are boundaries of it. (Its kind is that of
/// [`hip_bytes::laws::slice_of_slice`].)
pub fn slice_of_slice(text: &str, start: usize, end: usize, from: usize, to: usize)
    requires slice { (start ≤ end) × IsCharBoundary text.now end }
    requires slice_of_it { (from ≤ to) × IsCharBoundary (slice_range text.now start end) from
        × IsCharBoundary (slice_range text.now start end) to }
    ensures items { slice_range (slice_range text.now start end) from to
        ≡ slice_range text.now (start + from) (start + to) }
    ensures ordered { (start + from ≤ start + to) × (start + to ≤ length text.now) }
    ensures boundaries { IsCharBoundary text.now (start + from)
        × IsCharBoundary text.now (start + to) }
{}

/// The bytes of a text are the same text again.
pub fn utf8_round_trip<'b, B: Backend>(
    text: HipStr<'b, B>,
) -> Result<HipStr<'b, B>, FromUtf8Error<'b, B>>
    ensures { IsOkAnd result (λ back. back ≡ text.entry) }
{
    HipStr::from_utf8(text.into_bytes())
}

/// Units of UTF-16 spell just the characters that, each encoded and put one after another, are the units: what
/// [`HipStr::from_utf16`] reads is what Rust's `str::encode_utf16` writes.
pub fn utf16_spells_what_encodes(units: &[u16])
    ensures { (cs : List ℕ) → SpellsWhatEncodes units.now cs }
{}

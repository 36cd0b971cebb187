//! Paths as texts.
ghost use Rattle.std.specs.Prelude.{◌≡◌, IsUtf8, MatchOption, Some};
ghost use Rattle.std.specs.Str.{encode_utf8_all};
ghost use Rattle.bstr.specs.Utf8.{lossy_chars};
ghost use Rattle.hip_names.specs.Displayed.{displayed};

use super::HipPath;
use bstr::ByteSlice;
use hip_bytes::Backend;
use simdutf8::basic;
use std::fmt;

/// A path that is printed as a text. Where its bytes aren't UTF-8, U+FFFD stands for them, as in
/// [`HipOsStr::to_str_lossy`](crate::HipOsStr::to_str_lossy).
#[derive(Clone, Drop)]
pub struct Display<'a> {
    path: &'a [u8],
}

impl<'a> fmt::Display for Display<'a> {
    ghost output = { λ display. Some (encode_utf8_all (lossy_chars (displayed display))) };

    fn fmt<W: fmt::Write>(&self, f: &mut fmt::Formatter<W>) -> fmt::Result {
        fmt::Display::fmt(&self.path.as_bstr(), f)
    }
}

impl<'b, B: Backend> HipPath<'b, B> {
    /// The text of the bytes, where they are UTF-8.
    #[inline]
    pub fn to_str(&self) -> Option<&str>
        ensures utf8 { MatchOption result (¬ (IsUtf8 self.now.items))
            (λ text. IsUtf8 self.now.items × (text.now ≡ self.now.items)) }
    {
        basic::from_utf8(self.as_path()).ok()
    }

    /// The path as it is printed.
    #[inline]
    pub fn display(&self) -> Display<'_>
        ensures { displayed result ≡ self.now.items }
    {
        Display {
            path: self.as_path(),
        }
    }
}

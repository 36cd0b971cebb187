//! Bytes that aren't a text.
ghost use Rattle.std.specs.Prelude.{◌≡◌, nat_eq};
ghost use Rattle.std.specs.Cmp.{partial_equiv_from_equiv, on_per, on_equiv};
ghost use Rattle.std.specs.Cmp.Lexicographic.{pointwise, nat_list_eq_equiv};
ghost use Rattle.hip_text.specs.Decode.{CloneErrorAnswers, IsCauseOf};

use hip_bytes::{Backend, HipByt};
use std::alloc::{AllocError, Global};
use std::error::Error;
use std::fmt;
use std::marker::Model;
use std::str::Utf8Error;

/// Bytes that aren't UTF-8, and what is wrong with them.
#[derive(Drop)]
pub struct FromUtf8Error<'b, B: Backend> {
    bytes: HipByt<'b, B>,
    error: Utf8Error,
}

impl<'b, B: Backend> Model for FromUtf8Error<'b, B> {
    ghost use Rattle.hip_text.specs.Decode.{IsCauseOf, Utf8Failure};

    ghost Value = { Utf8Failure };

    ghost view = { λ e. record { bytes = e.bytes; cause = e.error } };

    ghost invariant = { λ e. IsCauseOf e.bytes.items e.error };
}

impl<'b, B: Backend> FromUtf8Error<'b, B> {
    pub(crate) fn new(bytes: HipByt<'b, B>, error: Utf8Error) -> Self
        requires { IsCauseOf bytes.items error }
        ensures bytes { result.bytes ≡ bytes.entry }
        ensures cause { result.cause ≡ error }
    {
        FromUtf8Error { bytes, error }
    }

    /// The bytes.
    #[inline]
    pub fn as_bytes(&self) -> &[u8]
        ensures { result.now ≡ self.now.bytes.items }
    {
        self.bytes.as_slice()
    }

    /// The value that was refused.
    #[inline]
    pub fn into_bytes(self) -> HipByt<'b, B>
        ensures { result ≡ self.entry.bytes }
    {
        self.bytes
    }

    /// The fault of the bytes.
    #[inline]
    pub fn utf8_error(&self) -> Utf8Error
        ensures cause { result ≡ self.now.cause }
        ensures of_its_bytes { IsCauseOf self.now.bytes.items result }
    {
        self.error
    }

    /// A clone of the error, with a clone of the bytes.
    pub fn clone(&self, alloc: Global) -> Result<Self, AllocError>
        ensures clone { CloneErrorAnswers self.now result }
    {
        Ok(FromUtf8Error {
            bytes: self.bytes.clone(alloc)?,
            error: self.error,
        })
    }
}

/// By the bytes, which decide what is wrong with them.
impl<'b, B: Backend> PartialEq for FromUtf8Error<'b, B> {
    ghost eq = { λ a b. pointwise nat_eq a.bytes.items b.bytes.items };

    ghost laws = { on_per (λ error. error.bytes.items) (partial_equiv_from_equiv nat_list_eq_equiv) };

    fn eq(&self, other: &Self) -> bool {
        self.bytes == other.bytes
    }
}

impl<'b, B: Backend> Eq for FromUtf8Error<'b, B> {
    ghost laws = { on_equiv (λ error. error.bytes.items) nat_list_eq_equiv };
}

impl<'b, B: Backend> fmt::Debug for FromUtf8Error<'b, B> {
    fn fmt<W: fmt::Write>(&self, f: &mut fmt::Formatter<W>) -> fmt::Result {
        f.debug_struct("FromUtf8Error")
            .field("bytes", &self.bytes)
            .field("error", &self.error)
            .finish()
    }
}

impl<'b, B: Backend> fmt::Display for FromUtf8Error<'b, B> {
    fn fmt<W: fmt::Write>(&self, f: &mut fmt::Formatter<W>) -> fmt::Result {
        fmt::Display::fmt(&self.error, f)
    }
}

impl<'b, B: Backend> Error for FromUtf8Error<'b, B> {}

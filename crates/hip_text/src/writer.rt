//! A text that is written to.
ghost use Rattle.std.specs.Prelude.{◌≡◌, ◌++◌, IsOk, OnErr, OnOk};
ghost use Rattle.std.specs.Fmt.{AppendsText};
ghost use Rattle.hip_bytes.specs.Change.{PushAnswers, PushesText};

use crate::hip_str::HipStr;
use hip_bytes::Backend;
use std::alloc::{AllocError, Global};
use std::fmt::{self, Display};

/// A text with its allocator, for `write!` and as a [`fmt::Write`]. [`HipStr::writer`] makes one.
///
/// What was written stands in the text at once. A proof over a text of a named lifetime learns what it holds afterwards where the writer
/// is made of its fields, `Writer { text: &mut text, alloc }`, and not by a call.
#[derive(Drop)]
pub struct Writer<'a, 'b, B: Backend> {
    /// The text, at whose end is written.
    pub text: &'a mut HipStr<'b, B>,
    /// The allocator of what is written.
    pub alloc: Global,
}

impl<'a, 'b, B: Backend> Writer<'a, 'b, B> {
    /// What `write!` calls: [`HipStr::write_fmt`]. A refused write changes nothing, while one by [`fmt::Write`] may leave the part that
    /// was written.
    pub fn write_fmt<D: Display + Drop>(&mut self, value: D) -> Result<(), AllocError>
        ensures items { OnOk result
            (AppendsText self.old.text.now.items self.new.text.now.items (D.output value)) }
        ensures pushed { OnOk result (PushesText B.SHARES self.old.text.now self.new.text.now) }
        ensures err { OnErr result (self.new.text.now ≡ self.old.text.now) }
        ensures same_reference { self.new.text.ghost_name ≡ self.old.text.ghost_name }
    {
        self.text.write_fmt(self.alloc, value)
    }
}

impl<'a, 'b, B: Backend> fmt::Write for Writer<'a, 'b, B> {
    ghost write_str_gives = { λ old text new. new.text.now.items ≡ old.text.now.items ++ text };

    /// [`HipStr::push_str`].
    #[inline]
    fn write_str(&mut self, s: &str) -> fmt::Result
        ensures ok { IsOk result
            → self.new.text.now.items ≡ self.old.text.now.items ++ s.now }
        ensures push { PushAnswers B.SHARES self.old.text.now s.now result self.new.text.now }
        ensures same_reference { self.new.text.ghost_name ≡ self.old.text.ghost_name }
    {
        match self.text.push_str(self.alloc, s) {
            Ok(()) => Ok(()),
            Err(AllocError) => Err(fmt::Error),
        }
    }
}

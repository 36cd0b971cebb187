//! Pushes, and cuts in place.
ghost use Rattle.std.specs.Prelude.{◌≡◌, ◌≤◌, ◌+◌, length, max, OnOk};
ghost use Rattle.std.specs.Char.{encode_utf8};
ghost use Rattle.std.specs.Str.{IsCharBoundary};
ghost use Rattle.hip_bytes.specs.Change.{IsShortened, PushAnswers, ShrinkAnswers};
ghost use Rattle.hip_bytes.specs.Cost.{PushIsPaid, push_cost, shortened_cost, shrink_cost};
ghost use Rattle.hip_bytes.specs.Meter.{RisesAtLeast, RisesAtMost};
ghost use Rattle.hip_text.specs.Change.{PopCharAnswers};

use super::HipStr;
use hip_bytes::{Backend, Meter};
use std::alloc::{AllocError, Global};

impl<'b, B: Backend> HipStr<'b, B> {
    /// Adds a text at the end: in place where it fits the handle itself or its owner is not shared, else in a copy. Where it is empty,
    /// nothing changes.
    #[inline(always)]
    pub fn push_str(&mut self, alloc: Global, addition: &str) -> Result<(), AllocError>
        ensures push { PushAnswers B.SHARES self.old addition.now result self.new }
    {
        self.push_str_metered(alloc, addition, &mut Meter::new())
    }

    /// [`HipStr::push_str`], counted.
    #[tactic(auto, using(crate::proofs::Texts::pushes))]
    #[inline(always)]
    pub fn push_str_metered(
        &mut self,
        alloc: Global,
        addition: &str,
        meter: &mut Meter,
    ) -> Result<(), AllocError>
        ensures push { PushAnswers B.SHARES self.old addition.now result self.new }
        ensures counted { RisesAtMost meter.old meter.new
            (push_cost B.SHARES (length self.old.items) (length addition.now)) }
        ensures copied { OnOk result (RisesAtLeast meter.old meter.new (length addition.now)) }
        ensures paid { PushIsPaid B.SHARES self.old self.new
            (length addition.now) meter.old meter.new }
    {
        self.bytes
            .push_slice_metered(alloc, addition.as_bytes(), meter)
    }

    /// Adds a character at the end.
    #[inline(always)]
    pub fn push(&mut self, alloc: Global, c: char) -> Result<(), AllocError>
        ensures push { PushAnswers B.SHARES self.old (encode_utf8 c) result self.new }
    {
        self.push_metered(alloc, c, &mut Meter::new())
    }

    /// [`HipStr::push`], counted.
    #[inline(always)]
    pub fn push_metered(
        &mut self,
        alloc: Global,
        c: char,
        meter: &mut Meter,
    ) -> Result<(), AllocError>
        ensures push { PushAnswers B.SHARES self.old (encode_utf8 c) result self.new }
        ensures counted { RisesAtMost meter.old meter.new
            (push_cost B.SHARES (length self.old.items) (length (encode_utf8 c))) }
        ensures copied { OnOk result (RisesAtLeast meter.old meter.new (length (encode_utf8 c))) }
        ensures paid { PushIsPaid B.SHARES self.old self.new
            (length (encode_utf8 c)) meter.old meter.new }
    {
        let mut room = [0; 4];
        let bytes = c.encode_utf8(&mut room).as_bytes();
        // In each arm the number of bytes is known, so that copying them takes no call of `memcpy`.
        match bytes.len() {
            1 => self.bytes.push_slice_metered(alloc, bytes, meter),
            2 => self.bytes.push_slice_metered(alloc, bytes, meter),
            3 => self.bytes.push_slice_metered(alloc, bytes, meter),
            _ => self.bytes.push_slice_metered(alloc, bytes, meter),
        }
    }

    /// Keeps the first `len` bytes, or all where there are fewer. A position among them is a boundary.
    #[inline]
    pub fn truncate(&mut self, len: usize)
        requires { len ≤ length self.old.items → IsCharBoundary self.old.items len }
        ensures shortened { IsShortened self.old self.new len }
    {
        self.truncate_metered(len, &mut Meter::new());
    }

    /// [`HipStr::truncate`], counted.
    #[tactic(auto, using(crate::proofs::Texts::shortens))]
    #[inline]
    pub fn truncate_metered(&mut self, len: usize, meter: &mut Meter)
        requires { len ≤ length self.old.items → IsCharBoundary self.old.items len }
        ensures shortened { IsShortened self.old self.new len }
        ensures counted { RisesAtMost meter.old meter.new (shortened_cost self.old.kind) }
    {
        self.bytes.truncate_metered(len, meter);
    }

    /// Removes all of the text.
    #[inline]
    pub fn clear(&mut self)
        ensures shortened { IsShortened self.old self.new 0 }
    {
        self.clear_metered(&mut Meter::new());
    }

    /// [`HipStr::clear`], counted.
    #[tactic(auto, using(crate::proofs::Texts::shortens))]
    #[inline]
    pub fn clear_metered(&mut self, meter: &mut Meter)
        ensures shortened { IsShortened self.old self.new 0 }
        ensures counted { RisesAtMost meter.old meter.new (shortened_cost self.old.kind) }
    {
        self.bytes.clear_metered(meter);
    }

    /// Takes the last character off, if there is one.
    #[inline]
    pub fn pop(&mut self) -> Option<char>
        ensures pop { PopCharAnswers self.old result self.new }
    {
        self.pop_metered(&mut Meter::new())
    }

    /// [`HipStr::pop`], counted.
    #[tactic(auto, using(crate::proofs::Texts::texts))]
    #[inline]
    pub fn pop_metered(&mut self, meter: &mut Meter) -> Option<char>
        ensures pop { PopCharAnswers self.old result self.new }
        ensures counted { RisesAtMost meter.old meter.new (shortened_cost self.old.kind) }
    {
        let mut rest = self.as_str().chars();
        let last = rest.next_back()?;
        let len = rest.as_str().len();
        self.bytes.truncate_metered(len, meter);
        Some(last)
    }

    /// Gives room back: to the handle itself where `least` and the bytes fit it, else to no less than both. Bytes that lie in the handle
    /// itself or with another value stay as they are.
    pub fn shrink_to(&mut self, alloc: Global, least: usize) -> Result<(), AllocError>
        ensures shrink { ShrinkAnswers self.old
            (max least (length self.old.items)) result self.new }
    {
        self.shrink_to_metered(alloc, least, &mut Meter::new())
    }

    /// [`HipStr::shrink_to`], counted.
    #[tactic(auto, using(crate::proofs::Texts::shrinks))]
    pub fn shrink_to_metered(
        &mut self,
        alloc: Global,
        least: usize,
        meter: &mut Meter,
    ) -> Result<(), AllocError>
        ensures shrink { ShrinkAnswers self.old
            (max least (length self.old.items)) result self.new }
        ensures counted { RisesAtMost meter.old meter.new
            (shrink_cost B.SHARES self.old.kind (length self.old.items)) }
    {
        self.bytes.shrink_to_metered(alloc, least, meter)
    }

    /// [`HipStr::shrink_to`] as far as it goes.
    pub fn shrink_to_fit(&mut self, alloc: Global) -> Result<(), AllocError>
        ensures shrink { ShrinkAnswers self.old (length self.old.items) result self.new }
    {
        self.shrink_to(alloc, 0)
    }
}

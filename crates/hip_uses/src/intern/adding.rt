//! Texts that get numbers.
#![tactic(auto, using(crate::proofs::Interned::pushes))]

ghost use Rattle.std.specs.Prelude.{◌≡◌, ◌≤◌, ◌^◌, [], ◌∷◌, ◌++◌, length, true, None, Some, IfOk, IsErrOf, IsOk, IsSome, OnErr, OnOk, slice_range};
ghost use Rattle.hipstr.specs.Occurrence.{IsCut};
ghost use Rattle.hipstr.specs.Cost.{clone_cost};
ghost use Rattle.hipstr.specs.Meter.{RisesAtMost};
ghost use Rattle.hip_uses.specs.Interning.{interned_cost, word_cost};
ghost use Rattle.hip_uses.specs.Number.{interned, number_of};
ghost use Rattle.hip_uses.specs.declared.fault.InternFault.TheVariants.{TooMany};

use crate::intern::{InternFault, Interner};
use crate::keyed::put;
use hipstr::laws::one_part_copies_little;
use hipstr::string::HipStr;
use hipstr::{Backend, Meter};
use std::alloc::{AllocError, Global};
use std::hash::BuildHasher;

impl<'b, B: Backend, S: BuildHasher> Interner<'b, B, S> {
    /// Puts a text that has no number behind the others.
    fn add(
        &mut self,
        alloc: Global,
        text: HipStr<'b, B>,
        number: u32,
        meter: &mut Meter,
    ) -> Result<(), AllocError>
        requires new { number_of text.items self.now ≡ None }
        requires next { number ≡ length self.now }
        ensures added { OnOk result (self.new ≡ self.old ++ text.entry.items ∷ []) }
        ensures refused { OnErr result (self.new ≡ self.old) }
        ensures counted { RisesAtMost meter.old meter.new
            (clone_cost B.SHARES text.entry.kind (length text.entry.items)) }
    {
        let key = text.clone_metered(alloc, meter)?;
        self.texts.reserve(1)?;
        put(&mut self.numbers, key, number)?;
        self.texts.push_reserved(text);
        Ok(())
    }

    /// The number of a text, which gets the next one where it has none.
    pub fn intern(&mut self, alloc: Global, text: HipStr<'b, B>) -> Result<u32, InternFault>
        ensures number { IfOk result (λ number.
            number_of text.entry.items self.new ≡ Some number) }
        ensures texts { OnOk result (self.new ≡ interned self.old text.entry.items) }
        ensures refused { OnErr result (self.new ≡ self.old) }
        ensures known { IsSome (number_of text.entry.items self.old) → IsOk result }
        ensures too_many { IsErrOf result TooMany → 2 ^ 32 ≤ length self.old }
    {
        self.intern_metered(alloc, text, &mut Meter::new())
    }

    /// [`Interner::intern`], counted. A new text is cloned once: where owners are shared, at most the 23 bytes are copied that a handle
    /// holds in itself.
    pub fn intern_metered(
        &mut self,
        alloc: Global,
        text: HipStr<'b, B>,
        meter: &mut Meter,
    ) -> Result<u32, InternFault>
        ensures number { IfOk result (λ number.
            number_of text.entry.items self.new ≡ Some number) }
        ensures texts { OnOk result (self.new ≡ interned self.old text.entry.items) }
        ensures refused { OnErr result (self.new ≡ self.old) }
        ensures known { IsSome (number_of text.entry.items self.old) → IsOk result }
        ensures too_many { IsErrOf result TooMany → 2 ^ 32 ≤ length self.old }
        ensures counted { RisesAtMost meter.old meter.new
            (interned_cost B.SHARES text.entry self.old) }
        ensures shared { B.SHARES ≡ true → RisesAtMost meter.old meter.new 23 }
    {
        one_part_copies_little::<B>();
        if let Some(number) = self.find(&text) {
            return Ok(number);
        }
        self.intern_new(alloc, text, meter)
    }

    /// The next number, for a text that has none.
    fn intern_new(
        &mut self,
        alloc: Global,
        text: HipStr<'b, B>,
        meter: &mut Meter,
    ) -> Result<u32, InternFault>
        requires { number_of text.items self.now ≡ None }
        ensures number { IfOk result (λ number.
            number_of text.entry.items self.new ≡ Some number) }
        ensures texts { OnOk result (self.new ≡ self.old ++ text.entry.items ∷ []) }
        ensures refused { OnErr result (self.new ≡ self.old) }
        ensures too_many { IsErrOf result TooMany → 2 ^ 32 ≤ length self.old }
        ensures counted { RisesAtMost meter.old meter.new
            (clone_cost B.SHARES text.entry.kind (length text.entry.items)) }
    {
        let Ok(number) = u32::try_from(self.len()) else {
            return Err(InternFault::TooMany);
        };
        self.add(alloc, text, number, meter)?;
        Ok(number)
    }

    /// The number of a part of a text, which is cut only where it has none.
    pub(crate) fn intern_part(
        &mut self,
        alloc: Global,
        text: &HipStr<'b, B>,
        start: usize,
        end: usize,
        meter: &mut Meter,
    ) -> Result<u32, InternFault>
        requires { IsCut text.now.items (start, end) }
        ensures number { IfOk result (λ number.
            number_of (slice_range text.now.items start end) self.new ≡ Some number) }
        ensures texts { OnOk result
            (self.new ≡ interned self.old (slice_range text.now.items start end)) }
        ensures refused { OnErr result (self.new ≡ self.old) }
        ensures too_many { IsErrOf result TooMany → 2 ^ 32 ≤ length self.old }
        ensures counted { RisesAtMost meter.old meter.new
            (word_cost B.SHARES text.now.kind self.old (slice_range text.now.items start end)) }
    {
        if let Some(number) = self.number_of(&text.as_str()[start..end]) {
            return Ok(number);
        }
        let part = text.part_metered(alloc, start, end, meter)?;
        self.intern_new(alloc, part, meter)
    }
}

//! The numbers of the words of a text.
ghost use Rattle.std.specs.Prelude.{◌≡◌, ◌≤◌, ◌^◌, IfOk, IsErrOf, OnOk, length, take};
ghost use Rattle.hipstr.specs.Characters.{char_ends};
ghost use Rattle.hipstr.specs.Meter.{RisesAtMost};
ghost use Rattle.hip_uses.specs.Interning.{words_cost};
ghost use Rattle.hip_uses.specs.Number.{AreNumbers, SomeInterned, all_interned};
ghost use Rattle.hip_uses.specs.Words.{filled_parts, is_gap, parts_between};
ghost use Rattle.hip_uses.specs.declared.fault.InternFault.TheVariants.{TooMany};

use crate::intern::{InternFault, Interner};
use hipstr::pattern::{AsciiSet, Pattern, Ranges, Split};
use hipstr::string::HipStr;
use hipstr::{Backend, Meter};
use std::alloc::Global;
use std::hash::BuildHasher;

impl<'b, B: Backend, S: BuildHasher> Interner<'b, B, S> {
    /// The numbers of the parts of a text between the occurrences of a pattern that aren't empty.
    pub fn intern_parts<P: Pattern>(
        &mut self,
        alloc: Global,
        text: &HipStr<'b, B>,
        pattern: P,
    ) -> Result<Vec<u32>, InternFault>
        requires { P.can_search pattern }
        ensures numbers { IfOk result (λ numbers. AreNumbers self.new
            (parts_between (P.ends pattern) text.now.items) numbers.items) }
        ensures texts { OnOk result (self.new
            ≡ all_interned self.old (parts_between (P.ends pattern) text.now.items)) }
        ensures front { SomeInterned self.old (parts_between (P.ends pattern) text.now.items) self.new }
        ensures kept { take (length self.old) self.new ≡ self.old }
        ensures too_many { IsErrOf result TooMany → 2 ^ 32 ≤ length self.new }
    {
        self.intern_parts_metered(alloc, text, pattern, &mut Meter::new())
    }

    /// [`Interner::intern_parts`], counted. A part is cut, and cloned once, only where it has no number yet.
    pub fn intern_parts_metered<P: Pattern>(
        &mut self,
        alloc: Global,
        text: &HipStr<'b, B>,
        pattern: P,
        meter: &mut Meter,
    ) -> Result<Vec<u32>, InternFault>
        requires { P.can_search pattern }
        ensures numbers { IfOk result (λ numbers. AreNumbers self.new
            (parts_between (P.ends pattern) text.now.items) numbers.items) }
        ensures texts { OnOk result (self.new
            ≡ all_interned self.old (parts_between (P.ends pattern) text.now.items)) }
        ensures front { SomeInterned self.old (parts_between (P.ends pattern) text.now.items) self.new }
        ensures kept { take (length self.old) self.new ≡ self.old }
        ensures too_many { IsErrOf result TooMany → 2 ^ 32 ≤ length self.new }
        ensures counted { RisesAtMost meter.old meter.new (words_cost B.SHARES text.now.kind self.old
            (parts_between (P.ends pattern) text.now.items)) }
    {
        self.intern_at(alloc, text, Split::new(text.as_str(), pattern), meter)
    }

    /// The numbers of the parts at ranges of the text that aren't empty. A part is cut only where it has no number yet.
    fn intern_at<I: Ranges + Drop>(
        &mut self,
        alloc: Global,
        text: &HipStr<'b, B>,
        mut ranges: I,
        meter: &mut Meter,
    ) -> Result<Vec<u32>, InternFault>
        requires ready { I.ready ranges }
        requires text { I.text ranges ≡ text.now.items }
        ensures numbers { IfOk result (λ numbers. AreNumbers self.new
            (filled_parts text.now.items (I.rest ranges)) numbers.items) }
        ensures texts { OnOk result (self.new
            ≡ all_interned self.old (filled_parts text.now.items (I.rest ranges))) }
        ensures front { SomeInterned self.old (filled_parts text.now.items (I.rest ranges)) self.new }
        ensures kept { take (length self.old) self.new ≡ self.old }
        ensures too_many { IsErrOf result TooMany → 2 ^ 32 ≤ length self.new }
        ensures counted { RisesAtMost meter.old meter.new (words_cost B.SHARES text.now.kind self.old
            (filled_parts text.now.items (I.rest ranges))) }
    {
        let mut numbers = Vec::new(alloc);
        while let Some((start, end)) = ranges.next() {
            if start < end {
                numbers.push(self.intern_part(alloc, text, start, end, meter)?)?;
            }
        }
        Ok(numbers)
    }

    /// The numbers of the words of a text, which are the longest runs of letters, digits, and characters that aren't ASCII.
    pub fn intern_words(
        &mut self,
        alloc: Global,
        text: &HipStr<'b, B>,
    ) -> Result<Vec<u32>, InternFault>
        ensures numbers { IfOk result (λ numbers. AreNumbers self.new
            (parts_between (char_ends is_gap) text.now.items) numbers.items) }
        ensures texts { OnOk result (self.new
            ≡ all_interned self.old (parts_between (char_ends is_gap) text.now.items)) }
        ensures front { SomeInterned self.old (parts_between (char_ends is_gap) text.now.items) self.new }
        ensures kept { take (length self.old) self.new ≡ self.old }
        ensures too_many { IsErrOf result TooMany → 2 ^ 32 ≤ length self.new }
    {
        self.intern_words_metered(alloc, text, &mut Meter::new())
    }

    /// [`Interner::intern_words`], counted.
    pub fn intern_words_metered(
        &mut self,
        alloc: Global,
        text: &HipStr<'b, B>,
        meter: &mut Meter,
    ) -> Result<Vec<u32>, InternFault>
        ensures numbers { IfOk result (λ numbers. AreNumbers self.new
            (parts_between (char_ends is_gap) text.now.items) numbers.items) }
        ensures texts { OnOk result (self.new
            ≡ all_interned self.old (parts_between (char_ends is_gap) text.now.items)) }
        ensures front { SomeInterned self.old (parts_between (char_ends is_gap) text.now.items) self.new }
        ensures kept { take (length self.old) self.new ≡ self.old }
        ensures too_many { IsErrOf result TooMany → 2 ^ 32 ≤ length self.new }
        ensures counted { RisesAtMost meter.old meter.new (words_cost B.SHARES text.now.kind self.old
            (parts_between (char_ends is_gap) text.now.items)) }
    {
        let gaps = AsciiSet::alphanumeric().complement();
        self.intern_parts_metered(alloc, text, gaps, meter)
    }
}

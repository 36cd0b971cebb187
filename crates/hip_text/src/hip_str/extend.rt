//! Characters that an iterator gives.
ghost use Rattle.std.specs.Prelude.{◌≡◌, ◌-◌, [], length, OnOk};
ghost use Rattle.std.specs.Char.{encode_utf8};
ghost use Rattle.std.specs.Iterator.{IsFinite};
ghost use Rattle.hip_bytes.specs.Meter.{RisesAtLeast};
ghost use Rattle.hip_bytes.specs.Made.{ExtendAnswers, ExtendCosts, GatherAnswers, GatherCosts};

use super::HipStr;
use hip_bytes::{Backend, GrowFault, HipByt, Meter};
use std::alloc::Global;

impl<'b, B: Backend> HipStr<'b, B> {
    /// The text of the characters that an iterator gives. They have to come to an end.
    pub fn from_chars<I: IntoIterator<Item = char>>(
        alloc: Global,
        chars: I,
    ) -> Result<Self, GrowFault>
        requires { (it : I.IntoIter) → I.into_iter_gives chars it
            → I.IntoIter.can_next it × IsFinite (I.IntoIter.remaining it) }
        ensures made { GatherAnswers encode_utf8 I.into_iter_gives I.IntoIter.next_gives
            chars [] result }
    {
        Self::from_chars_metered(alloc, chars, &mut Meter::new())
    }

    /// [`HipStr::from_chars`], counted.
    #[tactic(auto, using(crate::proofs::Texts::texts))]
    pub fn from_chars_metered<I: IntoIterator<Item = char>>(
        alloc: Global,
        chars: I,
        meter: &mut Meter,
    ) -> Result<Self, GrowFault>
        requires { (it : I.IntoIter) → I.into_iter_gives chars it
            → I.IntoIter.can_next it × IsFinite (I.IntoIter.remaining it) }
        ensures made { GatherAnswers encode_utf8 I.into_iter_gives I.IntoIter.next_gives
            chars [] result }
        ensures counted { GatherCosts B.SHARES encode_utf8 I.into_iter_gives
            I.IntoIter.next_gives chars [] result meter.old meter.new }
    {
        Ok(HipStr {
            bytes: HipByt::from_chars_metered(alloc, chars, meter)?,
        })
    }

    /// Adds the characters that an iterator gives at the end. A refused call changes nothing.
    pub fn extend_chars<I: IntoIterator<Item = char>>(
        &mut self,
        alloc: Global,
        chars: I,
    ) -> Result<(), GrowFault>
        requires { (it : I.IntoIter) → I.into_iter_gives chars it
            → I.IntoIter.can_next it × IsFinite (I.IntoIter.remaining it) }
        ensures extended { ExtendAnswers B.SHARES encode_utf8 I.into_iter_gives
            I.IntoIter.next_gives chars self.old result self.new }
    {
        self.extend_chars_metered(alloc, chars, &mut Meter::new())
    }

    /// [`HipStr::extend_chars`], counted.
    #[tactic(auto, using(hip_bytes::proofs::Extends::extends))]
    pub fn extend_chars_metered<I: IntoIterator<Item = char>>(
        &mut self,
        alloc: Global,
        chars: I,
        meter: &mut Meter,
    ) -> Result<(), GrowFault>
        requires { (it : I.IntoIter) → I.into_iter_gives chars it
            → I.IntoIter.can_next it × IsFinite (I.IntoIter.remaining it) }
        ensures extended { ExtendAnswers B.SHARES encode_utf8 I.into_iter_gives
            I.IntoIter.next_gives chars self.old result self.new }
        ensures counted { ExtendCosts B.SHARES encode_utf8 I.into_iter_gives
            I.IntoIter.next_gives chars self.old meter.old meter.new }
        ensures copied { OnOk result (RisesAtLeast meter.old meter.new
            (length self.new.items - length self.old.items)) }
    {
        let addition = Self::from_chars_metered(alloc, chars, meter)?;
        Ok(self.push_str_metered(alloc, addition.as_str(), meter)?)
    }
}

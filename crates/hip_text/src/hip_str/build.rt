//! Texts that are made of others.
ghost use Rattle.std.specs.Prelude.{◌≡◌, [], length, IfOk, ◌≢◌};
ghost use Rattle.std.specs.Iterator.{IsFinite};
ghost use Rattle.hip_bytes.specs.Join.{bytes_of, joined, join_cost, repeat_cost};
ghost use Rattle.hip_bytes.specs.Made.{GatherAnswers, GatherCosts, JoinAnswers, RepeatAnswers};
ghost use Rattle.hip_bytes.specs.Meter.{RisesAtLeast, RisesAtMost};

use super::HipStr;
use hip_bytes::{Backend, GrowFault, HipByt, Meter};
use std::alloc::Global;

impl<'b, B: Backend> HipStr<'b, B> {
    /// The text `n` times.
    pub fn repeat(&self, alloc: Global, n: usize) -> Result<Self, GrowFault>
        ensures repeated { RepeatAnswers self.now n result }
    {
        self.repeat_metered(alloc, n, &mut Meter::new())
    }

    /// [`HipStr::repeat`], counted.
    pub fn repeat_metered(
        &self,
        alloc: Global,
        n: usize,
        meter: &mut Meter,
    ) -> Result<Self, GrowFault>
        ensures repeated { RepeatAnswers self.now n result }
        ensures counted { RisesAtMost meter.old meter.new
            (repeat_cost B.SHARES self.now.kind (length self.now.items) n) }
        ensures copied { n ≢ 1
            → IfOk result (λ text. RisesAtLeast meter.old meter.new (length text.items)) }
        ensures refused_counts_none { result ≡ Err GrowFault.TooLong → meter.new ≡ meter.old }
    {
        Ok(HipStr {
            bytes: self.bytes.repeat_metered(alloc, n, meter)?,
        })
    }

    /// The texts one behind another: [`HipStr::join_slices`] with nothing between them.
    pub fn concat_slices(alloc: Global, texts: &[&str]) -> Result<Self, GrowFault>
        ensures joined { JoinAnswers (joined [] texts.now) result }
    {
        Self::concat_slices_metered(alloc, texts, &mut Meter::new())
    }

    /// [`HipStr::concat_slices`], counted.
    pub fn concat_slices_metered(
        alloc: Global,
        texts: &[&str],
        meter: &mut Meter,
    ) -> Result<Self, GrowFault>
        ensures joined { JoinAnswers (joined [] texts.now) result }
        ensures counted { RisesAtMost meter.old meter.new
            (join_cost B.SHARES (length (joined [] texts.now))) }
        ensures copied { IfOk result
            (λ text. RisesAtLeast meter.old meter.new (length text.items)) }
        ensures refused_counts_none { result ≡ Err GrowFault.TooLong → meter.new ≡ meter.old }
    {
        Ok(HipStr {
            bytes: HipByt::join_piece_slices_metered(alloc, texts, "".as_bytes(), meter)?,
        })
    }

    /// The texts one behind another, with the separator between each two.
    pub fn join_slices(alloc: Global, texts: &[&str], sep: &str) -> Result<Self, GrowFault>
        ensures joined { JoinAnswers (joined sep.now texts.now) result }
    {
        Self::join_slices_metered(alloc, texts, sep, &mut Meter::new())
    }

    /// [`HipStr::join_slices`], counted.
    pub fn join_slices_metered(
        alloc: Global,
        texts: &[&str],
        sep: &str,
        meter: &mut Meter,
    ) -> Result<Self, GrowFault>
        ensures joined { JoinAnswers (joined sep.now texts.now) result }
        ensures counted { RisesAtMost meter.old meter.new
            (join_cost B.SHARES (length (joined sep.now texts.now))) }
        ensures copied { IfOk result
            (λ text. RisesAtLeast meter.old meter.new (length text.items)) }
        ensures refused_counts_none { result ≡ Err GrowFault.TooLong → meter.new ≡ meter.old }
    {
        Ok(HipStr {
            bytes: HipByt::join_piece_slices_metered(alloc, texts, sep.as_bytes(), meter)?,
        })
    }

    /// The texts one behind another: [`HipStr::join`] with nothing between them.
    pub fn concat<'s, I: IntoIterator<Item = &'s str>>(
        alloc: Global,
        texts: I,
    ) -> Result<Self, GrowFault>
        requires { (it : I.IntoIter) → I.into_iter_gives texts it
            → I.IntoIter.can_next it × IsFinite (I.IntoIter.remaining it) }
        ensures joined { GatherAnswers bytes_of I.into_iter_gives
            I.IntoIter.next_gives texts [] result }
    {
        Self::concat_metered(alloc, texts, &mut Meter::new())
    }

    /// [`HipStr::concat`], counted.
    #[tactic(auto, using(crate::proofs::Texts::texts))]
    pub fn concat_metered<'s, I: IntoIterator<Item = &'s str>>(
        alloc: Global,
        texts: I,
        meter: &mut Meter,
    ) -> Result<Self, GrowFault>
        requires { (it : I.IntoIter) → I.into_iter_gives texts it
            → I.IntoIter.can_next it × IsFinite (I.IntoIter.remaining it) }
        ensures joined { GatherAnswers bytes_of I.into_iter_gives
            I.IntoIter.next_gives texts [] result }
        ensures counted { GatherCosts B.SHARES bytes_of I.into_iter_gives I.IntoIter.next_gives
            texts [] result meter.old meter.new }
    {
        Ok(HipStr {
            bytes: HipByt::join_pieces_metered(alloc, texts, "".as_bytes(), meter)?,
        })
    }

    /// The texts one behind another, with the separator between each two. The texts have to come to an end.
    pub fn join<'s, I: IntoIterator<Item = &'s str>>(
        alloc: Global,
        texts: I,
        sep: &str,
    ) -> Result<Self, GrowFault>
        requires { (it : I.IntoIter) → I.into_iter_gives texts it
            → I.IntoIter.can_next it × IsFinite (I.IntoIter.remaining it) }
        ensures joined { GatherAnswers bytes_of I.into_iter_gives I.IntoIter.next_gives
            texts sep.now result }
    {
        Self::join_metered(alloc, texts, sep, &mut Meter::new())
    }

    /// [`HipStr::join`], counted.
    #[tactic(auto, using(crate::proofs::Texts::texts))]
    pub fn join_metered<'s, I: IntoIterator<Item = &'s str>>(
        alloc: Global,
        texts: I,
        sep: &str,
        meter: &mut Meter,
    ) -> Result<Self, GrowFault>
        requires { (it : I.IntoIter) → I.into_iter_gives texts it
            → I.IntoIter.can_next it × IsFinite (I.IntoIter.remaining it) }
        ensures joined { GatherAnswers bytes_of I.into_iter_gives I.IntoIter.next_gives
            texts sep.now result }
        ensures counted { GatherCosts B.SHARES bytes_of I.into_iter_gives I.IntoIter.next_gives
            texts sep.now result meter.old meter.new }
    {
        Ok(HipStr {
            bytes: HipByt::join_pieces_metered(alloc, texts, sep.as_bytes(), meter)?,
        })
    }
}

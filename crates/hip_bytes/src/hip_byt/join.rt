//! Values that are made of the items of an iterator, which is read once.
ghost use Rattle.std.specs.Prelude.{◌≡◌, ◌≤◌, ◌<◌, ◌+◌, ◌^◌, [], nat_le, length, IfOk, OnErr};
ghost use Rattle.std.specs.Iterator.{IsFinite};
ghost use Rattle.hip_raw.specs.Meter.{RisesAtLeast, RisesAtMost};
ghost use Rattle.std.specs.List.{join_by};
ghost use Rattle.hip_bytes.specs.Join.{bytes_of, GivesAll, GivesFirst};
ghost use Rattle.hip_bytes.specs.Made.{GatherAnswers, GatherCosts};
ghost use Rattle.hip_bytes.specs.declared.kind.TheConstants.{INLINE_CAPACITY};

use super::HipByt;
use crate::gathering::Gathering;
use crate::grow_fault::GrowFault;
use crate::piece::Piece;
use hip_raw::{Backend, Meter};
use std::alloc::Global;

impl<'b, B: Backend> HipByt<'b, B> {
    /// The pieces one behind another: [`HipByt::join`] with nothing between them.
    pub fn concat<'s, I: IntoIterator<Item = &'s [u8]>>(
        alloc: Global,
        pieces: I,
    ) -> Result<Self, GrowFault>
        requires { (it : I.IntoIter) → I.into_iter_gives pieces it
            → I.IntoIter.can_next it × IsFinite (I.IntoIter.remaining it) }
        ensures joined { GatherAnswers bytes_of I.into_iter_gives
            I.IntoIter.next_gives pieces [] result }
    {
        Self::concat_metered(alloc, pieces, &mut Meter::new())
    }

    /// [`HipByt::concat`], counted.
    pub fn concat_metered<'s, I: IntoIterator<Item = &'s [u8]>>(
        alloc: Global,
        pieces: I,
        meter: &mut Meter,
    ) -> Result<Self, GrowFault>
        requires { (it : I.IntoIter) → I.into_iter_gives pieces it
            → I.IntoIter.can_next it × IsFinite (I.IntoIter.remaining it) }
        ensures joined { GatherAnswers bytes_of I.into_iter_gives
            I.IntoIter.next_gives pieces [] result }
        ensures counted { GatherCosts B.SHARES bytes_of I.into_iter_gives I.IntoIter.next_gives
            pieces [] result meter.old meter.new }
    {
        Self::join_pieces_metered(alloc, pieces, &[], meter)
    }

    /// The pieces one behind another, with the separator between each two. The pieces have to come to an end.
    pub fn join<'s, I: IntoIterator<Item = &'s [u8]>>(
        alloc: Global,
        pieces: I,
        sep: &[u8],
    ) -> Result<Self, GrowFault>
        requires { (it : I.IntoIter) → I.into_iter_gives pieces it
            → I.IntoIter.can_next it × IsFinite (I.IntoIter.remaining it) }
        ensures joined { GatherAnswers bytes_of I.into_iter_gives I.IntoIter.next_gives
            pieces sep.now result }
    {
        Self::join_metered(alloc, pieces, sep, &mut Meter::new())
    }

    /// [`HipByt::join`], counted.
    pub fn join_metered<'s, I: IntoIterator<Item = &'s [u8]>>(
        alloc: Global,
        pieces: I,
        sep: &[u8],
        meter: &mut Meter,
    ) -> Result<Self, GrowFault>
        requires { (it : I.IntoIter) → I.into_iter_gives pieces it
            → I.IntoIter.can_next it × IsFinite (I.IntoIter.remaining it) }
        ensures joined { GatherAnswers bytes_of I.into_iter_gives I.IntoIter.next_gives
            pieces sep.now result }
        ensures counted { GatherCosts B.SHARES bytes_of I.into_iter_gives I.IntoIter.next_gives
            pieces sep.now result meter.old meter.new }
    {
        Self::join_pieces_metered(alloc, pieces, sep, meter)
    }

    /// [`HipByt::join_metered`] of any pieces, of which the separator keeps what each does. It is inlined, as
    /// [`HipByt::join_piece_slices_metered`] is.
    #[inline(always)]
    pub fn join_pieces_metered<P: Piece, I: IntoIterator<Item = P>>(
        alloc: Global,
        pieces: I,
        sep: &[u8],
        meter: &mut Meter,
    ) -> Result<Self, GrowFault>
        requires finite { (it : I.IntoIter) → I.into_iter_gives pieces it
            → I.IntoIter.can_next it × IsFinite (I.IntoIter.remaining it) }
        requires separator { P.keeps sep.now }
        ensures joined { GatherAnswers P.bytes I.into_iter_gives I.IntoIter.next_gives
            pieces sep.now result }
        ensures kept { IfOk result (λ handle. P.keeps handle.items) }
        ensures counted { GatherCosts B.SHARES P.bytes I.into_iter_gives I.IntoIter.next_gives
            pieces sep.now result meter.old meter.new }
    {
        // A call that isn't inlined keeps in memory what it is lent, so it gets a meter of its own.
        let mut apart = Meter::new();
        let made = gathered(alloc, pieces, sep, &mut apart);
        meter.add(&apart);
        Ok(made?.finish(alloc, meter)?)
    }
}

/// The pieces, gathered with the separator between each two.
#[inline(always)]
fn gathered<P: Piece, I: IntoIterator<Item = P>>(
    alloc: Global,
    pieces: I,
    sep: &[u8],
    meter: &mut Meter,
) -> Result<Gathering, GrowFault>
    requires finite { (it : I.IntoIter) → I.into_iter_gives pieces it
        → I.IntoIter.can_next it × IsFinite (I.IntoIter.remaining it) }
    requires separator { P.keeps sep.now }
    ensures items { IfOk result
        (λ made. GivesAll I.into_iter_gives I.IntoIter.next_gives pieces
        (λ xs. made.items ≡ join_by P.bytes sep.now xs)) }
    ensures kept { IfOk result (λ made. P.keeps made.items) }
    ensures place { IfOk result
        (λ made. made.in_handle ≡ nat_le (length made.items) INLINE_CAPACITY) }
    ensures too_long { result ≡ Err GrowFault.TooLong
        → GivesFirst I.into_iter_gives I.IntoIter.next_gives pieces
        (λ xs. 2 ^ 64 ≤ length (join_by P.bytes sep.now xs)) }
    ensures memory { result ≡ Err GrowFault.Memory
        → GivesFirst I.into_iter_gives I.IntoIter.next_gives pieces
        (λ xs. INLINE_CAPACITY < length (join_by P.bytes sep.now xs)) }
    ensures counted { IfOk result
        (λ made. RisesAtMost meter.old meter.new (length made.items + INLINE_CAPACITY)) }
    ensures copied { IfOk result (λ made. RisesAtLeast meter.old meter.new (length made.items)) }
    ensures refused_counts { OnErr result
        (GivesFirst I.into_iter_gives I.IntoIter.next_gives pieces
        (λ xs. RisesAtMost meter.old meter.new
        (length (join_by P.bytes sep.now xs) + INLINE_CAPACITY))) }
{
    let mut made = Gathering::new();
    let mut gap: &[u8] = &[];
    for piece in pieces {
        if let Err(fault) = made.add_behind(alloc, gap, piece.as_piece(), meter) {
            return Err(fault);
        }
        gap = sep;
    }
    Ok(made)
}

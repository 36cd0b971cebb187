//! Values that are made of others.
ghost use Rattle.std.specs.Prelude.{◌≡◌, ◌≢◌, ◌≤◌, ◌<◌, ◌+◌, ◌*◌, ◌^◌, [], ◌++◌, false, nat_le, length, take, IfOk, IfErr, OnErr};
ghost use Rattle.std.specs.List.{join_by, repeat};
ghost use Rattle.std.specs.Option.{SomeIff};
ghost use Rattle.hip_raw.specs.Meter.{RisesAtLeast, RisesAtMost};
ghost use Rattle.hip_bytes.specs.Cost.{clone_cost};
ghost use Rattle.hip_bytes.specs.Join.{gap_at, joined, join_cost, repeat_cost};
ghost use Rattle.hip_bytes.specs.Made.{CloneAnswers, JoinAnswers, RepeatAnswers};
ghost use Rattle.hip_bytes.specs.declared.kind.TheConstants.{INLINE_CAPACITY};

use super::{HipByt, Repr};
use crate::gathering::Gathering;
use crate::grow_fault::GrowFault;
use crate::kind::INLINE_CAPACITY;
use crate::piece::Piece;
use hip_raw::{Allocated, Backend, Filling, Inline, Meter, OwnerFilling};
use std::alloc::{AllocError, Global};

impl<'b, B: Backend> HipByt<'b, B> {
    /// The bytes `n` times.
    pub fn repeat(&self, alloc: Global, n: usize) -> Result<Self, GrowFault>
        ensures repeated { RepeatAnswers self.now n result }
    {
        self.repeat_metered(alloc, n, &mut Meter::new())
    }

    /// [`HipByt::repeat`], counted.
    pub fn repeat_metered(
        &self,
        alloc: Global,
        n: usize,
        meter: &mut Meter,
    ) -> Result<Self, GrowFault>
        ensures repeated { RepeatAnswers self.now n result }
        ensures counted { RisesAtMost meter.old meter.new
            (repeat_cost B.SHARES self.now.kind (length self.now.items) n) }
        ensures copied { n ≢ 1
            → IfOk result (λ handle. RisesAtLeast meter.old meter.new (length handle.items)) }
        ensures refused_counts_none { result ≡ Err GrowFault.TooLong → meter.new ≡ meter.old }
    {
        if self.is_empty() {
            return self.cloned(alloc, meter);
        }
        if n == 1 {
            return self.cloned(alloc, meter);
        }
        let Some(len) = n.checked_mul(self.len()) else {
            return Err(GrowFault::TooLong);
        };
        let made = repeated(alloc, self.as_slice(), n, len, meter)?;
        Ok(made.finish(alloc, meter)?)
    }

    /// The slices one behind another: [`HipByt::join_slices`] with nothing between them.
    pub fn concat_slices(alloc: Global, slices: &[&[u8]]) -> Result<Self, GrowFault>
        ensures joined { JoinAnswers (joined [] slices.now) result }
    {
        Self::concat_slices_metered(alloc, slices, &mut Meter::new())
    }

    /// [`HipByt::concat_slices`], counted.
    pub fn concat_slices_metered(
        alloc: Global,
        slices: &[&[u8]],
        meter: &mut Meter,
    ) -> Result<Self, GrowFault>
        ensures joined { JoinAnswers (joined [] slices.now) result }
        ensures counted { RisesAtMost meter.old meter.new
            (join_cost B.SHARES (length (joined [] slices.now))) }
        ensures copied { IfOk result
            (λ handle. RisesAtLeast meter.old meter.new (length handle.items)) }
        ensures refused_counts_none { result ≡ Err GrowFault.TooLong → meter.new ≡ meter.old }
    {
        Self::join_piece_slices_metered(alloc, slices, &[], meter)
    }

    /// The slices one behind another, with the separator between each two.
    pub fn join_slices(alloc: Global, slices: &[&[u8]], sep: &[u8]) -> Result<Self, GrowFault>
        ensures joined { JoinAnswers (joined sep.now slices.now) result }
    {
        Self::join_slices_metered(alloc, slices, sep, &mut Meter::new())
    }

    /// [`HipByt::join_slices`], counted.
    pub fn join_slices_metered(
        alloc: Global,
        slices: &[&[u8]],
        sep: &[u8],
        meter: &mut Meter,
    ) -> Result<Self, GrowFault>
        ensures joined { JoinAnswers (joined sep.now slices.now) result }
        ensures counted { RisesAtMost meter.old meter.new
            (join_cost B.SHARES (length (joined sep.now slices.now))) }
        ensures copied { IfOk result
            (λ handle. RisesAtLeast meter.old meter.new (length handle.items)) }
        ensures refused_counts_none { result ≡ Err GrowFault.TooLong → meter.new ≡ meter.old }
    {
        Self::join_piece_slices_metered(alloc, slices, sep, meter)
    }

    /// [`HipByt::join_slices_metered`] of any pieces, of which the separator keeps what each does. It is inlined, so that a separator
    /// that is known to be empty costs nothing.
    #[inline(always)]
    pub fn join_piece_slices_metered<P: Piece>(
        alloc: Global,
        pieces: &[P],
        sep: &[u8],
        meter: &mut Meter,
    ) -> Result<Self, GrowFault>
        requires separator { P.keeps sep.now }
        ensures joined { JoinAnswers (join_by P.bytes sep.now pieces.now) result }
        ensures kept { IfOk result (λ handle. P.keeps handle.items) }
        ensures counted { RisesAtMost meter.old meter.new
            (join_cost B.SHARES (length (join_by P.bytes sep.now pieces.now))) }
        ensures copied { IfOk result
            (λ handle. RisesAtLeast meter.old meter.new (length handle.items)) }
        ensures refused_counts_none { result ≡ Err GrowFault.TooLong → meter.new ≡ meter.old }
    {
        let Some(len) = joined_len(pieces, sep) else {
            return Err(GrowFault::TooLong);
        };
        // A call that isn't inlined keeps in memory what it is lent, so it gets a meter of its own.
        let mut apart = Meter::new();
        if !B::SHARES && len > INLINE_CAPACITY {
            let made = joined_in_owner(alloc, pieces, sep, len, &mut apart);
            meter.add(&apart);
            return Ok(HipByt::of(Repr::Allocated(made?)));
        }
        let made = joined_within(alloc, pieces, sep, len, &mut apart);
        meter.add(&apart);
        Ok(made?.finish(alloc, meter)?)
    }
}

/// The separator before the slice at a position.
#[inline]
fn gap(i: usize, sep: &[u8]) -> &[u8]
    ensures { result.now ≡ gap_at i sep.now }
{
    if i == 0 { &[] } else { sep }
}

/// The length of a join, if it is a `usize`.
fn joined_len<P: Piece>(pieces: &[P], sep: &[u8]) -> Option<usize>
    ensures { SomeIff result (length (join_by P.bytes sep.now pieces.now) < 2 ^ 64)
        (length (join_by P.bytes sep.now pieces.now)) }
{
    let mut len = pieces.len().saturating_sub(1).checked_mul(sep.len())?;
    for piece in pieces {
        len = len.checked_add(piece.as_piece().len())?;
    }
    Some(len)
}

/// The pieces of a join, which are `len` bytes in all.
#[inline(always)]
fn joined_within<P: Piece>(
    alloc: Global,
    pieces: &[P],
    sep: &[u8],
    len: usize,
    meter: &mut Meter,
) -> Result<Gathering, AllocError>
    requires whole { len ≡ length (join_by P.bytes sep.now pieces.now) }
    requires separator { P.keeps sep.now }
    ensures items { IfOk result (λ made. made.items ≡ join_by P.bytes sep.now pieces.now) }
    ensures kept { IfOk result (λ made. P.keeps made.items) }
    ensures place { IfOk result (λ made. made.in_handle ≡ nat_le len INLINE_CAPACITY) }
    ensures memory { OnErr result (INLINE_CAPACITY < len) }
    ensures counted { RisesAtMost meter.old meter.new len }
    ensures copied { IfOk result (λ made. RisesAtLeast meter.old meter.new len) }
{
    if len <= INLINE_CAPACITY {
        let mut inline = Inline::empty();
        for (i, piece) in pieces.iter().enumerate() {
            inline.push_slice_unchecked_metered(gap(i, sep), meter);
            inline.push_slice_unchecked_metered(piece.as_piece(), meter);
        }
        return Ok(Gathering::in_handle(inline));
    }
    let mut filling = Filling::with_capacity(alloc, len)?;
    for (i, piece) in pieces.iter().enumerate() {
        filling.push_behind_within(gap(i, sep), piece.as_piece(), meter);
    }
    Ok(Gathering::in_vector(filling))
}

/// Like `joined_within`, but in an owner that can't be shared, where the bytes stay.
#[inline(never)]
fn joined_in_owner<B: Backend, P: Piece>(
    alloc: Global,
    pieces: &[P],
    sep: &[u8],
    len: usize,
    meter: &mut Meter,
) -> Result<Allocated<B>, AllocError>
    requires sole { B.SHARES ≡ false }
    requires whole { len ≡ length (join_by P.bytes sep.now pieces.now) }
    requires separator { P.keeps sep.now }
    ensures items { IfOk result (λ made. made.items ≡ join_by P.bytes sep.now pieces.now) }
    ensures kept { IfOk result (λ made. P.keeps made.items) }
    ensures fits { IfOk result (λ made. length made.items ≤ made.capacity) }
    ensures counted { RisesAtMost meter.old meter.new (2 * len) }
    ensures copied { IfOk result (λ made. RisesAtLeast meter.old meter.new len) }
{
    let mut filling = OwnerFilling::with_len(alloc, len, meter)?;
    for (i, piece) in pieces.iter().enumerate() {
        filling.push_behind_within(gap(i, sep), piece.as_piece(), meter);
    }
    Ok(filling.into_allocated())
}

impl<'b, B: Backend> HipByt<'b, B> {
    /// Like [`HipByt::clone_metered`], but a refusal is a [`GrowFault::Memory`].
    #[inline]
    fn cloned(&self, alloc: Global, meter: &mut Meter) -> Result<Self, GrowFault>
        ensures clone { CloneAnswers self.now result }
        ensures memory { IfErr result (λ fault. fault ≡ GrowFault.Memory) }
        ensures counted { RisesAtMost meter.old meter.new
            (clone_cost B.SHARES self.now.kind (length self.now.items)) }
        ensures bound { length self.now.items < 2 ^ 64 }
    {
        let _len = self.len();
        match self.clone_metered(alloc, meter) {
            Ok(handle) => Ok(handle),
            Err(AllocError) => Err(GrowFault::Memory),
        }
    }
}

/// The greatest number of bytes that a repetition copies at once, so that they are still in the cache for the next copy.
const AT_ONCE: usize = 4096;

/// The bytes `n` times, which are `len` in all.
fn repeated(
    alloc: Global,
    bytes: &[u8],
    n: usize,
    len: usize,
    meter: &mut Meter,
) -> Result<Gathering, AllocError>
    requires whole { len ≡ n * length bytes.now }
    requires some { 0 < length bytes.now }
    ensures items { IfOk result (λ made. made.items ≡ repeat n bytes.now) }
    ensures len { IfOk result (λ made. length made.items ≡ len) }
    ensures place { IfOk result (λ made. made.in_handle ≡ nat_le len INLINE_CAPACITY) }
    ensures memory { OnErr result (INLINE_CAPACITY < len) }
    ensures counted { RisesAtMost meter.old meter.new len }
    ensures copied { IfOk result (λ made. RisesAtLeast meter.old meter.new len) }
{
    let mut made = Gathering::with_room(alloc, len)?;
    if n == 0 {
        return Ok(made);
    }
    made.add_within(bytes, meter);
    let most = (AT_ONCE / bytes.len()).max(1);
    let mut done = 1;
    while done < n {
        let more = done.min(n - done).min(most);
        made.add_front_within(more * bytes.len(), meter);
        done += more;
    }
    Ok(made)
}

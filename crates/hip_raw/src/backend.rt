//! The promises of an owner of bytes.
ghost use Rattle.std.specs.Prelude.{◌≡◌, ℕ, ◌+◌, ◌*◌, ◌^◌, ◌<◌, ◌≤◌, Bool, false, true, List, ◌++◌, length, replicate, take, vec_capacity, vec_len, IsSome, IfOk, IfErr, IfSome, OnOk, OnErr};
ghost use Rattle.std.specs.Borrow.{sem, LendsIf};
ghost use Rattle.hip_raw.specs.Appended.{OnDone, OnShared, OnMemory, OnRefused};
ghost use Rattle.hip_raw.specs.Held.{OwnAnswers};
ghost use Rattle.hip_raw.specs.Meter.{RisesAtLeast, RisesAtMost, RisesBy, append_copies, pot, times_copied, unless_shared};
ghost use Rattle.hip_raw.specs.Window.{window};

use crate::appended::Appended;
use crate::block::Block;
use crate::extent::Extent;
use crate::meter::{Meter, copy_with_capacity};
use crate::room::Room;
use std::alloc::{AllocError, Global};

/// An owner of bytes: a list and a capacity. Where `SHARES` holds, many handles share one owner; else each has its own.
///
/// Any implementor that keeps these contracts serves the handles above. A call that allocates on some backend is passed the allocator, and
/// a refusal is one of memory, unless it says that the owner is shared.
pub trait Backend: Drop + Sized {
    // The list, and the number of bytes that it can hold without allocating.
    ghost items: { Self → List ℕ };

    ghost capacity: { Self → ℕ };

    ghost SHARES: { Bool };

    /// Whether an owner can be shared.
    const SHARES: bool;

    /// The room that a sole owner lends for writing.
    type Sole: Room;

    /// The bytes of an owner's list that a handle shows.
    type Extent: Extent;

    // The owner after what it lent was written.
    ghost with_sole: { Self → Self.Sole → Self };

    /// An owner and a position at which it has the `len` bytes that stand here from `start` on: the same owner where it can be
    /// shared, else one of their own.
    fn part(
        &self,
        alloc: Global,
        start: usize,
        len: usize,
        meter: &mut Meter,
    ) -> Result<(Self, usize), AllocError>
        requires { start + len ≤ length (items self.now) }
        ensures items { IfOk result
            (λ made. window (items made.0) made.1 len ≡ window (items self.now) start len) }
        ensures within { IfOk result (λ made. made.1 + len ≤ length (items made.0)) }
        ensures position { SHARES ≡ false → IfOk result (λ made. made.1 ≡ 0) }
        ensures whole { SHARES ≡ false → IfOk result (λ made. length (items made.0) ≡ len) }
        ensures fits { IfOk result (λ made. length (items made.0) ≤ capacity made.0) }
        ensures bound { IfOk result (λ made. length (items made.0) < 2 ^ 64) }
        ensures counted { RisesAtMost meter.old meter.new (unless_shared SHARES len) }
        ensures copied { OnOk result (RisesAtLeast meter.old meter.new (unless_shared SHARES len)) }
        ensures refused_copies_nothing { OnErr result (meter.new ≡ meter.old) };

    /// An owner of the vector's bytes. A refused vector is handed back.
    fn own(alloc: Global, vec: Vec<u8>, meter: &mut Meter) -> Result<Self, Vec<u8>>
        ensures owned { OwnAnswers items capacity vec result }
        ensures counted { RisesAtMost meter.old meter.new (unless_shared SHARES (vec_len vec)) }
        ensures refused_copies_nothing { OnErr result (meter.new ≡ meter.old) };

    /// The bytes in a vector, unless the owner is shared. A refused owner is handed back.
    fn try_into_vec(self, alloc: Global, meter: &mut Meter) -> Result<Vec<u8>, Self>
        ensures items { IfOk result (λ vec. vec.items ≡ items self) }
        ensures room { IfOk result (λ vec. capacity self ≤ vec_capacity vec) }
        ensures counted { RisesAtMost meter.old meter.new
            (unless_shared SHARES (length (items self))) }
        ensures handed_back { IfErr result (λ back. back ≡ self) }
        ensures refused_copies_nothing { OnErr result (meter.new ≡ meter.old) };

    /// The bytes.
    fn as_slice(&self) -> &[u8]
        ensures items { result.now ≡ items self.now }
        ensures fits { length (items self.now) ≤ capacity self.now }
        ensures bound { length (items self.now) < 2 ^ 64 };

    /// The number of bytes that it can hold without allocating.
    fn capacity(&self) -> usize
        ensures capacity { result ≡ capacity self.now }
        ensures fits { length (items self.now) ≤ capacity self.now };

    /// The owner's bytes and room, for writing in place; `None` where the owner is shared.
    fn writable(&mut self) -> Option<&mut Self::Sole>
        ensures* writes_back { sem 𝓛
            (LendsIf Self.row Self.Sole.row self.entry result (with_sole self.old) self.old) }
        ensures items { IfSome result (λ sole. Self.Sole.items sole.now ≡ items self.old) }
        ensures capacity { IfSome result (λ sole. Self.Sole.capacity sole.now ≡ capacity self.old) }
        ensures bound { length (items self.old) < 2 ^ 64 }
        ensures sole { SHARES ≡ false → IsSome result };

    /// Cuts the list to `keep` bytes and puts the addition behind them, unless the owner is shared. Room is reserved before the cut.
    fn append(&mut self, alloc: Global, keep: usize, addition: &[u8], meter: &mut Meter) -> Appended
        requires { keep ≤ length (items self.old) }
        ensures items { OnDone result
            (items self.new ≡ take keep (items self.old) ++ addition.now) }
        ensures capacity { SHARES ≡ false → capacity self.old ≤ capacity self.new }
        ensures fits { length (items self.new) ≤ capacity self.new }
        ensures bound { length (items self.new) < 2 ^ 64 }
        ensures counted { RisesAtMost meter.old meter.new
            (length addition.now + unless_shared SHARES keep) }
        ensures copied { OnDone result (RisesAtLeast meter.old meter.new (length addition.now)) }
        ensures exact { SHARES ≡ false → OnDone result
            (RisesBy meter.old meter.new (append_copies (capacity self.old) keep (length addition.now))) }
        ensures potential { SHARES ≡ false → OnDone result (meter.new + pot (length (items self.new)) (capacity self.new)
            ≤ meter.old + pot keep (capacity self.old) + 3 * length addition.now) }
        ensures shared { OnShared result (SHARES ≡ true) }
        ensures memory { OnMemory result
            (SHARES ≡ false → capacity self.old < keep + length addition.now) }
        ensures refused { OnRefused result
            ((items self.new ≡ items self.old) × (capacity self.new ≡ capacity self.old)) }
        ensures refused_copies_nothing { OnRefused result (meter.new ≡ meter.old) };

    /// An owner of a copy of these bytes, with a capacity of at least `room`.
    #[inline]
    fn copy_of(
        alloc: Global,
        bytes: &[u8],
        room: usize,
        meter: &mut Meter,
    ) -> Result<Self, AllocError>
        requires { length bytes.now ≤ room }
        ensures items { IfOk result (λ made. items made ≡ bytes.now) }
        ensures room { IfOk result (λ made. room ≤ capacity made) }
        ensures bound { IfOk result (λ made. length (items made) < 2 ^ 64) }
        ensures counted { RisesAtMost meter.old meter.new (times_copied SHARES (length bytes.now)) }
        ensures copied { IfOk result (λ made. RisesAtLeast meter.old meter.new (length bytes.now)) }
    {
        let vec = copy_with_capacity(alloc, bytes, room, meter)?;
        match Self::own(alloc, vec, meter) {
            Ok(made) => Ok(made),
            Err(_) => Err(AllocError),
        }
    }

    /// An owner of `len` zeros.
    #[inline]
    fn zeroed(alloc: Global, len: usize, meter: &mut Meter) -> Result<Self, AllocError>
        ensures items { IfOk result (λ made. items made ≡ replicate len 0) }
        ensures fits { IfOk result (λ made. length (items made) ≤ capacity made) }
        ensures bound { IfOk result (λ made. length (items made) < 2 ^ 64) }
        ensures counted { RisesAtMost meter.old meter.new (unless_shared SHARES len) }
        ensures refused_copies_nothing { OnErr result (meter.new ≡ meter.old) }
    {
        let mut vec = Vec::with_capacity(alloc, len)?;
        vec.resize(len, 0)?;
        match Self::own(alloc, vec, meter) {
            Ok(made) => Ok(made),
            Err(_) => Err(AllocError),
        }
    }

    /// Like [`Backend::own`], in a block that an owner left, so that none is allocated. Where owners have no blocks, it is that call.
    #[inline]
    fn own_in(
        alloc: Global,
        _block: Block,
        vec: Vec<u8>,
        meter: &mut Meter,
    ) -> Result<Self, Vec<u8>>
        ensures owned { OwnAnswers items capacity vec result }
        ensures counted { RisesAtMost meter.old meter.new (unless_shared SHARES (vec_len vec)) }
        ensures refused_copies_nothing { OnErr result (meter.new ≡ meter.old) }
    {
        Self::own(alloc, vec, meter)
    }

    /// [`Backend::try_into_vec`], and the block that the vector lay in, for [`Backend::own_in`]. Where owners have no blocks, there is
    /// none.
    #[inline]
    fn try_take_vec(self, alloc: Global, meter: &mut Meter) -> Result<(Vec<u8>, Block), Self>
        ensures items { IfOk result (λ taken. taken.0.items ≡ items self) }
        ensures room { IfOk result (λ taken. capacity self ≤ vec_capacity taken.0) }
        ensures counted { RisesAtMost meter.old meter.new
            (unless_shared SHARES (length (items self))) }
        ensures handed_back { IfErr result (λ back. back ≡ self) }
        ensures refused_copies_nothing { OnErr result (meter.new ≡ meter.old) }
    {
        let vec = self.try_into_vec(alloc, meter)?;
        Ok((vec, Block::none()))
    }

    // This owner has what the sole owner has when the loan ends.
    ghost sole_items: { (owner : Self) (sole : Self.Sole) → items (with_sole owner sole) ≡ Self.Sole.items sole };

    // Where owners are shared any bytes of a list can be shown, else the whole list.
    ghost extents: { (start len total : ℕ) → (SHARES ≡ false → (start ≡ 0) × (len ≡ total)) → Self.Extent.holds start len total };

    ghost sole_capacity: { (owner : Self) (sole : Self.Sole) → capacity (with_sole owner sole) ≡ Self.Sole.capacity sole };
}

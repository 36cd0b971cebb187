//! Bytes that lie in the handle itself.
ghost use Rattle.std.specs.Prelude.{⊤, ◌≡◌, ◌+◌, ◌-◌, ◌≤◌, ◌==◌, ◌++◌, ◌↔◌, [], length, replicate, slice_range, take, IsSome, IfSome, IfNone};
ghost use Rattle.std.specs.Borrow.{sem};
ghost use Rattle.hip_raw.specs.Meter.{RisesAtMost, count_from};

use crate::meter::{Copying, LANE, Meter, fill};
use cells::Cells;
use length::Length;
use std::alloc::AllocError;
use std::marker::Model;

mod cells;
pub(crate) mod length;

/// At most `N` bytes, which lie in the value itself. Their number is kept as an `L`, which may be shorter than a `usize`.
#[derive(Drop)]
pub struct Inline<const N: usize, L: Length<N> = usize> {
    row: Row<N, L>,
}

// The array and the length of an [`Inline`], which a clone copies whole.
#[derive(Clone, Copy)]
struct Row<const N: usize, L: Length<N>> {
    // It has no bytes. It aligns the others, so that they are moved by whole words.
    align: [usize; 0],
    cells: Cells<u8, N>,
    len: L,
}

impl<const N: usize, L: Length<N>> Model for Inline<N, L> {
    ghost use Rattle.std.specs.Prelude.{◌≡◌, ◌≤◌, List, ℕ, length, take};

    ghost Value = { List ℕ };

    ghost view = { λ inline. take (L.count_of inline.row.len) inline.row.cells.items };

    ghost invariant = { λ inline. (L.count_of inline.row.len ≤ N) × (length inline.row.cells.items ≡ N) };
}

impl<const N: usize, L: Length<N>> Inline<N, L> {
    ghost use Rattle.hip_raw.specs.Inline.{LendsBytes};

    /// No bytes.
    #[inline]
    pub fn empty() -> Self
        ensures { result ≡ [] }
    {
        Inline {
            row: Row {
                align: [],
                cells: Cells { items: [0; N] },
                len: L::of(0),
            },
        }
    }

    /// Zeros, `len` of them.
    #[inline]
    pub fn zeroed(len: usize) -> Self
        requires { len ≤ N }
        ensures { result ≡ replicate len 0 }
    {
        Inline {
            row: Row {
                align: [],
                cells: Cells { items: [0; N] },
                len: L::of(len),
            },
        }
    }

    /// These bytes, or `None` where they are more than `N`.
    #[inline]
    pub fn new(bytes: &[u8]) -> Option<Self>
        ensures fits { IsSome result ↔ (length bytes.now ≤ N) }
        ensures items { IfSome result (λ inline. inline ≡ bytes.now) }
    {
        Self::new_metered(bytes, &mut Meter::new())
    }

    /// [`Inline::new`], counted.
    #[inline]
    pub fn new_metered(bytes: &[u8], meter: &mut Meter) -> Option<Self>
        ensures fits { IsSome result ↔ (length bytes.now ≤ N) }
        ensures items { IfSome result (λ inline. inline ≡ bytes.now) }
        ensures counted { RisesAtMost meter.old meter.new (length bytes.now) }
        ensures exact { IfSome result
            (λ inline. meter.new ≡ count_from meter.old (length bytes.now)) }
        ensures refused_copies_nothing { IfNone result (meter.new ≡ meter.old) }
    {
        if bytes.len() <= N {
            Some(Self::new_unchecked_metered(bytes, meter))
        } else {
            None
        }
    }

    /// These bytes, of which there are at most `N`.
    #[inline]
    pub fn new_unchecked(bytes: &[u8]) -> Self
        requires { length bytes.now ≤ N }
        ensures { result ≡ bytes.now }
    {
        Self::new_unchecked_metered(bytes, &mut Meter::new())
    }

    /// [`Inline::new_unchecked`], counted.
    #[inline]
    pub fn new_unchecked_metered(bytes: &[u8], meter: &mut Meter) -> Self
        requires { length bytes.now ≤ N }
        ensures items { result ≡ bytes.now }
        ensures counted { RisesAtMost meter.old meter.new (length bytes.now) }
        ensures exact { meter.new ≡ count_from meter.old (length bytes.now) }
    {
        let mut inline = Self::empty();
        inline.push_slice_unchecked_metered(bytes, meter);
        inline
    }

    /// The part of a list from `start` up to `end`, of at most `N` bytes, counted. Up to sixteen bytes of a list that goes on behind them
    /// are moved at once.
    #[inline(always)]
    pub fn part_unchecked_metered(list: &[u8], start: usize, end: usize, meter: &mut Meter) -> Self
        requires ordered { start ≤ end }
        requires in_bounds { end ≤ length list.now }
        requires fits { end - start ≤ N }
        ensures items { result ≡ slice_range list.now start end }
        ensures counted { RisesAtMost meter.old meter.new (end - start) }
        ensures exact { meter.new ≡ count_from meter.old (end - start) }
    {
        let len = end - start;
        if len <= LANE && LANE <= N && LANE <= list.len() - start {
            return Self::front_metered(&list[start..], len, meter);
        }
        Self::new_unchecked_metered(&list[start..end], meter)
    }

    /// The part from `start` up to `end`, counted.
    #[inline(always)]
    pub fn slice_unchecked_metered(&self, start: usize, end: usize, meter: &mut Meter) -> Self
        requires ordered { start ≤ end }
        requires in_bounds { end ≤ length self.now }
        ensures items { result ≡ slice_range self.now start end }
        ensures counted { RisesAtMost meter.old meter.new (end - start) }
        ensures exact { meter.new ≡ count_from meter.old (end - start) }
    {
        Self::part_unchecked_metered(&self.row.cells.items, start, end, meter)
    }

    // The first `len` bytes of a list that goes on behind them.
    #[inline(always)]
    fn front_metered(list: &[u8], len: usize, meter: &mut Meter) -> Self
        requires short { len ≤ LANE }
        requires goes_on { LANE ≤ length list.now }
        requires fits { LANE ≤ N }
        ensures items { result ≡ take len list.now }
        ensures counted { RisesAtMost meter.old meter.new len }
        ensures exact { meter.new ≡ count_from meter.old len }
    {
        let mut inline = Self::empty();
        let room = &mut inline.row.cells.items[..];
        fill(room, list, len, Copying::AtOnce, meter);
        inline.row.len = L::of(len);
        inline
    }

    /// The number of bytes.
    #[inline]
    pub fn len(&self) -> usize
        ensures len { result ≡ length self.now }
        ensures within { result ≤ N }
    {
        self.row.len.get()
    }

    /// Whether there is no byte.
    #[inline]
    pub fn is_empty(&self) -> bool
        ensures { result ≡ (length self.now == 0) }
    {
        self.row.len.get() == 0
    }

    /// The number of bytes that it can hold, which is `N`.
    #[inline]
    pub fn capacity(&self) -> usize
        ensures capacity { result ≡ N }
        ensures within { length self.now ≤ N }
    {
        // Naming a field lets the proof know the invariant.
        let _ = &self.row.len;
        N
    }

    /// The bytes.
    #[inline]
    pub fn as_slice(&self) -> &[u8]
        ensures items { result.now ≡ self.now }
        ensures within { length self.now ≤ N }
    {
        &self.row.cells.items[..self.row.len.get()]
    }

    /// The bytes, for writing.
    #[inline]
    pub fn as_mut_slice(&mut self) -> &mut [u8]
        ensures* writes_back { sem 𝓛 (LendsBytes N.row L.row L.Length self.entry result) }
        ensures items { result.now ≡ self.old }
    {
        let len = self.row.len.get();
        let cells = &mut self.row.cells;
        cells.front_mut(len)
    }

    /// Appends these bytes, for which there is room.
    #[inline]
    pub fn push_slice_unchecked(&mut self, addition: &[u8])
        requires { length self.old + length addition.now ≤ N }
        ensures { self.new ≡ self.old ++ addition.now }
    {
        self.push_slice_unchecked_metered(addition, &mut Meter::new());
    }

    /// [`Inline::push_slice_unchecked`], counted.
    #[inline(always)]
    pub fn push_slice_unchecked_metered(&mut self, addition: &[u8], meter: &mut Meter)
        requires { length self.old + length addition.now ≤ N }
        ensures items { self.new ≡ self.old ++ addition.now }
        ensures counted { RisesAtMost meter.old meter.new (length addition.now) }
        ensures exact { meter.new ≡ count_from meter.old (length addition.now) }
    {
        let start = self.row.len.get();
        let len = addition.len();
        let room = &mut self.row.cells.items[..];
        fill(&mut room[start..], addition, len, Copying::Inlined, meter);
        self.row.len = L::of(start + len);
    }

    /// Appends the first `count` bytes again, for which there is room, counted.
    #[inline]
    pub fn push_front_unchecked_metered(&mut self, count: usize, meter: &mut Meter)
        requires there { count ≤ length self.old }
        requires fits { length self.old + count ≤ N }
        ensures items { self.new ≡ self.old ++ take count self.old }
        ensures counted { RisesAtMost meter.old meter.new count }
        ensures exact { meter.new ≡ count_from meter.old count }
    {
        let start = self.row.len.get();
        let room = &mut self.row.cells.items[..];
        let (front, back) = room.split_at_mut(start);
        fill(back, front, count, Copying::Inlined, meter);
        self.row.len = L::of(start + count);
    }

    /// Keeps the first `len` bytes, or all where there are fewer. It copies nothing.
    #[inline]
    pub fn truncate(&mut self, len: usize)
        ensures { self.new ≡ take len self.old }
    {
        if len < self.row.len.get() {
            self.row.len = L::of(len);
        }
    }

    /// A copy of the value, made whole, as by a move. The meter counts the bytes that it holds.
    #[inline]
    pub fn clone_metered(&self, meter: &mut Meter) -> Self
        ensures items { result ≡ self.now }
        ensures counted { RisesAtMost meter.old meter.new (length self.now) }
        ensures exact { meter.new ≡ count_from meter.old (length self.now) }
    {
        meter.count(self.row.len.get());
        Inline { row: self.row }
    }
}

impl<const N: usize, L: Length<N>> Clone for Inline<N, L> {
    ghost is_clone = { λ inline copy. copy ≡ inline };

    ghost is_infallible = { λ _. ⊤ };

    /// [`Inline::clone_metered`], not counted. It allocates nothing.
    #[inline]
    fn clone(&self) -> Result<Self, AllocError> {
        Ok(self.clone_metered(&mut Meter::new()))
    }
}

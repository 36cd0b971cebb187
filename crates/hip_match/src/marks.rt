//! The places of a text that pass a test, found 64 at a time from either end.
//!
//! Functions that aren't inlined take a test by value, so that a walk's own fields stay in registers.
ghost use Rattle.std.specs.Prelude.{◌≡◌, ◌≢◌, ◌+◌, ◌-◌, ◌<◌, ◌≤◌, ℕ, Bool, IsTrue, List, None, Some, length, IfSome, MatchOption};
ghost use Rattle.memchr.specs.Find.{IsFirst, IsLast, Nowhere};
ghost use Rattle.hip_match.specs.Marks.{Ahead, AreMarks, Behind, PassesAt, stands};
ghost use Rattle.hip_match.specs.Needles.{bytes_of, packed};

use crate::bits::{bits_below, bits_from, highest, lowest, shifted_up, without, without_lowest};
use crate::byte_test::OneByte;
use crate::place_test::{Bytes, Needle, PlaceTest};

/// The number of places of a block.
pub(crate) const BLOCK: usize = 64;

const LANES: usize = 16;

// The marks of the sixteen places from `at` on, moved up by `by`.
#[inline(always)]
fn lanes_moved<T: PlaceTest>(test: &T, bytes: &[u8], at: usize, by: usize) -> u64
    requires room { at + 16 + T.reach test.now ≤ length bytes.now }
    requires by { by ≤ 48 }
    ensures { (end : ℕ) → by + end ≡ at + 64 → AreMarks (T.places test.now) bytes.now at (at + 16) end result }
{
    shifted_up(test.lanes(bytes, at), by)
}

// The marks of the 64 places from `at` on.
#[inline(always)]
pub(crate) fn block<T: PlaceTest>(test: &T, bytes: &[u8], at: usize) -> u64
    requires { at + 64 + T.reach test.now ≤ length bytes.now }
    ensures { AreMarks (T.places test.now) bytes.now at (at + 64) (at + 64) result }
{
    lanes_moved(test, bytes, at, 0)
        | lanes_moved(test, bytes, at + LANES, LANES)
        | lanes_moved(test, bytes, at + 2 * LANES, 2 * LANES)
        | lanes_moved(test, bytes, at + 3 * LANES, 3 * LANES)
}

// Whether none of the 64 places from `at` on passes.
#[inline(always)]
pub(crate) fn is_clear<T: PlaceTest>(test: &T, bytes: &[u8], at: usize) -> bool
    requires { at + 64 + T.reach test.now ≤ length bytes.now }
    ensures { IsTrue result → Nowhere (PassesAt (T.places test.now) bytes.now) at (at + 64) }
{
    let first = test.lanes(bytes, at) | test.lanes(bytes, at + LANES);
    let second = test.lanes(bytes, at + 2 * LANES) | test.lanes(bytes, at + 3 * LANES);
    first | second == 0
}

// The marks of a text that has fewer than 64 places: bit k is of the place k.
#[inline(never)]
fn few<T: PlaceTest>(test: T, bytes: &[u8]) -> u64
    requires some { T.reach test < length bytes.now }
    requires few { length bytes.now < 64 + T.reach test }
    ensures { AreMarks (T.places test) bytes.now 0 (length bytes.now - T.reach test) 64 result }
{
    let len = bytes.len();
    let count = len - test.reach();
    if count < LANES {
        let mut padded = [0; 2 * LANES];
        padded[..len].copy_from_slice(bytes);
        return bits_below(test.lanes(&padded, 0), count);
    }
    let last = count - LANES;
    let second = last.min(LANES);
    let third = last.min(2 * LANES);
    lanes_moved(&test, bytes, 0, 0)
        | lanes_moved(&test, bytes, second, second)
        | lanes_moved(&test, bytes, third, third)
        | lanes_moved(&test, bytes, last, last)
}

// The marks of the last places of a text, from `from` on. The last is told by the highest bit.
#[inline(never)]
fn last_block<T: PlaceTest>(test: T, bytes: &[u8], from: usize) -> u64
    requires some { from + T.reach test < length bytes.now }
    requires few { length bytes.now < from + 64 + T.reach test }
    ensures { AreMarks (T.places test) bytes.now from (length bytes.now - T.reach test) (length bytes.now - T.reach test) result }
{
    let count = bytes.len() - test.reach();
    let passed = BLOCK - (count - from);
    if BLOCK <= count {
        return bits_from(block(&test, bytes, count - BLOCK), passed);
    }
    bits_from(shifted_up(few(test, bytes), BLOCK - count), passed)
}

// The marks of at most 64 places from `from` on, and the first place behind them.
#[inline(always)]
fn block_from<T: PlaceTest>(test: &T, bytes: &[u8], from: usize) -> (usize, u64)
    requires { from + T.reach test.now < length bytes.now }
    ensures goes_on { from < result.0 }
    ensures within { result.0 ≤ length bytes.now }
    ensures marks { AreMarks (T.places test.now) bytes.now from result.0 result.0 result.1 }
{
    let count = bytes.len() - test.reach();
    if BLOCK <= count - from {
        return (from + BLOCK, block(test, bytes, from));
    }
    (count, last_block(*test, bytes, from))
}

// The marks of at most 64 places before `to`, and the first of these places.
#[inline(always)]
fn block_before<T: PlaceTest>(test: &T, bytes: &[u8], to: usize) -> (usize, u64)
    requires some { 0 < to }
    requires within { to + T.reach test.now ≤ length bytes.now }
    ensures goes_on { result.0 < to }
    ensures marks { AreMarks (T.places test.now) bytes.now result.0 to (result.0 + 64) result.1 }
{
    if BLOCK <= to {
        return (to - BLOCK, block(test, bytes, to - BLOCK));
    }
    (0, few(*test, &bytes[..to + test.reach()]))
}

// The first place from which marks are to be read: none passes from `from` on before it. Where the last mark was far, places that fail
// are passed at once.
#[inline(always)]
fn seek<T: PlaceTest>(test: &T, bytes: &[u8], from: usize, is_far: bool) -> Option<usize>
    requires { from ≤ length bytes.now }
    ensures { MatchOption result (Nowhere (PassesAt (T.places test.now) bytes.now) from (length bytes.now)) (λ start. (from ≤ start)
        × (start + T.reach test.now < length bytes.now) × Nowhere (PassesAt (T.places test.now) bytes.now) from start) }
{
    let start = if is_far {
        test.pass(bytes, from)?
    } else {
        from
    };
    if bytes.len() - start <= test.reach() {
        None
    } else {
        Some(start)
    }
}

// The place before which marks are to be read: none passes from there on before `to`. It passes places as `seek` does.
#[inline(always)]
fn seek_back<T: PlaceTest>(test: &T, bytes: &[u8], to: usize, is_far: bool) -> Option<usize>
    requires { to ≤ length bytes.now }
    ensures { MatchOption result (Nowhere (PassesAt (T.places test.now) bytes.now) 0 to) (λ stop. (0 < stop) × (stop ≤ to)
        × (stop + T.reach test.now ≤ length bytes.now) × Nowhere (PassesAt (T.places test.now) bytes.now) stop to) }
{
    let last = to.min(bytes.len().saturating_sub(test.reach()));
    let stop = if is_far && 0 < last {
        test.pass_back(bytes, last)?
    } else {
        last
    };
    if stop == 0 { None } else { Some(stop) }
}

/// The marks that are left of a block of 64 places, from its front.
#[derive(Clone, Copy)]
pub(crate) struct FrontMarks {
    // The first place behind the block.
    next: usize,
    // The marks that are left of the 64 places before that.
    bits: u64,
    // The last block lay more than a block ahead.
    is_far: bool,
}

impl FrontMarks {
    // No place from `from` on is read yet.
    #[inline(always)]
    pub(crate) fn new(from: usize) -> Self
        ensures { (places : List ℕ → ℕ → Bool) (t : List ℕ) → from ≤ length t → Ahead places t from result.next result.bits }
    {
        FrontMarks {
            next: from,
            bits: 0,
            is_far: false,
        }
    }

    // The first place that is left of the block, which is passed.
    #[inline(always)]
    fn pop<T: PlaceTest>(&mut self, test: &T, bytes: &[u8], from: usize) -> Option<usize>
        requires { Ahead (T.places test.now) bytes.now from self.old.next self.old.bits }
        ensures none { result ≡ None → self.old.bits ≡ 0 × self.new ≡ self.old }
        ensures found { IfSome result (λ at. IsFirst (PassesAt (T.places test.now) bytes.now) from (length bytes.now) (Some at)) }
        ensures ahead { IfSome result (λ at. Ahead (T.places test.now) bytes.now (at + 1) self.new.next self.new.bits) }
    {
        let k = lowest(self.bits)?;
        self.bits = without_lowest(self.bits);
        Some(self.next + k as usize - BLOCK)
    }

    // The first place behind the next block that has a mark, and its marks. Without one there are none.
    #[inline(always)]
    fn read<T: PlaceTest>(self, test: &T, bytes: &[u8], from: usize) -> (usize, u64)
        requires done { self.bits ≡ 0 }
        requires ahead { Ahead (T.places test.now) bytes.now from self.next self.bits }
        ensures ahead { Ahead (T.places test.now) bytes.now from result.0 result.1 }
        ensures end { result.1 ≡ 0 → Nowhere (PassesAt (T.places test.now) bytes.now) from (length bytes.now) }
        ensures goes_on { self.next ≤ result.0 }
    {
        let mut next = self.next;
        let mut is_far = self.is_far;
        while let Some(start) = seek(test, bytes, next, is_far) {
            let (behind, bits) = block_from(test, bytes, start);
            if bits != 0 {
                return (behind, bits);
            }
            next = behind;
            is_far = true;
        }
        (bytes.len(), 0)
    }

    // Goes on with the block that was read.
    #[inline(always)]
    fn load(&mut self, read: (usize, u64))
        requires { self.old.next ≤ read.0 }
        ensures next { self.new.next ≡ read.0 }
        ensures bits { self.new.bits ≡ read.1 }
    {
        let (next, bits) = read;
        self.is_far = 2 * BLOCK <= next - self.next;
        self.next = next;
        self.bits = bits;
    }

    // The first place that is left, which is passed.
    #[inline(always)]
    pub(crate) fn next<T: PlaceTest>(
        &mut self,
        test: &T,
        bytes: &[u8],
        from: usize,
    ) -> Option<usize>
        requires { Ahead (T.places test.now) bytes.now from self.old.next self.old.bits }
        ensures found { IsFirst (PassesAt (T.places test.now) bytes.now) from (length bytes.now) result }
        ensures ahead { IfSome result (λ at. Ahead (T.places test.now) bytes.now (at + 1) self.new.next self.new.bits) }
    {
        if let Some(at) = self.pop(test, bytes, from) {
            return Some(at);
        }
        self.load(self.read(test, bytes, from));
        self.pop(test, bytes, from)
    }

    // Like `next`, of a needle. That of one byte is read at once, others out of line.
    #[inline(always)]
    pub(crate) fn next_needle(&mut self, test: Needle, bytes: &[u8], from: usize) -> Option<usize>
        requires within { from ≤ length bytes.now }
        requires ahead { Ahead (stands (bytes_of test)) bytes.now from self.old.next self.old.bits }
        ensures found { IsFirst (PassesAt (stands (bytes_of test)) bytes.now) from (length bytes.now) result }
        ensures ahead { IfSome result (λ at. Ahead (stands (bytes_of test)) bytes.now (at + 1) self.new.next self.new.bits) }
    {
        if let Some(at) = self.pop(&test, bytes, from) {
            return Some(at);
        }
        let read = match test {
            Needle::One(byte) => self.read(&Bytes(OneByte(byte)), bytes, from),
            _ => read_needle(
                self.next,
                self.is_far,
                test.word(),
                test.reach(),
                bytes,
                from,
            ),
        };
        self.load(read);
        self.pop(&test, bytes, from)
    }

    // Passes the places before `to`.
    #[inline(always)]
    pub(crate) fn skip_to(&mut self, to: usize)
        ensures { (places : List ℕ → ℕ → Bool) (t : List ℕ) (from : ℕ) → from ≤ to → to ≤ length t
            → Ahead places t from self.old.next self.old.bits → Ahead places t to self.new.next self.new.bits }
    {
        if self.next <= to {
            self.next = to;
            self.bits = 0;
        } else {
            self.bits = bits_from(self.bits, BLOCK.saturating_sub(self.next - to));
        }
    }
}

/// The marks that are left of a block of 64 places, from its back.
#[derive(Clone, Copy)]
pub(crate) struct BackMarks {
    // The first place of the block.
    start: usize,
    // The marks that are left of the 64 places from there on.
    bits: u64,
    // The last block lay more than a block behind.
    is_far: bool,
}

impl BackMarks {
    // No place before `to` is read yet.
    #[inline(always)]
    pub(crate) fn new(to: usize) -> Self
        ensures { (places : List ℕ → ℕ → Bool) (t : List ℕ) → to ≤ length t → Behind places t to result.start result.bits }
    {
        BackMarks {
            start: to,
            bits: 0,
            is_far: false,
        }
    }

    // The last place that is left of the block, which is passed.
    #[inline(always)]
    fn pop<T: PlaceTest>(&mut self, test: &T, bytes: &[u8], to: usize) -> Option<usize>
        requires { Behind (T.places test.now) bytes.now to self.old.start self.old.bits }
        ensures none { result ≡ None → self.old.bits ≡ 0 × self.new ≡ self.old }
        ensures found { IfSome result (λ at. IsLast (PassesAt (T.places test.now) bytes.now) 0 to (Some at)) }
        ensures behind { IfSome result (λ at. Behind (T.places test.now) bytes.now at self.new.start self.new.bits) }
    {
        let k = highest(self.bits)?;
        self.bits = without(self.bits, k);
        Some(self.start + k as usize)
    }

    // The first place of the last block before this one that has a mark, and its marks. Without one there are none.
    #[inline(always)]
    fn read<T: PlaceTest>(self, test: &T, bytes: &[u8], to: usize) -> (usize, u64)
        requires done { self.bits ≡ 0 }
        requires behind { Behind (T.places test.now) bytes.now to self.start self.bits }
        ensures behind { Behind (T.places test.now) bytes.now to result.0 result.1 }
        ensures end { result.1 ≡ 0 → Nowhere (PassesAt (T.places test.now) bytes.now) 0 to }
        ensures goes_on { result.0 ≤ self.start }
    {
        let mut start = self.start;
        let mut is_far = self.is_far;
        while let Some(stop) = seek_back(test, bytes, start, is_far) {
            let (first, bits) = block_before(test, bytes, stop);
            if bits != 0 {
                return (first, bits);
            }
            start = first;
            is_far = true;
        }
        (0, 0)
    }

    // Goes on with the block that was read.
    #[inline(always)]
    fn load(&mut self, read: (usize, u64))
        requires { read.0 ≤ self.old.start }
        ensures start { self.new.start ≡ read.0 }
        ensures bits { self.new.bits ≡ read.1 }
    {
        let (start, bits) = read;
        self.is_far = 2 * BLOCK <= self.start - start;
        self.start = start;
        self.bits = bits;
    }

    // The last place that is left, which is passed.
    #[inline(always)]
    pub(crate) fn last<T: PlaceTest>(&mut self, test: &T, bytes: &[u8], to: usize) -> Option<usize>
        requires { Behind (T.places test.now) bytes.now to self.old.start self.old.bits }
        ensures found { IsLast (PassesAt (T.places test.now) bytes.now) 0 to result }
        ensures behind { IfSome result (λ at. Behind (T.places test.now) bytes.now at self.new.start self.new.bits) }
    {
        if let Some(at) = self.pop(test, bytes, to) {
            return Some(at);
        }
        self.load(self.read(test, bytes, to));
        self.pop(test, bytes, to)
    }

    // Like `last`, of a needle. That of one byte is read at once, others out of line.
    #[inline(always)]
    pub(crate) fn last_needle(&mut self, test: Needle, bytes: &[u8], to: usize) -> Option<usize>
        requires within { to ≤ length bytes.now }
        requires behind { Behind (stands (bytes_of test)) bytes.now to self.old.start self.old.bits }
        ensures found { IsLast (PassesAt (stands (bytes_of test)) bytes.now) 0 to result }
        ensures behind { IfSome result (λ at. Behind (stands (bytes_of test)) bytes.now at self.new.start self.new.bits) }
    {
        if let Some(at) = self.pop(&test, bytes, to) {
            return Some(at);
        }
        let read = match test {
            Needle::One(byte) => self.read(&Bytes(OneByte(byte)), bytes, to),
            _ => read_needle_back(
                self.start,
                self.is_far,
                test.word(),
                test.reach(),
                bytes,
                to,
            ),
        };
        self.load(read);
        self.pop(&test, bytes, to)
    }

    // Passes the places from `to` on.
    #[inline(always)]
    pub(crate) fn skip_to(&mut self, to: usize)
        ensures { (places : List ℕ → ℕ → Bool) (t : List ℕ) (from : ℕ) → to ≤ from
            → Behind places t from self.old.start self.old.bits → Behind places t to self.new.start self.new.bits }
    {
        if to <= self.start {
            self.start = to;
            self.bits = 0;
        } else if to - self.start < BLOCK {
            self.bits = bits_below(self.bits, to - self.start);
        }
    }
}

// Reads the marks of a needle, whose bytes are a word, as `FrontMarks::read` does. Each width has a loop of its own.
#[inline(never)]
fn read_needle(
    next: usize,
    is_far: bool,
    word: u32,
    reach: usize,
    bytes: &[u8],
    from: usize,
) -> (usize, u64)
    requires few { reach ≤ 3 }
    requires ahead { Ahead (stands (packed word reach)) bytes.now from next 0 }
    ensures ahead { Ahead (stands (packed word reach)) bytes.now from result.0 result.1 }
    ensures end { result.1 ≡ 0 → Nowhere (PassesAt (stands (packed word reach)) bytes.now) from (length bytes.now) }
    ensures goes_on { next ≤ result.0 }
{
    let bits = 0;
    let marks = FrontMarks { next, bits, is_far };
    let [a, b, c, d] = word.to_le_bytes();
    match reach {
        0 => marks.read(&Needle::One(a), bytes, from),
        1 => marks.read(&Needle::Two(a, b), bytes, from),
        2 => marks.read(&Needle::Three(a, b, c), bytes, from),
        _ => marks.read(&Needle::Four(a, b, c, d), bytes, from),
    }
}

// Reads the marks of a needle, whose bytes are a word, as `BackMarks::read` does.
#[inline(never)]
fn read_needle_back(
    start: usize,
    is_far: bool,
    word: u32,
    reach: usize,
    bytes: &[u8],
    to: usize,
) -> (usize, u64)
    requires few { reach ≤ 3 }
    requires behind { Behind (stands (packed word reach)) bytes.now to start 0 }
    ensures behind { Behind (stands (packed word reach)) bytes.now to result.0 result.1 }
    ensures end { result.1 ≡ 0 → Nowhere (PassesAt (stands (packed word reach)) bytes.now) 0 to }
    ensures goes_on { result.0 ≤ start }
{
    let bits = 0;
    let marks = BackMarks {
        start,
        bits,
        is_far,
    };
    let [a, b, c, d] = word.to_le_bytes();
    match reach {
        0 => marks.read(&Needle::One(a), bytes, to),
        1 => marks.read(&Needle::Two(a, b), bytes, to),
        2 => marks.read(&Needle::Three(a, b, c), bytes, to),
        _ => marks.read(&Needle::Four(a, b, c, d), bytes, to),
    }
}

/// The places of a text that pass a test, from either end.
#[derive(Clone, Copy)]
pub struct Marks<T: PlaceTest> {
    pub(crate) test: T,
    pub(crate) front: FrontMarks,
    pub(crate) back: BackMarks,
}

impl<T: PlaceTest> Marks<T> {
    // The places of a text from `from` up to `to`, none of which is read yet.
    #[inline]
    pub(crate) fn new(test: T, from: usize, to: usize) -> Self
        ensures test { result.test ≡ test }
        ensures ahead { (t : List ℕ) → from ≤ length t → Ahead (T.places test) t from result.front.next result.front.bits }
        ensures behind { (t : List ℕ) → to ≤ length t → Behind (T.places test) t to result.back.start result.back.bits }
    {
        Marks {
            test,
            front: FrontMarks::new(from),
            back: BackMarks::new(to),
        }
    }
}

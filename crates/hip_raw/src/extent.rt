//! The bytes of an owner's list that a handle shows.
ghost use Rattle.std.specs.Prelude.{◌≡◌, ℕ, ⊤};

use std::alloc::AllocError;

/// Where a handle's bytes lie in an owner's list. Where an owner can't be shared they are always the whole list, and their extent
/// takes no bytes.
pub trait Extent: Copy + Drop {
    // Where it begins.
    ghost start_of: { Self → ℕ };

    // Its length, in a list of so many bytes.
    ghost len_of: { Self → ℕ → ℕ };

    // The starts and lengths that can be, in a list of so many bytes.
    ghost holds: { ℕ → ℕ → ℕ → Type 0 };

    /// The `len` bytes from `start` on of a list of `total`.
    fn of(start: usize, len: usize, total: usize) -> Self
        requires { holds start len total }
        ensures start { start_of result ≡ start }
        ensures len { len_of result total ≡ len };

    /// Where it begins.
    fn start(self) -> usize
        ensures { result ≡ start_of self };

    /// Its length, in a list of `total` bytes.
    fn len(self, total: usize) -> usize
        ensures { result ≡ len_of self total };
}

/// Any bytes of a list.
pub struct Span {
    start: usize,
    len: usize,
}

// The clones are written out: a derived one makes the proof of each call over `Rc` or `Unique` repeat that backend's laws and
// methods.
impl Clone for Span {
    ghost is_clone = { λ span copy. copy ≡ span };

    ghost is_infallible = { λ _. ⊤ };

    #[inline(always)]
    fn clone(&self) -> Result<Span, AllocError> {
        Ok(*self)
    }
}

impl Copy for Span {}

impl Extent for Span {
    ghost start_of = { λ span. span.start };

    ghost len_of = { λ span _. span.len };

    ghost holds = { λ _ _ _. ⊤ };

    #[inline(always)]
    fn of(start: usize, len: usize, _total: usize) -> Span {
        Span { start, len }
    }

    #[inline(always)]
    fn start(self) -> usize {
        self.start
    }

    #[inline(always)]
    fn len(self, _total: usize) -> usize {
        self.len
    }
}

/// The whole list.
pub struct Whole;

impl Clone for Whole {
    ghost is_clone = { λ whole copy. copy ≡ whole };

    ghost is_infallible = { λ _. ⊤ };

    #[inline(always)]
    fn clone(&self) -> Result<Whole, AllocError> {
        Ok(*self)
    }
}

impl Copy for Whole {}

impl Extent for Whole {
    ghost start_of = { λ _. 0 };

    ghost len_of = { λ _ total. total };

    ghost holds = { λ start len total. (start ≡ 0) × (len ≡ total) };

    #[inline(always)]
    fn of(_start: usize, _len: usize, _total: usize) -> Whole {
        Whole
    }

    #[inline(always)]
    fn start(self) -> usize {
        0
    }

    #[inline(always)]
    fn len(self, total: usize) -> usize {
        total
    }
}

//! Lengths that take few bytes.
ghost use Rattle.std.specs.Prelude.{◌≡◌, ◌≤◌, ℕ};

/// The greatest number of bytes that a handle of the layers above holds in itself.
pub const INLINE_CAPACITY: usize = 23;

/// A length of at most `N`.
pub trait Length<const N: usize>: Copy + Drop {
    // The length as a number.
    ghost count_of: { Self → ℕ };

    /// This length.
    fn of(count: usize) -> Self
        requires { count ≤ N }
        ensures { count_of result ≡ count };

    /// The length.
    fn get(self) -> usize
        ensures { result ≡ count_of self };
}

impl<const N: usize> Length<N> for usize {
    ghost count_of = { λ count. count };

    #[inline(always)]
    fn of(count: usize) -> usize {
        count
    }

    #[inline(always)]
    fn get(self) -> usize {
        self
    }
}

impl Length<INLINE_CAPACITY> for u8 {
    ghost count_of = { λ count. count };

    #[inline(always)]
    fn of(count: usize) -> u8 {
        count as u8
    }

    #[inline(always)]
    fn get(self) -> usize {
        self as usize
    }
}

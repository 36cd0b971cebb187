//! The array behind an inline list.
ghost use Rattle.std.specs.Prelude.{◌≡◌, ◌≤◌, take};
ghost use Rattle.std.specs.Borrow.{sem};

/// An array in a struct of its own, so that a contract can say what a loan of its first items leaves.
#[derive(Clone, Copy)]
pub(crate) struct Cells<T, const N: usize> {
    pub(crate) items: [T; N],
}

impl<T, const N: usize> Cells<T, N> {
    ghost use Rattle.hip_raw.specs.Cells.{LendsFront};

    /// The first `len` items, for writing.
    #[inline]
    pub(crate) fn front_mut(&mut self, len: usize) -> &mut [T]
        requires { len ≤ N }
        ensures* writes_back { sem 𝓛 (LendsFront T.row N.row self.entry result) }
        ensures value { result.now ≡ take len self.old.items }
    {
        &mut self.items[..len]
    }
}

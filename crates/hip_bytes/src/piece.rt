//! The pieces of joins.
ghost use Rattle.std.specs.Prelude.{◌≡◌, List, ℕ, [], ◌++◌};

use std::slice;

/// Bytes, a text, or a byte: what a join puts one behind another.
pub trait Piece: Drop {
    /// Its bytes.
    ghost bytes: { Self → List ℕ };

    /// A property of the bytes of each, and so of their joins: of texts, that they are UTF-8.
    ghost keeps: { List ℕ → Type 0 };

    /// Its bytes.
    fn as_piece(&self) -> &[u8]
        ensures bytes { result.now ≡ bytes self.now }
        ensures kept { keeps result.now };

    /// It holds of nothing.
    ghost empty: { keeps [] };

    /// It holds of what is put together.
    ghost together: { (front rest : List ℕ) → keeps front → keeps rest → keeps (front ++ rest) };
}

impl<'a> Piece for &'a [u8] {
    ghost bytes = { λ slice. slice.now };

    ghost keeps = { λ _. Unit {0} };

    #[inline(always)]
    fn as_piece(&self) -> &[u8] {
        *self
    }

    ghost empty = { tt };

    ghost together = { λ _ _ _ _. tt };
}

impl<'a> Piece for &'a str {
    ghost use Rattle.std.specs.Prelude.{IsUtf8};
    ghost use Rattle.std.proofs.lemmas.Str.{IsUtf8-nil, IsUtf8-append};

    ghost bytes = { λ text. text.now };

    ghost keeps = { IsUtf8 };

    #[inline(always)]
    fn as_piece(&self) -> &[u8] {
        self.as_bytes()
    }

    ghost empty = { IsUtf8-nil };

    ghost together = { λ front rest. IsUtf8-append front rest };
}

/// A byte is a piece of one.
impl Piece for u8 {
    ghost use Rattle.hip_bytes.specs.Join.{one_byte};

    ghost bytes = { one_byte };

    ghost keeps = { λ _. Unit {0} };

    #[inline(always)]
    fn as_piece(&self) -> &[u8] {
        slice::from_ref(self)
    }

    ghost empty = { tt };

    ghost together = { λ _ _ _ _. tt };
}

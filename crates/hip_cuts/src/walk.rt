//! The words for pieces at ranges of the caller's.
ghost use Rattle.hip_cuts.specs.Piece.{Left};

/// The pieces that are left, at ranges of the caller's.
pub trait Walk {
    /// Holds of what [`TextCuts::pieces_at`](crate::TextCuts::pieces_at) made, and stays so.
    ghost ready: { Self → Type 0 };

    /// The source, and the ranges that are still to come.
    ghost left: { Self → Left };
}

//! Each iterator of this crate is a list of ranges at boundaries of one text, or of ranges of bytes.
ghost use Rattle.std.specs.Prelude.{◌≡◌, ℕ, List, IfSome};
ghost use Rattle.std.specs.Iterator.{YieldsFirst, YieldsLast};
ghost use Rattle.hip_match.specs.Bytes.{IsWithin};
ghost use Rattle.hip_match.specs.Clones.{KeepsRanges};
ghost use Rattle.hip_match.specs.Occurrence.{IsCut};

/// A list of ranges of a text, given from the front.
pub trait Ranges {
    /// Holds of what a constructor made, and stays so.
    ghost ready: { Self → Type 0 };

    /// The bytes of the text that the ranges are ranges of.
    ghost text: { Self → List ℕ };

    /// The ranges that are still to come.
    ghost rest: { Self → List (ℕ × ℕ) };

    /// The first of the ranges that are left.
    fn next(&mut self) -> Option<(usize, usize)>
        requires { ready self.old }
        ensures first { YieldsFirst rest self.old result self.new }
        ensures cut { IfSome result (IsCut (text self.old)) }
        ensures text { text self.new ≡ text self.old }
        ensures ready { ready self.new };
}

/// A list of ranges that is given from both ends.
pub trait RangesBack: Ranges {
    /// The last of the ranges that are left.
    fn next_back(&mut self) -> Option<(usize, usize)>
        requires { Self.ready self.old }
        ensures last { YieldsLast Self.rest self.old result self.new }
        ensures cut { IfSome result (IsCut (Self.text self.old)) }
        ensures text { Self.text self.new ≡ Self.text self.old }
        ensures ready { Self.ready self.new };
}

/// Ranges whose clones give what they do.
pub trait CloneRanges: Ranges + Clone {
    /// A clone is ready where the ranges are, and gives the same ranges of the same text.
    ghost clone_keeps: { (ranges copy : Self) → Self.is_clone ranges copy
        → KeepsRanges Self.ready Self.text Self.rest ranges copy };
}

/// A list of ranges of bytes that needn't be UTF-8, given from both ends.
pub trait ByteRanges {
    /// Holds of what a constructor made, and stays so.
    ghost ready: { Self → Type 0 };

    /// The bytes that the ranges are ranges of.
    ghost bytes: { Self → List ℕ };

    /// The ranges that are still to come.
    ghost rest: { Self → List (ℕ × ℕ) };

    /// The first of the ranges that are left.
    fn next(&mut self) -> Option<(usize, usize)>
        requires { ready self.old }
        ensures first { YieldsFirst rest self.old result self.new }
        ensures within { IfSome result (IsWithin (bytes self.old)) }
        ensures bytes { bytes self.new ≡ bytes self.old }
        ensures ready { ready self.new };

    /// The last of the ranges that are left.
    fn next_back(&mut self) -> Option<(usize, usize)>
        requires { ready self.old }
        ensures last { YieldsLast rest self.old result self.new }
        ensures within { IfSome result (IsWithin (bytes self.old)) }
        ensures bytes { bytes self.new ≡ bytes self.old }
        ensures ready { ready self.new };
}

/// Ranges of bytes whose clones give what they do.
pub trait CloneByteRanges: ByteRanges + Clone {
    /// A clone is ready where the ranges are, and gives the same ranges of the same bytes.
    ghost clone_keeps: { (ranges copy : Self) → Self.is_clone ranges copy
        → KeepsRanges Self.ready Self.bytes Self.rest ranges copy };
}

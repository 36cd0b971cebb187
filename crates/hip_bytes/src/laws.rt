//! Laws of the definitions that the contracts of this crate cite. Each function does nothing; its contract is the law.
ghost use Rattle.std.specs.Prelude.{◌≡◌, ◌+◌, ◌-◌, ◌≤◌, length, slice_range, None};
ghost use Rattle.std.specs.declared.ops.Bound.TheVariants.{Included, Excluded};
ghost use Rattle.hip_bytes.specs.Borsh.{BorshRoundTrip};
ghost use Rattle.hip_bytes.specs.Kinds.{cut_kind};
ghost use Rattle.hip_bytes.specs.Range.{slice_fault};

use crate::kind::Kind;

/// A slice of a slice is one slice of the source, at summed positions, and of the kind that it would have alone.
pub fn slice_of_slice(bytes: &[u8], kind: Kind, start: usize, end: usize, from: usize, to: usize)
    requires slice { (start ≤ end) × (end ≤ length bytes.now) }
    requires slice_of_it { (from ≤ to) × (to ≤ end - start) }
    ensures items { slice_range (slice_range bytes.now start end) from to
        ≡ slice_range bytes.now (start + from) (start + to) }
    ensures range { slice_fault (Included (start + from)) (Excluded (start + to))
        (length bytes.now) ≡ None }
    ensures kind { cut_kind (cut_kind kind (end - start)) (to - from) ≡ cut_kind kind (to - from) }
{}

/// A form that [`HipByt::serialize`](crate::HipByt::serialize) wrote is read by
/// [`HipByt::deserialize_reader`](crate::HipByt::deserialize_reader) as the same bytes, from whichever source. The bytes behind it are
/// left.
pub fn borsh_round_trip(items: &[u8], follow: &[u8])
    ensures { BorshRoundTrip items.now follow.now }
{}

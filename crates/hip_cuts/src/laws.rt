//! Laws of what pieces cost together, and of the parts that a text or a character leaves of another. Each function does nothing; its
//! contract is the law.
ghost use Rattle.std.specs.Prelude.{◌≡◌, ◌==◌, ℕ, List, Option, Result, encode_utf8};
ghost use Rattle.std.specs.declared.alloc.AllocError.{AllocError};
ghost use Rattle.hip_match.specs.Bytes.{byte_ends, byte_lines};
ghost use Rattle.hip_match.specs.Characters.{char_ends};
ghost use Rattle.hip_match.specs.Joined.{parts_at};
ghost use Rattle.hip_match.specs.Runs.{lines};
ghost use Rattle.hip_match.specs.Texts.{text_ends};
ghost use Rattle.hip_match.specs.Trims.{rsplit_once, split_once, strip_prefix, strip_suffix};
ghost use Rattle.hip_text.specs.Handle.{Handle};
ghost use Rattle.hip_cuts.specs.Cut.{LeavesBetween, LeavesEnd, LeavesStart, OnceAnswers, PartedAs, PartedLastAs, StripAnswers, StrippedBack, StrippedFront};
ghost use Rattle.hip_cuts.specs.Cut.{IsAsciiSpace, LeftBefore, LeftBehind, LeftBetween, PartedAtByte, PartedAtLastByte, ascii_space_ends};
ghost use Rattle.hip_cuts.specs.Cut.{TrimAnswers, TrimmedBetween, TrimmedEnd, TrimmedStart, space_ends};
ghost use Rattle.hip_cuts.specs.Lines.{AreLines};
ghost use Rattle.hip_cuts.specs.Laws.{BorrowedCopyNothing, InOrderCopyOnce, SharedCopyLittle};

/// Where owners are shared, pieces cost at most the 23 bytes that a handle holds in itself, for each, whatever their source holds.
#[tactic(auto, using(crate::proofs::Costs::parts_little))]
pub fn shared_pieces_copy_little()
    ensures { SharedCopyLittle }
{}

/// Pieces of a borrowed text cost nothing.
#[tactic(auto, using(crate::proofs::Costs::parts_lent))]
pub fn borrowed_pieces_copy_nothing()
    ensures { BorrowedCopyNothing }
{}

/// Where owners aren't shared, pieces at ranges that lie in order cost together at most what the text holds.
#[tactic(auto, using(crate::proofs::Costs::parts_within))]
pub fn pieces_in_order_copy_the_text_once()
    ensures { InOrderCopyOnce }
{}

/// [`split_once`](crate::text_cuts::TextCuts::split_once) by a text gives the parts before and behind its first occurrence: the source is
/// the first part, the separator and the second part, and the separator starts nowhere before. Where it gives none, the separator occurs
/// nowhere.
#[tactic(auto, using(crate::proofs::Parted::parted_once))]
pub fn split_once_parts_at_the_first(text: &str, separator: &str)
    ensures { (source : Handle) (result : Result (Option (Handle × Handle)) AllocError)
        → source.items ≡ text.now
        → OnceAnswers (λ part. part) split_once (text_ends separator.now) source result
        → PartedAs separator.now text.now result }
{}

/// [`rsplit_once`](crate::text_cuts::TextCuts::rsplit_once) by a text gives the parts before and behind its last occurrence: the source is
/// the first part, the separator and the second part, and the separator starts nowhere behind. Where it gives none, the separator occurs
/// nowhere.
#[tactic(auto, using(crate::proofs::Parted::parted_last))]
pub fn rsplit_once_parts_at_the_last(text: &str, separator: &str)
    ensures { (source : Handle) (result : Result (Option (Handle × Handle)) AllocError)
        → source.items ≡ text.now
        → OnceAnswers (λ part. part) rsplit_once (text_ends separator.now) source result
        → PartedLastAs separator.now text.now result }
{}

/// [`strip_prefix`](crate::text_cuts::TextCuts::strip_prefix) by a text gives what stands behind it: the source is the prefix and that part.
/// Where it gives none, the source doesn't begin with the prefix.
#[tactic(auto, using(crate::proofs::Parted::stripped_front))]
pub fn strip_prefix_leaves_the_rest(text: &str, prefix: &str)
    ensures { (source : Handle) (result : Result (Option Handle) AllocError)
        → source.items ≡ text.now
        → StripAnswers (λ part. part) strip_prefix (text_ends prefix.now) source result
        → StrippedFront prefix.now text.now result }
{}

/// [`strip_suffix`](crate::text_cuts::TextCuts::strip_suffix) by a text gives what stands before it: the source is that part and the suffix.
/// Where it gives none, the source doesn't end with the suffix.
#[tactic(auto, using(crate::proofs::Parted::stripped_back))]
pub fn strip_suffix_leaves_the_front(text: &str, suffix: &str)
    ensures { (source : Handle) (result : Result (Option Handle) AllocError)
        → source.items ≡ text.now
        → StripAnswers (λ part. part) strip_suffix (text_ends suffix.now) source result
        → StrippedBack suffix.now text.now result }
{}

/// A character parts a text, and is stripped from its ends, as the text of that character alone.
pub fn a_character_parts_as_its_text(text: &str, c: char)
    ensures first { (source : Handle) (result : Result (Option (Handle × Handle)) AllocError)
        → source.items ≡ text.now
        → OnceAnswers (λ part. part) split_once (char_ends (λ d. d == c)) source result
        → PartedAs (encode_utf8 c) text.now result }
    ensures last { (source : Handle) (result : Result (Option (Handle × Handle)) AllocError)
        → source.items ≡ text.now
        → OnceAnswers (λ part. part) rsplit_once (char_ends (λ d. d == c)) source result
        → PartedLastAs (encode_utf8 c) text.now result }
    ensures prefix { (source : Handle) (result : Result (Option Handle) AllocError)
        → source.items ≡ text.now
        → StripAnswers (λ part. part) strip_prefix (char_ends (λ d. d == c)) source result
        → StrippedFront (encode_utf8 c) text.now result }
    ensures suffix { (source : Handle) (result : Result (Option Handle) AllocError)
        → source.items ≡ text.now
        → StripAnswers (λ part. part) strip_suffix (char_ends (λ d. d == c)) source result
        → StrippedBack (encode_utf8 c) text.now result }
{}

/// [`trim`](crate::text_cuts::TextCuts::trim) and its kin leave a part of the text with nothing but white space before it, behind it, or
/// at either end.
pub fn a_trim_leaves_what_white_space_surrounds(text: &str)
    ensures both { (source : Handle) (result : Result Handle AllocError)
        → source.items ≡ text.now
        → TrimAnswers (λ part. part) LeavesBetween space_ends source result → TrimmedBetween text.now result }
    ensures start { (source : Handle) (result : Result Handle AllocError)
        → source.items ≡ text.now
        → TrimAnswers (λ part. part) LeavesEnd space_ends source result → TrimmedStart text.now result }
    ensures end { (source : Handle) (result : Result Handle AllocError)
        → source.items ≡ text.now
        → TrimAnswers (λ part. part) LeavesStart space_ends source result → TrimmedEnd text.now result }
{}

/// The [`lines`](crate::text_cuts::TextCuts::lines) of a text, each with its end, are the text, and none holds a line feed. A line ends with
/// a line feed and at most one carriage return before it, or with the text, where it holds something.
#[tactic(auto, using(crate::proofs::Lines::lines_are))]
pub fn lines_and_their_ends_are_the_text(text: &str)
    ensures { AreLines (parts_at text.now (lines text.now)) text.now }
{}

/// The [`lines`](crate::byte_cuts::ByteCuts::lines) of bytes, each with its end, are the bytes, as those of a text are the text.
#[tactic(auto, using(crate::proofs::Lines::byte_lines_are))]
pub fn lines_and_their_ends_are_the_bytes(bytes: &[u8])
    ensures { AreLines (parts_at bytes.now (byte_lines bytes.now)) bytes.now }
{}

/// A byte parts bytes in two: they are the first part, the byte and the second part. The byte isn't in the first part, where it is the first
/// such byte, or not in the second, where it is the last. Where there are no parts, the byte isn't in the bytes.
pub fn a_byte_parts_bytes(bytes: &[u8], byte: u8)
    ensures first { (source : Handle) (result : Result (Option (Handle × Handle)) AllocError)
        → source.items ≡ bytes.now
        → OnceAnswers (λ part. part) split_once (byte_ends (λ b. b == byte)) source result
        → PartedAtByte byte bytes.now result }
    ensures last { (source : Handle) (result : Result (Option (Handle × Handle)) AllocError)
        → source.items ≡ bytes.now
        → OnceAnswers (λ part. part) rsplit_once (byte_ends (λ b. b == byte)) source result
        → PartedAtLastByte byte bytes.now result }
{}

/// [`trim_ascii`](crate::byte_cuts::ByteCuts::trim_ascii) and its kin leave a part of the bytes with nothing but ASCII white space before it,
/// behind it, or at either end.
pub fn a_trim_of_bytes_leaves_what_white_space_surrounds(bytes: &[u8])
    ensures both { (source : Handle) (result : Result Handle AllocError)
        → source.items ≡ bytes.now
        → TrimAnswers (λ part. part) LeavesBetween ascii_space_ends source result → LeftBetween IsAsciiSpace bytes.now result }
    ensures start { (source : Handle) (result : Result Handle AllocError)
        → source.items ≡ bytes.now
        → TrimAnswers (λ part. part) LeavesEnd ascii_space_ends source result → LeftBehind IsAsciiSpace bytes.now result }
    ensures end { (source : Handle) (result : Result Handle AllocError)
        → source.items ≡ bytes.now
        → TrimAnswers (λ part. part) LeavesStart ascii_space_ends source result → LeftBefore IsAsciiSpace bytes.now result }
{}

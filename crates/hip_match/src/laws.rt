//! Laws of the definitions that the contracts of this crate cite. Each function does nothing; its contract is the law.
#![tactic(auto, using(crate::proofs::Rules::laws))]

ghost use Rattle.std.specs.Prelude.{◌≡◌, ◌+◌, ◌++◌, ℕ, List, length, reverse, ◌==◌, encode_utf8};
ghost use Rattle.std.specs.Char.{is_whitespace, is_ascii_whitespace};
ghost use Rattle.hip_match.specs.Characters.{char_ends};
ghost use Rattle.hip_match.specs.Draw.{draw, fronts, backs, left_by};
ghost use Rattle.hip_match.specs.Joined.{rejoined, parts_at, together};
ghost use Rattle.hip_match.specs.Leftmost.{IsLeftmost, leftmost};
ghost use Rattle.hip_match.specs.Occurrence.{EndsMatchStarts};
ghost use Rattle.hip_match.specs.Pieces.{split, split_inclusive, split_terminator, splitn, rsplit, rsplit_terminator, rsplitn, AreInOrder, AreInReverseOrder};
ghost use Rattle.hip_match.specs.Rightmost.{IsRightmost, rightmost};
ghost use Rattle.hip_match.specs.Runs.{AreRuns, lines, split_whitespace, split_ascii_whitespace};
ghost use Rattle.hip_match.specs.Texts.{text_ends};

use crate::draw::End;
use crate::pattern::{OneChar, Pattern, ReversePattern};

/// Just one list is leftmost: each is an occurrence, in order and none overlapping, and no other occurrence begins outside of them.
pub fn just_one_list_is_leftmost<P: Pattern>(pattern: &P, text: &str)
    ensures is { IsLeftmost (P.ends pattern.now text.now) 0
        (leftmost (P.ends pattern.now text.now) (length text.now)) }
    ensures only { (l : List (ℕ × ℕ)) → IsLeftmost (P.ends pattern.now text.now) 0 l
        → l ≡ leftmost (P.ends pattern.now text.now) (length text.now) }
{}

/// Just one list is rightmost: the same from the end, with starts and ends exchanged.
pub fn just_one_list_is_rightmost<P: ReversePattern>(pattern: &P, text: &str)
    ensures is { IsRightmost (P.ends pattern.now text.now) (length text.now + 1)
        (rightmost (P.ends pattern.now text.now) (length text.now)) }
    ensures only { (l : List (ℕ × ℕ))
        → IsRightmost (P.ends pattern.now text.now) (length text.now + 1) l
        → l ≡ rightmost (P.ends pattern.now text.now) (length text.now) }
{}

/// For a pattern of one character the rightmost list is the leftmost one reversed.
pub fn one_char_reverses<P: OneChar>(pattern: &P, text: &str)
    ensures { rightmost (P.ends pattern.now text.now) (length text.now)
        ≡ reverse (leftmost (P.ends pattern.now text.now) (length text.now)) }
{}

/// The pieces of a split by a text, joined with it, give the source; the pieces that end with it give the source as they are.
pub fn join_undoes_split(text: &str, separator: &str)
    ensures split { rejoined separator.now
        (parts_at text.now (split (text_ends separator.now text.now) (length text.now))) ≡ text.now }
    ensures inclusive { together
        (parts_at text.now (split_inclusive (text_ends separator.now text.now) (length text.now)))
        ≡ text.now }
{}

/// Like `join_undoes_split`, but by a character.
pub fn join_undoes_split_by_char(text: &str, separator: char)
    ensures split { rejoined (encode_utf8 separator)
        (parts_at text.now (split (char_ends (λ c. c == separator) text.now) (length text.now)))
        ≡ text.now }
    ensures inclusive { together
        (parts_at text.now (split_inclusive (char_ends (λ c. c == separator) text.now)
        (length text.now))) ≡ text.now }
{}

/// A list is the ranges that a script draws from its front, those that it leaves, and those that it draws from its back, in reverse.
pub fn ends_meet(ranges: &[(usize, usize)], script: &[End])
    ensures { fronts script.now (draw ranges.now script.now)
        ++ (left_by ranges.now script.now
        ++ reverse (backs script.now (draw ranges.now script.now))) ≡ ranges.now }
{}

/// The pieces that end with a match, one after another, are the text, whatever the pattern.
pub fn ended_pieces_are_the_text<P: Pattern>(pattern: &P, text: &str)
    ensures { together (parts_at text.now
        (split_inclusive (P.ends pattern.now text.now) (length text.now))) ≡ text.now }
{}

/// The pieces between white space are its longest runs: each holds something, no longer range without white space holds it, and there is no other such run.
pub fn white_space_parts_the_longest_runs(text: &str)
    ensures unicode { AreRuns is_whitespace text.now (split_whitespace text.now) }
    ensures ascii { AreRuns is_ascii_whitespace text.now (split_ascii_whitespace text.now) }
{}

/// An occurrence is the same, whether it is looked for from its start or from its end.
pub fn ends_match_starts<P: ReversePattern>(pattern: &P, text: &str)
    ensures { EndsMatchStarts (P.ends pattern.now text.now) }
{}

/// The ranges that a pattern makes of a text from its front lie in order.
pub fn ranges_lie_in_order<P: Pattern>(pattern: &P, count: usize, text: &str)
    ensures matches { AreInOrder (length text.now)
        (leftmost (P.ends pattern.now text.now) (length text.now)) }
    ensures split { AreInOrder (length text.now)
        (split (P.ends pattern.now text.now) (length text.now)) }
    ensures inclusive { AreInOrder (length text.now)
        (split_inclusive (P.ends pattern.now text.now) (length text.now)) }
    ensures terminator { AreInOrder (length text.now)
        (split_terminator (P.ends pattern.now text.now) (length text.now)) }
    ensures splitn { AreInOrder (length text.now)
        (splitn count (P.ends pattern.now text.now) (length text.now)) }
{}

/// The ranges of walks from the end lie in reverse order.
pub fn ranges_lie_in_reverse_order<P: ReversePattern>(pattern: &P, count: usize, text: &str)
    ensures matches { AreInReverseOrder (length text.now)
        (rightmost (P.ends pattern.now text.now) (length text.now)) }
    ensures split { AreInReverseOrder (length text.now)
        (rsplit (P.ends pattern.now text.now) (length text.now)) }
    ensures terminator { AreInReverseOrder (length text.now)
        (rsplit_terminator (P.ends pattern.now text.now) (length text.now)) }
    ensures splitn { AreInReverseOrder (length text.now)
        (rsplitn count (P.ends pattern.now text.now) (length text.now)) }
{}

/// Lines and the runs between white space lie in order.
pub fn lines_and_runs_lie_in_order(text: &str)
    ensures lines { AreInOrder (length text.now) (lines text.now) }
    ensures unicode { AreInOrder (length text.now) (split_whitespace text.now) }
    ensures ascii { AreInOrder (length text.now) (split_ascii_whitespace text.now) }
{}

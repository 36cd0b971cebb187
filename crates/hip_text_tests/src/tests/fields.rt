//! Fields of a line, read as user code reads them.
ghost use Rattle.std.specs.Prelude.{◌≡◌, ◌==◌, ◌↔◌, IfOk, IsTrue, length};
ghost use Rattle.hip_match.specs.Characters.{char_ends};
ghost use Rattle.hip_match.specs.Pieces.{split};

use hip_cuts::{HipStr, Rc, TextCuts};
use std::alloc::{AllocError, Global};

/// The length of the longest field of a line before the first that is refused for memory.
pub(crate) fn longest_drawn<'b>(line: &HipStr<'b, Rc>, alloc: Global) -> usize {
    let mut fields = line.split(alloc, ',');
    let mut longest = 0;
    while let Some(Ok(field)) = fields.next() {
        longest = longest.max(field.len());
    }
    longest
}

/// Whether a line has so many fields.
pub(crate) fn has_fields<'b>(
    line: &HipStr<'b, Rc>,
    count: usize,
    alloc: Global,
) -> Result<bool, AllocError>
    ensures { IfOk result
        (λ has. IsTrue has
        ↔ (length (split (char_ends (λ c. c == 44) line.now.items) (length line.now.items)) ≡
        count)) }
{
    let mut fields = line.split(alloc, ',');
    for _ in 0..count {
        let Some(field) = fields.next() else {
            return Ok(false);
        };
        drop(field?);
    }
    Ok(fields.next().is_none())
}

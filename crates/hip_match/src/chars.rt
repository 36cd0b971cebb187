//! The characters of a text, by position, and sets of characters.
#![tactic(auto, using(crate::proofs::Rules::chars))]

ghost use Rattle.std.specs.Prelude.{◌≡◌, ◌-◌, ◌<◌, ◌≤◌, ℕ, Bool, Some, MatchOption, length, slice_index};
ghost use Rattle.std.specs.Str.{IsCharBoundary};
ghost use Rattle.hip_match.specs.Occurrence.{IsNextMatch, IsLastMatch, start_of};
ghost use Rattle.hip_match.specs.Characters.{char_at, char_ends, IsCharBefore};

// The number of the character of two to four bytes that starts at `at`, and where it ends.
#[tactic(auto, using(crate::proofs::Rules::wide_code))]
#[inline]
fn wide_code(text: &str, at: usize) -> (u32, usize)
    requires within { at < length text.now }
    requires boundary { IsCharBoundary text.now at }
    requires wide { 128 ≤ slice_index text.now at }
    ensures { char_at text.now at ≡ Some result }
{
    let bytes = text.as_bytes();
    let first = bytes[at] as u32;
    let second = bytes[at + 1] as u32 - 0x80;
    if first < 0xE0 {
        return ((first - 0xC0) * 64 + second, at + 2);
    }
    let third = bytes[at + 2] as u32 - 0x80;
    if first < 0xF0 {
        return (((first - 0xE0) * 64 + second) * 64 + third, at + 3);
    }
    let fourth = bytes[at + 3] as u32 - 0x80;
    (
        (((first - 0xF0) * 64 + second) * 64 + third) * 64 + fourth,
        at + 4,
    )
}

// The character of two to four bytes that starts at `at`, and where it ends.
#[inline]
fn wide_char_from(text: &str, at: usize) -> (char, usize)
    requires within { at < length text.now }
    requires boundary { IsCharBoundary text.now at }
    requires wide { 128 ≤ slice_index text.now at }
    ensures { char_at text.now at ≡ Some result }
{
    let (code, end) = wide_code(text, at);
    (unsafe { char::from_u32_unchecked(code) }, end)
}

// The character that starts at `at`, and where it ends.
#[inline]
pub(crate) fn char_from(text: &str, at: usize) -> Option<(char, usize)>
    requires { IsCharBoundary text.now at }
    ensures { result ≡ char_at text.now at }
{
    if at == text.len() {
        return None;
    }
    let first = text.as_bytes()[at];
    if first < 0x80 {
        return Some((first as char, at + 1));
    }
    Some(wide_char_from(text, at))
}

// The number of the character of two to four bytes that ends at `to`, and where it starts. Its first byte is the last that isn't below
// 0xC0. What the bytes' marks add to the number is taken off at once.
#[tactic(auto, using(crate::proofs::Rules::wide_code_before))]
#[inline]
fn wide_code_before(text: &str, to: usize) -> (u32, usize)
    requires some { 0 < to }
    requires boundary { IsCharBoundary text.now to }
    requires wide { 128 ≤ slice_index text.now (to - 1) }
    ensures { IsCharBefore text.now to result }
{
    let bytes = text.as_bytes();
    let last = bytes[to - 1] as u32;
    let third = bytes[to - 2] as u32;
    if third >= 0xC0 {
        return (third * 64 + last - 0x3080, to - 2);
    }
    let second = bytes[to - 3] as u32;
    if second >= 0xC0 {
        return ((second * 64 + third) * 64 + last - 0xE2080, to - 3);
    }
    let first = bytes[to - 4] as u32;
    (
        ((first * 64 + second) * 64 + third) * 64 + last - 0x3C82080,
        to - 4,
    )
}

// The character of two to four bytes that ends at `to`, and where it starts.
#[inline]
fn wide_char_before(text: &str, to: usize) -> (char, usize)
    requires some { 0 < to }
    requires boundary { IsCharBoundary text.now to }
    requires wide { 128 ≤ slice_index text.now (to - 1) }
    ensures { IsCharBefore text.now to result }
{
    let (code, at) = wide_code_before(text, to);
    (unsafe { char::from_u32_unchecked(code) }, at)
}

// The character that ends at `to`, and where it starts.
#[inline]
pub(crate) fn char_before(text: &str, to: usize) -> Option<(char, usize)>
    requires { IsCharBoundary text.now to }
    ensures { MatchOption result (to ≡ 0) (IsCharBefore text.now to) }
{
    if to == 0 {
        return None;
    }
    let last = text.as_bytes()[to - 1];
    if last < 0x80 {
        return Some((last as char, to - 1));
    }
    Some(wide_char_before(text, to))
}

/// A set of characters. It occurs in a text at each character that belongs.
pub(crate) trait CharSet {
    /// The condition under which the set can be tested.
    ghost can_test: { Self → Type 0 } = { λ _. Unit {0} };

    /// The characters that belong.
    ghost belongs: { Self → ℕ → Bool };

    /// Whether a character belongs.
    fn has(&self, c: char) -> bool
        requires { can_test self.now }
        ensures { result ≡ belongs self.now c };
}

// The first character at or after `from` that belongs, a character at a time.
#[inline]
pub(crate) fn first_of<S: CharSet>(set: &S, text: &str, from: usize) -> Option<(usize, usize)>
    requires can { S.can_test set.now }
    requires boundary { IsCharBoundary text.now from }
    ensures { IsNextMatch (char_ends (S.belongs set.now) text.now) from result }
{
    let bytes = text.as_bytes();
    let mut at = from;
    while at < bytes.len() {
        let first = bytes[at];
        if first < 0x80 {
            if set.has(first as char) {
                return Some((at, at + 1));
            }
            at += 1;
            continue;
        }
        let (c, end) = wide_char_from(text, at);
        if set.has(c) {
            return Some((at, end));
        }
        at = end;
    }
    None
}

// Where the character at `at` ends, if it belongs.
#[inline]
pub(crate) fn end_of<S: CharSet>(set: &S, text: &str, at: usize) -> Option<usize>
    requires can { S.can_test set.now }
    requires boundary { IsCharBoundary text.now at }
    ensures { result ≡ char_ends (S.belongs set.now) text.now at }
{
    let (c, end) = char_from(text, at)?;
    if set.has(c) { Some(end) } else { None }
}

// The last character at or before `to` that belongs.
#[inline]
pub(crate) fn last_of<S: CharSet>(set: &S, text: &str, to: usize) -> Option<(usize, usize)>
    requires can { S.can_test set.now }
    requires boundary { IsCharBoundary text.now to }
    ensures { IsLastMatch (char_ends (S.belongs set.now) text.now) to result }
{
    let mut end = to;
    while let Some((c, at)) = char_before(text, end) {
        if set.has(c) {
            return Some((at, end));
        }
        end = at;
    }
    None
}

// Where the character before `to` starts, if it belongs.
#[inline]
pub(crate) fn start_before<S: CharSet>(set: &S, text: &str, to: usize) -> Option<usize>
    requires can { S.can_test set.now }
    requires boundary { IsCharBoundary text.now to }
    ensures { result ≡ start_of (char_ends (S.belongs set.now) text.now) to }
{
    let (c, at) = char_before(text, to)?;
    if set.has(c) { Some(at) } else { None }
}

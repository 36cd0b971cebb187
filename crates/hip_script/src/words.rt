//! The words of a line, with one space between two, and what single words say.
ghost use Rattle.std.specs.Prelude.{◌≡◌, ◌↔◌, ◌<◌, ◌++◌, ℕ, List, [], map, IsTrue, None, Some, MatchOption, IfOk, IfSome, IsErrOf, length, SomeIff, option_and_then};
ghost use Rattle.memchr.specs.Find.{IsFirstByte, is_byte};
ghost use Rattle.std.specs.Char.{digit_value, is_ascii_hexdigit};
ghost use Rattle.std.specs.Option.{option_map};
ghost use Rattle.hip_script.specs.Grammar.{rows};
ghost use Rattle.hip_script.specs.Said.{DecodesLiteral, ReadsLiteral};
ghost use Rattle.hip_script.specs.Words.{at_dot, before, behind_dots, byte_of, closed, decoded, end_of, high_of, literal_at, look_up, low_of, number_of, range_of, said_at, word_at};
ghost use Rattle.hip_script.specs.Words.Place.{Escape, High, Plain};

use crate::fault::LineFault;
use crate::said::{Literal, Span};
use crate::verb::{Verb, Word, named, row_with_name};
use hipstr::End;
use memchr::{memchr, memchr2};
use std::marker::Model;
use std::ops::Bound;

/// The words of a line that are left.
#[derive(Drop)]
pub(crate) struct Words<'l> {
    /// The rest of the line, from the next word on; `None` after the last word.
    rest: Option<&'l [u8]>,
}

impl<'l> Model for Words<'l> {
    ghost use Rattle.std.specs.Prelude.{ℕ, List, Option};
    ghost use Rattle.std.specs.Option.{option_map};

    ghost Value = { Option (List ℕ) };

    ghost view = { λ s. option_map (λ text. text.now) s.rest };
}

impl<'l> Words<'l> {
    /// All words of a line.
    pub(crate) fn new(line: &'l [u8]) -> Self
        ensures { result ≡ Some line.now }
    {
        Words { rest: Some(line) }
    }

    /// Whether no word is left.
    pub(crate) fn is_empty(&self) -> bool
        ensures { IsTrue result ↔ (self.now ≡ None) }
    {
        self.rest.is_none()
    }

    /// The next word.
    pub(crate) fn next(&mut self) -> Option<&'l [u8]>
        ensures { MatchOption result ((word_at self.old ≡ None) × (self.new ≡ None))
            (λ word. word_at self.old ≡ Some (word.now, self.new)) }
    {
        let rest = self.rest?;
        match space_at(rest) {
            Some(at) => {
                self.rest = Some(&rest[at + 1..]);
                Some(&rest[..at])
            }
            None => {
                self.rest = None;
                Some(rest)
            }
        }
    }

    /// The line whose name is the next word.
    pub(crate) fn row(&mut self) -> Option<(Verb, &'static [Word])>
        ensures { MatchOption result (said_at (λ word. look_up word rows) self.old ≡ None)
            (λ row. said_at (λ word. look_up word rows) self.old ≡ Some ((row.0, row.1.now), self.new)) }
    {
        row_with_name(self.next()?)
    }

    /// The value of the next word in a table of names.
    pub(crate) fn one_of<T: Copy>(&mut self, names: &[(&'static str, T)]) -> Option<T>
        ensures { MatchOption result (said_at (λ word. look_up word (map (λ e. (e.0.now, e.1)) names.now)) self.old ≡ None)
            (λ found. said_at (λ word. look_up word (map (λ e. (e.0.now, e.1)) names.now)) self.old ≡ Some (found, self.new)) }
    {
        named(names, self.next()?)
    }

    /// The next word as a number. Most have one digit, which is looked for first.
    pub(crate) fn number(&mut self) -> Option<usize>
        ensures { MatchOption result (said_at number_of self.old ≡ None) (λ n. said_at number_of self.old ≡ Some (n, self.new)) }
    {
        match self.rest? {
            [digit, b' ', rest @ ..] if digit.is_ascii_digit() => {
                self.rest = Some(rest);
                Some((*digit - b'0') as usize)
            }
            [digit] if digit.is_ascii_digit() => {
                self.rest = None;
                Some((*digit - b'0') as usize)
            }
            _ => number(self.next()?),
        }
    }

    /// The next word as a number that is at most 255.
    pub(crate) fn byte(&mut self) -> Option<u8>
        ensures { MatchOption result (said_at byte_of self.old ≡ None) (λ n. said_at byte_of self.old ≡ Some (n, self.new)) }
    {
        byte(self.next()?)
    }

    /// The next word as a range.
    pub(crate) fn range(&mut self) -> Option<(Bound<usize>, Bound<usize>)>
        ensures { MatchOption result (said_at range_of self.old ≡ None) (λ range. said_at range_of self.old ≡ Some ((range.0, range.1), self.new)) }
    {
        range(self.next()?)
    }

    /// The next word as a literal. Where it has escapes, its bytes are added to the buffer.
    pub(crate) fn literal(&mut self, buffer: &mut Vec<u8>) -> Result<Literal<'l>, LineFault>
        ensures ok { IfOk result (λ literal. ReadsLiteral (literal_at self.old) self.new buffer.old.items buffer.new.items literal) }
        ensures bad { IsErrOf result LineFault.NotACommand → literal_at self.old ≡ None }
    {
        let rest = self.rest.ok_or(LineFault::NotACommand)?;
        let text = unquoted(rest).ok_or(LineFault::NotACommand)?;
        let (literal, after) = decode(text, buffer)?;
        self.rest = close(after).ok_or(LineFault::NotACommand)?;
        Ok(literal)
    }
}

/// The position of the first space. Words are short, so a look at each byte costs less than a search.
fn space_at(text: &[u8]) -> Option<usize>
    ensures { IsFirstByte (is_byte 32) text.now result }
{
    text.iter().position(|byte| *byte == b' ')
}

/// The bytes behind the first `"` of a literal; `None` where it doesn't begin with one.
fn unquoted(text: &[u8]) -> Option<&[u8]>
    ensures { MatchOption result (literal_at (Some text.now) ≡ None)
        (λ rest. literal_at (Some text.now) ≡ option_and_then closed (decoded Plain rest.now)) }
{
    match text {
        [b'"', rest @ ..] => Some(rest),
        _ => None,
    }
}

/// The rest of a line behind the last `"` of a literal: `Some(None)` at the end of the line, `None` where no space follows.
fn close(after: &[u8]) -> Option<Option<&[u8]>>
    ensures { (bytes : List ℕ) → MatchOption result (closed (bytes, after.now) ≡ None)
        (λ left. closed (bytes, after.now) ≡ Some (bytes, option_map (λ rest. rest.now) left)) }
{
    match after {
        [] => Some(None),
        [b' ', rest @ ..] => Some(Some(rest)),
        _ => None,
    }
}

/// One or more digits, at most the greatest `usize`.
fn number(word: &[u8]) -> Option<usize>
    ensures { result ≡ number_of word.now }
{
    if word.is_empty() {
        return None;
    }
    let mut value = 0usize;
    for byte in word {
        if !byte.is_ascii_digit() {
            return None;
        }
        value = value.checked_mul(10)?.checked_add((*byte - b'0') as usize)?;
    }
    Some(value)
}

/// A number that is at most 255.
fn byte(word: &[u8]) -> Option<u8>
    ensures { result ≡ byte_of word.now }
{
    u8::try_from(number(word)?).ok()
}

/// `a..b`, `a..=b`, `a..`, `..b`, `..=b` or `..`.
fn range(word: &[u8]) -> Option<(Bound<usize>, Bound<usize>)>
    ensures { result ≡ range_of word.now }
{
    let at = memchr(b'.', word)?;
    let (digits, dots) = word.split_at(at);
    let low = low(digits)?;
    let high = behind_dots(dots)?;
    Some((low, high))
}

/// The bound before the dots.
fn low(digits: &[u8]) -> Option<Bound<usize>>
    ensures { result ≡ low_of digits.now }
{
    if digits.is_empty() {
        Some(Bound::Unbounded)
    } else {
        Some(Bound::Included(number(digits)?))
    }
}

/// The bound behind two dots.
fn behind_dots(dots: &[u8]) -> Option<Bound<usize>>
    ensures { result ≡ behind_dots dots.now }
{
    match dots {
        [b'.', b'.', rest @ ..] => high(rest),
        _ => None,
    }
}

/// The bound that a number says, or one behind `=`.
fn high(text: &[u8]) -> Option<Bound<usize>>
    ensures { result ≡ high_of text.now }
{
    match text {
        [] => Some(Bound::Unbounded),
        [b'=', digits @ ..] => Some(Bound::Included(number(digits)?)),
        digits => Some(Bound::Excluded(number(digits)?)),
    }
}

/// The end that a letter stands for.
pub(crate) fn end(letter: u8) -> Option<End>
    ensures { result ≡ end_of letter }
{
    match letter {
        b'F' => Some(End::Front),
        b'B' => Some(End::Back),
        _ => None,
    }
}

/// A literal whose first `"` was passed, and what follows its last one. Without an escape it lies where it stands, and else its bytes are
/// added to the buffer.
fn decode<'l>(text: &'l [u8], buffer: &mut Vec<u8>) -> Result<(Literal<'l>, &'l [u8]), LineFault>
    ensures ok { IfOk result (λ found. DecodesLiteral (decoded Plain text.now) found.1.now buffer.old.items buffer.new.items found.0) }
    ensures bad { IsErrOf result LineFault.NotACommand → decoded Plain text.now ≡ None }
{
    let at = memchr2(b'"', b'\\', text).ok_or(LineFault::NotACommand)?;
    if text[at] == b'"' {
        return Ok((Literal::Plain(&text[..at]), &text[at + 1..]));
    }
    let start = buffer.len();
    let after = decode_all(text, buffer)?;
    let end = buffer.len();
    Ok((Literal::Decoded(Span { start, end }), after))
}

/// Adds the bytes of a literal whose first `"` was passed, and gives what follows its last one.
fn decode_all<'l>(text: &'l [u8], buffer: &mut Vec<u8>) -> Result<&'l [u8], LineFault>
    ensures ok { IfOk result (λ after. (bytes : List ℕ) × (decoded Plain text.now ≡ Some (bytes, after.now))
        × (buffer.new.items ≡ buffer.old.items ++ bytes)) }
    ensures bad { IsErrOf result LineFault.NotACommand → decoded Plain text.now ≡ None }
{
    let mut rest = text;
    while let Some((first, after)) = rest.split_first() {
        match first {
            b'"' => return Ok(after),
            b'\\' => {
                let (byte, after) = unescape(after).ok_or(LineFault::NotACommand)?;
                buffer.push(byte)?;
                rest = after;
            }
            _ => {
                buffer.push(*first)?;
                rest = after;
            }
        }
    }
    Err(LineFault::NotACommand)
}

/// The byte that `\"`, `\\` or `\xHH` stands for, and what follows it. The text begins behind the `\`.
fn unescape(text: &[u8]) -> Option<(u8, &[u8])>
    ensures value { MatchOption result (decoded Escape text.now ≡ None)
        (λ found. decoded Escape text.now ≡ before found.0 (decoded Plain found.1.now)) }
    ensures shorter { IfSome result (λ found. length found.1.now < length text.now) }
{
    let (first, rest) = text.split_first()?;
    match first {
        b'"' | b'\\' => Some((*first, rest)),
        b'x' => unhex(rest),
        _ => None,
    }
}

/// The byte that two digits stand for, and what follows them.
fn unhex(text: &[u8]) -> Option<(u8, &[u8])>
    ensures value { MatchOption result (decoded High text.now ≡ None)
        (λ found. decoded High text.now ≡ before found.0 (decoded Plain found.1.now)) }
    ensures shorter { IfSome result (λ found. length found.1.now < length text.now) }
{
    let (high, rest) = text.split_first()?;
    let high = hex_digit(*high)?;
    let (low, rest) = rest.split_first()?;
    Some((high * 16 + hex_digit(*low)?, rest))
}

/// The value of a hexadecimal digit of either case, by its low four bits: nine more where it is a letter. A branch on which of the two it
/// is can't be foreseen, and costs a fifth of the time of a script of escapes.
fn hex_digit(byte: u8) -> Option<u8>
    ensures value { SomeIff result (IsTrue (is_ascii_hexdigit byte)) (digit_value byte) }
    ensures small { IfSome result (λ value. value < 16) }
{
    if byte.is_ascii_hexdigit() {
        Some(byte % 16 + 9 * (byte / 64))
    } else {
        None
    }
}

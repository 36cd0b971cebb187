//! A line that was read, whose literals stay where they stand.

use crate::verb::{Verb, Way};
use hipstr::{End, Side};
use std::ops::Bound;

/// A stretch of a buffer, by its positions.
#[derive(Clone, Copy)]
pub(crate) struct Span {
    pub(crate) start: usize,
    pub(crate) end: usize,
}

impl Span {
    ghost use Rattle.std.specs.Prelude.{◌≡◌, length};
    ghost use Rattle.hip_script.specs.Said.{IsSpan, in_span};

    /// The items of the buffer at these positions.
    pub(crate) fn of<T>(self, buffer: &[T]) -> &[T]
        requires { IsSpan (length buffer.now) self }
        ensures { result.now ≡ in_span buffer.now self }
    {
        &buffer[self.start..self.end]
    }
}

/// The bytes of a literal.
#[derive(Clone, Copy)]
pub(crate) enum Literal<'l> {
    /// They stand in the script as they are.
    Plain(&'l [u8]),
    /// They were decoded.
    Decoded(Span),
}

impl<'l> Literal<'l> {
    ghost use Rattle.std.specs.Prelude.{◌≡◌};
    ghost use Rattle.hip_script.specs.Said.{LiteralWithin, literal_in};

    /// Its bytes, where those that were decoded stand in this buffer.
    pub(crate) fn of(self, bytes: &'l [u8]) -> &'l [u8]
        requires { LiteralWithin bytes.now self }
        ensures { result.now ≡ literal_in bytes.now self.entry }
    {
        match self {
            Literal::Plain(text) => text,
            Literal::Decoded(span) => span.of(bytes),
        }
    }
}

/// The one argument that most lines have besides numbers: a range, or the value of a literal. Each kind is a variant here, and not in an enum of
/// its own, so that a line's record has 56 bytes.
#[derive(Clone, Copy)]
pub(crate) enum Argument<'l> {
    /// None.
    Nothing,
    /// The range from the first to before the second.
    Between(usize, usize),
    /// Bytes that stand in the script as they are.
    Bytes(&'l [u8]),
    /// Bytes that were decoded.
    DecodedBytes(Span),
    /// A text that stands in the script as it is.
    Text(&'l str),
    /// A text that was decoded.
    DecodedText(Span),
    /// A character.
    Char(char),
    /// Each of these characters.
    Any(Span),
    /// All of these that the line has, by their position in the script's list.
    All(usize),
}

/// All that an [`Argument`] may stand for. What a line doesn't have is as in [`Arguments::new`].
#[derive(Clone, Copy)]
pub(crate) struct Arguments<'l> {
    pub(crate) low: Bound<usize>,
    pub(crate) high: Bound<usize>,
    /// The value of a literal.
    pub(crate) quoted: Argument<'l>,
    /// The positions of the ends that pieces are drawn from.
    pub(crate) ends: Span,
}

impl Arguments<'_> {
    ghost use Rattle.std.specs.Prelude.{◌≡◌};
    ghost use Rattle.hip_script.specs.Said.{no_arguments};

    /// The whole of a value, no literal and no ends.
    pub(crate) fn new() -> Self
        ensures { result ≡ no_arguments }
    {
        Arguments {
            low: Bound::Unbounded,
            high: Bound::Unbounded,
            quoted: Argument::Nothing,
            ends: Span { start: 0, end: 0 },
        }
    }
}

/// A line that was read: its verb and its arguments. An argument that its verb doesn't ask for is as in [`Said::new`].
/// There is one for each line of a script, so what few lines have lies in a list: larger records would take more page faults.
#[derive(Clone, Copy)]
pub(crate) struct Said<'l> {
    pub(crate) verb: Verb,
    pub(crate) byte: u8,
    pub(crate) side: Side,
    pub(crate) end: End,
    pub(crate) way: Way,
    pub(crate) source: usize,
    pub(crate) target: usize,
    pub(crate) number: usize,
    pub(crate) argument: Argument<'l>,
}

impl Said<'_> {
    ghost use Rattle.std.specs.Prelude.{◌≡◌};
    ghost use Rattle.hip_script.specs.Grammar.{no_fields};
    ghost use Rattle.hip_script.specs.Said.{Held, IsWithin, fields_in};

    /// A verb alone.
    pub(crate) fn new(verb: Verb) -> Self
        ensures verb { result.verb ≡ verb }
        ensures fields { (held : Held) → fields_in held result ≡ no_fields }
        ensures within { (held : Held) → IsWithin held result }
    {
        Said {
            verb,
            byte: 0,
            side: Side::Both,
            end: End::Front,
            way: Way::Lines,
            source: 0,
            target: 0,
            number: 0,
            argument: Argument::Nothing,
        }
    }
}

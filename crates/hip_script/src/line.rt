//! The commands of lines, with their literals.
ghost use Rattle.std.specs.Prelude.{◌≡◌};
ghost use Rattle.hip_script.specs.Said.{IsWithin, fields_in, held, line_says, says_in};
ghost use Rattle.hip_script.specs.Spoken.{bytes_in, parting, pattern_in, separator_in};
ghost use Rattle.hip_script.specs.Told.{how_says, pattern_says};

use crate::said::{Argument, Said};
use crate::script::Script;
use crate::verb::{Verb, Way};
use hipstr::{Command, End, How, Pat};
use std::str;

/// A line that is no command.
#[derive(Clone, Copy)]
pub(crate) enum Aside {
    /// Prints the slot's bytes.
    Show(usize),
    /// Prints the number of bytes that were copied so far.
    Copied,
    /// Prints the records of the slot's text, whose fields lie between these characters.
    Fields(usize, char),
}

/// A line as it is performed.
#[derive(Clone, Copy)]
pub(crate) enum Line<'b> {
    /// A command.
    Command(Command<'b>),
    /// Something else.
    Aside(Aside),
}

impl<'l> Script<'l> {
    /// The command of a line, or what else it is.
    pub(crate) fn line<'s>(&'s self, said: &Said<'s>) -> Line<'s>
        requires { IsWithin (held self.now.buffers) said.now }
        ensures { line_says result ≡ says_in (held self.now.buffers) said.now }
    {
        let target = said.target;
        Line::Command(match said.verb {
            Verb::New => Command::New(target),
            Verb::Inline => Command::Inline(target, self.bytes(said)),
            Verb::Borrow => Command::Borrow(target, self.bytes(said)),
            Verb::Copy => Command::Copy(target, self.bytes(said)),
            Verb::Room => Command::Room(target, said.number),
            Verb::Clone => Command::Clone(said.source, target),
            Verb::Slice => {
                let range = self.buffers.arguments(said.argument);
                Command::Slice(said.source, target, range.low, range.high)
            }
            Verb::Push => Command::Push(target, self.bytes(said)),
            Verb::Pop => Command::Pop(target),
            Verb::Truncate => Command::Truncate(target, said.number),
            Verb::Clear => Command::Clear(target),
            Verb::Shrink => Command::Shrink(target, said.number),
            Verb::Upper => Command::Upper(target),
            Verb::Lower => Command::Lower(target),
            Verb::Set => Command::Set(target, said.number, said.byte),
            Verb::Repeat => Command::Repeat(said.source, target, said.number),
            Verb::Join => Command::Join(said.source, said.number, self.bytes(said), target),
            Verb::Mutate => Command::Mutate(target, self.bytes(said)),
            Verb::Owned => Command::Owned(target),
            Verb::Text => Command::Text(target),
            Verb::Bytes => Command::Bytes(target),
            Verb::Trim => Command::Trim(said.source, target, said.side),
            Verb::TrimMatches => Command::TrimMatches(
                said.source,
                target,
                said.side,
                self.pattern(said),
            ),
            Verb::Strip => Command::Strip(said.source, target, said.end, self.pattern(said)),
            Verb::Pieces => Command::Pieces(said.source, self.how(said), self.ends(said), target),
            Verb::Once => Command::Once(
                said.source,
                target,
                said.number,
                said.end,
                self.pattern(said),
            ),
            Verb::Compare => Command::Compare(said.source, said.number),
            Verb::ComparePath => Command::ComparePath(said.source, said.number),
            Verb::Len => Command::Len(said.source),
            Verb::Kind => Command::Kind(said.source),
            Verb::Capacity => Command::Capacity(said.source),
            Verb::Show => return Line::Aside(Aside::Show(said.source)),
            Verb::Copied => return Line::Aside(Aside::Copied),
            Verb::Fields => return Line::Aside(Aside::Fields(said.source, self.separator(said))),
        })
    }

    /// The bytes of a line's literal.
    fn bytes<'s>(&'s self, said: &Said<'s>) -> &'s [u8]
        requires { IsWithin (held self.now.buffers) said.now }
        ensures { result.now ≡ bytes_in (fields_in (held self.now.buffers) said.now).quoted }
    {
        match self.buffers.arguments(said.argument).quoted {
            Argument::Bytes(bytes) => bytes,
            Argument::DecodedBytes(span) => span.of(&self.buffers.bytes),
            _ => &[],
        }
    }

    /// The pattern that a line looks for.
    fn pattern<'s>(&'s self, said: &Said<'s>) -> Pat<'s>
        requires { IsWithin (held self.now.buffers) said.now }
        ensures { pattern_says result ≡ pattern_in (fields_in (held self.now.buffers) said.now).quoted }
    {
        match self.buffers.arguments(said.argument).quoted {
            Argument::Text(text) => Pat::Text(text),
            Argument::DecodedText(span) => match str::from_utf8(span.of(&self.buffers.bytes)) {
                Ok(text) => Pat::Text(text),
                Err(_) => Pat::Text(""),
            },
            Argument::Char(c) => Pat::Char(c),
            Argument::Any(span) => Pat::Set(span.of(&self.buffers.chars)),
            _ => Pat::Text(""),
        }
    }

    /// The ends that a line draws pieces from.
    fn ends(&self, said: &Said<'_>) -> &[End]
        requires { IsWithin (held self.now.buffers) said.now }
        ensures { result.now ≡ (fields_in (held self.now.buffers) said.now).ends }
    {
        let ends = self.buffers.arguments(said.argument).ends;
        ends.of(&self.buffers.ends)
    }

    /// How a line takes a text apart.
    fn how<'s>(&'s self, said: &Said<'s>) -> How<'s>
        requires { IsWithin (held self.now.buffers) said.now }
        ensures { how_says result ≡ parting said.now.way (fields_in (held self.now.buffers) said.now).number (pattern_in (fields_in (held self.now.buffers) said.now).quoted) }
    {
        let pattern = self.pattern(said);
        match said.way {
            Way::Split => How::Split(pattern),
            Way::Inclusive => How::Inclusive(pattern),
            Way::Terminator => How::Terminator(pattern),
            Way::SplitN => How::SplitN(said.number, pattern),
            Way::Matches => How::Matches(pattern),
            Way::RSplit => How::RSplit(pattern),
            Way::RTerminator => How::RTerminator(pattern),
            Way::RSplitN => How::RSplitN(said.number, pattern),
            Way::RMatches => How::RMatches(pattern),
            Way::Lines => How::Lines,
            Way::Words => How::Words,
            Way::AsciiWords => How::AsciiWords,
        }
    }

    /// The character between fields.
    fn separator(&self, said: &Said<'_>) -> char
        requires { IsWithin (held self.now.buffers) said.now }
        ensures { result ≡ separator_in (fields_in (held self.now.buffers) said.now).quoted }
    {
        match self.buffers.arguments(said.argument).quoted {
            Argument::Char(c) => c,
            _ => ',',
        }
    }
}

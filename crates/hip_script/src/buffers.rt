//! The words of a line are read into its record, and into the buffers of what has no place of its own in the script.
ghost use Rattle.std.specs.Prelude.{◌≡◌, ◌++◌, List, false, map, true, None, Some, IfOk, OnOk, OnErr, IsErrOf, length};
ghost use Rattle.std.specs.Option.{option_map};
ghost use Rattle.std.specs.Str.{chars, is_utf8};
ghost use Rattle.hip_script.specs.Grammar.{follows_said, only, pattern_said, quoted_as, quoted_said, way_said, word_said, words_said};
ghost use Rattle.hip_script.specs.Said.{AddsSpan, IsListed, IsWithin, LiteralWithin, QuotesAs, ReadsFields, StandsFor, arguments_in, fields_in, held, literal_in};
ghost use Rattle.hip_script.specs.Spoken.Quoted.{Sought};
ghost use Rattle.hip_script.specs.Spoken.Pattern.{CharOf};
ghost use Rattle.hip_script.specs.Words.{ends_of, letters_of};

use crate::fault::LineFault;
use crate::said::{Argument, Arguments, Literal, Said, Span};
use crate::verb::{ENDS, Follows, PATTERNS, Quote, SIDES, WAYS, Word};
use crate::words::{Words, end};
use hipstr::End;
use std::alloc::Global;
use std::ops::Bound;
use std::str;

/// The lists that the lines of a script refer to by positions.
#[derive(Drop)]
pub(crate) struct Buffers<'l> {
    /// The bytes of literals that have escapes.
    pub(crate) bytes: Vec<u8>,
    /// The characters of all sets.
    pub(crate) chars: Vec<char>,
    /// The ends of all walks.
    pub(crate) ends: Vec<End>,
    /// The arguments of lines that have several, or ends.
    pub(crate) arguments: Vec<Arguments<'l>>,
}

impl<'l> Buffers<'l> {
    /// Buffers of nothing.
    pub(crate) fn new(alloc: Global) -> Self {
        Buffers {
            bytes: Vec::new(alloc),
            chars: Vec::new(alloc),
            ends: Vec::new(alloc),
            arguments: Vec::new(alloc),
        }
    }

    /// The arguments of a line, all that this one stands for.
    #[inline(always)]
    pub(crate) fn arguments(&self, argument: Argument<'l>) -> Arguments<'l>
        requires { IsListed (length self.now.arguments.items) argument }
        ensures { result ≡ arguments_in self.now.arguments.items argument.entry }
    {
        match argument {
            Argument::Between(low, high) => Arguments {
                low: Bound::Included(low),
                high: Bound::Excluded(high),
                ..Arguments::new()
            },
            Argument::All(at) => self.arguments.as_slice()[at],
            quoted => Arguments {
                quoted,
                ..Arguments::new()
            },
        }
    }

    /// Lists the arguments of a line, and gives the one that stands for them.
    fn list(&mut self, arguments: Arguments<'l>) -> Result<Argument<'l>, LineFault>
        ensures ok { IfOk result (λ argument. StandsFor arguments.entry (held self.old) (held self.new) argument) }
        ensures bad { IsErrOf result LineFault.NotACommand → ⊥ }
    {
        let at = self.arguments.len();
        self.arguments.push(arguments)?;
        Ok(Argument::All(at))
    }

    /// Reads the words of a line, one after another.
    pub(crate) fn read_words(
        &mut self,
        list: &[Word],
        words: &mut Words<'l>,
        said: &mut Said<'l>,
    ) -> Result<(), LineFault>
        requires { IsWithin (held self.old) said.old }
        ensures ok { OnOk result (ReadsFields (words_said list.now (fields_in (held self.old) said.old) words.old)
            words.new (held self.old) (held self.new) said.old said.new) }
        ensures bad { IsErrOf result LineFault.NotACommand
            → words_said list.now (fields_in (held self.old) said.old) words.old ≡ None }
    {
        for word in list {
            self.read_word(*word, words, said)?;
        }
        Ok(())
    }

    /// Reads a word, or those of a pattern or of a way.
    fn read_word(
        &mut self,
        word: Word,
        words: &mut Words<'l>,
        said: &mut Said<'l>,
    ) -> Result<(), LineFault>
        requires { IsWithin (held self.old) said.old }
        ensures ok { OnOk result (ReadsFields (word_said word (fields_in (held self.old) said.old) words.old)
            words.new (held self.old) (held self.new) said.old said.new) }
        ensures bad { IsErrOf result LineFault.NotACommand
            → word_said word (fields_in (held self.old) said.old) words.old ≡ None }
    {
        match word {
            Word::Source => put(words.number(), &mut said.source),
            Word::Target => put(words.number(), &mut said.target),
            Word::Number => put(words.number(), &mut said.number),
            Word::Byte => put(words.byte(), &mut said.byte),
            Word::Range => self.read_range(words, said),
            Word::Side => put(words.one_of(SIDES), &mut said.side),
            Word::End => put(words.one_of(ENDS), &mut said.end),
            Word::Quoted(quote) => self.read_quoted(quote, words, said),
            Word::Pattern => self.read_pattern(words, said),
            Word::Way => self.read_way(words, said),
            Word::Ends => self.read_ends(words, said),
        }
    }

    /// Reads a literal.
    fn read_quoted(
        &mut self,
        quote: Quote,
        words: &mut Words<'l>,
        said: &mut Said<'l>,
    ) -> Result<(), LineFault>
        requires { IsWithin (held self.old) said.old }
        ensures ok { OnOk result (ReadsFields (quoted_said quote (fields_in (held self.old) said.old) words.old)
            words.new (held self.old) (held self.new) said.old said.new) }
        ensures bad { IsErrOf result LineFault.NotACommand
            → quoted_said quote (fields_in (held self.old) said.old) words.old ≡ None }
    {
        let literal = words.literal(&mut self.bytes)?;
        let quoted = self.quoted(quote, literal)?;
        said.argument = match said.argument {
            Argument::Nothing => quoted,
            argument => self.list(Arguments {
                quoted,
                ..self.arguments(argument)
            })?,
        };
        Ok(())
    }

    /// The value of a literal, as `quote` asks for it.
    fn quoted<'q>(&mut self, quote: Quote, literal: Literal<'q>) -> Result<Argument<'q>, LineFault>
        requires { LiteralWithin self.old.bytes.items literal }
        ensures ok { IfOk result (λ quoted. QuotesAs (quoted_as quote (literal_in self.old.bytes.items literal.entry))
            (held self.old) (held self.new) quoted) }
        ensures bad { IsErrOf result LineFault.NotACommand → quoted_as quote (literal_in self.old.bytes.items literal.entry) ≡ None }
    {
        match quote {
            Quote::Bytes => match literal {
                Literal::Plain(bytes) => Ok(Argument::Bytes(bytes)),
                Literal::Decoded(span) => Ok(Argument::DecodedBytes(span)),
            },
            Quote::Text => match literal {
                Literal::Plain(bytes) => Ok(Argument::Text(text_of(bytes)?)),
                Literal::Decoded(span) => {
                    text_of(span.of(&self.bytes))?;
                    Ok(Argument::DecodedText(span))
                }
            },
            Quote::Char => {
                let c = only_char(text_of(literal.of(&self.bytes))?);
                Ok(Argument::Char(c.ok_or(LineFault::NotACommand)?))
            }
            Quote::Any => {
                let text = text_of(literal.of(&self.bytes))?;
                Ok(Argument::Any(add_chars(&mut self.chars, text)?))
            }
        }
    }

    /// Reads a pattern.
    fn read_pattern(&mut self, words: &mut Words<'l>, said: &mut Said<'l>) -> Result<(), LineFault>
        requires { IsWithin (held self.old) said.old }
        ensures ok { OnOk result (ReadsFields (pattern_said (fields_in (held self.old) said.old) words.old)
            words.new (held self.old) (held self.new) said.old said.new) }
        ensures bad { IsErrOf result LineFault.NotACommand
            → pattern_said (fields_in (held self.old) said.old) words.old ≡ None }
    {
        let quote = words.one_of(PATTERNS).ok_or(LineFault::NotACommand)?;
        self.read_quoted(quote, words, said)
    }

    /// Reads how a text is taken apart.
    fn read_way(&mut self, words: &mut Words<'l>, said: &mut Said<'l>) -> Result<(), LineFault>
        requires { IsWithin (held self.old) said.old }
        ensures ok { OnOk result (ReadsFields (way_said (fields_in (held self.old) said.old) words.old)
            words.new (held self.old) (held self.new) said.old said.new) }
        ensures bad { IsErrOf result LineFault.NotACommand
            → way_said (fields_in (held self.old) said.old) words.old ≡ None }
    {
        let (way, follows) = words.one_of(WAYS).ok_or(LineFault::NotACommand)?;
        said.way = way;
        self.read_following(follows, words, said)
    }

    /// Reads the arguments behind the name of a way.
    fn read_following(
        &mut self,
        follows: Follows,
        words: &mut Words<'l>,
        said: &mut Said<'l>,
    ) -> Result<(), LineFault>
        requires { IsWithin (held self.old) said.old }
        ensures ok { OnOk result (ReadsFields (follows_said follows (fields_in (held self.old) said.old) words.old)
            words.new (held self.old) (held self.new) said.old said.new) }
        ensures bad { IsErrOf result LineFault.NotACommand
            → follows_said follows (fields_in (held self.old) said.old) words.old ≡ None }
    {
        match follows {
            Follows::Nothing => Ok(()),
            Follows::APattern => self.read_pattern(words, said),
            Follows::CountAndPattern => {
                put(words.number(), &mut said.number)?;
                self.read_pattern(words, said)
            }
        }
    }

    /// Reads the ends that pieces are drawn from: `-`, or letters `F` and `B`.
    fn read_ends(&mut self, words: &mut Words<'l>, said: &mut Said<'l>) -> Result<(), LineFault>
        requires { IsWithin (held self.old) said.old }
        ensures ok { OnOk result (ReadsFields (word_said Word.Ends (fields_in (held self.old) said.old) words.old)
            words.new (held self.old) (held self.new) said.old said.new) }
        ensures bad { IsErrOf result LineFault.NotACommand
            → word_said Word.Ends (fields_in (held self.old) said.old) words.old ≡ None }
    {
        let word = words.next().ok_or(LineFault::NotACommand)?;
        let ends = add_ends(&mut self.ends, word)?;
        said.argument = self.list(Arguments {
            ends,
            ..self.arguments(said.argument)
        })?;
        Ok(())
    }

    /// Reads a range.
    fn read_range(&mut self, words: &mut Words<'l>, said: &mut Said<'l>) -> Result<(), LineFault>
        requires { IsWithin (held self.old) said.old }
        ensures ok { OnOk result (ReadsFields (word_said Word.Range (fields_in (held self.old) said.old) words.old)
            words.new (held self.old) (held self.new) said.old said.new) }
        ensures bad { IsErrOf result LineFault.NotACommand
            → word_said Word.Range (fields_in (held self.old) said.old) words.old ≡ None }
    {
        let (low, high) = words.range().ok_or(LineFault::NotACommand)?;
        said.argument = match (said.argument, low, high) {
            (Argument::Nothing, Bound::Included(low), Bound::Excluded(high)) => {
                Argument::Between(low, high)
            }
            _ => self.list(Arguments {
                low,
                high,
                ..self.arguments(said.argument)
            })?,
        };
        Ok(())
    }
}

/// Puts a value that was found in its place. Where none was found, the line is no command.
fn put<T: Copy>(found: Option<T>, place: &mut T) -> Result<(), LineFault>
    ensures ok { OnOk result (found ≡ Some place.new) }
    ensures bad { OnErr result (found ≡ None) }
{
    *place = found.ok_or(LineFault::NotACommand)?;
    Ok(())
}

/// The bytes as a text, if they are one.
fn text_of(bytes: &[u8]) -> Result<&str, LineFault>
    ensures text { IfOk result (λ text. (text.now ≡ bytes.now) × (is_utf8 bytes.now ≡ true)) }
    ensures bad { IsErrOf result LineFault.NotACommand → is_utf8 bytes.now ≡ false }
{
    match str::from_utf8(bytes) {
        Ok(text) => Ok(text),
        Err(_) => Err(LineFault::NotACommand),
    }
}

/// The only character of a text, if it has just one.
fn only_char(text: &str) -> Option<char>
    ensures { option_map (λ c. Sought (CharOf c)) result ≡ only (chars text.now) }
{
    let mut found = None;
    for c in text.chars() {
        match found {
            None => found = Some(c),
            Some(_) => return None,
        }
    }
    found
}

/// Adds the characters of a text, and says where they stand.
fn add_chars(buffer: &mut Vec<char>, text: &str) -> Result<Span, LineFault>
    ensures ok { IfOk result (λ span. AddsSpan (chars text.now) buffer.old.items buffer.new.items span) }
    ensures bad { IsErrOf result LineFault.NotACommand → ⊥ }
{
    let start = buffer.len();
    for c in text.chars() {
        buffer.push(c)?;
    }
    let end = buffer.len();
    Ok(Span { start, end })
}

/// Adds the ends that a word says, and says where they stand.
fn add_ends(buffer: &mut Vec<End>, word: &[u8]) -> Result<Span, LineFault>
    ensures ok { IfOk result (λ span. (ends : List End) × (ends_of word.now ≡ Some ends) × AddsSpan ends buffer.old.items buffer.new.items span) }
    ensures bad { IsErrOf result LineFault.NotACommand → ends_of word.now ≡ None }
{
    let start = buffer.len();
    match word {
        [] => return Err(LineFault::NotACommand),
        [b'-'] => {}
        letters => add_letters(buffer, letters)?,
    }
    let end = buffer.len();
    Ok(Span { start, end })
}

/// Adds the ends that letters stand for.
fn add_letters(buffer: &mut Vec<End>, letters: &[u8]) -> Result<(), LineFault>
    ensures ok { OnOk result ((ends : List End) × (letters_of letters.now ≡ Some ends) × (buffer.new.items ≡ buffer.old.items ++ ends)) }
    ensures bad { IsErrOf result LineFault.NotACommand → letters_of letters.now ≡ None }
{
    for letter in letters {
        buffer.push(end(*letter).ok_or(LineFault::NotACommand)?)?;
    }
    Ok(())
}

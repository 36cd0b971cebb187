//! The names of lines, and the words that follow each.
ghost use Rattle.std.specs.Prelude.{◌≡◌, ℕ, List, ◌∷◌, None, Some, MatchOption, bytes_eq, map};
ghost use Rattle.hip_script.specs.Grammar.{rows};
ghost use Rattle.hip_script.specs.Words.{look_up};

use self::Word::{Byte, Ends, Number, Pattern, Range, Source, Target};
use hipstr::bytes::HipByt;
use hipstr::{End, Rc, Side};

/// The verb of a line, which tells what is done.
#[derive(Clone, Copy)]
pub(crate) enum Verb {
    New,
    Inline,
    Borrow,
    Copy,
    Room,
    Clone,
    Slice,
    Push,
    Pop,
    Truncate,
    Clear,
    Shrink,
    Upper,
    Lower,
    Set,
    Repeat,
    Join,
    Mutate,
    Owned,
    Text,
    Bytes,
    Trim,
    TrimMatches,
    Strip,
    Pieces,
    Once,
    Compare,
    ComparePath,
    Len,
    Kind,
    Capacity,
    // These three are no commands.
    Show,
    Copied,
    Fields,
}

/// The kind of one argument, or of the few words that make a pattern or a way.
#[derive(Clone, Copy)]
pub(crate) enum Word {
    /// The slot that is asked or taken from.
    Source,
    /// The slot that becomes something.
    Target,
    /// A number, or a further slot.
    Number,
    /// A number that is at most 255.
    Byte,
    /// A range.
    Range,
    /// Which ends are trimmed.
    Side,
    /// One end.
    End,
    /// Bytes between two `"`.
    Quoted(Quote),
    /// A word for a pattern, and its literal.
    Pattern,
    /// A word for a way to take a text apart, and what follows it.
    Way,
    /// The ends that pieces are drawn from.
    Ends,
}

/// The kind of value that the bytes of a literal make.
#[derive(Clone, Copy)]
pub(crate) enum Quote {
    /// Just bytes.
    Bytes,
    /// A text.
    Text,
    /// The one character of a text.
    Char,
    /// Each character of a text.
    Any,
}

/// A way to take a text apart.
#[derive(Clone, Copy)]
pub(crate) enum Way {
    Split,
    Inclusive,
    Terminator,
    SplitN,
    Matches,
    RSplit,
    RTerminator,
    RSplitN,
    RMatches,
    Lines,
    Words,
    AsciiWords,
}

/// The arguments behind the name of a way.
#[derive(Clone, Copy)]
pub(crate) enum Follows {
    /// Nothing.
    Nothing,
    /// A pattern.
    APattern,
    /// The greatest number of pieces, and a pattern.
    CountAndPattern,
}

/// A name, its verb, and the kinds of the words that follow it.
pub(crate) type Row = (&'static str, (Verb, &'static [Word]));

const LITERAL: Word = Word::Quoted(Quote::Bytes);

const SEPARATOR: Word = Word::Quoted(Quote::Char);

// All lines that there are, by the first letters of their names.
const FROM_B: &[Row] = &[
    ("borrow", (Verb::Borrow, &[Target, LITERAL])),
    ("bytes", (Verb::Bytes, &[Target])),
];

const FROM_C: &[Row] = &[
    ("copy", (Verb::Copy, &[Target, LITERAL])),
    ("clone", (Verb::Clone, &[Source, Target])),
    ("clear", (Verb::Clear, &[Target])),
    ("compare", (Verb::Compare, &[Source, Number])),
    ("comparepath", (Verb::ComparePath, &[Source, Number])),
    ("capacity", (Verb::Capacity, &[Source])),
    ("copied", (Verb::Copied, &[])),
];

const FROM_F: &[Row] = &[("fields", (Verb::Fields, &[Source, SEPARATOR]))];

const FROM_I: &[Row] = &[("inline", (Verb::Inline, &[Target, LITERAL]))];

const FROM_J: &[Row] = &[("join", (Verb::Join, &[Source, Number, LITERAL, Target]))];

const FROM_K: &[Row] = &[("kind", (Verb::Kind, &[Source]))];

const FROM_L: &[Row] = &[
    ("lower", (Verb::Lower, &[Target])),
    ("len", (Verb::Len, &[Source])),
];

const FROM_M: &[Row] = &[("mutate", (Verb::Mutate, &[Target, LITERAL]))];

const FROM_N: &[Row] = &[("new", (Verb::New, &[Target]))];

const FROM_O: &[Row] = &[
    ("owned", (Verb::Owned, &[Target])),
    (
        "once",
        (Verb::Once, &[Source, Target, Number, Word::End, Pattern]),
    ),
];

const FROM_P: &[Row] = &[
    ("push", (Verb::Push, &[Target, LITERAL])),
    ("pop", (Verb::Pop, &[Target])),
    ("pieces", (Verb::Pieces, &[Source, Word::Way, Ends, Target])),
];

const FROM_R: &[Row] = &[
    ("room", (Verb::Room, &[Target, Number])),
    ("repeat", (Verb::Repeat, &[Source, Target, Number])),
];

const FROM_S: &[Row] = &[
    ("slice", (Verb::Slice, &[Source, Target, Range])),
    ("shrink", (Verb::Shrink, &[Target, Number])),
    ("set", (Verb::Set, &[Target, Number, Byte])),
    (
        "strip",
        (Verb::Strip, &[Source, Target, Word::End, Pattern]),
    ),
    ("show", (Verb::Show, &[Source])),
];

const FROM_T: &[Row] = &[
    ("truncate", (Verb::Truncate, &[Target, Number])),
    ("text", (Verb::Text, &[Target])),
    ("trim", (Verb::Trim, &[Source, Target, Word::Side])),
    (
        "trimm",
        (Verb::TrimMatches, &[Source, Target, Word::Side, Pattern]),
    ),
];

const FROM_U: &[Row] = &[("upper", (Verb::Upper, &[Target]))];

/// The lines whose names begin with a letter.
fn rows_from(letter: u8) -> &'static [Row]
    ensures { (word : List ℕ) → look_up (letter ∷ word) (map (λ e. (e.0.now, (e.1.0, e.1.1.now))) result.now) ≡ look_up (letter ∷ word) rows }
{
    match letter {
        b'b' => FROM_B,
        b'c' => FROM_C,
        b'f' => FROM_F,
        b'i' => FROM_I,
        b'j' => FROM_J,
        b'k' => FROM_K,
        b'l' => FROM_L,
        b'm' => FROM_M,
        b'n' => FROM_N,
        b'o' => FROM_O,
        b'p' => FROM_P,
        b'r' => FROM_R,
        b's' => FROM_S,
        b't' => FROM_T,
        b'u' => FROM_U,
        _ => &[],
    }
}

/// The line with a name.
pub(crate) fn row_with_name(word: &[u8]) -> Option<(Verb, &'static [Word])>
    ensures { MatchOption result (look_up word.now rows ≡ None) (λ row. look_up word.now rows ≡ Some (row.0, row.1.now)) }
{
    let (first, _rest) = word.split_first()?;
    named(rows_from(*first), word)
}

/// The value of a name in a table; `None` where the word is no name in it.
pub(crate) fn named<T: Copy>(names: &[(&'static str, T)], word: &[u8]) -> Option<T>
    ensures { result ≡ look_up word.now (map (λ e. (e.0.now, e.1)) names.now) }
{
    for (name, named) in names {
        if is_name(name, word) {
            return Some(*named);
        }
    }
    None
}

/// Whether a word is this name. It is compared as a lent handle, since `==` of slices is a call.
#[inline(always)]
fn is_name(name: &str, word: &[u8]) -> bool
    ensures { result ≡ bytes_eq name.now word.now }
{
    HipByt::<Rc>::borrowed(name.as_bytes()).eq_slice(word)
}

/// Each way, and what follows it.
pub(crate) const WAYS: &[(&str, (Way, Follows))] = &[
    ("split", (Way::Split, Follows::APattern)),
    ("inclusive", (Way::Inclusive, Follows::APattern)),
    ("terminator", (Way::Terminator, Follows::APattern)),
    ("splitn", (Way::SplitN, Follows::CountAndPattern)),
    ("matches", (Way::Matches, Follows::APattern)),
    ("rsplit", (Way::RSplit, Follows::APattern)),
    ("rterminator", (Way::RTerminator, Follows::APattern)),
    ("rsplitn", (Way::RSplitN, Follows::CountAndPattern)),
    ("rmatches", (Way::RMatches, Follows::APattern)),
    ("lines", (Way::Lines, Follows::Nothing)),
    ("words", (Way::Words, Follows::Nothing)),
    ("asciiwords", (Way::AsciiWords, Follows::Nothing)),
];

/// The patterns by their names.
pub(crate) const PATTERNS: &[(&str, Quote)] = &[
    ("text", Quote::Text),
    ("char", Quote::Char),
    ("any", Quote::Any),
];

/// The sides by their names.
pub(crate) const SIDES: &[(&str, Side)] = &[
    ("start", Side::Start),
    ("end", Side::End),
    ("both", Side::Both),
];

/// The ends by their names.
pub(crate) const ENDS: &[(&str, End)] = &[("front", End::Front), ("back", End::Back)];

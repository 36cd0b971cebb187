use crate::bytes::{GrowFault, Kind};
use crate::{bytes, string};
use hip_bytes::Backend;
use hip_match::draw::End;
use std::alloc::AllocError;
use std::cmp::Ordering;
use std::ops::Bound;

/// Which ends of a text are trimmed.
#[derive(Clone, Copy, Debug, PartialEq, Eq)]
pub enum Side {
    /// Its front.
    Start,
    /// Its end.
    End,
    /// Its front, and then the end of what is left.
    Both,
}

/// A pattern of a command.
#[derive(Clone, Copy)]
pub enum Pat<'b> {
    /// A text, which may be empty.
    Text(&'b str),
    /// A character.
    Char(char),
    /// Each of these characters.
    Set(&'b [char]),
}

/// How a text is taken apart.
#[derive(Clone, Copy)]
pub enum How<'b> {
    /// Into the parts between the occurrences.
    Split(Pat<'b>),
    /// Into the parts that occurrences end, each with its occurrence.
    Inclusive(Pat<'b>),
    /// Into the parts between, without the last where that is empty.
    Terminator(Pat<'b>),
    /// Into at most this many parts.
    SplitN(usize, Pat<'b>),
    /// Into the occurrences.
    Matches(Pat<'b>),
    /// Into the parts between, from the end.
    RSplit(Pat<'b>),
    /// Into the parts between, from the end, without the first where that is empty.
    RTerminator(Pat<'b>),
    /// Into at most this many parts, from the end.
    RSplitN(usize, Pat<'b>),
    /// Into the occurrences, from the end.
    RMatches(Pat<'b>),
    /// Into lines.
    Lines,
    /// Into the runs between white space.
    Words,
    /// Into the runs between ASCII white space.
    AsciiWords,
}

/// A command that [`run`](crate::run) performs. Slots are named by their position in the pool.
#[derive(Clone, Copy)]
pub enum Command<'b> {
    /// The slot becomes empty.
    New(usize),
    /// The slot becomes a copy of these bytes, in the handle itself.
    Inline(usize, &'b [u8]),
    /// The slot borrows these bytes.
    Borrow(usize, &'b [u8]),
    /// The slot becomes a copy of these bytes.
    Copy(usize, &'b [u8]),
    /// The slot becomes empty, with room for so many bytes.
    Room(usize, usize),
    /// The second slot becomes the value of the first.
    Clone(usize, usize),
    /// The second slot becomes the items of the first between two bounds.
    Slice(usize, usize, Bound<usize>, Bound<usize>),
    /// The bytes are added at the slot's end.
    Push(usize, &'b [u8]),
    /// The slot's last byte, or a text's last character, is taken off, and answered.
    Pop(usize),
    /// The slot keeps its first items, up to this number.
    Truncate(usize, usize),
    /// The slot's items are removed.
    Clear(usize),
    /// The slot gives room back, down to so many bytes.
    Shrink(usize, usize),
    /// The letters `a` to `z` become `A` to `Z`.
    Upper(usize),
    /// The letters `A` to `Z` become `a` to `z`.
    Lower(usize),
    /// One byte is replaced.
    Set(usize, usize, u8),
    /// The second slot becomes the items of the first, so many times.
    Repeat(usize, usize, usize),
    /// The last slot becomes the items of so many slots from the first on, with these bytes between each two.
    Join(usize, usize, &'b [u8], usize),
    /// The bytes are added at the slot's end, through a vector that is lent.
    Mutate(usize, &'b [u8]),
    /// The slot stops borrowing.
    Owned(usize),
    /// The slot becomes a text, with the same bytes in the same handle.
    Text(usize),
    /// The slot becomes bytes again.
    Bytes(usize),
    /// The second slot becomes the text of the first, without white space at these ends.
    Trim(usize, usize, Side),
    /// The second slot becomes the text of the first, without the pattern's occurrences at these ends, one after another.
    TrimMatches(usize, usize, Side, Pat<'b>),
    /// The second slot becomes the text of the first without one occurrence at that end, if there is one.
    Strip(usize, usize, End, Pat<'b>),
    /// The slots from the last on become the pieces of the first that the script draws, one after another, as many as there are.
    Pieces(usize, How<'b>, &'b [End], usize),
    /// The second slot becomes what lies before the first occurrence from that end, and the third what lies behind it, if there is one.
    Once(usize, usize, usize, End, Pat<'b>),
    /// The order of the bytes of two slots.
    Compare(usize, usize),
    /// The order of the components of two slots' bytes, as paths.
    ComparePath(usize, usize),
    /// The number of the slot's bytes.
    Len(usize),
    /// Where the slot's bytes lie.
    Kind(usize),
    /// The number of bytes that the slot can hold where they lie.
    Capacity(usize),
}

/// The answer of a command.
#[derive(Clone, Copy, Debug, PartialEq, Eq)]
pub enum Answer {
    /// It was done.
    Done,
    /// There was nothing to do it to.
    Nothing,
    /// The number that was asked for.
    Number(usize),
    /// The order of the first and the second.
    Order(Ordering),
    /// The byte that was taken off.
    Byte(u8),
    /// The character that was taken off.
    Char(char),
    /// The kind that was asked for.
    Kind(Kind),
    /// It was refused.
    Refused(Reason),
}

/// Why a command was refused.
#[derive(Clone, Copy, Debug, PartialEq, Eq)]
pub enum Reason {
    /// A slot isn't there.
    NoSlot,
    /// A slot would have to be two things at once.
    Overlap,
    /// The slot is bytes.
    NotText,
    /// The slot is a text.
    NotBytes,
    /// The bytes aren't UTF-8.
    NotUtf8,
    /// The bytes are too many for a handle itself, or for any list.
    TooLong,
    /// The range's start comes after its end.
    StartGreaterThanEnd,
    /// The range's start is past the length.
    StartOutOfBounds,
    /// The range's end is past the length.
    EndOutOfBounds,
    /// The range of a text begins within a character.
    StartNotACharBoundary,
    /// The range of a text, or what is to be kept of it, ends within a character.
    EndNotACharBoundary,
    /// The position is past the items.
    OutOfRange,
    /// A walk or trim from both ends can be made from one alone.
    OneEnd,
    /// Memory ran out, or an owner couldn't be shared once more.
    Memory,
}

impl From<bytes::SliceErrorKind> for Reason {
    ghost use Rattle.std.specs.Prelude.{◌≡◌};
    ghost use Rattle.hipstr.specs.Reason.{reason_of};

    ghost from_gives = { λ kind reason. reason ≡ reason_of kind };

    fn from(kind: bytes::SliceErrorKind) -> Reason {
        match kind {
            bytes::SliceErrorKind::StartGreaterThanEnd => Reason::StartGreaterThanEnd,
            bytes::SliceErrorKind::StartOutOfBounds => Reason::StartOutOfBounds,
            bytes::SliceErrorKind::EndOutOfBounds => Reason::EndOutOfBounds,
        }
    }
}

impl From<string::SliceErrorKind> for Reason {
    ghost use Rattle.std.specs.Prelude.{◌≡◌};
    ghost use Rattle.hipstr.specs.Reason.{text_reason_of};

    ghost from_gives = { λ kind reason. reason ≡ text_reason_of kind };

    fn from(kind: string::SliceErrorKind) -> Reason {
        match kind {
            string::SliceErrorKind::StartGreaterThanEnd => Reason::StartGreaterThanEnd,
            string::SliceErrorKind::StartOutOfBounds => Reason::StartOutOfBounds,
            string::SliceErrorKind::EndOutOfBounds => Reason::EndOutOfBounds,
            string::SliceErrorKind::StartNotACharBoundary => Reason::StartNotACharBoundary,
            string::SliceErrorKind::EndNotACharBoundary => Reason::EndNotACharBoundary,
        }
    }
}

impl<'a, 'b, B: Backend> From<bytes::SliceRefusal<'a, 'b, B>> for Reason {
    ghost use Rattle.std.specs.Prelude.{◌≡◌};
    ghost use Rattle.hipstr.specs.Reason.{bytes_refusal};

    ghost from_gives = { λ refusal reason. reason ≡ bytes_refusal refusal };

    fn from(refusal: bytes::SliceRefusal<'a, 'b, B>) -> Reason {
        match refusal {
            bytes::SliceRefusal::Slice(error) => Reason::from(error.kind()),
            bytes::SliceRefusal::Memory => Reason::Memory,
        }
    }
}

impl<'a, 'b, B: Backend> From<string::SliceRefusal<'a, 'b, B>> for Reason {
    ghost use Rattle.std.specs.Prelude.{◌≡◌};
    ghost use Rattle.hipstr.specs.Reason.{text_refusal};

    ghost from_gives = { λ refusal reason. reason ≡ text_refusal refusal };

    fn from(refusal: string::SliceRefusal<'a, 'b, B>) -> Reason {
        match refusal {
            string::SliceRefusal::Slice(error) => Reason::from(error.kind()),
            string::SliceRefusal::Memory => Reason::Memory,
        }
    }
}

impl From<GrowFault> for Reason {
    ghost use Rattle.std.specs.Prelude.{◌≡◌};
    ghost use Rattle.hipstr.specs.Reason.{grow_reason_of};

    ghost from_gives = { λ fault reason. reason ≡ grow_reason_of fault };

    fn from(fault: GrowFault) -> Reason {
        match fault {
            GrowFault::TooLong => Reason::TooLong,
            GrowFault::Memory => Reason::Memory,
        }
    }
}

impl From<AllocError> for Reason {
    ghost use Rattle.std.specs.Prelude.{◌≡◌};
    ghost use Rattle.hipstr.specs.declared.command.Reason.TheVariants.{Memory};

    ghost from_gives = { λ _ reason. reason ≡ Memory };

    fn from(_refused: AllocError) -> Reason {
        Reason::Memory
    }
}

impl From<Result<Answer, Reason>> for Answer {
    ghost use Rattle.std.specs.Prelude.{◌≡◌};
    ghost use Rattle.hipstr.specs.Reason.{answer_of};

    ghost from_gives = { λ outcome answer. answer ≡ answer_of outcome };

    fn from(outcome: Result<Answer, Reason>) -> Answer {
        match outcome {
            Ok(answer) => answer,
            Err(reason) => Answer::Refused(reason),
        }
    }
}

//! The commands that `lists` runs.
use super::held::{ADDED_BYTES, BYTES, Held, PART};
use hipstr::{Command, End, How, Pat, Side};
use std::ops::Bound;

/// Commands that are performed with ample memory, those that make a slot a text then, and the commands of which requests are refused. None
/// of these uses what a `Mutate` among them leaves.
#[derive(Clone, Copy)]
pub(crate) struct Session<'c> {
    pub before: &'c [Command<'static>],
    pub texts: &'c [Command<'static>],
    pub commands: &'c [Command<'static>],
}

const SHORT: &[u8] = b" ab";

/// Slot 0 becomes a text.
pub(crate) const TEXTS: &[Command<'static>] = &[Command::Text(0)];

// Commands that make the value of slot 0, and a value in a slot that later commands replace.

const INLINE: &[Command<'static>] = &[Command::Copy(0, SHORT), Command::Copy(2, BYTES)];

const LENT: &[Command<'static>] = &[Command::Borrow(0, BYTES), Command::Copy(2, BYTES)];

const SOLE: &[Command<'static>] = &[
    Command::Room(0, 200),
    Command::Push(0, BYTES),
    Command::Copy(2, BYTES),
];

const SHARED: &[Command<'static>] = &[
    Command::Copy(0, BYTES),
    Command::Clone(0, 1),
    Command::Copy(2, BYTES),
];

pub(crate) fn held_by(held: Held) -> &'static [Command<'static>] {
    match held {
        Held::Inline => INLINE,
        Held::Lent => LENT,
        Held::Sole => SOLE,
        Held::Shared => SHARED,
    }
}

/// Each command on bytes, in two tables: one of so many rows is dear to prove.
const ON_BYTES: &[Command<'static>] = &[
    Command::New(2),
    Command::Inline(2, b"ab"),
    Command::Borrow(2, BYTES),
    Command::Copy(2, ADDED_BYTES),
    Command::Room(2, 64),
    Command::Clone(0, 2),
    Command::Slice(0, 2, Bound::Included(1), Bound::Unbounded),
    Command::Push(0, b"!"),
    Command::Push(0, &[b'!'; 200]),
    Command::Pop(0),
    Command::Truncate(0, 25),
    Command::Truncate(0, 5),
    Command::Clear(0),
    Command::Shrink(0, 0),
];

pub(crate) fn on_bytes() -> &'static [Command<'static>] {
    ON_BYTES
}

const ON_BYTES_TOO: &[Command<'static>] = &[
    Command::Upper(0),
    Command::Lower(0),
    Command::Set(0, 1, 65),
    Command::Repeat(0, 2, 3),
    Command::Repeat(0, 2, 1),
    Command::Join(0, 3, b"-", 2),
    Command::Mutate(0, ADDED_BYTES),
    Command::Mutate(0, b""),
    Command::Owned(0),
    Command::Text(0),
    Command::Compare(0, 1),
    Command::ComparePath(0, 1),
    Command::Len(0),
    Command::Kind(0),
    Command::Capacity(0),
];

pub(crate) fn on_bytes_too() -> &'static [Command<'static>] {
    ON_BYTES_TOO
}

const THREE: &[End] = &[End::Front, End::Front, End::Front];

/// Each command on a text, and others that a text answers in its own way.
const ON_TEXTS: &[Command<'static>] = &[
    Command::Clone(0, 2),
    Command::Slice(0, 2, Bound::Included(1), Bound::Unbounded),
    Command::Push(0, b"\xC3\xA9"),
    Command::Pop(0),
    Command::Truncate(0, 25),
    Command::Upper(0),
    Command::Repeat(0, 2, 2),
    Command::Mutate(0, ADDED_BYTES),
    Command::Owned(0),
    Command::Bytes(0),
    Command::Trim(0, 2, Side::Start),
    Command::Trim(0, 2, Side::End),
    Command::Trim(0, 0, Side::Both),
    Command::TrimMatches(0, 2, Side::Start, Pat::Text(" ")),
    Command::TrimMatches(0, 2, Side::End, Pat::Set(&[' '])),
    Command::TrimMatches(0, 2, Side::Both, Pat::Char(' ')),
    Command::Strip(0, 2, End::Front, Pat::Text(" ")),
    Command::Strip(0, 2, End::Back, Pat::Char(' ')),
    Command::Once(0, 2, 3, End::Front, Pat::Char(',')),
    Command::Once(0, 2, 3, End::Back, Pat::Text(",")),
];

pub(crate) fn on_texts() -> &'static [Command<'static>] {
    ON_TEXTS
}

/// Each way to take a text apart.
const WAYS: &[Command<'static>] = &[
    Command::Pieces(0, How::Split(Pat::Char(',')), THREE, 2),
    Command::Pieces(0, How::Inclusive(Pat::Text(",")), THREE, 2),
    Command::Pieces(0, How::Terminator(Pat::Char(',')), THREE, 2),
    Command::Pieces(0, How::SplitN(2, Pat::Char(',')), THREE, 2),
    Command::Pieces(0, How::Matches(Pat::Text(PART)), THREE, 2),
    Command::Pieces(0, How::RSplit(Pat::Set(&[','])), THREE, 2),
    Command::Pieces(0, How::RTerminator(Pat::Text(",")), THREE, 2),
    Command::Pieces(0, How::RSplitN(2, Pat::Text(",")), THREE, 2),
    Command::Pieces(0, How::RMatches(Pat::Text(PART)), THREE, 2),
    Command::Pieces(0, How::Lines, THREE, 2),
    Command::Pieces(0, How::Words, &[End::Back, End::Front], 2),
    Command::Pieces(0, How::AsciiWords, &[End::Back, End::Front], 2),
];

pub(crate) fn ways() -> &'static [Command<'static>] {
    WAYS
}

/// The three targets of pieces of 30 bytes stay as they are, whatever request of theirs is refused.
const PIECES: Session<'static> = Session {
    before: &[
        Command::Copy(
            0,
            b"aaaaaaaaaaaaaaaaaaaaaaaaaaaaaa,aaaaaaaaaaaaaaaaaaaaaaaaaaaaaa,aaaaaaaaaaaaaaaaaaaaaaaaaaaaaa,",
        ),
        Command::Copy(1, ADDED_BYTES),
        Command::Inline(2, b"ab"),
        Command::Borrow(3, ADDED_BYTES),
    ],
    texts: TEXTS,
    commands: &[Command::Pieces(0, How::Split(Pat::Char(',')), THREE, 1)],
};

/// Every command, on values that are too long for a handle itself.
const EACH: Session<'static> = Session {
    before: &[],
    texts: &[],
    commands: &[
        Command::New(0),
        Command::Inline(0, b"ab"),
        Command::Borrow(1, ADDED_BYTES),
        Command::Copy(2, ADDED_BYTES),
        Command::Room(3, 64),
        Command::Clone(2, 4),
        Command::Slice(2, 5, Bound::Included(1), Bound::Unbounded),
        Command::Push(1, b"!"),
        Command::Push(4, b"!"),
        Command::Pop(4),
        Command::Truncate(4, 25),
        Command::Clear(3),
        Command::Shrink(4, 24),
        Command::Clone(2, 4),
        Command::Upper(4),
        Command::Lower(4),
        Command::Set(2, 0, 65),
        Command::Repeat(2, 6, 3),
        Command::Join(0, 3, b"-", 6),
        Command::Copy(7, ADDED_BYTES),
        Command::Mutate(7, ADDED_BYTES),
        Command::Borrow(0, ADDED_BYTES),
        Command::Owned(0),
        Command::Copy(0, BYTES),
        Command::Text(0),
        Command::Trim(0, 1, Side::Both),
        Command::TrimMatches(0, 2, Side::End, Pat::Char(' ')),
        Command::Strip(0, 3, End::Front, Pat::Text(" ")),
        Command::Once(0, 4, 5, End::Front, Pat::Char(',')),
        Command::Pieces(0, How::Split(Pat::Char(',')), THREE, 2),
        Command::Bytes(0),
        Command::Compare(0, 1),
        Command::ComparePath(0, 1),
        Command::Len(0),
        Command::Kind(0),
        Command::Capacity(6),
    ],
};

pub(crate) fn each_command() -> Session<'static> {
    EACH
}

pub(crate) fn three_pieces() -> Session<'static> {
    PIECES
}

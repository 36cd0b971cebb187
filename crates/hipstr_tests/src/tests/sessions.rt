//! Lists of commands, each with its answer, and what they leave. `runs` runs them.
use hipstr::{Answer, Command, End, How, Kind, Pat, Reason, Side};
use std::ops::Bound;

/// A command, and what it answers.
pub(crate) type Row = (Command<'static>, Answer);

/// Commands on a pool, and what slots hold after them, and whether each is borrowed. A function in which such a table stands costs the
/// square of what it borrows, so each has one that hands it out.
#[derive(Clone, Copy)]
pub(crate) struct Session {
    pub slots: usize,
    pub rows: &'static [Row],
    pub left: &'static [(usize, &'static [u8], bool)],
}

/// Makers, cuts and questions; ranges that wrap in 64 bits; slots that aren't there.
const CUTS: Session = Session {
    slots: 3,
    rows: &[
        (Command::Copy(0, b"Hello John"), Answer::Done),
        (
            Command::Slice(0, 1, Bound::Included(6), Bound::Unbounded),
            Answer::Done,
        ),
        (
            Command::Slice(0, 1, Bound::Excluded(usize::MAX), Bound::Unbounded),
            Answer::Refused(Reason::StartOutOfBounds),
        ),
        (
            Command::Slice(0, 1, Bound::Unbounded, Bound::Included(usize::MAX)),
            Answer::Refused(Reason::EndOutOfBounds),
        ),
        (
            Command::Slice(3, 1, Bound::Included(99), Bound::Unbounded),
            Answer::Refused(Reason::NoSlot),
        ),
        (
            Command::Slice(0, 3, Bound::Included(99), Bound::Unbounded),
            Answer::Refused(Reason::NoSlot),
        ),
        (Command::New(0), Answer::Done),
        (Command::Push(1, b"!"), Answer::Done),
        (Command::Clone(1, 2), Answer::Done),
        (Command::Truncate(2, 4), Answer::Done),
        (Command::Len(1), Answer::Number(5)),
        (Command::Len(2), Answer::Number(4)),
        (Command::Inline(0, b"ab"), Answer::Done),
        (Command::Pop(0), Answer::Byte(98)),
        (Command::Kind(0), Answer::Kind(Kind::Inline)),
        (Command::Clear(0), Answer::Done),
        (Command::Pop(0), Answer::Nothing),
        (Command::Room(0, 42), Answer::Done),
        (Command::Kind(0), Answer::Kind(Kind::Allocated)),
        (Command::Borrow(0, b"abc"), Answer::Done),
        (Command::Capacity(0), Answer::Number(3)),
    ],
    left: &[(0, b"abc", true), (1, b"John!", false), (2, b"John", false)],
};

pub(crate) fn cuts() -> Session {
    CUTS
}

/// No write through one handle shows in another.
const WRITES: Session = Session {
    slots: 3,
    rows: &[
        (Command::Copy(0, &[b'a'; 30]), Answer::Done),
        (Command::Clone(0, 1), Answer::Done),
        (
            Command::Slice(0, 2, Bound::Included(3), Bound::Unbounded),
            Answer::Done,
        ),
        (Command::Kind(2), Answer::Kind(Kind::Allocated)),
        (Command::Set(0, 0, b'b'), Answer::Done),
        (
            Command::Set(0, 30, b'b'),
            Answer::Refused(Reason::OutOfRange),
        ),
        (Command::Upper(1), Answer::Done),
        (Command::Mutate(1, b"!"), Answer::Done),
        (Command::Push(2, b"c"), Answer::Done),
        (Command::Len(0), Answer::Number(30)),
        (Command::Len(1), Answer::Number(31)),
        (Command::Len(2), Answer::Number(28)),
    ],
    left: &[
        (0, b"baaaaaaaaaaaaaaaaaaaaaaaaaaaaa", false),
        (1, b"AAAAAAAAAAAAAAAAAAAAAAAAAAAAAA!", false),
        (2, b"aaaaaaaaaaaaaaaaaaaaaaaaaaac", false),
    ],
};

pub(crate) fn writes() -> Session {
    WRITES
}

/// Trims, strips and parts of texts, with each refusal.
const TEXTS: Session = Session {
    slots: 4,
    rows: &[
        (Command::Copy(0, b"xxaxx"), Answer::Done),
        (
            Command::Trim(0, 1, Side::Both),
            Answer::Refused(Reason::NotText),
        ),
        (Command::Text(0), Answer::Done),
        (
            Command::TrimMatches(0, 1, Side::Both, Pat::Char('x')),
            Answer::Done,
        ),
        (
            Command::TrimMatches(0, 1, Side::Both, Pat::Text("x")),
            Answer::Refused(Reason::OneEnd),
        ),
        (
            Command::Strip(0, 1, End::Front, Pat::Text("y")),
            Answer::Nothing,
        ),
        (
            Command::Strip(0, 2, End::Back, Pat::Set(&['x', 'y'])),
            Answer::Done,
        ),
        (
            Command::Strip(0, 4, End::Back, Pat::Char('x')),
            Answer::Refused(Reason::NoSlot),
        ),
        (
            Command::Once(0, 3, 0, End::Front, Pat::Char('a')),
            Answer::Done,
        ),
        (Command::Borrow(1, b" a\xC2\xA0"), Answer::Done),
        (Command::Text(1), Answer::Done),
        (Command::Trim(1, 1, Side::Start), Answer::Done),
        (Command::Len(1), Answer::Number(3)),
        (Command::Trim(1, 1, Side::End), Answer::Done),
        (
            Command::TrimMatches(2, 2, Side::Start, Pat::Text("xx")),
            Answer::Done,
        ),
        (
            Command::TrimMatches(3, 3, Side::End, Pat::Text("x")),
            Answer::Done,
        ),
        (
            Command::Once(0, 1, 2, End::Back, Pat::Text("y")),
            Answer::Nothing,
        ),
    ],
    left: &[
        (0, b"xx", false),
        (1, b"a", true),
        (2, b"ax", false),
        (3, b"", false),
    ],
};

pub(crate) fn texts() -> Session {
    TEXTS
}

/// Pieces by scripts, with each refusal in its order; targets past the last piece stay as they are.
const PIECES: Session = Session {
    slots: 8,
    rows: &[
        (Command::Copy(0, b"a,b,c,d"), Answer::Done),
        (
            Command::Pieces(0, How::Lines, &[], 1),
            Answer::Refused(Reason::NotText),
        ),
        (Command::Text(0), Answer::Done),
        (
            Command::Pieces(0, How::Split(Pat::Char(',')), &[End::Front, End::Front], 0),
            Answer::Refused(Reason::Overlap),
        ),
        (
            Command::Pieces(0, How::SplitN(2, Pat::Char(',')), &[End::Back], 1),
            Answer::Refused(Reason::OneEnd),
        ),
        (
            Command::Pieces(0, How::Split(Pat::Text(",")), &[End::Front; 6], 1),
            Answer::Number(4),
        ),
        (
            Command::Pieces(0, How::Split(Pat::Char(',')), &[End::Front, End::Front], 7),
            Answer::Refused(Reason::NoSlot),
        ),
        (
            Command::Pieces(0, How::Split(Pat::Char(',')), &[End::Back], 7),
            Answer::Number(1),
        ),
        (
            Command::Once(0, 5, 6, End::Back, Pat::Char(',')),
            Answer::Done,
        ),
        (
            Command::Once(0, 5, 5, End::Front, Pat::Char(',')),
            Answer::Refused(Reason::Overlap),
        ),
    ],
    left: &[
        (0, b"a,b,c,d", false),
        (1, b"a", false),
        (2, b"b", false),
        (3, b"c", false),
        (4, b"d", false),
        (5, b"a,b,c", false),
        (6, b"d", false),
        (7, b"d", false),
    ],
};

pub(crate) fn pieces() -> Session {
    PIECES
}

/// Letters and what is near to them, in more bytes than a block has.
const CASES: Session = Session {
    slots: 2,
    rows: &[
        (Command::Copy(0, NEAR_LETTERS), Answer::Done),
        (Command::Clone(0, 1), Answer::Done),
        (Command::Upper(0), Answer::Done),
        (Command::Lower(1), Answer::Done),
    ],
    left: &[(0, CAPITALS, false), (1, SMALL_LETTERS, false)],
};

const NEAR_LETTERS: &[u8] =
    b"@AZ[`az{\xC1\xE1@AZ[`az{\xC1\xE1@AZ[`az{\xC1\xE1@AZ[`az{\xC1\xE1@AZ[`az{\xC1\xE1@AZ[`az{\xC1\xE1@AZ[`az{\xC1\xE1";

const CAPITALS: &[u8] =
    b"@AZ[`AZ{\xC1\xE1@AZ[`AZ{\xC1\xE1@AZ[`AZ{\xC1\xE1@AZ[`AZ{\xC1\xE1@AZ[`AZ{\xC1\xE1@AZ[`AZ{\xC1\xE1@AZ[`AZ{\xC1\xE1";

const SMALL_LETTERS: &[u8] =
    b"@az[`az{\xC1\xE1@az[`az{\xC1\xE1@az[`az{\xC1\xE1@az[`az{\xC1\xE1@az[`az{\xC1\xE1@az[`az{\xC1\xE1@az[`az{\xC1\xE1";

pub(crate) fn cases() -> Session {
    CASES
}

/// An empty handle, which is one piece.
const EMPTY: Session = Session {
    slots: 3,
    rows: &[
        (Command::New(0), Answer::Done),
        (Command::Pop(0), Answer::Nothing),
        (Command::Len(0), Answer::Number(0)),
        (Command::Kind(0), Answer::Kind(Kind::Inline)),
        (Command::Text(0), Answer::Done),
        (
            Command::Pieces(0, How::Split(Pat::Char(',')), &[End::Front, End::Back], 1),
            Answer::Number(1),
        ),
    ],
    left: &[(0, b"", false), (1, b"", false), (2, b"", false)],
};

pub(crate) fn empty() -> Session {
    EMPTY
}

const TURNS: &[End] = &[End::Front, End::Back, End::Back, End::Front, End::Front];

/// A push on a slice that outlives its source: what follows the slice in the owner is cut off.
const PUSHED_SLICE: Session = Session {
    slots: 2,
    rows: &[
        (
            Command::Copy(0, b"abcdefghijklmnopqrstuvwxyz"),
            Answer::Done,
        ),
        (
            Command::Slice(0, 1, Bound::Unbounded, Bound::Excluded(24)),
            Answer::Done,
        ),
        (Command::New(0), Answer::Done),
        (Command::Push(1, b"!"), Answer::Done),
        (Command::Kind(1), Answer::Kind(Kind::Allocated)),
    ],
    left: &[(0, b"", false), (1, b"abcdefghijklmnopqrstuvwx!", false)],
};

pub(crate) fn pushed_slice() -> Session {
    PUSHED_SLICE
}

/// A byte that is set in one of three handles of one owner.
const SET_ON_SHARED: Session = Session {
    slots: 3,
    rows: &[
        (Command::Copy(0, &[b'a'; 30]), Answer::Done),
        (Command::Clone(0, 1), Answer::Done),
        (
            Command::Slice(0, 2, Bound::Included(3), Bound::Excluded(30)),
            Answer::Done,
        ),
        (Command::Set(0, 5, b'b'), Answer::Done),
    ],
    left: &[
        (0, b"aaaaabaaaaaaaaaaaaaaaaaaaaaaaa", false),
        (1, &[b'a'; 30], false),
        (2, &[b'a'; 27], false),
    ],
};

pub(crate) fn set_on_shared() -> Session {
    SET_ON_SHARED
}

/// Pieces of a borrowed text, from both ends.
const BORROWED_PIECES: Session = Session {
    slots: 6,
    rows: &[
        (Command::Borrow(0, b"a,b,c,d"), Answer::Done),
        (Command::Text(0), Answer::Done),
        (
            Command::Pieces(0, How::Split(Pat::Char(',')), TURNS, 1),
            Answer::Number(4),
        ),
    ],
    left: &[
        (1, b"a", true),
        (2, b"d", true),
        (3, b"c", true),
        (4, b"b", true),
        (5, b"", false),
    ],
};

pub(crate) fn borrowed_pieces() -> Session {
    BORROWED_PIECES
}

/// 60 bytes that were pushed into room for 200, and one of which was written over.
const PUSHED: &[Row] = &[
    (Command::Room(0, 200), Answer::Done),
    (Command::Push(0, &[b'a'; 30]), Answer::Done),
    (Command::Push(0, &[b'a'; 30]), Answer::Done),
    (Command::Set(0, 0, 98), Answer::Done),
];

pub(crate) fn pushed() -> &'static [Row] {
    PUSHED
}

const SHRUNK: &[Row] = &[
    (Command::Shrink(0, 0), Answer::Done),
    (Command::Len(0), Answer::Number(60)),
];

pub(crate) fn shrunk() -> &'static [Row] {
    SHRUNK
}

const ROOM_FOR_24: &[Row] = &[(Command::Room(0, 24), Answer::Done)];

pub(crate) fn room_for_24() -> &'static [Row] {
    ROOM_FOR_24
}

const FOUR_PUSHES: &[Row] = &[
    (Command::Push(0, b"x"), Answer::Done),
    (Command::Push(0, b"x"), Answer::Done),
    (Command::Push(0, b"x"), Answer::Done),
    (Command::Push(0, b"x"), Answer::Done),
];

pub(crate) fn four_pushes() -> &'static [Row] {
    FOUR_PUSHES
}

const MANY_BYTES: &[Row] = &[(Command::Len(0), Answer::Number(10_000))];

pub(crate) fn many_bytes() -> &'static [Row] {
    MANY_BYTES
}

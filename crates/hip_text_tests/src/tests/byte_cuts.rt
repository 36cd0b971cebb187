//! Bytes that needn't be UTF-8, taken apart on each backend: what the pieces hold, how they are held, and what they copy. The ranges of
//! more rows are in hip_match_tests.
use super::suite::{OfBackend, run_by_each};
use super::support::{equals, must, must_hold};
use hip_cuts::hip_match::ranges::ByteRanges;
use hip_cuts::{Backend, ByteCuts, BytePieces, Kind, Meter};
use hip_text::HipByt;
use std::alloc::{AllocError, Global};
use std::process::Abort;

/// 60 bytes of two lines, of which the second is no UTF-8.
const LOG: &[u8] = b" GET /a 200 0123456789 0123456789\r\n\xFFET /\x80 404 0123456789 0123\n";

const FIRST: &[u8] = b" GET /a 200 0123456789 0123456789";

const SECOND: &[u8] = b"\xFFET /\x80 404 0123456789 0123";

/// The words of the first line.
const WORDS: &[&[u8]] = &[b"", b"GET", b"/a", b"200", b"0123456789", b"0123456789"];

/// Whether the handle has these bytes.
fn is<B: Backend>(found: Result<HipByt<'_, B>, AllocError>, want: &[u8]) -> bool {
    match found {
        Ok(bytes) => bytes.eq_slice(want),
        Err(_) => false,
    }
}

/// Whether these parts were found.
fn are<B: Backend>(
    found: Result<Option<(HipByt<'_, B>, HipByt<'_, B>)>, AllocError>,
    want: Option<(&[u8], &[u8])>,
) -> bool {
    match (found, want) {
        (Ok(Some((front, back))), Some(want)) => front.eq_slice(want.0) & back.eq_slice(want.1),
        (Ok(None), None) => true,
        _ => false,
    }
}

/// Whether the pieces are these, drawn from the front.
fn gives_from_front<'h, 'b, B: Backend, I: ByteRanges + Drop>(
    mut pieces: BytePieces<'h, HipByt<'b, B>, I>,
    want: &[&[u8]],
) -> bool {
    let mut is_same = true;
    for bytes in want {
        is_same &= match pieces.next() {
            Some(piece) => is(piece, bytes),
            None => false,
        };
    }
    is_same & pieces.next().is_none()
}

/// Like [`gives_from_front`], from the back.
fn gives_from_back<'h, 'b, B: Backend, I: ByteRanges + Drop>(
    mut pieces: BytePieces<'h, HipByt<'b, B>, I>,
    want: &[&[u8]],
) -> bool {
    let mut is_same = true;
    for bytes in want.iter().rev() {
        is_same &= match pieces.next_back() {
            Some(piece) => is(piece, bytes),
            None => false,
        };
    }
    is_same & pieces.next_back().is_none()
}

/// Like [`gives_from_front`], of a vector of them all.
fn collects<'h, 'b, B: Backend, I: ByteRanges + Drop>(
    pieces: BytePieces<'h, HipByt<'b, B>, I>,
    want: &[&[u8]],
) -> bool {
    let Ok(pieces) = pieces.collect() else {
        return false;
    };
    let mut is_same = pieces.len() == want.len();
    for (piece, bytes) in pieces.iter().zip(want.iter()) {
        is_same &= piece.eq_slice(bytes);
    }
    is_same
}

/// The number of pieces of a loop, and of their bytes.
fn counted<'h, 'b, B: Backend, I: ByteRanges + Drop>(
    pieces: BytePieces<'h, HipByt<'b, B>, I>,
) -> Result<(usize, usize), AllocError> {
    let mut count = 0usize;
    let mut len = 0usize;
    for piece in pieces {
        count = count.saturating_add(1);
        len = len.saturating_add(piece?.len());
    }
    Ok((count, len))
}

struct Parts;

impl OfBackend for Parts {
    fn run<B: Backend>(rt: &impl Abort, alloc: Global) {
        let log = must(rt, HipByt::<B>::from_slice(alloc, LOG));
        let lines: &[&[u8]] = &[FIRST, SECOND];
        must_hold(rt, gives_from_front(log.lines(alloc), lines));
        must_hold(rt, gives_from_back(log.lines(alloc), lines));
        must_hold(rt, collects(log.lines(alloc), lines));
        let line = HipByt::<B>::borrowed(FIRST);
        must_hold(rt, gives_from_front(line.split(alloc, b' '), WORDS));
        must_hold(rt, gives_from_back(line.split(alloc, b' '), WORDS));
        must_hold(rt, collects(line.split(alloc, b' '), WORDS));
        equals(rt, &counted(line.split(alloc, b' ')), &Ok((6, 28)));
    }
}

#[test]
fn pieces_of_bytes(rt: HostRuntime) {
    run_by_each::<Parts>(&rt, rt.alloc());
}

struct Ends;

impl OfBackend for Ends {
    fn run<B: Backend>(rt: &impl Abort, alloc: Global) {
        let bytes = must(rt, HipByt::<B>::from_slice(alloc, b"\t \xFF=a=b\r\n"));
        must_hold(rt, is(bytes.trim_ascii(alloc), b"\xFF=a=b"));
        must_hold(rt, is(bytes.trim_ascii_start(alloc), b"\xFF=a=b\r\n"));
        must_hold(rt, is(bytes.trim_ascii_end(alloc), b"\t \xFF=a=b"));
        let first: (&[u8], &[u8]) = (b"\t \xFF", b"a=b\r\n");
        let last: (&[u8], &[u8]) = (b"\t \xFF=a", b"b\r\n");
        must_hold(rt, are(bytes.split_once(alloc, b'='), Some(first)));
        must_hold(rt, are(bytes.rsplit_once(alloc, b'='), Some(last)));
        must_hold(rt, are(bytes.split_once(alloc, b'!'), None));
        must_hold(rt, are(bytes.rsplit_once(alloc, b'!'), None));
    }
}

#[test]
fn trims_and_splits_in_two(rt: HostRuntime) {
    run_by_each::<Ends>(&rt, rt.alloc());
}

/// How the first line of a log is held, and what it copied.
fn first_of<B: Backend>(alloc: Global, log: &HipByt<'_, B>) -> Option<(Kind, u128)> {
    let mut meter = Meter::new();
    let line = log.lines(alloc).next_metered(&mut meter)?.ok()?;
    Some((line.kind(), meter.copied()))
}

struct Costs;

impl OfBackend for Costs {
    fn run<B: Backend>(rt: &impl Abort, alloc: Global) {
        let owned = must(rt, HipByt::<B>::from_slice(alloc, LOG));
        let lent = HipByt::<B>::borrowed(LOG);
        let copied = if B::SHARES { 0 } else { 33 };
        equals(
            rt,
            &first_of(alloc, &owned),
            &Some((Kind::Allocated, copied)),
        );
        equals(rt, &first_of(alloc, &lent), &Some((Kind::Borrowed, 0)));
    }
}

#[test]
fn lines_share_their_bytes(rt: HostRuntime) {
    run_by_each::<Costs>(&rt, rt.alloc());
}

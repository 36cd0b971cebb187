//! Kinds of pieces, and how many bytes are copied for them.
use super::suite::{OfBackend, run_by_each};
use super::support::{must, must_hold};
use hip_cuts::hip_match::ranges::RangesBack;
use hip_cuts::{Backend, HipStr, IterWrapper, Kind, Meter, TextCuts, Unnumbered};
use std::alloc::{AllocError, Global};
use std::process::Abort;

/// The length and the kind of a piece, and how many bytes are copied for it where owners are shared and where not.
#[derive(Clone, Copy)]
struct Seen(usize, Kind, u128, u128);

/// Whether this is seen of a piece and of the meter that it was counted by.
fn is_seen<B: Backend>(
    piece: Option<Result<HipStr<'_, B>, AllocError>>,
    meter: Meter,
    want: Seen,
) -> bool {
    let copied = if B::SHARES { want.2 } else { want.3 };
    match piece {
        Some(Ok(piece)) => {
            (piece.len(), piece.kind(), meter.copied()) == (want.0, want.1, copied)
        }
        _ => false,
    }
}

/// A long field and a short one.
const FIELDS: &str = "aaaaaaaaaaaaaaaaaaaaaaaaaaaaaa,bbbbb";

/// Whether this is seen of the first piece that is left.
fn sees_first<'h, 'b, B: Backend, I: Unnumbered>(
    pieces: &mut IterWrapper<'h, 'b, B, I>,
    want: Seen,
) -> bool {
    let mut meter = Meter::new();
    let piece = pieces.next_metered(&mut meter);
    is_seen(piece, meter, want)
}

/// Whether this is seen of the last piece that is left.
fn sees_last<'h, 'b, B: Backend, I: Unnumbered + RangesBack>(
    pieces: &mut IterWrapper<'h, 'b, B, I>,
    want: Seen,
) -> bool {
    let mut meter = Meter::new();
    let piece = pieces.next_back_metered(&mut meter);
    is_seen(piece, meter, want)
}

/// Whether this is seen of the two fields, drawn from the front.
fn sees<B: Backend>(source: &HipStr<'_, B>, alloc: Global, long: Seen, short: Seen) -> bool {
    let mut fields = source.split(alloc, ',');
    sees_first(&mut fields, long) & sees_first(&mut fields, short)
}

/// Whether this is seen of the two fields, drawn from the back.
fn sees_back<B: Backend>(source: &HipStr<'_, B>, alloc: Global, long: Seen, short: Seen) -> bool {
    let mut fields = source.split(alloc, ',');
    sees_last(&mut fields, short) & sees_last(&mut fields, long)
}

/// Whether this is seen of a match at the comma's place.
fn is_comma<B: Backend>(
    found: Option<(usize, Result<HipStr<'_, B>, AllocError>)>,
    meter: Meter,
    want: Seen,
) -> bool {
    match found {
        Some((at, piece)) => (at == 30) & is_seen(Some(piece), meter, want),
        None => false,
    }
}

/// Whether this is seen of the comma, found from each end.
fn sees_comma<B: Backend>(source: &HipStr<'_, B>, alloc: Global, want: Seen) -> bool {
    let (mut first, mut last) = (Meter::new(), Meter::new());
    let comma = source.match_indices(alloc, ',').next_metered(&mut first);
    let back = source
        .match_indices(alloc, ',')
        .next_back_metered(&mut last);
    is_comma(comma, first, want) & is_comma(back, last, want)
}

/// Whether this is seen of the comma among the matches from the end.
fn sees_comma_back<B: Backend>(source: &HipStr<'_, B>, alloc: Global, want: Seen) -> bool {
    let (mut first, mut last) = (Meter::new(), Meter::new());
    let comma = source.rmatch_indices(alloc, ',').next_metered(&mut first);
    let back = source
        .rmatch_indices(alloc, ',')
        .next_back_metered(&mut last);
    is_comma(comma, first, want) & is_comma(back, last, want)
}

/// Whether this is seen of the rest behind a prefix.
fn sees_rest<B: Backend>(letters: &HipStr<'_, B>, alloc: Global, prefix: &str, want: Seen) -> bool {
    let mut meter = Meter::new();
    match letters.strip_prefix_metered(alloc, prefix, &mut meter) {
        Ok(rest) => is_seen(rest.map(Ok), meter, want),
        Err(_) => false,
    }
}

/// A field of either length, and the comma, of a text that has an owner and of one that is lent.
const LONG: Seen = Seen(30, Kind::Allocated, 0, 30);

const SHORT: Seen = Seen(5, Kind::Inline, 5, 5);

const COMMA: Seen = Seen(1, Kind::Inline, 1, 1);

const LENT_LONG: Seen = Seen(30, Kind::Borrowed, 0, 0);

const LENT_SHORT: Seen = Seen(5, Kind::Borrowed, 0, 0);

const LENT_COMMA: Seen = Seen(1, Kind::Borrowed, 0, 0);

fn on<B: Backend>(rt: &impl Abort, alloc: Global) {
    let owned = must(rt, HipStr::<B>::from_str(alloc, FIELDS));
    let front = sees(&owned, alloc, LONG, SHORT);
    must_hold(rt, front & sees_back(&owned, alloc, LONG, SHORT));
    let comma = sees_comma(&owned, alloc, COMMA);
    must_hold(rt, comma & sees_comma_back(&owned, alloc, COMMA));
}

fn on_lent<B: Backend>(rt: &impl Abort, alloc: Global) {
    let lent = HipStr::<B>::borrowed(FIELDS);
    let front = sees(&lent, alloc, LENT_LONG, LENT_SHORT);
    let back = sees_back(&lent, alloc, LENT_LONG, LENT_SHORT);
    must_hold(rt, front & back & sees_comma(&lent, alloc, LENT_COMMA));
}

fn on_letters<B: Backend>(rt: &impl Abort, alloc: Global) {
    let letters = must(
        rt,
        HipStr::<B>::from_str(alloc, "abcdefghijklmnopqrstuvwxyz"),
    );
    let inline = sees_rest(&letters, alloc, "abc", Seen(23, Kind::Inline, 23, 23));
    let shared = sees_rest(&letters, alloc, "ab", Seen(24, Kind::Allocated, 0, 24));
    must_hold(rt, inline & shared);
}

struct Kinds;

impl OfBackend for Kinds {
    fn run<B: Backend>(rt: &impl Abort, alloc: Global) {
        on_lent::<B>(rt, alloc);
        on::<B>(rt, alloc);
        on_letters::<B>(rt, alloc);
    }
}

#[test]
fn pieces_lie_by_their_source(rt: HostRuntime) {
    run_by_each::<Kinds>(&rt, rt.alloc());
}

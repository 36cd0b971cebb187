//! Pieces that are drawn without a meter, from either end. Each walk's pieces, counted, are those of `hipstr::run` (`ways` of hipstr_tests).
use super::fields::{has_fields, longest_drawn};
use super::suite::{OfBackend, run_by_each};
use super::support::{must, must_hold};
use hip_cuts::hip_match::ranges::RangesBack;
use hip_cuts::{Backend, HipStr, IterWrapper, Rc, TextCuts, Unnumbered};
use std::alloc::{AllocError, Global};
use std::process::Abort;

/// Whether this piece was drawn.
fn is_piece<B: Backend>(drawn: Option<Result<HipStr<'_, B>, AllocError>>, want: &str) -> bool {
    match drawn {
        Some(Ok(piece)) => piece.str_eq(want),
        _ => false,
    }
}

/// Whether this piece is drawn from the front.
fn draws_first<'h, 'b, B: Backend, I: Unnumbered>(
    pieces: &mut IterWrapper<'h, 'b, B, I>,
    want: &str,
) -> bool {
    is_piece(pieces.next(), want)
}

/// Whether the pieces are these texts, from the front, and then none.
pub(crate) fn gives<'h, 'b, B: Backend, I: Unnumbered + Drop>(
    mut pieces: IterWrapper<'h, 'b, B, I>,
    want: &[&str],
) -> bool {
    let mut is_same = true;
    for text in want {
        is_same &= draws_first(&mut pieces, text);
    }
    is_same & pieces.next().is_none()
}

/// Whether this piece is the last.
fn gives_last<'h, 'b, B: Backend, I: Unnumbered + RangesBack + Drop>(
    mut pieces: IterWrapper<'h, 'b, B, I>,
    want: &str,
) -> bool {
    is_piece(pieces.next_back(), want)
}

/// Whether this was drawn, or nothing.
fn is_drawn<B: Backend>(
    drawn: Option<Result<HipStr<'_, B>, AllocError>>,
    want: Option<&str>,
) -> bool {
    match want {
        Some(want) => is_piece(drawn, want),
        None => drawn.is_none(),
    }
}

/// Whether this is drawn from that end, or nothing.
fn draws_at<'h, 'b, B: Backend, I: Unnumbered + RangesBack + Drop>(
    pieces: &mut IterWrapper<'h, 'b, B, I>,
    is_back: bool,
    want: Option<&str>,
) -> bool {
    if is_back {
        is_drawn(pieces.next_back(), want)
    } else {
        is_drawn(pieces.next(), want)
    }
}

/// The text at that end.
fn at_end(texts: &[&'static str], is_back: bool) -> Option<&'static str> {
    if is_back {
        texts.last().copied()
    } else {
        texts.first().copied()
    }
}

/// The texts but that at that end.
fn without_end<'t>(texts: &'t [&'static str], is_back: bool) -> &'t [&'static str] {
    match texts {
        [rest @ .., _] if is_back => rest,
        [_, rest @ ..] => rest,
        [] => texts,
    }
}

/// Whether the script, a bit for each end, draws these pieces, and none again and again once none is left. It is gone through twice.
fn follows<'h, 'b, B: Backend, I: Unnumbered + RangesBack + Drop>(
    mut pieces: IterWrapper<'h, 'b, B, I>,
    script: u8,
    mut left: &[&'static str],
) -> bool {
    let mut is_same = true;
    for step in [1u8, 2, 4, 8, 16, 32, 1, 2, 4, 8, 16, 32] {
        let is_back = script & step != 0;
        is_same &= draws_at(&mut pieces, is_back, at_end(left, is_back));
        left = without_end(left, is_back);
    }
    is_same
}

/// Whether every script of six ends draws the pieces of a copied text.
fn follows_all<B: Backend>(rt: &impl Abort, alloc: Global) -> bool {
    let source = must(rt, HipStr::<B>::from_str(alloc, "a,b,c,d"));
    let mut is_same = true;
    for script in 0..64 {
        is_same &= follows(source.split(alloc, ','), script, &["a", "b", "c", "d"]);
    }
    is_same
}

fn draws<B: Backend>(alloc: Global) -> bool {
    let source = HipStr::<B>::borrowed("a,bc,,é");
    gives(source.split(alloc, ','), &["a", "bc", "", "é"])
        & gives_last(source.split(alloc, ','), "é")
}

fn reads_fields(alloc: Global) -> bool {
    let line = HipStr::<Rc>::borrowed("a,bcd,,é");
    (longest_drawn(&line, alloc) == 3)
        & (has_fields(&line, 4, alloc) == Ok(true))
        & (has_fields(&line, 3, alloc) == Ok(false))
}

struct Pieces;

impl OfBackend for Pieces {
    fn run<B: Backend>(rt: &impl Abort, alloc: Global) {
        must_hold(rt, draws::<B>(alloc) & follows_all::<B>(rt, alloc));
    }
}

#[test]
fn pieces_are_drawn_from_either_end(rt: HostRuntime) {
    run_by_each::<Pieces>(&rt, rt.alloc());
    must_hold(&rt, reads_fields(rt.alloc()));
}

//! Walks over the pieces of a text. One that is refused is an error, and has been passed: those behind it are given.
use super::held::{EACH_HELD, Held, PART, TEXT, text_of};
use super::refusing::{each, equals, is_refusing, must, refuse, was_refused};
use hipstr::pattern::{Indices, Ranges, RangesBack, Split};
use hipstr::string::{HipStr, IterWrapper, PiecesAt, TextCuts, Unnumbered, Walk as PieceWalk};
use hipstr::{Backend, Rc, Unique};
use std::alloc::{AllocError, Global};
use std::process::Abort;

/// A walk. All walks draw by a few bodies, and these are some of each; each way to take a text apart is a command too, in `lists`.
#[derive(Clone, Copy)]
enum Walk {
    Split,
    SplitFromBack,
    RSplit,
    Matches,
    Lines,
    Placed(Placed),
}

/// A walk whose pieces have their places.
#[derive(Clone, Copy)]
enum Placed {
    MatchIndices,
    RmatchIndices,
    PiecesAt,
}

const WALKS: &[Walk] = &[
    Walk::Split,
    Walk::SplitFromBack,
    Walk::RSplit,
    Walk::Matches,
    Walk::Lines,
    Walk::Placed(Placed::MatchIndices),
    Walk::Placed(Placed::RmatchIndices),
    Walk::Placed(Placed::PiecesAt),
];

/// The number of items that a walk gave, and of those that were errors.
#[derive(Clone, Copy)]
struct Tally {
    items: usize,
    errors: usize,
}

impl Tally {
    fn none() -> Self {
        Tally {
            items: 0,
            errors: 0,
        }
    }

    /// Counts an item.
    fn count<T: Drop>(&mut self, item: Result<T, AllocError>) {
        self.items = self.items.saturating_add(1);
        if item.is_err() {
            self.errors = self.errors.saturating_add(1);
        }
    }
}

fn given<'h, 'b, B: Backend, I: Unnumbered + Drop>(pieces: IterWrapper<'h, 'b, B, I>) -> Tally {
    let mut tally = Tally::none();
    for piece in pieces {
        tally.count(piece);
    }
    tally
}

/// Like [`given`], from the back, of a walk of fewer than ten pieces.
fn given_from_back<'h, 'b, B: Backend, I: Unnumbered + RangesBack + Drop>(
    pieces: IterWrapper<'h, 'b, B, I>,
) -> Tally {
    let mut pieces = pieces;
    let mut tally = Tally::none();
    for _ in 0..10 {
        match pieces.next_back() {
            Some(piece) => tally.count(piece),
            None => return tally,
        }
    }
    tally
}

/// Like [`given`], of matches with their places. It names their type, since each call of one that took any iterator would be dear to prove.
fn given_with_places<'h, 'b, B: Backend, I: Ranges + Drop>(
    matches: IterWrapper<'h, 'b, B, Indices<I>>,
) -> Tally {
    let mut tally = Tally::none();
    for (_, piece) in matches {
        tally.count(piece);
    }
    tally
}

/// Like [`given_with_places`], of pieces that lie between matches.
fn given_at_places<'h, 'b, B: Backend, I: Ranges + Drop>(
    pieces: PiecesAt<'h, HipStr<'b, B>, I>,
) -> Tally
    requires { ⟦<PiecesAt<'h, HipStr<'b, B>, I> as PieceWalk>⟧.ready pieces }
{
    let mut tally = Tally::none();
    for (_, piece) in pieces {
        tally.count(piece);
    }
    tally
}

fn walked<B: Backend>(text: &HipStr<'_, B>, alloc: Global, walk: Walk) -> Tally {
    match walk {
        Walk::Split => given(text.split(alloc, ',')),
        Walk::SplitFromBack => given_from_back(text.split(alloc, ',')),
        Walk::RSplit => given(text.rsplit(alloc, ',')),
        Walk::Matches => given(text.matches(alloc, PART)),
        Walk::Lines => given(text.lines(alloc)),
        Walk::Placed(placed) => walked_with_places(text, alloc, placed),
    }
}

fn walked_with_places<B: Backend>(text: &HipStr<'_, B>, alloc: Global, placed: Placed) -> Tally {
    match placed {
        Placed::MatchIndices => given_with_places(text.match_indices(alloc, PART)),
        Placed::RmatchIndices => given_with_places(text.rmatch_indices(alloc, PART)),
        Placed::PiecesAt => {
            given_at_places(text.pieces_at(alloc, Split::new(text.as_str(), ',')))
        }
    }
}

/// The letters of a text that is held so.
fn letters(held: Held) -> &'static str {
    match held {
        Held::Inline => " a,",
        Held::Lent | Held::Sole | Held::Shared => TEXT,
    }
}

/// As many items are given whatever is refused, and one of them is an error where a request was.
fn is_walked<B: Backend>(rt: &impl Abort, alloc: Global, held: Held, walk: Walk, k: usize) -> bool {
    let (text, _clone) = text_of::<B>(rt, alloc, held, letters(held));
    let wanted = walked(&text, alloc, walk);
    refuse(alloc, k);
    let given = walked(&text, alloc, walk);
    let refused = was_refused(alloc);
    equals(
        rt,
        &(wanted.errors, given.items, given.errors),
        &(0, wanted.items, refused as usize),
    );
    refused
}

/// Pieces allocate where owners aren't shared, and there alone.
fn are_walked<B: Backend>(rt: &impl Abort, alloc: Global, i: usize, walk: Walk) {
    let mut refusals = 0usize;
    for held in EACH_HELD {
        let met = each(|k| is_walked::<B>(rt, alloc, *held, walk, k));
        refusals = refusals.saturating_add(met);
    }
    let takes_memory = !B::SHARES && is_refusing(alloc);
    equals(rt, &(i, refusals > 0), &(i, takes_memory));
}

fn all_are_walked<B: Backend>(rt: &impl Abort, alloc: Global) {
    for (i, walk) in WALKS.iter().enumerate() {
        are_walked::<B>(rt, alloc, i, *walk);
    }
}

#[test]
fn walks_where_nothing_is_shared(rt: HostRuntime) {
    all_are_walked::<Unique>(&rt, rt.alloc());
}

#[test]
fn walks_where_owners_are_shared_take_none(rt: HostRuntime) {
    all_are_walked::<Rc>(&rt, rt.alloc());
}

/// The three parts between commas.
const PIECES: [&str; 3] = [
    "aaaaaaaaaaaaaaaaaaaaaaaaaaaaaa",
    "bbbbbbbbbbbbbbbbbbbbbbbbbbbbbb",
    "cccccccccccccccccccccccccccccc",
];

const LINE: &str =
    "aaaaaaaaaaaaaaaaaaaaaaaaaaaaaa,bbbbbbbbbbbbbbbbbbbbbbbbbbbbbb,cccccccccccccccccccccccccccccc";

/// Whether the next item is the `i`-th piece, or an error. Another piece is neither.
fn draw<'h, 'b, B: Backend, I: Unnumbered>(
    pieces: &mut IterWrapper<'h, 'b, B, I>,
    i: usize,
) -> Option<bool> {
    let text = PIECES.get(i).copied().unwrap_or_default();
    match pieces.next()? {
        Ok(piece) => piece.str_eq(text).then_some(true),
        Err(_) => Some(false),
    }
}

/// The `k`-th request is for the `k`-th piece, and the piece after it is the next.
fn is_passed(rt: &impl Abort, alloc: Global, k: usize) -> bool {
    let text = must(rt, HipStr::<Unique>::from_str(alloc, LINE));
    let mut pieces = text.split(alloc, ',');
    refuse(alloc, k);
    let first = draw(&mut pieces, 0);
    let second = draw(&mut pieces, 1);
    let third = draw(&mut pieces, 2);
    let refused = was_refused(alloc);
    equals(
        rt,
        &(first, second, third, pieces.next().is_none()),
        &(
            Some(!refused | (k != 1)),
            Some(!refused | (k != 2)),
            Some(!refused | (k != 3)),
            true,
        ),
    );
    refused
}

#[test]
fn refused_piece_is_passed(rt: HostRuntime) {
    let met = each(|k| is_passed(&rt, rt.alloc(), k));
    let wanted = if is_refusing(rt.alloc()) { 3 } else { 0 };
    equals(&rt, &met, &wanted);
}

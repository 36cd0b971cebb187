//! Patterns that are closures.
ghost use Rattle.std.specs.Prelude.{◌≡◌, ◌==◌, ℕ};
ghost use Rattle.std.specs.Char.{IsScalar, is_ascii_digit};
ghost use Rattle.std.specs.Iterator.{IsFinite};
ghost use Rattle.hip_match.specs.Answers.{answer_at};

use super::places::{draws_digits, draws_digits_back};
use super::suite::{OfBackend, run_by_each};
use super::support::{equals, must, must_hold};
use super::walks::gives;
use hip_cuts::hip_match::chosen::Chosen;
use hip_cuts::hip_match::pattern::Pattern;
use hip_cuts::hip_match::predicate::{CharPred, choose_by};
use hip_cuts::hip_match::ranges::Ranges;
use hip_cuts::hip_match::split::Split;
use hip_cuts::{Backend, HipStr, PiecesAt, Rc, TextCuts, Walk};
use std::alloc::{AllocError, Global};
use std::process::Abort;

/// Answers by which the digits pass.
fn chosen_digits() -> Chosen
    ensures { (c : ℕ) → IsScalar c → answer_at result.answers c ≡ is_ascii_digit c }
{
    choose_by(&())
}

/// Answers by which `wanted` alone passes.
pub(crate) fn chosen_for(wanted: char) -> Chosen
    ensures { (c : ℕ) → IsScalar c → answer_at result.answers c ≡ (c == wanted) }
{
    choose_by(&wanted)
}

/// Whether the parts between the digits are these.
fn splits_by<B: Backend, P: Pattern>(alloc: Global, pattern: P) -> bool
    requires { P.can_search pattern }
{
    let source = HipStr::<B>::borrowed("a1b22c");
    gives(source.split(alloc, pattern), &["a", "b", "", "c"])
}

fn splits<B: Backend>(alloc: Global) -> bool {
    let pattern = CharPred::with(|c| c.is_ascii_digit(), chosen_digits());
    splits_by::<B, _>(alloc, pattern)
}

/// The places of the pieces that are left, as the digits of a number.
pub(crate) fn places_of<'h, 'b, I: Ranges + Drop>(
    rt: &impl Abort,
    pieces: PiecesAt<'h, HipStr<'b, Rc>, I>,
) -> u64
    requires { ⟦<PiecesAt<'h, HipStr<'b, Rc>, I> as Walk>⟧.ready pieces }
{
    let mut seen = 0u64;
    for (place, piece) in pieces {
        drop(must(rt, piece));
        seen = seen.wrapping_mul(10).wrapping_add(place as u64);
    }
    seen
}

/// The places of the parts between digits.
fn places(rt: &impl Abort, alloc: Global) -> u64 {
    let source = HipStr::<Rc>::borrowed("a1b22c");
    let pattern = CharPred::with(|c| c.is_ascii_digit(), chosen_digits());
    places_of(
        rt,
        source.pieces_at(alloc, Split::new(source.as_str(), pattern)),
    )
}

/// Like [`places_of`], from the back. It takes any iterator, since `rev` of a named one is dear to prove.
fn places_back_of<T: Drop, I: DoubleEndedIterator<Item = (usize, Result<T, AllocError>)> + Drop>(
    rt: &impl Abort,
    pieces: I,
) -> u64
    requires { I.can_next_back pieces × IsFinite (I.remaining pieces) }
{
    let mut seen = 0u64;
    for (place, part) in pieces.rev() {
        drop(must(rt, part));
        seen = seen.wrapping_mul(10).wrapping_add(place as u64);
    }
    seen
}

fn places_back(rt: &impl Abort, alloc: Global) -> u64 {
    let source = HipStr::<Rc>::borrowed("a1b22c");
    let pattern = CharPred::with(|c| c.is_ascii_digit(), chosen_digits());
    places_back_of(
        rt,
        source.pieces_at(alloc, Split::new(source.as_str(), pattern)),
    )
}

fn goes(rt: &impl Abort, alloc: Global) {
    equals(
        rt,
        &(places(rt, alloc), places_back(rt, alloc)),
        &(245, 5420),
    );
}

fn finds<B: Backend>(alloc: Global) -> bool {
    let pattern = CharPred::with(|c| c.is_ascii_digit(), chosen_digits());
    let from_the_end = CharPred::with(|c| c.is_ascii_digit(), chosen_digits());
    draws_digits::<B, _>(alloc, pattern) & draws_digits_back::<B, _>(alloc, from_the_end)
}

struct Closures;

impl OfBackend for Closures {
    fn run<B: Backend>(rt: &impl Abort, alloc: Global) {
        must_hold(rt, splits::<B>(alloc) & finds::<B>(alloc));
    }
}

#[test]
fn closures_are_patterns(rt: HostRuntime) {
    run_by_each::<Closures>(&rt, rt.alloc());
    goes(&rt, rt.alloc());
}

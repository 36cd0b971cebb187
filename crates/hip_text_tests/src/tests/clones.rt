//! Clones of walks that have given their first piece: they and the walks themselves give the same rest. The texts are lent, so no owner is
//! met, and one backend does.
use super::closures::{chosen_for, places_of};
use super::places::is_match;
use super::support::{must, must_hold};
use super::walks::gives;
use hip_cuts::hip_match::indices::MatchIndices;
use hip_cuts::hip_match::predicate::CharPred;
use hip_cuts::hip_match::split::Split;
use hip_cuts::{HipStr, IterWrapper, Rc, TextCuts};
use std::alloc::{AllocError, Global};
use std::process::Abort;

const TEXT: &str = "a,b,c";

fn by_a_character(rt: &impl Abort, alloc: Global) -> bool {
    let source = HipStr::<Rc>::borrowed(TEXT);
    let mut pieces = source.split(alloc, ',');
    drop(pieces.next());
    let copy = must(rt, pieces.clone());
    gives(copy, &["b", "c"]) & gives(pieces, &["b", "c"])
}

/// Whether a walk by a closure and its clone, made before a piece is drawn, give the same.
fn by_a_closure(rt: &impl Abort, alloc: Global, wanted: char) -> Result<bool, AllocError> {
    let source = HipStr::<Rc>::borrowed(TEXT);
    let pattern = CharPred::with(|c| c == wanted, chosen_for(wanted));
    let pieces = source.pieces_at(alloc, Split::new(source.as_str(), pattern));
    let copy = pieces.clone()?;
    Ok((places_of(rt, copy) == 24) & (places_of(rt, pieces) == 24))
}

/// Whether the second comma is what is left.
fn gives_second<'h, 'b>(mut matches: IterWrapper<'h, 'b, Rc, MatchIndices<'h, char>>) -> bool {
    is_match(matches.next(), Some(3), ",") & is_match(matches.next(), None, "")
}

fn of_places(rt: &impl Abort, alloc: Global) -> bool {
    let source = HipStr::<Rc>::borrowed(TEXT);
    let mut matches = source.match_indices(alloc, ',');
    drop(matches.next());
    let copy = must(rt, matches.clone());
    gives_second(copy) & gives_second(matches)
}

#[test]
fn give_the_same_rest(rt: HostRuntime) {
    let alloc = rt.alloc();
    must_hold(&rt, by_a_character(&rt, alloc));
    must_hold(&rt, must(&rt, by_a_closure(&rt, alloc, ',')));
    must_hold(&rt, of_places(&rt, alloc));
}

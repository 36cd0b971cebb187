//! Patterns that are closures.
ghost use Rattle.std.specs.Prelude.{◌≡◌, ◌≤◌, ◌==◌, ℕ, length};
ghost use Rattle.std.specs.Char.{IsScalar};
ghost use Rattle.hip_match.specs.Answers.{answer_at};

use super::cuts::{cuts, once, trims};
use super::each_way::{
    Drawn, TEXT, each_cut, each_drawn, each_turn, each_walk, matches_by_turns, searches,
    tests_at_a_place,
};
use super::support::equals;
use super::walks::{draws, gives, walk_by_script, walks};
use hip_match::chosen::Chosen;
use hip_match::draw::{End, draw_into};
use hip_match::predicate::{CharPred, choose_by};
use hip_match::split::Split;
use hip_match::trim::trim_matches;
use std::process::Abort;
use std::test::Fail;

// Draws the pieces between digits by the script into `drawn`.
fn between_digits(text: &str, script: &[End], drawn: &mut [(usize, usize)]) -> usize
    requires { length script.now ≤ length drawn.old }
{
    let mut pieces = Split::new(text, CharPred::new(|c| c.is_ascii_digit()));
    draw_into(&mut pieces, script, drawn)
}

// Draws the pieces between characters `wanted` by the script into `drawn`.
fn between_wanted(text: &str, wanted: char, script: &[End], drawn: &mut [(usize, usize)]) -> usize
    requires { length script.now ≤ length drawn.old }
{
    let mut pieces = Split::new(text, CharPred::new(|c| c == wanted));
    draw_into(&mut pieces, script, drawn)
}

// The text without the characters `wanted` at its ends.
fn without_wanted(text: &str, wanted: char) -> (usize, usize) {
    trim_matches(text, CharPred::new(|c| c == wanted))
}

#[test]
fn closure_of_digits(rt: HostRuntime) {
    let mut drawn = [(9, 9); 5];
    equals(
        &rt,
        &between_digits("a1b22c", &[End::Front; 5], &mut drawn),
        &4,
    );
    equals(
        &rt,
        &drawn.as_slice(),
        &[(0, 1), (2, 3), (4, 4), (5, 6), (9, 9)].as_slice(),
    );
}

/// A character, and the pieces between its places in `é,a,é`, drawn from the front and the back in turn.
#[derive(Clone, Copy)]
struct Pieces(char, &'static [(usize, usize)]);

const PIECES: &[Pieces] = &[
    Pieces(',', &[(0, 2), (5, 7), (3, 4), (9, 9)]),
    Pieces('é', &[(0, 0), (7, 7), (2, 5), (9, 9)]),
];

#[test]
fn capturing_closure(rt: HostRuntime) {
    let script = [End::Front, End::Back, End::Front, End::Back];
    for Pieces(wanted, want) in PIECES {
        let mut drawn = [(9, 9); 4];
        equals(
            &rt,
            &between_wanted("é,a,é", *wanted, &script, &mut drawn),
            &3,
        );
        equals(&rt, &drawn.as_slice(), &(*want));
    }
    equals(
        &rt,
        &(without_wanted("é,a,é", 'é'), without_wanted("é,a,é", ',')),
        &((2, 5), (0, 7)),
    );
}

// Answers by which `wanted` alone passes.
fn chosen_for(wanted: char) -> Chosen
    ensures { (c : ℕ) → IsScalar c → answer_at result.answers c ≡ (c == wanted) }
{
    choose_by(&wanted)
}

// A clone of an iterator by a closure that holds a character.
fn clone_of(rt: &impl Abort, wanted: char) -> Result<(), Fail> {
    let pattern = CharPred::with(|c| c == wanted, chosen_for(wanted));
    let pieces = Split::new("-ab-c", pattern);
    gives(rt, "-ab-c", pieces.clone()?, &["", "ab", "c"]);
    Ok(())
}

#[test]
fn cloned(rt: HostRuntime) -> Result<(), Fail> {
    clone_of(&rt, '-')
}

#[test]
fn where_types_are_open(rt: HostRuntime) {
    let text = "-ab-c";
    for wanted in ['-', 'b'] {
        let pieces = Split::new(text, CharPred::with(|c| c == wanted, chosen_for(wanted)));
        if wanted == '-' {
            draws(&rt, text, pieces, "BFF", &["c", "", "ab"]);
        } else {
            draws(&rt, text, pieces, "BF", &["-c", "-a"]);
        }
    }
}

fn walks_of(rt: &impl Abort, wanted: char) {
    for (kind, want) in each_walk() {
        let pattern = CharPred::with(|c| c == wanted, chosen_for(wanted));
        walks(rt, *kind, TEXT, pattern, want);
    }
}

fn scripts_of(rt: &impl Abort, wanted: char) {
    for Drawn(kind, script, want) in each_drawn() {
        let pattern = CharPred::with(|c| c == wanted, chosen_for(wanted));
        walk_by_script(rt, *kind, TEXT, pattern, script, want);
    }
}

fn cuts_of(rt: &impl Abort, wanted: char) {
    for (kind, want) in each_cut() {
        let pattern = CharPred::with(|c| c == wanted, chosen_for(wanted));
        cuts(rt, *kind, TEXT, pattern, Some(*want));
    }
}

fn once_of(rt: &impl Abort, wanted: char) {
    let first = Some(((0, 0), (2, 10)));
    let last = Some(((0, 8), (10, 10)));
    for (from_end, want) in [(false, first), (true, last)] {
        let pattern = CharPred::with(|c| c == wanted, chosen_for(wanted));
        once(rt, from_end, TEXT, pattern, want);
    }
}

fn places_of(rt: &impl Abort, wanted: char) {
    let pattern = CharPred::with(|c| c == wanted, chosen_for(wanted));
    searches(rt, &pattern);
    tests_at_a_place(rt, &pattern);
    trims(rt, TEXT, pattern, "aéb");
}

fn matches_of(rt: &impl Abort, wanted: char) {
    for (kind, want) in each_turn() {
        let pattern = CharPred::with(|c| c == wanted, chosen_for(wanted));
        matches_by_turns(rt, *kind, pattern, want);
    }
}

#[test]
fn each_way(rt: HostRuntime) {
    walks_of(&rt, 'é');
    scripts_of(&rt, 'é');
    cuts_of(&rt, 'é');
    once_of(&rt, 'é');
    places_of(&rt, 'é');
    matches_of(&rt, 'é');
}

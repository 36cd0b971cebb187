//! Tokens: a source is cut into the longest runs of one class, each a part of the source at its place.
ghost use Rattle.std.specs.Prelude.{◌≡◌, ℕ, ◌↔◌, ◌*◌, ◌<◌, ◌≤◌, length, slice_index, true, All, IfOk, IsTrue};
ghost use Rattle.std.specs.List.{flat_map};
ghost use Rattle.std.specs.Str.{IsCharBoundary};
ghost use Rattle.hipstr.specs.Meter.{RisesAtMost};
ghost use Rattle.hip_uses.specs.Token.{AreAdjacent, IsClassRun, IsTokenOf, token_bytes, class_of};
ghost use Rattle.hip_uses.specs.Turns.{TurnsAhead};

use crate::tokens::turns::Turns;
use hipstr::laws::one_part_copies_little;
use hipstr::string::HipStr;
use hipstr::{Backend, Meter};
use std::alloc::{AllocError, Global};

mod turns;

/// The class of a character. One that isn't ASCII belongs to a word.
#[derive(Clone, Copy, Debug, PartialEq, Eq)]
pub enum Class {
    Word,
    Digits,
    Space,
    Mark,
}

#[derive(Drop)]
pub struct Token<'b, B: Backend> {
    pub class: Class,
    /// Where it begins in the source.
    pub start: usize,
    pub text: HipStr<'b, B>,
}

const W: Class = Class::Word;

const D: Class = Class::Digits;

const S: Class = Class::Space;

const M: Class = Class::Mark;

/// The class of each byte.
const CLASSES: &[Class; 256] = &[
    M, M, M, M, M, M, M, M, M, S, S, M, S, S, M, M, M, M, M, M, M, M, M, M, M, M, M, M, M, M, M, M,
    S, M, M, M, M, M, M, M, M, M, M, M, M, M, M, M, D, D, D, D, D, D, D, D, D, D, M, M, M, M, M, M,
    M, W, W, W, W, W, W, W, W, W, W, W, W, W, W, W, W, W, W, W, W, W, W, W, W, W, W, M, M, M, M, W,
    M, W, W, W, W, W, W, W, W, W, W, W, W, W, W, W, W, W, W, W, W, W, W, W, W, W, W, M, M, M, M, M,
    W, W, W, W, W, W, W, W, W, W, W, W, W, W, W, W, W, W, W, W, W, W, W, W, W, W, W, W, W, W, W, W,
    W, W, W, W, W, W, W, W, W, W, W, W, W, W, W, W, W, W, W, W, W, W, W, W, W, W, W, W, W, W, W, W,
    W, W, W, W, W, W, W, W, W, W, W, W, W, W, W, W, W, W, W, W, W, W, W, W, W, W, W, W, W, W, W, W,
    W, W, W, W, W, W, W, W, W, W, W, W, W, W, W, W, W, W, W, W, W, W, W, W, W, W, W, W, W, W, W, W,
];

#[inline]
fn class_of(byte: u8) -> Class
    ensures { result ≡ class_of byte }
{
    CLASSES[byte as usize]
}

fn is_of(byte: u8, class: Class) -> bool
    ensures { IsTrue result ↔ (class_of byte ≡ class) }
{
    class_of(byte) == class
}

/// Where the run that begins at `start` ends, whose bytes up to `from` are of its class.
fn run_end(text: &str, start: usize, from: usize, class: Class) -> usize
    requires bound { (start < from) × (from ≤ length text.now) }
    requires class { (k : ℕ) → start ≤ k → k < from
        → class_of (slice_index text.now k) ≡ class }
    ensures run { IsClassRun text.now class start result }
    ensures boundary { IsCharBoundary text.now result }
    ensures behind { from ≤ result }
{
    let bytes = text.as_bytes();
    let mut end = from;
    while end < bytes.len() && is_of(bytes[end], class) {
        end += 1;
    }
    end
}

/// Like `run_end`, but takes the end from `turns` while 64 bytes are left.
#[inline(always)]
fn next_end(text: &str, start: usize, class: Class, turns: &mut Turns) -> usize
    requires bound { start < length text.now }
    requires class { class_of (slice_index text.now start) ≡ class }
    requires ahead { TurnsAhead text.now start turns.old.upto turns.old.turns }
    ensures run { IsClassRun text.now class start result }
    ensures boundary { IsCharBoundary text.now result }
    ensures ahead { TurnsAhead text.now result turns.new.upto turns.new.turns }
{
    match turns.next(text.as_bytes(), start) {
        Some(last) => last + 1,
        None => run_end(text, start, turns.upto.max(start + 1), class),
    }
}

/// The tokens of a source.
pub fn tokens<'b, B: Backend>(
    alloc: Global,
    source: &HipStr<'b, B>,
) -> Result<Vec<Token<'b, B>>, AllocError>
    ensures joined { IfOk result (λ tokens. flat_map token_bytes tokens.items ≡ source.now.items) }
    ensures each { IfOk result (λ tokens. All (IsTokenOf source.now) tokens.items) }
    ensures places { IfOk result (λ tokens. AreAdjacent 0 tokens.items (length source.now.items)) }
{
    tokens_metered(alloc, source, &mut Meter::new())
}

/// [`tokens`], counted. Where owners are shared, each copies at most the 23 bytes that a handle holds in itself.
pub fn tokens_metered<'b, B: Backend>(
    alloc: Global,
    source: &HipStr<'b, B>,
    meter: &mut Meter,
) -> Result<Vec<Token<'b, B>>, AllocError>
    ensures joined { IfOk result (λ tokens. flat_map token_bytes tokens.items ≡ source.now.items) }
    ensures each { IfOk result (λ tokens. All (IsTokenOf source.now) tokens.items) }
    ensures places { IfOk result (λ tokens. AreAdjacent 0 tokens.items (length source.now.items)) }
    ensures shared { B.SHARES ≡ true → IfOk result (λ tokens.
        RisesAtMost meter.old meter.new (23 * length tokens.items)) }
{
    one_part_copies_little::<B>();
    let whole = source.as_str();
    let mut turns = Turns::new(whole.as_bytes());
    let mut tokens = Vec::new(alloc);
    let mut start = 0;
    while start < whole.len() {
        let class = class_of(whole.as_bytes()[start]);
        let end = next_end(whole, start, class, &mut turns);
        let text = source.part_metered(alloc, start, end, meter)?;
        tokens.push(Token { class, start, text })?;
        start = end;
    }
    Ok(tokens)
}

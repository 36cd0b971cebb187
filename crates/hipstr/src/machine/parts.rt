//! Pieces that a script draws, made in slots that are empty.
ghost use Rattle.std.specs.Prelude.{◌≡◌, ◌<◌, ◌&&◌, Bool, true, false, length, map, replicate, slice_set};
ghost use Rattle.hip_match.specs.Draw.{draw};
ghost use Rattle.hip_match.specs.declared.draw.End.{End};
ghost use Rattle.hipstr.specs.Cut.{has_back, has_one_end, occurrences, pieces_of};
ghost use Rattle.hipstr.specs.Parts.{DrawsPart, HasRoom, MakesParts};
ghost use Rattle.hipstr.specs.Ways.{goes_one_way, is_counted, pieces_by, pieces_walked, walked_of, walks_one_way};
ghost use Rattle.hipstr.specs.Slot.{state_of, empty_slot};

use crate::command::{How, Pat};
use crate::pool::Slot;
use hip_bytes::{Backend, Meter};
use hip_cuts::{IterWrapper, TextCuts, Unnumbered};
use hip_match::draw::End;
use hip_match::pattern::{OneChar, ReversePattern};
use hip_match::ranges::RangesBack;
use hip_text::HipStr;
use std::alloc::{AllocError, Global};

/// Makes the pieces that a script draws of a text in empty slots and answers their number. Where one is refused, all are empty again.
pub(super) fn make_parts<'b, B: Backend>(
    alloc: Global,
    text: &HipStr<'b, B>,
    how: How<'b>,
    script: &[End],
    spare: &mut [Slot<'b, B>],
    meter: &mut Meter,
) -> Result<usize, AllocError>
    requires ends { (has_one_end how && has_back script.now) ≡ false }
    requires room { HasRoom script.now (map state_of spare.old) }
    ensures { MakesParts B.SHARES text.now (draw (pieces_of how.entry text.now.items) script.now)
        (map state_of spare.old) result (map state_of spare.new) meter.old meter.new }
{
    make_walked(alloc, text, walked_of(how), script, spare, meter)
}

/// A walk: over the parts by a pattern, or over those by white space.
#[derive(Clone, Copy)]
enum Walked<'b> {
    By(Way, Pat<'b>),
    Lines,
    Words,
    AsciiWords,
}

/// The walk of a way to take a text apart.
fn walked_of(how: How<'_>) -> Walked<'_>
    ensures { result ≡ walked_of how.entry }
{
    match how {
        How::Split(pattern) => Walked::By(Way::Split, pattern),
        How::Inclusive(pattern) => Walked::By(Way::Inclusive, pattern),
        How::Terminator(pattern) => Walked::By(Way::Terminator, pattern),
        How::SplitN(count, pattern) => Walked::By(Way::SplitN(count), pattern),
        How::Matches(pattern) => Walked::By(Way::Matches, pattern),
        How::RSplit(pattern) => Walked::By(Way::RSplit, pattern),
        How::RTerminator(pattern) => Walked::By(Way::RTerminator, pattern),
        How::RSplitN(count, pattern) => Walked::By(Way::RSplitN(count), pattern),
        How::RMatches(pattern) => Walked::By(Way::RMatches, pattern),
        How::Lines => Walked::Lines,
        How::Words => Walked::Words,
        How::AsciiWords => Walked::AsciiWords,
    }
}

/// Makes the pieces of what is walked over.
fn make_walked<'b, B: Backend>(
    alloc: Global,
    text: &HipStr<'b, B>,
    walked: Walked<'b>,
    script: &[End],
    spare: &mut [Slot<'b, B>],
    meter: &mut Meter,
) -> Result<usize, AllocError>
    requires ends { (walks_one_way walked && has_back script.now) ≡ false }
    requires room { HasRoom script.now (map state_of spare.old) }
    ensures { MakesParts B.SHARES text.now
        (draw (pieces_walked walked.entry text.now.items) script.now)
        (map state_of spare.old) result (map state_of spare.new) meter.old meter.new }
{
    match walked {
        Walked::By(way, pattern) => make_by(alloc, text, way, pattern, script, spare, meter),
        Walked::Lines => make_both(text.lines(alloc), script, spare, meter),
        Walked::Words => make_both(text.split_whitespace(alloc), script, spare, meter),
        Walked::AsciiWords => make_both(text.split_ascii_whitespace(alloc), script, spare, meter),
    }
}

/// A way to take a text apart by a pattern.
#[derive(Clone, Copy)]
enum Way {
    Split,
    Inclusive,
    Terminator,
    SplitN(usize),
    Matches,
    RSplit,
    RTerminator,
    RSplitN(usize),
    RMatches,
}

/// Makes the pieces by a pattern, in one of its ways.
fn make_by<'b, B: Backend>(
    alloc: Global,
    text: &HipStr<'b, B>,
    way: Way,
    pattern: Pat<'b>,
    script: &[End],
    spare: &mut [Slot<'b, B>],
    meter: &mut Meter,
) -> Result<usize, AllocError>
    requires ends { (goes_one_way way pattern && has_back script.now) ≡ false }
    requires room { HasRoom script.now (map state_of spare.old) }
    ensures { MakesParts B.SHARES text.now
        (draw (pieces_by way (occurrences pattern.entry text.now.items) (length text.now.items))
        script.now) (map state_of spare.old) result (map state_of spare.new) meter.old meter.new }
{
    match pattern {
        Pat::Text(pattern) => make_by_front(alloc, text, way, pattern, script, spare, meter),
        Pat::Char(c) => make_by_both(alloc, text, way, c, script, spare, meter),
        Pat::Set(set) => make_by_both(alloc, text, way, set, script, spare, meter),
    }
}

/// Makes pieces by any pattern, drawn from the front alone.
fn make_by_front<'b, B: Backend, P: ReversePattern>(
    alloc: Global,
    text: &HipStr<'b, B>,
    way: Way,
    pattern: P,
    script: &[End],
    spare: &mut [Slot<'b, B>],
    meter: &mut Meter,
) -> Result<usize, AllocError>
    requires search { P.can_search pattern }
    requires front { has_back script.now ≡ false }
    requires room { HasRoom script.now (map state_of spare.old) }
    ensures { MakesParts B.SHARES text.now
        (draw (pieces_by way (P.ends pattern text.now.items) (length text.now.items)) script.now)
        (map state_of spare.old) result (map state_of spare.new) meter.old meter.new }
{
    match way {
        Way::Split => make_front(text.split(alloc, pattern), script, spare, meter),
        Way::Inclusive => make_front(text.split_inclusive(alloc, pattern), script, spare, meter),
        Way::Terminator => make_front(text.split_terminator(alloc, pattern), script, spare, meter),
        Way::SplitN(count) => make_front(text.splitn(alloc, count, pattern), script, spare, meter),
        Way::Matches => make_front(text.matches(alloc, pattern), script, spare, meter),
        Way::RSplit => make_front(text.rsplit(alloc, pattern), script, spare, meter),
        Way::RTerminator => {
            make_front(text.rsplit_terminator(alloc, pattern), script, spare, meter)
        }
        Way::RSplitN(count) => {
            make_front(text.rsplitn(alloc, count, pattern), script, spare, meter)
        }
        Way::RMatches => make_front(text.rmatches(alloc, pattern), script, spare, meter),
    }
}

/// Makes pieces by characters, drawn from both ends where the way has two.
fn make_by_both<'b, B: Backend, P: OneChar>(
    alloc: Global,
    text: &HipStr<'b, B>,
    way: Way,
    pattern: P,
    script: &[End],
    spare: &mut [Slot<'b, B>],
    meter: &mut Meter,
) -> Result<usize, AllocError>
    requires search { P.can_search pattern }
    requires ends { (is_counted way && has_back script.now) ≡ false }
    requires room { HasRoom script.now (map state_of spare.old) }
    ensures { MakesParts B.SHARES text.now
        (draw (pieces_by way (P.ends pattern text.now.items) (length text.now.items)) script.now)
        (map state_of spare.old) result (map state_of spare.new) meter.old meter.new }
{
    match way {
        Way::Split => make_both(text.split(alloc, pattern), script, spare, meter),
        Way::Inclusive => make_both(text.split_inclusive(alloc, pattern), script, spare, meter),
        Way::Terminator => make_both(text.split_terminator(alloc, pattern), script, spare, meter),
        Way::Matches => make_both(text.matches(alloc, pattern), script, spare, meter),
        Way::RSplit => make_both(text.rsplit(alloc, pattern), script, spare, meter),
        Way::RTerminator => make_both(text.rsplit_terminator(alloc, pattern), script, spare, meter),
        Way::RMatches => make_both(text.rmatches(alloc, pattern), script, spare, meter),
        Way::SplitN(_) | Way::RSplitN(_) => {
            make_by_front(alloc, text, way, pattern, script, spare, meter)
        }
    }
}

/// Makes the pieces of a walk that goes from both ends.
fn make_both<'h, 'b, B: Backend, I: Unnumbered + RangesBack + Drop>(
    walk: IterWrapper<'h, 'b, B, I>,
    script: &[End],
    spare: &mut [Slot<'b, B>],
    meter: &mut Meter,
) -> Result<usize, AllocError>
    requires room { HasRoom script.now (map state_of spare.old) }
    ensures { MakesParts B.SHARES walk.entry.source (draw walk.entry.rest script.now)
        (map state_of spare.old) result (map state_of spare.new) meter.old meter.new }
{
    make_drawn::<_, _, Both>(walk, script, spare, meter)
}

/// Makes the pieces of a walk that goes from the front alone.
fn make_front<'h, 'b, B: Backend, I: Unnumbered + Drop>(
    walk: IterWrapper<'h, 'b, B, I>,
    script: &[End],
    spare: &mut [Slot<'b, B>],
    meter: &mut Meter,
) -> Result<usize, AllocError>
    requires front { has_back script.now ≡ false }
    requires room { HasRoom script.now (map state_of spare.old) }
    ensures { MakesParts B.SHARES walk.entry.source (draw walk.entry.rest script.now)
        (map state_of spare.old) result (map state_of spare.new) meter.old meter.new }
{
    make_drawn::<_, _, FrontAlone>(walk, script, spare, meter)
}

/// The ends of a walk over `I` that a script may draw from.
trait Ends<I: Unnumbered> {
    /// Whether that is the front alone.
    ghost one_way: { Bool };

    /// The piece at that end.
    fn draw_at<'h, 'b, B: Backend>(
        walk: &mut IterWrapper<'h, 'b, B, I>,
        end: End,
        meter: &mut Meter,
    ) -> Option<Result<HipStr<'b, B>, AllocError>>
        requires { one_way ≡ true → end ≡ End.Front }
        ensures drawn { DrawsPart B.SHARES end walk.old result walk.new meter.old meter.new }
        ensures source { walk.new.source ≡ walk.old.source };
}

struct FrontAlone;

struct Both;

impl<I: Unnumbered> Ends<I> for FrontAlone {
    ghost one_way = { true };

    fn draw_at<'h, 'b, B: Backend>(
        walk: &mut IterWrapper<'h, 'b, B, I>,
        _end: End,
        meter: &mut Meter,
    ) -> Option<Result<HipStr<'b, B>, AllocError>> {
        walk.next_metered(meter)
    }
}

impl<I: Unnumbered + RangesBack> Ends<I> for Both {
    ghost one_way = { false };

    fn draw_at<'h, 'b, B: Backend>(
        walk: &mut IterWrapper<'h, 'b, B, I>,
        end: End,
        meter: &mut Meter,
    ) -> Option<Result<HipStr<'b, B>, AllocError>> {
        match end {
            End::Front => walk.next_metered(meter),
            End::Back => walk.next_back_metered(meter),
        }
    }
}

/// Makes the pieces that a script draws of a walk, from the ends that it has.
fn make_drawn<'h, 'b, B: Backend, I: Unnumbered + Drop, E: Ends<I>>(
    mut walk: IterWrapper<'h, 'b, B, I>,
    script: &[End],
    spare: &mut [Slot<'b, B>],
    meter: &mut Meter,
) -> Result<usize, AllocError>
    requires ends { (E.one_way && has_back script.now) ≡ false }
    requires room { HasRoom script.now (map state_of spare.old) }
    ensures { MakesParts B.SHARES walk.entry.source (draw walk.entry.rest script.now)
        (map state_of spare.old) result (map state_of spare.new) meter.old meter.new }
{
    for i in 0..script.len() {
        match E::draw_at(&mut walk, script[i], meter) {
            Some(Ok(part)) => put_text(spare, i, part),
            Some(Err(AllocError)) => {
                empty_all(spare);
                return Err(AllocError);
            }
            None => return Ok(i),
        }
    }
    Ok(script.len())
}

/// Puts a text into a slot.
#[tactic(auto, using(crate::proofs::Places::in_place))]
fn put_text<'b, B: Backend>(slots: &mut [Slot<'b, B>], i: usize, text: HipStr<'b, B>)
    requires { i < length slots.old }
    ensures { map state_of slots.new
        ≡ slice_set (map state_of slots.old) i (record { is_text = true; handle = text.entry }) }
{
    slots[i] = Slot::Text(text);
}

/// Makes all slots empty.
pub(super) fn empty_all<'b, B: Backend>(slots: &mut [Slot<'b, B>])
    ensures { map state_of slots.new ≡ replicate (length slots.old) empty_slot }
{
    for i in 0..slots.len() {
        slots[i] = Slot::empty();
    }
}

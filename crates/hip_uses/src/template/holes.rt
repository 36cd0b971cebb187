//! The holes of a template, found by its braces.
ghost use Rattle.std.specs.Prelude.{◌≡◌, ◌<◌, ◌≤◌, ◌∷◌, [], ◌++◌, ◌-◌, All, IfErr, IfOk, IsTrue, MatchBool, drop, length, slice_range};
ghost use Rattle.std.specs.Str.{IsCharBoundary};
ghost use Rattle.std.specs.List.{flat_map};
ghost use Rattle.hip_fields.specs.Records.{fields_cost};
ghost use Rattle.hipstr.specs.Cost.{cut_cost};
ghost use Rattle.hipstr.specs.Made.{IsPart};
ghost use Rattle.hipstr.specs.Meter.{RisesAtMost};
ghost use Rattle.hipstr.specs.Texts.{text_ends};
ghost use Rattle.hip_uses.specs.Template.{AreParts, HasByte, IsNextPair, IsNextStart, IsParsed, ParseFails, hole_texts, written};

use crate::fault::TemplateFault;
use crate::template::Hole;
use hipstr::pattern::Pattern;
use hipstr::string::HipStr;
use hipstr::{Backend, Meter};
use std::alloc::{AllocError, Global};

/// Whether this byte stands at a place of a text.
#[inline(always)]
fn has_byte(bytes: &[u8], at: usize, byte: u8) -> bool
    ensures { MatchBool result (HasByte bytes.now at byte) (¬ HasByte bytes.now at byte) }
{
    at < bytes.len() && bytes[at] == byte
}

/// The first place at or after `from` where another text stands, if there is one. It is a function apart, since few braces stand alone.
#[cold]
#[inline(never)]
fn text_place(text: &str, sought: &str, from: usize) -> Option<usize>
    requires { IsCharBoundary text.now from }
    ensures { IsNextStart (text_ends sought.now text.now) from result }
{
    let (start, _end) = sought.next_match(text, from)?;
    Some(start)
}

/// The first place at or after `from` where two of this brace stand, if there is one. Where the first brace stands alone, both are looked
/// for as a text, so that braces alone cost no more than other bytes.
#[inline(always)]
fn next_pair(text: &str, brace: u8, two: &str, from: usize) -> Option<usize>
    requires ascii { brace < 128 }
    requires both { two.now ≡ brace ∷ brace ∷ [] }
    requires boundary { IsCharBoundary text.now from }
    ensures { IsNextPair text.now brace from result }
{
    let (start, end) = char::from(brace).next_match(text, from)?;
    if has_byte(text.as_bytes(), end, brace) {
        return Some(start);
    }
    text_place(text, two, end)
}

/// The part of a template between two boundaries.
#[inline]
pub(crate) fn part<'b, B: Backend>(
    alloc: Global,
    template: &HipStr<'b, B>,
    start: usize,
    end: usize,
    meter: &mut Meter,
) -> Result<HipStr<'b, B>, AllocError>
    requires ordered { start ≤ end }
    requires in_bounds { end ≤ length template.now.items }
    requires start_at_boundary { IsCharBoundary template.now.items start }
    requires end_at_boundary { IsCharBoundary template.now.items end }
    ensures part { IfOk result (λ made.
        IsPart template.now made (slice_range template.now.items start end)) }
    ensures counted { RisesAtMost meter.old meter.new
        (cut_cost B.SHARES template.now.kind (end - start)) }
{
    template.part_metered(alloc, start, end, meter)
}

/// The holes of a template, the leftmost first, and where the last one ends. Each search goes on where the last one ended, so the template
/// is gone over once.
pub(crate) fn holes_of<'b, B: Backend>(
    alloc: Global,
    template: &HipStr<'b, B>,
    meter: &mut Meter,
) -> Result<(Vec<Hole<'b, B>>, usize), TemplateFault<'b, B>>
    ensures boundary { IfOk result (λ found. IsCharBoundary template.now.items found.1) }
    ensures parsed { IfOk result (λ found.
        IsParsed template.now.items found.0.items (drop found.1 template.now.items)) }
    ensures written { IfOk result (λ found.
        written found.0.items ++ drop found.1 template.now.items ≡ template.now.items) }
    ensures parts { IfOk result (λ found. All (AreParts template.now) found.0.items) }
    ensures counted { IfOk result (λ found. RisesAtMost meter.old meter.new
        (fields_cost B.SHARES template.now.kind (flat_map hole_texts found.0.items))) }
    ensures fault { IfErr result (ParseFails template.now.items) }
{
    let text = template.as_str();
    let mut holes = Vec::new(alloc);
    let mut from = 0;
    while let Some(open) = next_pair(text, b'{', "{{", from) {
        let name = open + 2;
        let Some(close) = next_pair(text, b'}', "}}", name) else {
            let behind = part(alloc, template, name, text.len(), meter)?;
            return Err(TemplateFault::Unclosed(behind));
        };
        holes.push(Hole {
            before: part(alloc, template, from, open, meter)?,
            name: part(alloc, template, name, close, meter)?,
        })?;
        from = close + 2;
    }
    Ok((holes, from))
}

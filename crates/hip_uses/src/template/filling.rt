//! Templates that are filled.
ghost use Rattle.std.specs.Prelude.{◌≡◌, ◌++◌, IfErr, IfOk, OnOk, length};
ghost use Rattle.std.specs.Option.{option_map};
ghost use Rattle.hipstr.specs.Kinds.{by_length};
ghost use Rattle.hipstr.specs.Join.{join_cost};
ghost use Rattle.hipstr.specs.Meter.{RisesAtMost};
ghost use Rattle.hip_uses.specs.Number.{text_bytes};
ghost use Rattle.hip_uses.specs.Template.{AllKnown, all_shown, filled, value_of, woven, FillFails, IsUnknown};

use crate::template::values::Values;
use crate::template::{Hole, Template, TemplateFault};
use hipstr::string::HipStr;
use hipstr::{Backend, Meter};
use std::alloc::{AllocError, Global};
use std::hash::BuildHasher;

/// The fault of a name that has no value.
fn unknown<'b, B: Backend>(
    alloc: Global,
    name: &HipStr<'b, B>,
    meter: &mut Meter,
) -> TemplateFault<'b, B>
    ensures { IsUnknown name.now.items result }
{
    match name.clone_metered(alloc, meter) {
        Ok(name) => TemplateFault::Unknown(name),
        Err(AllocError) => TemplateFault::Memory,
    }
}

/// The value of a name: that of the hole at `place` where that is an earlier one of the name, else the one that is looked up.
fn value_of<'v, 'b, B: Backend, S: BuildHasher>(
    values: &'v Values<'b, B, S>,
    name: &HipStr<'b, B>,
    earlier: &[Hole<'b, B>],
    pieces: &[&'v str],
    place: usize,
) -> Option<&'v str>
    requires known { AllKnown values.now earlier.now }
    requires pieces { all_shown pieces.now ≡ woven values.now earlier.now }
    ensures { option_map (λ value. value.now) result
        ≡ option_map text_bytes (value_of values.now name.now.items) }
{
    if let Some(hole) = earlier.get(place) {
        if hole.name == *name {
            return Some(pieces[2 * place + 1]);
        }
    }
    match values.get(name) {
        Some(value) => Some(value.as_str()),
        None => None,
    }
}

/// The text before each hole, and its value. Each different name is looked up once.
fn pieces_of<'v, 'b, B: Backend, S: BuildHasher>(
    alloc: Global,
    template: &'v Template<'b, B>,
    values: &'v Values<'b, B, S>,
    meter: &mut Meter,
) -> Result<Vec<&'v str>, TemplateFault<'b, B>>
    ensures known { IfOk result (λ _. AllKnown values.now template.now.holes.items) }
    ensures pieces { IfOk result (λ pieces. all_shown pieces.items
        ≡ woven values.now template.now.holes.items) }
    ensures counted { OnOk result (meter.new ≡ meter.old) }
    ensures fault { IfErr result (FillFails values.now template.now.holes.items) }
{
    let Some(count) = template.holes.len().checked_mul(2) else {
        return Err(TemplateFault::Memory);
    };
    let mut pieces = Vec::with_capacity(alloc, count.saturating_add(1))?;
    for (place, hole) in template.holes.iter().enumerate() {
        let of_name = template.earlier_places.get(place).copied().unwrap_or(place);
        let earlier = &template.holes[..place];
        let Some(value) = value_of(values, &hole.name, earlier, pieces.as_slice(), of_name) else {
            return Err(unknown(alloc, &hole.name, meter));
        };
        pieces.push_reserved(hole.before.as_str());
        pieces.push_reserved(value);
    }
    Ok(pieces)
}

/// The text of a template with each hole filled. Each different name is looked up once, and the text is allocated once.
pub fn fill<'b, B: Backend, S: BuildHasher>(
    alloc: Global,
    template: &Template<'b, B>,
    values: &Values<'b, B, S>,
) -> Result<HipStr<'b, B>, TemplateFault<'b, B>>
    ensures known { IfOk result (λ _. AllKnown values.now template.now.holes.items) }
    ensures filled { IfOk result (λ text. text.items
        ≡ filled values.now template.now.holes.items ++ template.now.rest.items) }
    ensures kind { IfOk result (λ text. text.kind ≡ by_length (length text.items)) }
    ensures fault { IfErr result (FillFails values.now template.now.holes.items) }
{
    fill_metered(alloc, template, values, &mut Meter::new())
}

/// [`fill`], counted. The pieces are copied as they are joined, and no other byte is.
pub fn fill_metered<'b, B: Backend, S: BuildHasher>(
    alloc: Global,
    template: &Template<'b, B>,
    values: &Values<'b, B, S>,
    meter: &mut Meter,
) -> Result<HipStr<'b, B>, TemplateFault<'b, B>>
    ensures known { IfOk result (λ _. AllKnown values.now template.now.holes.items) }
    ensures filled { IfOk result (λ text. text.items
        ≡ filled values.now template.now.holes.items ++ template.now.rest.items) }
    ensures kind { IfOk result (λ text. text.kind ≡ by_length (length text.items)) }
    ensures counted { IfOk result (λ text.
        RisesAtMost meter.old meter.new (join_cost B.SHARES (length text.items))) }
    ensures fault { IfErr result (FillFails values.now template.now.holes.items) }
{
    let mut pieces = pieces_of(alloc, template, values, meter)?;
    pieces.push(template.rest.as_str())?;
    Ok(HipStr::concat_slices_metered(alloc, pieces.as_slice(), meter)?)
}

//! Templates: `{{name}}` in a text stands for what goes under that name.
ghost use Rattle.std.specs.Prelude.{◌≡◌, ◌++◌, All, IfErr, IfOk};
ghost use Rattle.hip_fields.specs.Records.{fields_cost};
ghost use Rattle.hipstr.specs.Made.{IsPart};
ghost use Rattle.hipstr.specs.Meter.{RisesAtMost};
ghost use Rattle.hip_uses.specs.Template.{AreParts, IsParsed, ParseFails, template_texts, written};

pub use crate::fault::TemplateFault;
pub use crate::template::filling::{fill, fill_metered};
use crate::template::holes::{holes_of, part};
use crate::template::names::earlier_places;
pub use crate::template::values::Values;
use hipstr::string::HipStr;
use hipstr::{Backend, Meter};
use std::alloc::{AllocError, Global};

mod filling;
mod holes;
mod names;
mod values;

/// A hole, and the text between it and the one before.
#[derive(Drop)]
pub struct Hole<'b, B: Backend> {
    pub before: HipStr<'b, B>,
    pub name: HipStr<'b, B>,
}

/// A template, cut at its holes.
#[derive(Drop)]
pub struct Template<'b, B: Backend> {
    pub holes: Vec<Hole<'b, B>>,
    /// The text behind the last hole.
    pub rest: HipStr<'b, B>,
    /// For each hole the position of an earlier hole with its name, or its own, as the template was made.
    earlier_places: Vec<usize>,
}

impl<'b, B: Backend> Template<'b, B> {
    /// A template of these holes, with a text behind the last one.
    pub fn new(
        alloc: Global,
        holes: Vec<Hole<'b, B>>,
        rest: HipStr<'b, B>,
    ) -> Result<Self, AllocError>
        ensures holes { IfOk result (λ made. made.holes.items ≡ holes.entry.items) }
        ensures rest { IfOk result (λ made. made.rest ≡ rest.entry) }
    {
        let earlier_places = earlier_places(alloc, holes.as_slice())?;
        Ok(Template {
            holes,
            rest,
            earlier_places,
        })
    }
}

/// Cuts a template at its holes, the leftmost first.
pub fn parse<'b, B: Backend>(
    alloc: Global,
    template: &HipStr<'b, B>,
) -> Result<Template<'b, B>, TemplateFault<'b, B>>
    ensures parsed { IfOk result (λ parsed.
        IsParsed template.now.items parsed.holes.items parsed.rest.items) }
    ensures written { IfOk result (λ parsed.
        written parsed.holes.items ++ parsed.rest.items ≡ template.now.items) }
    ensures holes { IfOk result (λ parsed. All (AreParts template.now) parsed.holes.items) }
    ensures rest { IfOk result (λ parsed. IsPart template.now parsed.rest parsed.rest.items) }
    ensures fault { IfErr result (ParseFails template.now.items) }
{
    parse_metered(alloc, template, &mut Meter::new())
}

/// [`parse`], counted. Where owners are shared, each part copies at most the 23 bytes that a handle holds in itself, and none of a
/// borrowed template.
pub fn parse_metered<'b, B: Backend>(
    alloc: Global,
    template: &HipStr<'b, B>,
    meter: &mut Meter,
) -> Result<Template<'b, B>, TemplateFault<'b, B>>
    ensures parsed { IfOk result (λ parsed.
        IsParsed template.now.items parsed.holes.items parsed.rest.items) }
    ensures written { IfOk result (λ parsed.
        written parsed.holes.items ++ parsed.rest.items ≡ template.now.items) }
    ensures holes { IfOk result (λ parsed. All (AreParts template.now) parsed.holes.items) }
    ensures rest { IfOk result (λ parsed. IsPart template.now parsed.rest parsed.rest.items) }
    ensures counted { IfOk result (λ parsed. RisesAtMost meter.old meter.new
        (fields_cost B.SHARES template.now.kind (template_texts parsed.holes.items parsed.rest))) }
    ensures fault { IfErr result (ParseFails template.now.items) }
{
    let (holes, end) = holes_of(alloc, template, meter)?;
    let rest = part(alloc, template, end, template.len(), meter)?;
    Ok(Template::new(alloc, holes, rest)?)
}

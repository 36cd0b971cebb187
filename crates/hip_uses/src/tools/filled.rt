//! A text that is filled as a template.
ghost use Rattle.std.specs.Prelude.{◌≡◌, ◌≤◌, ◌++◌, IfErr, IfSome, IsUtf8, OnOk, length};
ghost use Rattle.hip_uses.specs.Filled.{FillTells, IsFilled, IsPlaceOf, ParseTells, UnknownTells};
ghost use Rattle.hip_uses.specs.Template.{FillFails, IsParsed, ParseFails, written};
ghost use Rattle.hip_uses.specs.Tools.{InputFails, Tells, Writes, WritesNothing};

use crate::fault::ToolFault;
use crate::template::{Hole, Template, TemplateFault, Values, fill, parse};
use crate::tools::input::{line_of, read_text};
use crate::tools::print::write;
use hipstr::Backend;
use hipstr::string::HipStr;
use std::alloc::Global;
use std::hash::BuildHasher;
use std::io::{Read, Write};

/// Reads a template, and writes it with the value of each hole in its place. `out` isn't flushed.
pub fn write_filled<B: Backend, S: BuildHasher, R: Read, W: Write>(
    alloc: Global,
    values: &Values<'_, B, S>,
    reader: &mut R,
    out: &mut W,
) -> Result<(), ToolFault>
    ensures read { IfSome (R.remaining reader.old) (λ input.
        Tells (FillTells values.now input) input result) }
    ensures written { OnOk result (IfSome (R.remaining reader.old) (λ input.
        Writes (IsFilled values.now input) (W.contents out.old) (W.contents out.new))) }
    ensures nothing { IfErr result (λ fault.
        WritesNothing fault (W.contents out.old) (W.contents out.new)) }
{
    let text = read_text::<B, R>(alloc, reader)?;
    write_filled_of(alloc, values, &text, out)
}

/// Like [`write_filled`], of a template that is in memory.
fn write_filled_of<'b, B: Backend, S: BuildHasher, W: Write>(
    alloc: Global,
    values: &Values<'b, B, S>,
    text: &HipStr<'b, B>,
    out: &mut W,
) -> Result<(), ToolFault>
    requires { IsUtf8 text.now.items }
    ensures fault { IfErr result (InputFails (FillTells values.now text.now.items) text.now.items) }
    ensures written { OnOk result
        (Writes (IsFilled values.now text.now.items) (W.contents out.old) (W.contents out.new)) }
    ensures nothing { IfErr result (λ fault.
        WritesNothing fault (W.contents out.old) (W.contents out.new)) }
{
    let template = match parse(alloc, text) {
        Ok(template) => template,
        Err(fault) => return Err(parse_fault(text, fault)),
    };
    let filled = match fill(alloc, &template, values) {
        Ok(filled) => filled,
        Err(fault) => return Err(fill_fault(alloc, values, text, &template, fault)),
    };
    write(out, filled.as_bytes())?;
    Ok(())
}

/// Why a text is no template.
fn parse_fault<'b, B: Backend>(text: &HipStr<'b, B>, fault: TemplateFault<'b, B>) -> ToolFault
    requires { ParseFails text.now.items fault }
    ensures { ParseTells text.now.items result }
{
    match fault {
        TemplateFault::Unclosed(behind) => {
            let place = text.len() - behind.len() - "{{".len();
            ToolFault::Unclosed(line_of(text.as_bytes(), place))
        }
        _ => ToolFault::Memory,
    }
}

/// Why a template is not filled.
fn fill_fault<'b, B: Backend, S: BuildHasher>(
    alloc: Global,
    values: &Values<'b, B, S>,
    text: &HipStr<'b, B>,
    template: &Template<'b, B>,
    fault: TemplateFault<'b, B>,
) -> ToolFault
    requires parsed { IsParsed text.now.items template.now.holes.items template.now.rest.items }
    requires written { written template.now.holes.items ++ template.now.rest.items ≡ text.now.items }
    requires fails { FillFails values.now template.now.holes.items fault }
    ensures { UnknownTells values.now text.now.items result }
{
    match fault {
        TemplateFault::Unknown(name) => {
            let place = place_of(template.holes.as_slice(), &name, text.len());
            let line = line_of(text.as_bytes(), place);
            match String::from_str(alloc, name.as_str()) {
                Ok(name) => ToolFault::Unknown(line, name),
                Err(_) => ToolFault::Memory,
            }
        }
        _ => ToolFault::Memory,
    }
}

/// Where the first hole of this name begins, as the template is written, in `len` bytes at most.
fn place_of<'b, B: Backend>(holes: &[Hole<'b, B>], name: &HipStr<'b, B>, len: usize) -> usize
    requires { length (written holes.now) ≤ len }
    ensures place { IsPlaceOf holes.now name.now.items result }
    ensures within { result ≤ len }
{
    let mut place = 0;
    for hole in holes {
        if hole.name == *name {
            return place + hole.before.len();
        }
        place += hole.before.len() + hole.name.len() + "{{}}".len();
    }
    place
}

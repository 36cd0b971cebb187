//! Templates, filled with `name` and `greeting`.
use super::super::support::must_hold;
use super::support::prints;
use hip_uses::template::{Hole, Template, TemplateFault, Values, fill, parse};
use hipstr::string::HipStr;
use hipstr::{Backend, Rc, Unique};
use std::alloc::{AllocError, Global};

const ROWS: [(&str, &str); 11] = [
    ("", ""),
    ("no hole", "no hole"),
    ("{{greeting}}, {{name}}!", "Good evening, Ada!"),
    ("{{name}}{{name}}", "AdaAda"),
    ("{{name}}{{greeting}}{{name}}", "AdaGood eveningAda"),
    ("{{name}}{{nobody}}{{name}}", "nothing under `nobody`"),
    ("{ {name} } }}", "{ {name} } }}"),
    ("{{{name}}", "nothing under `{name`"),
    ("Dear {{nobody}}", "nothing under `nobody`"),
    ("Dear {{name", "no `}}` in `name`"),
    ("{{name}} {{ {{name}}", "nothing under ` {{name`"),
];

fn values<B: Backend>(alloc: Global) -> Result<Values<'static, B>, AllocError> {
    let mut values = Values::new(alloc);
    for (name, value) in [("name", "Ada"), ("greeting", "Good evening")] {
        values.set(HipStr::from_static(name), HipStr::from_static(value))?;
    }
    Ok(values)
}

fn filled<'b, B: Backend>(
    alloc: Global,
    text: &HipStr<'b, B>,
    values: &Values<'b, B>,
) -> Result<HipStr<'b, B>, TemplateFault<'b, B>> {
    let template = parse(alloc, text)?;
    fill(alloc, &template, values)
}

fn shown<B: Backend>(alloc: Global, text: &str) -> Result<String, AllocError> {
    let values = values::<B>(alloc)?;
    let text = HipStr::from_str(alloc, text)?;
    match filled(alloc, &text, &values) {
        Ok(text) => format!(in alloc; "{text}"),
        Err(fault) => format!(in alloc; "{fault}"),
    }
}

#[test]
fn fills_holes(rt: HostRuntime) {
    let alloc = rt.alloc();
    for (text, wanted) in ROWS {
        prints(&rt, text, &shown::<Rc>(alloc, text), wanted);
        prints(&rt, text, &shown::<Unique>(alloc, text), wanted);
    }
}

/// A template that is put together of its parts, and filled.
fn put_together<B: Backend>(
    alloc: Global,
) -> Result<HipStr<'static, B>, TemplateFault<'static, B>> {
    let mut holes = Vec::new(alloc);
    for (before, name) in [("", "name"), (": ", "greeting"), (", ", "name")] {
        holes.push(Hole {
            before: HipStr::from_static(before),
            name: HipStr::from_static(name),
        })?;
    }
    let template = Template::new(alloc, holes, HipStr::from_static("!"))?;
    let values = values(alloc)?;
    fill(alloc, &template, &values)
}

fn is_put_together<B: Backend>(alloc: Global) -> bool {
    put_together::<B>(alloc).is_ok_and(|text| text.str_eq("Ada: Good evening, Ada!"))
}

#[test]
fn fills_what_was_put_together(rt: HostRuntime) {
    let alloc = rt.alloc();
    must_hold(&rt, &"on `Rc`", is_put_together::<Rc>(alloc));
    must_hold(&rt, &"on `Unique`", is_put_together::<Unique>(alloc));
}

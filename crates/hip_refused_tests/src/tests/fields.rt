//! Records of fields: a refusal of memory is told just where a request was refused, and the text is as it was.
use super::held::{EACH_HELD, Held, text_of};
use super::refusing::{each, equals, refuse, was_refused};
use hip_fields::reader::Records;
use hip_fields::records;
use hipstr::pattern::Ranges;
use hipstr::string::HipStr;
use hipstr::{Backend, Kind, Meter, Rc, Unique};
use std::alloc::Global;
use std::process::Abort;

/// Two lines, with fields of 30 bytes and of few.
const LONG: &str = "aaaaaaaaaaaaaaaaaaaaaaaaaaaaaa,b,c,d,e,f\nbbbbbbbbbbbbbbbbbbbbbbbbbbbbbb,,a\n";

/// Two lines that fit a handle.
const SHORT: &str = "a,b,c,d,e\nf,g\n";

/// The two lines of a text that is held so.
fn letters(held: Held) -> &'static str {
    match held {
        Held::Inline => SHORT,
        Held::Lent | Held::Sole | Held::Shared => LONG,
    }
}

/// Asserts that a text is as it was made.
fn is_kept<B: Backend>(
    rt: &impl Abort,
    text: &HipStr<'_, B>,
    held: Held,
    kind: Kind,
    capacity: usize,
) {
    equals(
        rt,
        &(text.as_str(), text.kind(), text.capacity()),
        &(letters(held), kind, capacity),
    );
}

/// All records at once.
fn gathered<B: Backend>(rt: &impl Abort, alloc: Global, held: Held, k: usize) -> bool {
    let (text, _clone) = text_of::<B>(rt, alloc, held, letters(held));
    let (kind, capacity) = (text.kind(), text.capacity());
    refuse(alloc, k);
    let gathered = records(alloc, &text, ',');
    let refused = was_refused(alloc);
    equals(rt, &(k, gathered.is_err()), &(k, refused));
    is_kept(rt, &text, held, kind, capacity);
    refused
}

#[test]
fn records_gathered(rt: HostRuntime) {
    for held in EACH_HELD {
        each(|k| gathered::<Rc>(&rt, rt.alloc(), *held, k));
        each(|k| gathered::<Unique>(&rt, rt.alloc(), *held, k));
    }
}

/// Whether the first record that is left was given, if there is one.
fn draw<'h, 'b, B: Backend, I: Ranges + Drop>(
    alloc: Global,
    records: &mut Records<'h, HipStr<'b, B>, I>,
) -> Option<bool> {
    let fields = records.next_record_metered(alloc, &mut Meter::new())?;
    Some(fields.is_ok())
}

/// One record after another: one that is refused has been passed, and the other is given.
fn drawn<B: Backend>(rt: &impl Abort, alloc: Global, held: Held, k: usize) -> bool {
    let (text, _clone) = text_of::<B>(rt, alloc, held, letters(held));
    let (kind, capacity) = (text.kind(), text.capacity());
    refuse(alloc, k);
    let mut records = Records::new(&text, ',');
    let first = draw(alloc, &mut records);
    let second = draw(alloc, &mut records);
    let third = draw(alloc, &mut records);
    let refused = was_refused(alloc);
    equals(
        rt,
        &(
            k,
            first.is_some(),
            second.is_some(),
            third.is_none(),
            first == second,
        ),
        &(k, true, true, true, !refused),
    );
    is_kept(rt, &text, held, kind, capacity);
    refused
}

#[test]
fn records_drawn(rt: HostRuntime) {
    for held in EACH_HELD {
        each(|k| drawn::<Rc>(&rt, rt.alloc(), *held, k));
        each(|k| drawn::<Unique>(&rt, rt.alloc(), *held, k));
    }
}

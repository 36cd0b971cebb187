//! The kinds of fields, and how many bytes are copied for them.
use crate::tests::suite::{OfBackend, run_by_each};
use crate::tests::support::{equals, must};
use hip_cuts::{Backend, HipStr, Kind, Meter, Rc, Unique};
use hip_fields::records_metered;
use std::alloc::Global;
use std::process::Abort;

/// One line of two fields, of 40 bytes and of 2.
const LINE: &str = "aaaaaaaaaaaaaaaaaaaaaaaaaaaaaaaaaaaaaaaa,bc\n";

/// The length and the kind of a field.
type Seen = (usize, Kind);

/// The length and the kind of a field, if there is one.
fn seen<B: Backend>(field: Option<&HipStr<'_, B>>) -> Option<Seen> {
    field.map(|field| (field.len(), field.kind()))
}

/// Asserts the kinds of the two fields of [`LINE`], and how many bytes were copied for them.
fn are<B: Backend>(
    rt: &impl Abort,
    alloc: Global,
    source: &HipStr<'_, B>,
    wanted: (Kind, Kind, u128),
) {
    let mut meter = Meter::new();
    let records = must(rt, records_metered(alloc, source, ',', &mut meter));
    let fields: &[HipStr<'_, B>] = records.first().map_or(&[], |fields| fields.as_slice());
    equals(
        rt,
        &(records.len(), fields.len(), meter.copied()),
        &(1, 2, wanted.2),
    );
    equals(
        rt,
        &(seen(fields.first()), seen(fields.last())),
        &(Some((40, wanted.0)), Some((2, wanted.1))),
    );
}

/// Asserts how many bytes are copied for the fields of a text that has an owner.
fn copies<B: Backend>(rt: &impl Abort, alloc: Global, copied: u128) {
    let text = must(rt, HipStr::<B>::from_str(alloc, LINE));
    are(rt, alloc, &text, (Kind::Allocated, Kind::Inline, copied));
}

/// The 40 bytes share the text's owner, where owners are shared; the 2 are copied into the field itself.
#[test]
fn allocated(rt: HostRuntime) {
    copies::<Rc>(&rt, rt.alloc(), 2);
    copies::<Unique>(&rt, rt.alloc(), 42);
}

struct Lent;

impl OfBackend for Lent {
    fn run<B: Backend>(rt: &impl Abort, alloc: Global) {
        let text = HipStr::<B>::borrowed(LINE);
        are(rt, alloc, &text, (Kind::Borrowed, Kind::Borrowed, 0));
    }
}

/// No field copies a byte of a borrowed text.
#[test]
fn borrowed(rt: HostRuntime) {
    run_by_each::<Lent>(&rt, rt.alloc());
}

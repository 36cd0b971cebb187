//! Records that are drawn one after another.
use super::told::tell;
use crate::tests::suite::{OfBackend, run_by_each};
use crate::tests::support::{equals, must};
use hip_cuts::hip_match::ranges::Ranges;
use hip_cuts::{Backend, HipStr, Meter};
use hip_fields::reader::Records;
use std::alloc::Global;
use std::process::Abort;

/// Asserts what the first record is that is left, and how many bytes are copied for it; of none, that none is.
fn draws<'h, 'b, B: Backend, I: Ranges + Drop>(
    rt: &impl Abort,
    alloc: Global,
    records: &mut Records<'h, HipStr<'b, B>, I>,
    wanted: (&str, u128),
) {
    let mut meter = Meter::new();
    let mut told = String::new(alloc);
    if let Some(fields) = records.next_record_metered(alloc, &mut meter) {
        must(rt, tell(&mut told, &must(rt, fields)));
    }
    equals(rt, &(told.as_str(), meter.copied()), &wanted);
}

struct Drawn;

impl OfBackend for Drawn {
    fn run<B: Backend>(rt: &impl Abort, alloc: Global) {
        let text = must(rt, HipStr::<B>::from_str(alloc, "a,b\n\nc,,de\r\n"));
        let mut records = Records::new(&text, ',');
        draws(rt, alloc, &mut records, ("[a][b];", 2));
        draws(rt, alloc, &mut records, ("[];", 0));
        draws(rt, alloc, &mut records, ("[c][][de];", 3));
        draws(rt, alloc, &mut records, ("", 0));
        draws(rt, alloc, &mut records, ("", 0));
    }
}

#[test]
fn records_drawn(rt: HostRuntime) {
    run_by_each::<Drawn>(&rt, rt.alloc());
}

//! Long values that are shared, and room that is filled: no request is made, so none can be refused.
use super::refusing::{equals, must, must_hold, refuse, was_refused};
use hipstr::bytes::HipByt;
use hipstr::string::{HipStr, TextCuts};
use hipstr::{Backend, Kind, Meter, Rc, Unique};
use std::alloc::Global;
use std::process::Abort;

/// 30 letters and a comma.
const FIELD: &str = "aaaaaaaaaaaaaaaaaaaaaaaaaaaaaa,";

/// The text of a hundred such fields, in 3,100 bytes.
fn many<B: Backend>(rt: &impl Abort, alloc: Global) -> HipStr<'static, B> {
    let fields = HipStr::<B>::borrowed(FIELD).repeat(alloc, 100);
    must(rt, fields)
}

/// The number of pieces of 30 bytes, of those of none, and of all that were drawn.
fn drawn<B: Backend>(
    text: &HipStr<'_, B>,
    alloc: Global,
    meter: &mut Meter,
) -> (usize, usize, usize) {
    let (mut long, mut empty, mut all) = (0usize, 0usize, 0usize);
    let mut pieces = text.split(alloc, ',');
    for _ in 0..200 {
        match pieces.next_metered(meter) {
            Some(Ok(piece)) => {
                all = all.saturating_add(1);
                long = long.saturating_add((piece.len() == 30) as usize);
                empty = empty.saturating_add(piece.is_empty() as usize);
            }
            Some(Err(_)) => return (long, empty, 0),
            None => return (long, empty, all),
        }
    }
    (long, empty, all)
}

/// The number of bytes that are copied for a clone of the text, its bytes from 100 to 3,000, and its fields.
fn cut<B: Backend>(rt: &impl Abort, alloc: Global, text: &HipStr<'_, B>) -> u128 {
    let mut meter = Meter::new();
    let clone = must(rt, text.clone_metered(alloc, &mut meter));
    let slice = must(
        rt,
        text.try_slice_metered(alloc, 100..3000, &mut meter)
            .or(Err("no range")),
    );
    let pieces = drawn(text, alloc, &mut meter);
    equals(
        rt,
        &(clone.len(), slice.len(), slice.kind(), pieces),
        &(3100, 2900, Kind::Allocated, (100, 1, 101)),
    );
    meter.copied()
}

/// A body that copies past the counter, or keeps a vector for each handle, meets a refusal here.
#[test]
fn long_values_shared_take_none(rt: HostRuntime) {
    let text = many::<Rc>(&rt, rt.alloc());
    refuse(rt.alloc(), 1);
    let copied = cut(&rt, rt.alloc(), &text);
    equals(&rt, &(was_refused(rt.alloc()), copied), &(false, 0));
    let text = many::<Unique>(&rt, rt.alloc());
    must_hold(&rt, cut(&rt, rt.alloc(), &text) <= 9_000);
}

const LETTERS: &[u8] = b"abcdefghijklmnopqrstuvwxyz";

/// A push of nothing on a shared owner: neither a copy nor an owner of its own.
#[test]
fn nothing_pushed_on_a_clone_takes_none(rt: HostRuntime) {
    let letters = must(&rt, HipByt::<Rc>::from_slice(rt.alloc(), LETTERS));
    let mut clone = must(&rt, letters.clone(rt.alloc()));
    refuse(rt.alloc(), 1);
    must(&rt, clone.push_slice(rt.alloc(), b""));
    equals(
        &rt,
        &(
            was_refused(rt.alloc()),
            clone.as_slice(),
            clone.kind(),
            letters.as_slice(),
        ),
        &(false, LETTERS, Kind::Allocated, LETTERS),
    );
}

/// Appends that fit, and a loan for writing, meet no refusal.
#[test]
fn room_filled_takes_none(rt: HostRuntime) {
    let mut handle = must(&rt, HipByt::<Unique>::with_capacity(rt.alloc(), 64));
    let room = handle.capacity();
    refuse(rt.alloc(), 1);
    must(&rt, handle.push_slice(rt.alloc(), &[b'x'; 30]));
    must(&rt, handle.push_slice(rt.alloc(), &[b'y'; 34]));
    let lent = must(&rt, handle.to_mut_slice(rt.alloc())).len();
    equals(
        &rt,
        &(was_refused(rt.alloc()), lent, handle.capacity()),
        &(false, 64, room),
    );
}

//! The error of bytes that aren't a text, which has the bytes: its clone takes the memory that theirs takes.
use super::held::{BROKEN, EACH_HELD, Held, bytes_of};
use super::refusing::{each, equals, is_refusing, must, refuse, was_refused};
use hipstr::bytes::HipByt;
use hipstr::string::{FromUtf8Error, HipStr};
use hipstr::{Backend, Rc, Unique};
use std::alloc::Global;
use std::process::Abort;

/// The error of bytes that are held so.
fn error_of<B: Backend>(rt: &impl Abort, alloc: Global, held: Held) -> FromUtf8Error<'static, B> {
    let bytes = bytes_of(held, BROKEN);
    let handle = match held {
        Held::Lent => HipByt::borrowed(bytes),
        Held::Inline | Held::Sole | Held::Shared => must(rt, HipByt::from_slice(alloc, bytes)),
    };
    must(rt, HipStr::from_utf8(handle).err().ok_or("it is UTF-8"))
}

/// Whether a clone has the error's bytes, if there is one.
fn cloned<B: Backend>(error: &FromUtf8Error<'static, B>, alloc: Global) -> Option<bool> {
    let clone = error.clone(alloc).ok()?;
    Some(clone.as_bytes() == error.as_bytes())
}

/// There is no clone just where a request was refused.
fn is_cloned<B: Backend>(rt: &impl Abort, alloc: Global, held: Held, k: usize) -> bool {
    let error = error_of::<B>(rt, alloc, held);
    refuse(alloc, k);
    let cloned = cloned(&error, alloc);
    let refused = was_refused(alloc);
    equals(rt, &cloned, &(!refused).then_some(true));
    refused
}

/// The number of requests that are refused for the clones of all such errors.
fn met<B: Backend>(rt: &impl Abort, alloc: Global) -> usize {
    let mut refusals = 0usize;
    for held in EACH_HELD {
        let met = each(|k| is_cloned::<B>(rt, alloc, *held, k));
        refusals = refusals.saturating_add(met);
    }
    refusals
}

#[test]
fn clones_of_errors_where_nothing_is_shared(rt: HostRuntime) {
    let met = met::<Unique>(&rt, rt.alloc());
    equals(&rt, &(met > 0), &is_refusing(rt.alloc()));
}

#[test]
fn clones_of_errors_where_owners_are_shared_take_none(rt: HostRuntime) {
    equals(&rt, &met::<Rc>(&rt, rt.alloc()), &0);
}

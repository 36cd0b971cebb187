//! Calls of handles, by what they take and answer: what a refusal leaves, and what it hands back.
use super::handle::{Change, Conversion, Copying, Handle, Lending, Making, Taking, Telling};
use super::held::{BYTES, Held, bytes_of};
use super::refusing::{each, equals, must, must_hold, must_meet, refuse, was_refused};
use hipstr::{Backend, Rc, Unique};
use std::alloc::Global;
use std::process::Abort;

/// A call.
#[derive(Clone, Copy)]
pub(crate) enum Call {
    /// Changes the handle. A refused one leaves it as it was.
    Change(Change),
    /// Makes a handle of another, which stays as it is.
    Copying(Copying),
    /// Makes something else of the handle. A refused one hands it back.
    Conversion(Conversion),
    /// Makes a handle of a vector, or of what has one. A refused one hands that back.
    Taking(Taking),
    /// Makes a handle of something that it leaves as it is.
    Making(Making),
    /// Tells something of the handle, which stays as it is.
    Telling(Telling),
    /// Lends the bytes out. Where they can't be lent the handle is as it was, where they can't be put back they are handed back.
    Lending(Lending),
}

/// Where a handle's bytes lie, and its capacity.
pub(crate) type Place = ((bool, bool, bool), usize);

/// How a handle's bytes are held, the bytes, and the number of the request that is refused.
#[derive(Clone, Copy)]
struct Trial {
    held: Held,
    bytes: &'static [u8],
    k: usize,
}

/// Asserts that a handle is as it was.
fn is_kept<H: Handle>(rt: &impl Abort, handle: &H, bytes: &[u8], before: Place) {
    equals(rt, &handle.seen(), &(bytes, before));
}

/// Asserts that a handle is as another.
fn is_same<H: Handle>(rt: &impl Abort, handle: &H, wanted: &H) {
    let (bytes, place) = wanted.seen();
    is_kept(rt, handle, bytes, place);
}

/// A vector of these bytes, with room for more.
fn roomy(rt: &impl Abort, alloc: Global, bytes: &[u8]) -> Vec<u8> {
    let mut vec = must(rt, Vec::with_capacity(alloc, 200));
    must(rt, vec.extend_from_slice(bytes));
    vec
}

/// A handle of the bytes that is held so, and its clone.
fn made<H: Handle>(rt: &impl Abort, alloc: Global, trial: Trial) -> (H, Option<H>) {
    let handle = match trial.held {
        Held::Lent => must(rt, H::lent(trial.bytes)),
        Held::Inline | Held::Sole | Held::Shared => {
            must(rt, H::of_vec(alloc, roomy(rt, alloc, trial.bytes)))
        }
    };
    let clone = match trial.held {
        Held::Shared => Some(must(rt, handle.clone(alloc))),
        Held::Inline | Held::Lent | Held::Sole => None,
    };
    (handle, clone)
}

/// Asserts that a clone, if there is one, has its bytes.
fn is_untouched<H: Handle>(rt: &impl Abort, clone: Option<H>, bytes: &[u8]) {
    if let Some(clone) = clone {
        equals(rt, &clone.seen().0, &bytes);
    }
}

fn changed<H: Handle>(rt: &impl Abort, alloc: Global, trial: Trial, change: Change) -> bool {
    let (mut handle, clone) = made::<H>(rt, alloc, trial);
    let (mut other, _clone) = made::<H>(rt, alloc, trial);
    let (_, before) = handle.seen();
    refuse(alloc, trial.k);
    let is_done = handle.change(rt, alloc, change);
    let refused = was_refused(alloc);
    if is_done {
        must_hold(rt, other.change(rt, alloc, change));
        is_same(rt, &handle, &other);
    } else {
        must_hold(rt, refused);
        is_kept(rt, &handle, trial.bytes, before);
    }
    is_untouched(rt, clone, trial.bytes);
    refused
}

fn copied<H: Handle>(rt: &impl Abort, alloc: Global, trial: Trial, copying: Copying) -> bool {
    let (handle, _clone) = made::<H>(rt, alloc, trial);
    let (_, before) = handle.seen();
    let wanted = must(rt, handle.copy(rt, alloc, copying));
    refuse(alloc, trial.k);
    let copy = handle.copy(rt, alloc, copying);
    let refused = was_refused(alloc);
    match copy {
        Ok(copy) => is_same(rt, &copy, &wanted),
        Err(_) => must_hold(rt, refused),
    }
    is_kept(rt, &handle, trial.bytes, before);
    refused
}

/// Whether a conversion is refused where memory is ample, as one is that hands the value back by its kind.
fn is_never<H: Handle>(rt: &impl Abort, alloc: Global, trial: Trial, to: Conversion) -> bool {
    let (handle, _clone) = made::<H>(rt, alloc, trial);
    handle.convert(rt, alloc, to, trial.bytes).is_err()
}

fn converted<H: Handle>(rt: &impl Abort, alloc: Global, trial: Trial, to: Conversion) -> bool {
    let is_never = is_never::<H>(rt, alloc, trial, to);
    let (handle, clone) = made::<H>(rt, alloc, trial);
    let (_, before) = handle.seen();
    refuse(alloc, trial.k);
    let outcome = handle.convert(rt, alloc, to, trial.bytes);
    let refused = was_refused(alloc);
    match outcome {
        Ok(is_same) => must_hold(rt, is_same),
        Err(back) => {
            must_hold(rt, refused | is_never);
            is_kept(rt, &back, trial.bytes, before);
        }
    }
    is_untouched(rt, clone, trial.bytes);
    refused
}

fn taken<H: Handle>(rt: &impl Abort, alloc: Global, taking: Taking, k: usize) -> bool {
    let vec = roomy(rt, alloc, BYTES);
    let room = vec.capacity();
    refuse(alloc, k);
    let outcome = H::take(rt, alloc, taking, vec);
    let refused = was_refused(alloc);
    match outcome {
        Ok(handle) => equals(rt, &handle.seen().0, &BYTES),
        Err(back) => equals(
            rt,
            &(refused, back.as_slice(), back.capacity()),
            &(true, BYTES, room),
        ),
    }
    refused
}

fn makes<H: Handle>(rt: &impl Abort, alloc: Global, making: Making, k: usize) -> bool {
    let value = must(rt, H::value(alloc));
    let wanted = must(rt, H::make(rt, alloc, making, &value));
    refuse(alloc, k);
    let outcome = H::make(rt, alloc, making, &value);
    let refused = was_refused(alloc);
    match outcome {
        Ok(handle) => is_same(rt, &handle, &wanted),
        Err(is_memory) => must_hold(rt, refused & is_memory),
    }
    refused
}

fn told<H: Handle>(rt: &impl Abort, alloc: Global, trial: Trial, telling: Telling) -> bool {
    let (handle, _clone) = made::<H>(rt, alloc, trial);
    let (_, before) = handle.seen();
    refuse(alloc, trial.k);
    let is_told = handle.tell(rt, alloc, telling);
    let refused = was_refused(alloc);
    must_hold(rt, is_told | refused);
    is_kept(rt, &handle, trial.bytes, before);
    refused
}

/// The place and the capacity of a handle without bytes.
const EMPTY: Place = ((true, false, false), 23);

fn lent<H: Handle>(rt: &impl Abort, alloc: Global, trial: Trial, lending: Lending) -> bool {
    let (mut handle, clone) = made::<H>(rt, alloc, trial);
    let (_, before) = handle.seen();
    refuse(alloc, trial.k);
    let outcome = handle.lend(rt, alloc, lending);
    let refused = was_refused(alloc);
    match outcome {
        Ok(()) => equals(rt, &handle.seen().0, &trial.bytes),
        Err(None) => {
            must_hold(rt, refused);
            is_kept(rt, &handle, trial.bytes, before);
        }
        Err(Some(back)) => {
            equals(rt, &(refused, back.as_slice()), &(true, trial.bytes));
            is_kept(rt, &handle, b"", EMPTY);
        }
    }
    is_untouched(rt, clone, trial.bytes);
    refused
}

fn runs<H: Handle>(rt: &impl Abort, alloc: Global, trial: Trial, call: Call) -> bool {
    match call {
        Call::Change(change) => changed::<H>(rt, alloc, trial, change),
        Call::Copying(copying) => copied::<H>(rt, alloc, trial, copying),
        Call::Conversion(conversion) => converted::<H>(rt, alloc, trial, conversion),
        Call::Taking(taking) => taken::<H>(rt, alloc, taking, trial.k),
        Call::Making(making) => makes::<H>(rt, alloc, making, trial.k),
        Call::Telling(telling) => told::<H>(rt, alloc, trial, telling),
        Call::Lending(lending) => lent::<H>(rt, alloc, trial, lending),
    }
}

/// A type of handles, for any backend.
pub(crate) trait Type {
    /// Runs a call on all values of the type, and says how many requests were refused: [`of`].
    fn refused<B: Backend>(rt: &impl Abort, alloc: Global, call: Call) -> usize;
}

/// Runs a call on all values, and says how many requests were refused.
pub(crate) fn of<H: Handle>(rt: &impl Abort, alloc: Global, call: Call) -> usize {
    let mut refusals = 0usize;
    for bytes in H::texts() {
        for held in H::each_held() {
            let (held, bytes) = (*held, bytes_of(*held, bytes));
            let met = each(|k| runs::<H>(rt, alloc, Trial { held, bytes, k }, call));
            refusals = refusals.saturating_add(met);
        }
    }
    refusals
}

/// Runs calls on a type whose owners are shared, and on the same where they aren't. Each of them allocates on one of them.
fn are_on_both<T: Type>(rt: &impl Abort, alloc: Global, calls: &[Call]) {
    for (i, call) in calls.iter().enumerate() {
        let shared = T::refused::<Rc>(rt, alloc, *call);
        let unshared = T::refused::<Unique>(rt, alloc, *call);
        must_meet(rt, alloc, i, shared.saturating_add(unshared));
    }
}

/// Like [`are_on_both`], for the calls of several tables.
pub(crate) fn on_both<T: Type>(rt: &impl Abort, alloc: Global, tables: &[&[Call]]) {
    for calls in tables {
        are_on_both::<T>(rt, alloc, calls);
    }
}

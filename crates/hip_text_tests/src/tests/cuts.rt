//! Trims, strips and cuts at one match, without a meter. Counted, they are those of `hipstr::run` (`cuts` of hipstr_tests).
use super::suite::{OfBackend, run_by_each};
use super::support::{must, must_hold};
use hip_cuts::{Backend, HipStr, TextCuts};
use std::alloc::{AllocError, Global};
use std::process::Abort;

/// Whether this text was made.
fn is_text<B: Backend>(text: Result<HipStr<'_, B>, AllocError>, want: &str) -> bool {
    match text {
        Ok(text) => text.str_eq(want),
        Err(_) => false,
    }
}

/// Whether this is what a strip left.
fn is_left<B: Backend>(
    left: Result<Option<HipStr<'_, B>>, AllocError>,
    want: Option<&str>,
) -> bool {
    match left {
        Ok(Some(left)) => want == Some(left.as_str()),
        Ok(None) => want.is_none(),
        Err(_) => false,
    }
}

/// Whether this is a copy of a text.
fn is_copy<B: Backend>(copy: Result<HipStr<'_, B>, AllocError>, source: &HipStr<'_, B>) -> bool {
    match copy {
        Ok(copy) => copy == *source,
        Err(_) => false,
    }
}

/// The parts of a text, which there may be none of.
type Parts<'b, B> = Result<Option<(HipStr<'b, B>, HipStr<'b, B>)>, AllocError>;

/// Whether these are the parts of a text.
fn are_parts<B: Backend>(parts: Parts<'_, B>, want: Option<(&str, &str)>) -> bool {
    match parts {
        Ok(Some((front, back))) => want == Some((front.as_str(), back.as_str())),
        Ok(None) => want.is_none(),
        Err(_) => false,
    }
}

fn trims<B: Backend>(alloc: Global) -> bool {
    let source = HipStr::<B>::borrowed("  a ");
    is_text(source.trim(alloc), "a")
        & is_text(source.trim_start(alloc), "a ")
        & is_text(source.trim_end(alloc), "  a")
}

fn trims_matches<B: Backend>(alloc: Global) -> bool {
    let source = HipStr::<B>::borrowed("xxaxx");
    is_text(source.trim_matches(alloc, 'x'), "a")
        & is_text(source.trim_start_matches(alloc, "x"), "axx")
        & is_text(source.trim_end_matches(alloc, "xx"), "xxa")
}

fn strips<B: Backend>(alloc: Global) -> bool {
    let source = HipStr::<B>::borrowed("éaé");
    is_left(source.strip_prefix(alloc, 'é'), Some("aé"))
        & is_left(source.strip_suffix(alloc, "é"), Some("éa"))
        & is_left(source.strip_suffix(alloc, "a"), None)
}

fn parts<B: Backend>(alloc: Global) -> bool {
    let source = HipStr::<B>::borrowed("a=b=c");
    are_parts(source.split_once(alloc, '='), Some(("a", "b=c")))
        & are_parts(source.rsplit_once(alloc, "="), Some(("a=b", "c")))
}

/// A text that was copied: its clone, and what is left of it.
fn of_a_copy<B: Backend>(rt: &impl Abort, alloc: Global) {
    let source = must(rt, HipStr::<B>::from_str(alloc, "abc"));
    let is_equal = is_copy(source.clone(alloc), &source);
    let rest = source.strip_prefix(alloc, "a");
    must_hold(rt, is_equal & is_left(rest, Some("bc")));
}

struct Cuts;

impl OfBackend for Cuts {
    fn run<B: Backend>(rt: &impl Abort, alloc: Global) {
        must_hold(rt, trims::<B>(alloc) & trims_matches::<B>(alloc));
        must_hold(rt, strips::<B>(alloc) & parts::<B>(alloc));
        of_a_copy::<B>(rt, alloc);
    }
}

#[test]
fn cuts_take_matches_off(rt: HostRuntime) {
    run_by_each::<Cuts>(&rt, rt.alloc());
}

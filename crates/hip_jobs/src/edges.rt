//! Inputs that are awkward.
ghost use Rattle.std.specs.Prelude.{◌≤◌};

use crate::digest::Digest;
use crate::made::{Numbers, push_letters};
use hip_fields::records;
use hip_uses::intern::Interner;
use hipstr::bytes::HipByt;
use hipstr::path::HipPath;
use hipstr::string::{HipStr, TextCuts};
use hipstr::{Rc, SliceSource, VecSink};
use std::alloc::{AllocError, Global};

/// A text of so many parts of letters, each between so many bytes in length, with a text behind each.
fn parts(
    alloc: Global,
    numbers: &mut Numbers,
    count: usize,
    (least, most): (usize, usize),
    behind: &str,
) -> Result<String, AllocError> {
    let mut text = String::new(alloc);
    for _ in 0..count {
        let more = numbers.below(most.saturating_sub(least).max(1));
        push_letters(&mut text, numbers, least.saturating_add(more))?;
        text.push_str(behind)?;
    }
    Ok(text)
}

fn owned<'b>(alloc: Global, text: String) -> Option<HipStr<'b, Rc>> {
    HipStr::from_string(alloc, text).ok()
}

/// A row of many fields, of no byte and of one.
fn wide_rows(alloc: Global, numbers: &mut Numbers, digest: &mut Digest) -> Option<()> {
    let text = owned(alloc, parts(alloc, numbers, 60_000, (0, 2), ",").ok()?)?;
    for record in &records(alloc, &text, ',').ok()? {
        for field in record {
            digest.ends(field.as_bytes());
        }
    }
    Some(())
}

/// Words that are all different.
fn different_words(alloc: Global, numbers: &mut Numbers, digest: &mut Digest) -> Option<()> {
    let text = owned(alloc, parts(alloc, numbers, 20_000, (9, 12), " ").ok()?)?;
    let mut interner = Interner::new(alloc);
    for number in &interner.intern_words(alloc, &text).ok()? {
        digest.number(u64::from(*number));
    }
    Some(())
}

/// Pieces just above the bytes that a handle holds, and just below, drawn from both ends in turn.
fn pieces(alloc: Global, numbers: &mut Numbers, digest: &mut Digest) -> Option<()> {
    let text = owned(alloc, parts(alloc, numbers, 30_000, (22, 26), ";").ok()?)?;
    let mut pieces = text.split(alloc, ';');
    for _ in 0..15_000 {
        if let (Some(front), Some(back)) = (pieces.next(), pieces.next_back()) {
            digest.ends(front.ok()?.as_bytes());
            digest.ends(back.ok()?.as_bytes());
        }
    }
    Some(())
}

/// A text that nearly matches everywhere.
fn near_matches(alloc: Global, numbers: &mut Numbers, digest: &mut Digest) -> Option<()> {
    let text = owned(alloc, parts(alloc, numbers, 6000, (1, 8), "aaaaaab").ok()?)?;
    for piece in text.split(alloc, "aaab") {
        digest.ends(piece.ok()?.as_bytes());
    }
    Some(())
}

/// Handles of one owner that are let go at once.
fn many_handles(alloc: Global, numbers: &mut Numbers, digest: &mut Digest) -> Option<()> {
    let bytes = parts(alloc, numbers, 1, (200, 400), "").ok()?;
    let owner = HipByt::<Rc>::from_slice(alloc, bytes.as_bytes()).ok()?;
    let mut handles = Vec::new(alloc);
    for start in 0..40_000usize {
        let part = owner.try_slice(alloc, start % 100..start % 100 + 50);
        handles.push(part.ok()?).ok()?;
    }
    for handle in &handles {
        digest.ends(handle.as_slice());
    }
    Some(())
}

/// Lines of which each has a fault, repaired, and gone through by trims and words.
fn repaired(alloc: Global, numbers: &mut Numbers, digest: &mut Digest) -> Option<()> {
    let mut bytes = parts(alloc, numbers, 4000, (20, 60), " \t\n")
        .ok()?
        .into_bytes();
    for (place, byte) in bytes.iter_mut().enumerate() {
        if place % 40 == 39 {
            *byte = 0xC3;
        }
    }
    let bytes = HipByt::<Rc>::from_vec(alloc, bytes).ok()?;
    let text = HipStr::from_utf8_lossy(alloc, bytes).ok()?;
    for line in &text.lines(alloc).collect().ok()? {
        trimmed_words(alloc, line, digest)?;
    }
    Some(())
}

/// The words of a line.
fn trimmed_words(alloc: Global, line: &HipStr<'_, Rc>, digest: &mut Digest) -> Option<()> {
    let line = line.trim(alloc).ok()?;
    for word in line.split_whitespace(alloc) {
        digest.ends(word.ok()?.as_bytes());
    }
    Some(())
}

/// The lines of a text as paths.
fn paths<'b>(alloc: Global, text: &HipStr<'b, Rc>) -> Option<Vec<HipPath<'b, Rc>>> {
    let mut paths = Vec::new(alloc);
    for line in text.lines(alloc).collect().ok()? {
        paths.push(HipPath::from(line)).ok()?;
    }
    Some(paths)
}

/// Paths that share 40 bytes, sorted.
fn sorted_paths(alloc: Global, numbers: &mut Numbers, digest: &mut Digest) -> Option<()> {
    let text = parts(
        alloc,
        numbers,
        2000,
        (4, 12),
        "\n/srv/projects/library/of/many//modules/",
    )
    .ok()?;
    let mut paths = paths(alloc, &owned(alloc, text)?)?;
    paths.sort().ok()?;
    for path in &paths {
        digest.ends(path.as_os_str());
    }
    Some(())
}

/// Values that are written and read again, in the form of Borsh and of JSON.
fn formats(alloc: Global, numbers: &mut Numbers, digest: &mut Digest) -> Option<()> {
    for _ in 0..4000 {
        let bytes = parts(alloc, numbers, 1, (10, 200), "\u{e9}\n").ok()?;
        let text = owned(alloc, bytes)?;
        let mut sink = VecSink::new(alloc);
        text.serialize(&mut sink).ok()?;
        let written = sink.into_vec();
        let read = HipStr::<Rc>::deserialize_reader(alloc, &mut SliceSource::new(&written)).ok()?;
        digest.ends(written.as_slice());
        let value = read.to_json(alloc).ok()?;
        digest.ends(HipStr::<Rc>::from_json(alloc, &value).ok()?.as_bytes());
    }
    Some(())
}

/// Works on all these inputs, `rounds` times.
pub(crate) fn cut(
    alloc: Global,
    rounds: usize,
    numbers: &mut Numbers,
    digest: &mut Digest,
) -> Option<()> {
    for _ in 0..rounds {
        wide_rows(alloc, numbers, digest)?;
        different_words(alloc, numbers, digest)?;
        pieces(alloc, numbers, digest)?;
        near_matches(alloc, numbers, digest)?;
        many_handles(alloc, numbers, digest)?;
        repaired(alloc, numbers, digest)?;
        sorted_paths(alloc, numbers, digest)?;
        formats(alloc, numbers, digest)?;
    }
    Some(())
}

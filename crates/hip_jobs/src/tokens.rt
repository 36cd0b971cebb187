//! Sources are cut into tokens.
use crate::digest::Digest;
use crate::made::{CYRILLIC, LATIN, Numbers, push_letters, push_word, text_of};
use hip_uses::tokens::tokens_metered;
use hipstr::string::HipStr;
use hipstr::{Meter, Rc};
use std::alloc::{AllocError, Global};

/// The number of different lines, and of those that a source has.
const LINES: usize = 10_000;

const LINES_OF_SOURCE: usize = 3000;

/// Adds a name, a number, a text or a comment, and a mark.
fn push_part(line: &mut String, numbers: &mut Numbers) -> Result<(), AllocError> {
    match numbers.below(12) {
        0 => line.push_str("return ")?,
        1 => line.push_str("0x7fff ")?,
        2 => {
            line.push('"')?;
            push_word(line, numbers, CYRILLIC, 6)?;
            line.push('"')?;
        }
        3 => line.push_str("    ")?,
        4 => line.push_str(" = 42; ")?,
        5 => {
            line.push_str("a_name_of_more_than_23_bytes_")?;
            push_letters(line, numbers, 4)?;
        }
        6 => line.push_str(" += ")?,
        _ => push_word(line, numbers, LATIN, 5)?,
    }
    line.push_str(if numbers.one_in(2) { "(" } else { "." })
}

/// A line of a source.
fn line(alloc: Global, numbers: &mut Numbers) -> Result<String, AllocError> {
    let mut line = String::new(alloc);
    for _ in 0..numbers.below(10) {
        push_part(&mut line, numbers)?;
    }
    Ok(line)
}

/// The stock of lines.
fn lines(alloc: Global, numbers: &mut Numbers) -> Result<Vec<String>, AllocError> {
    let mut lines = Vec::new(alloc);
    for _ in 0..LINES {
        lines.push(line(alloc, numbers)?)?;
    }
    Ok(lines)
}

/// Cuts many sources.
pub(crate) fn cut(
    alloc: Global,
    rounds: usize,
    numbers: &mut Numbers,
    digest: &mut Digest,
) -> Option<()> {
    let stock = lines(alloc, numbers).ok()?;
    for _ in 0..rounds {
        let source = text_of(alloc, numbers, stock.as_slice(), LINES_OF_SOURCE).ok()?;
        cut_one(alloc, source, digest)?;
    }
    Some(())
}

/// Cuts a source.
fn cut_one(alloc: Global, source: String, digest: &mut Digest) -> Option<()> {
    let source = HipStr::<Rc>::from_string(alloc, source).ok()?;
    let mut meter = Meter::new();
    for token in &tokens_metered(alloc, &source, &mut meter).ok()? {
        digest.number(token.start as u64);
        digest.number(token.class as u64);
        digest.ends(token.text.as_bytes());
    }
    digest.number(u64::try_from(meter.copied()).ok()?);
    Some(())
}

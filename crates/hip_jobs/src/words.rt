//! Words get numbers: prose in Latin and Cyrillic, and log lines with identifiers that share a long beginning and others that come once.
use crate::digest::Digest;
use crate::made::{CYRILLIC, LATIN, Numbers, drawn, push_letters, push_word};
use hip_uses::intern::Interner;
use hipstr::Rc;
use hipstr::string::HipStr;
use std::alloc::{AllocError, Global};

/// The number of bits that the number of a word has.
const BITS: usize = 16;

/// The number of different lines, and of those that a text has.
const LINES: usize = 20_000;

const LINES_OF_TEXT: usize = 4000;

/// A word, or an identifier of more than 23 bytes.
fn word(alloc: Global, numbers: &mut Numbers) -> Result<String, AllocError> {
    let mut word = String::new(alloc);
    match numbers.below(8) {
        0 => {
            word.push_str("service.request.handler.")?;
            push_word(&mut word, numbers, LATIN, 5)?;
        }
        1..=3 => push_word(&mut word, numbers, CYRILLIC, 5)?,
        _ => push_word(&mut word, numbers, LATIN, 5)?,
    }
    Ok(word)
}

/// All words, of which the first are the most frequent.
fn dictionary(alloc: Global, numbers: &mut Numbers) -> Result<Vec<String>, AllocError> {
    let mut words = Vec::new(alloc);
    for _ in 0..1usize << BITS {
        words.push(word(alloc, numbers)?)?;
    }
    Ok(words)
}

/// A line of 4 to 19 words.
fn line(alloc: Global, numbers: &mut Numbers, words: &[String]) -> Result<String, AllocError> {
    let mut line = String::new(alloc);
    let count = 4 + numbers.below(16);
    for _ in 0..count {
        if let Some(word) = words.get(numbers.by_zipf(BITS)) {
            line.push_str(word.as_str())?;
        }
        line.push_str(if numbers.one_in(8) { ", " } else { " " })?;
    }
    Ok(line)
}

/// The stock of lines.
fn lines(
    alloc: Global,
    numbers: &mut Numbers,
    words: &[String],
) -> Result<Vec<String>, AllocError> {
    let mut lines = Vec::new(alloc);
    for _ in 0..LINES {
        lines.push(line(alloc, numbers, words)?)?;
    }
    Ok(lines)
}

/// A text of lines, of which every fourth begins with a word that hardly comes again.
fn text(alloc: Global, numbers: &mut Numbers, stock: &[String]) -> Result<String, AllocError> {
    let mut text = String::new(alloc);
    for _ in 0..LINES_OF_TEXT {
        if numbers.one_in(4) {
            push_letters(&mut text, numbers, 8)?;
            text.push(' ')?;
        }
        text.push_str(drawn(numbers, stock))?;
        text.push('\n')?;
    }
    Ok(text)
}

/// Numbers the words of many texts, and looks the words up.
pub(crate) fn number(
    alloc: Global,
    rounds: usize,
    numbers: &mut Numbers,
    digest: &mut Digest,
) -> Option<()> {
    let words = dictionary(alloc, numbers).ok()?;
    let stock = lines(alloc, numbers, words.as_slice()).ok()?;
    number_all(
        alloc,
        rounds,
        numbers,
        words.as_slice(),
        stock.as_slice(),
        digest,
    )
}

/// Like [`number`], with words and lines that are made already.
fn number_all<'w>(
    alloc: Global,
    rounds: usize,
    numbers: &mut Numbers,
    words: &'w [String],
    stock: &[String],
    digest: &mut Digest,
) -> Option<()> {
    let mut interner: Interner<'w, Rc> = Interner::new(alloc);
    for _ in 0..rounds {
        let text = text(alloc, numbers, stock).ok()?;
        number_words(alloc, &mut interner, text, digest)?;
    }
    look_up(&interner, words, digest);
    Some(())
}

/// Numbers the words of a text.
fn number_words<'b>(
    alloc: Global,
    interner: &mut Interner<'b, Rc>,
    text: String,
    digest: &mut Digest,
) -> Option<()> {
    let text = HipStr::from_string(alloc, text).ok()?;
    for number in &interner.intern_words(alloc, &text).ok()? {
        digest.number(u64::from(*number));
    }
    digest.number(interner.len() as u64);
    Some(())
}

/// Looks each word up.
fn look_up<'b>(interner: &Interner<'b, Rc>, words: &'b [String], digest: &mut Digest) {
    for word in words {
        let found = interner.find(&HipStr::borrowed(word.as_str()));
        digest.number(found.map_or(0, |number| u64::from(number).wrapping_add(1)));
    }
}

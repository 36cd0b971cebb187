//! Numbers of words, and how many different texts there are then. A word that was interned is found again by a text of another kind.
use super::super::support::must_hold;
use hip_uses::intern::{InternFault, Interner};
use hipstr::string::HipStr;
use hipstr::{Backend, Rc, Unique};
use std::alloc::Global;
use std::process::Abort;

/// Words, their numbers, and how many of them are different.
const ROWS: [(&[&str], &[u32], usize); 4] = [
    (&[], &[], 0),
    (&["one", "fish", "two", "fish", "one"], &[0, 1, 2, 1, 0], 3),
    (&["a", "A", "\u{e1}", "a\u{301}", "a"], &[0, 1, 2, 3, 0], 4),
    (
        &[
            "a-word-of-more-than-23-bytes",
            "a-word-of-more-than-23-bytes!",
            "a-word-of-more-than-23-bytes",
        ],
        &[0, 1, 0],
        2,
    ),
];

/// Texts, the numbers of their words, and how many of them are different.
const TEXTS: [(&str, &[u32], usize); 4] = [
    ("", &[], 0),
    (" -- ", &[], 0),
    ("one fish, two fish; ONE fish!", &[0, 1, 2, 1, 3, 1], 4),
    (
        "\u{6f22}\u{5b57}a1,a-word-of-more-than-23-bytes\n23 a \u{6f22}\u{5b57}a1",
        &[0, 1, 2, 3, 4, 5, 6, 7, 6, 1, 0],
        8,
    ),
];

fn number_of<B: Backend>(
    alloc: Global,
    interner: &mut Interner<'static, B>,
    word: &'static str,
) -> Result<u32, InternFault> {
    interner.intern(alloc, HipStr::borrowed(word))
}

/// Whether an owned text of the word has this number, and the number that word.
fn is_kept<B: Backend>(
    alloc: Global,
    interner: &Interner<'static, B>,
    word: &str,
    number: u32,
) -> bool {
    let Ok(owned) = HipStr::from_str(alloc, word) else {
        return false;
    };
    interner.find(&owned) == Some(number)
        && interner.text(number).is_some_and(|text| text.str_eq(word))
}

/// Whether the words get these numbers.
fn numbers<B: Backend>(
    alloc: Global,
    words: &[&'static str],
    numbers: &[u32],
    count: usize,
) -> bool {
    let mut interner = Interner::<B>::new(alloc);
    let mut is_so = true;
    for (word, number) in words.iter().zip(numbers) {
        let given = number_of(alloc, &mut interner, word);
        is_so = is_so && given == Ok(*number) && is_kept(alloc, &interner, word, *number);
    }
    is_so && interner.len() == count
}

/// Whether the words of a text get these numbers.
fn numbers_words<B: Backend>(alloc: Global, text: &str, numbers: &[u32], count: usize) -> bool {
    let mut interner = Interner::<B>::new(alloc);
    match interner.intern_words(alloc, &HipStr::borrowed(text)) {
        Ok(given) => given.as_slice() == numbers && interner.len() == count,
        Err(_) => false,
    }
}

#[test]
fn different_words_have_numbers(rt: HostRuntime) {
    let alloc = rt.alloc();
    for (words, wanted, count) in ROWS {
        must_hold(&rt, &words, numbers::<Rc>(alloc, words, wanted, count));
        must_hold(&rt, &words, numbers::<Unique>(alloc, words, wanted, count));
    }
}

#[test]
fn words_of_texts_have_numbers(rt: HostRuntime) {
    let alloc = rt.alloc();
    for (text, wanted, count) in TEXTS {
        must_hold(&rt, &text, numbers_words::<Rc>(alloc, text, wanted, count));
        must_hold(
            &rt,
            &text,
            numbers_words::<Unique>(alloc, text, wanted, count),
        );
    }
}

//! How the bytes of a handle are held, and the bytes.
use super::refusing::must;
use hipstr::Backend;
use hipstr::string::HipStr;
use std::alloc::Global;
use std::process::Abort;

/// How the bytes of a handle are held.
#[derive(Clone, Copy)]
pub(crate) enum Held {
    /// In the handle itself.
    Inline,
    /// By what lends them.
    Lent,
    /// By an owner that no other handle has, with room for more.
    Sole,
    /// By one that a clone has too.
    Shared,
}

pub(crate) const EACH_HELD: &[Held] = &[Held::Inline, Held::Lent, Held::Sole, Held::Shared];

/// White space at both ends, and three parts of 30 bytes between commas. Three bytes of its front fit a handle.
pub(crate) const TEXT: &str =
    " aaaaaaaaaaaaaaaaaaaaaaaaaaaaaa,bbbbbbbbbbbbbbbbbbbbbbbbbbbbbb,cccccccccccccccccccccccccccccc ";

/// [`TEXT`] as bytes.
pub(crate) const BYTES: &[u8] =
    b" aaaaaaaaaaaaaaaaaaaaaaaaaaaaaa,bbbbbbbbbbbbbbbbbbbbbbbbbbbbbb,cccccccccccccccccccccccccccccc ";

/// Its first part, without the space.
pub(crate) const PART: &str = "aaaaaaaaaaaaaaaaaaaaaaaaaaaaaa";

/// [`PART`] as bytes.
pub(crate) const PART_BYTES: &[u8] = b"aaaaaaaaaaaaaaaaaaaaaaaaaaaaaa";

/// 40 bytes that are no text, nor is their front.
pub(crate) const BROKEN: &[u8] = b"a\xFFbbbbbbbbbbbbbbbbbbbbbbbbbbbbbbbbbbbbbb";

/// The text that is added to others.
pub(crate) const ADDED: &str = "0123456789abcdefghijklmnopqrstuvwxyz";

/// [`ADDED`] as bytes.
pub(crate) const ADDED_BYTES: &[u8] = b"0123456789abcdefghijklmnopqrstuvwxyz";

/// The values of texts.
pub(crate) const TEXTS: &[&[u8]] = &[BYTES];

/// The values of byte strings, which need be no text.
pub(crate) const LISTS: &[&[u8]] = &[BYTES, BROKEN];

/// A form of 30 bytes.
pub(crate) const FORM: &[u8] = b"\x1E\x00\x00\x00aaaaaaaaaaaaaaaaaaaaaaaaaaaaaa";

/// Units of a text of 30 bytes, and one more that has no partner.
pub(crate) const UNITS: &[u16] = &[0x6F22; 10];

pub(crate) const UNITS_AND_ONE: &[u16] = &[
    0x6F22, 0x6F22, 0x6F22, 0x6F22, 0x6F22, 0x6F22, 0x6F22, 0xD83D,
];

/// Pieces that are put together.
pub(crate) const PARTS: [&[u8]; 3] = [PART_BYTES, b"", PART_BYTES];

pub(crate) const TEXT_PARTS: [&str; 3] = [PART, "", PART];

/// Bytes that are held so: all of them, or a front that fits a handle.
pub(crate) fn bytes_of(held: Held, bytes: &'static [u8]) -> &'static [u8] {
    match held {
        Held::Inline => bytes.get(..3).unwrap_or_default(),
        Held::Lent | Held::Sole | Held::Shared => bytes,
    }
}

/// A text of these letters that is held so, and its clone.
pub(crate) fn text_of<B: Backend>(
    rt: &impl Abort,
    alloc: Global,
    held: Held,
    letters: &'static str,
) -> (HipStr<'static, B>, Option<HipStr<'static, B>>) {
    let text = match held {
        Held::Lent => HipStr::borrowed(letters),
        Held::Inline | Held::Sole | Held::Shared => must(rt, HipStr::from_str(alloc, letters)),
    };
    let clone = match held {
        Held::Shared => Some(must(rt, text.clone(alloc))),
        Held::Inline | Held::Lent | Held::Sole => None,
    };
    (text, clone)
}

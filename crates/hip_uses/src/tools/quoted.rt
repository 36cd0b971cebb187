//! Texts between quotes, as Rust's `Debug` of `str` prints them.
ghost use Rattle.std.specs.Prelude.{◌≡◌, ◌≤◌, ◌<◌, ◌++◌, [], ◌∷◌, List, ℕ, OnOk};
ghost use Rattle.std.specs.Fmt.{debug_escape, debug_escape_letter};
ghost use Rattle.std.specs.Io.KnownBytes.{Appends};
ghost use Rattle.std.specs.List.{flat_map};
ghost use Rattle.std.specs.Str.{IsAscii, chars};
ghost use Rattle.hip_uses.specs.Shown.{AreShown, IsQuoted, IsShown, shown_code};

use crate::fault::WriteFailed;
use crate::tools::print::write;
use std::io::Write;

/// Prints a character by its number.
fn print_code<W: Write>(out: &mut W, c: u32) -> Result<(), WriteFailed>
    ensures { OnOk result (Appends (W.contents out.old) (W.contents out.new) (shown_code c)) }
{
    write!(out, "\\u{{{c:x}}}").or(Err(WriteFailed))
}

/// Prints a character that isn't ASCII.
fn print_wide<W: Write>(out: &mut W, c: char) -> Result<(), WriteFailed>
    requires { 128 ≤ c }
    ensures { OnOk result ((text : List ℕ) × IsShown c text × Appends (W.contents out.old) (W.contents out.new) text) }
{
    if c.escape_debug().count() == 1 {
        write!(out, "{c}").or(Err(WriteFailed))
    } else {
        print_code(out, u32::from(c))
    }
}

/// The letter behind the backslash of an ASCII character that is told with one, or 0.
fn letter_of(c: u8) -> u8
    ensures { result ≡ debug_escape_letter c 34 }
{
    match c {
        b'"' | b'\\' => c,
        0 => b'0',
        b'\t' => b't',
        b'\n' => b'n',
        b'\r' => b'r',
        _ => 0,
    }
}

/// Prints an ASCII character between quotes.
#[tactic(auto, using(crate::proofs::Quotes::escaped))]
fn print_ascii<W: Write>(out: &mut W, c: u8) -> Result<(), WriteFailed>
    requires { c < 128 }
    ensures { OnOk result (Appends (W.contents out.old) (W.contents out.new) (debug_escape 34 c)) }
{
    let letter = letter_of(c);
    if letter != 0 {
        return write(out, &[b'\\', letter]);
    }
    if c < 32 || c == 127 {
        return print_code(out, u32::from(c));
    }
    write(out, &[c])
}

/// Prints a character between quotes.
fn print_char<W: Write>(out: &mut W, c: char) -> Result<(), WriteFailed>
    ensures { OnOk result ((text : List ℕ) × IsShown c text × Appends (W.contents out.old) (W.contents out.new) text) }
{
    if c.is_ascii() {
        return print_ascii(out, c as u8);
    }
    print_wide(out, c)
}

/// Prints the characters of a text, one after another.
fn print_chars<W: Write>(out: &mut W, text: &str) -> Result<(), WriteFailed>
    ensures { OnOk result ((shown : List ℕ) × AreShown (chars text.now) shown × Appends (W.contents out.old) (W.contents out.new) shown) }
{
    for c in text.chars() {
        print_char(out, c)?;
    }
    Ok(())
}

/// Prints an ASCII text between quotes, at once.
#[tactic(auto, using(crate::proofs::Quotes::debugs))]
fn print_plain<W: Write>(out: &mut W, text: &str) -> Result<(), WriteFailed>
    requires { IsAscii text.now }
    ensures { OnOk result (Appends (W.contents out.old) (W.contents out.new)
        (34 ∷ (flat_map (debug_escape 34) text.now ++ (34 ∷ [])))) }
{
    write!(out, "{text:?}").or(Err(WriteFailed))
}

/// Prints a text between quotes. Most are ASCII, which the library prints at once.
pub(crate) fn print_quoted<W: Write>(out: &mut W, text: &str) -> Result<(), WriteFailed>
    ensures { OnOk result ((shown : List ℕ) × IsQuoted text.now shown × Appends (W.contents out.old) (W.contents out.new) shown) }
{
    if text.is_ascii() {
        return print_plain(out, text);
    }
    write(out, b"\"")?;
    print_chars(out, text)?;
    write(out, b"\"")
}

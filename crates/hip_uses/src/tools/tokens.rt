//! The tokens of a text.
ghost use Rattle.std.specs.Prelude.{◌≡◌, ℕ, List, map, IfErr, IfSome, OnOk};
ghost use Rattle.std.specs.Io.KnownBytes.{Appends};
ghost use Rattle.hip_uses.specs.Listed.{AreTokenLines, IsTokenLine, PrintedAs, run_of};
ghost use Rattle.hip_uses.specs.Shown.{class_name};
ghost use Rattle.hip_uses.specs.Tools.{InputFails, NoFault, Tells, Writes, WritesNothing};

use crate::fault::{ToolFault, WriteFailed};
use crate::tokens::{Class, Token, tokens};
use crate::tools::input::read_text;
use crate::tools::print::{print_place, write};
use crate::tools::quoted::print_quoted;
use hipstr::Backend;
use hipstr::string::HipStr;
use std::alloc::Global;
use std::io::{Read, Write};

/// Reads a text, and writes its tokens, a line each: where it begins in bytes, its class, and its text between quotes.
///
/// Each line is written at once, so `out` should be buffered; it isn't flushed.
pub fn write_tokens<B: Backend, R: Read, W: Write>(
    alloc: Global,
    reader: &mut R,
    out: &mut W,
) -> Result<(), ToolFault>
    ensures read { IfSome (R.remaining reader.old) (λ input. Tells NoFault input result) }
    ensures written { OnOk result (IfSome (R.remaining reader.old) (λ input.
        Writes (AreTokenLines input) (W.contents out.old) (W.contents out.new))) }
    ensures nothing { IfErr result (λ fault.
        WritesNothing fault (W.contents out.old) (W.contents out.new)) }
{
    let text = read_text::<B, R>(alloc, reader)?;
    write_tokens_of(alloc, &text, out)
}

/// Like [`write_tokens`], of a text that is in memory.
fn write_tokens_of<B: Backend, W: Write>(
    alloc: Global,
    text: &HipStr<'_, B>,
    out: &mut W,
) -> Result<(), ToolFault>
    ensures fault { IfErr result (InputFails NoFault text.now.items) }
    ensures written { OnOk result
        (Writes (AreTokenLines text.now.items) (W.contents out.old) (W.contents out.new)) }
    ensures nothing { IfErr result (λ fault.
        WritesNothing fault (W.contents out.old) (W.contents out.new)) }
{
    let tokens = tokens(alloc, text)?;
    print_tokens(out, tokens.as_slice())?;
    Ok(())
}

/// Prints tokens, a line each.
fn print_tokens<B: Backend, W: Write>(
    out: &mut W,
    tokens: &[Token<'_, B>],
) -> Result<(), WriteFailed>
    ensures { OnOk result ((text : List ℕ) × PrintedAs IsTokenLine (map run_of tokens.now) text
        × Appends (W.contents out.old) (W.contents out.new) text) }
{
    for token in tokens {
        print_token(out, token.start, token.class, token.text.as_str())?;
    }
    Ok(())
}

/// Prints a token.
fn print_token<W: Write>(
    out: &mut W,
    start: usize,
    class: Class,
    text: &str,
) -> Result<(), WriteFailed>
    ensures { OnOk result ((line : List ℕ)
        × IsTokenLine (record { start = start; class = class; text = text.now }) line
        × Appends (W.contents out.old) (W.contents out.new) line) }
{
    print_place(out, start, class_name(class))?;
    print_quoted(out, text)?;
    write(out, b"\n")
}

fn class_name(class: Class) -> &'static str
    ensures { result.now ≡ class_name class }
{
    match class {
        Class::Word => "Word",
        Class::Digits => "Digits",
        Class::Space => "Space",
        Class::Mark => "Mark",
    }
}

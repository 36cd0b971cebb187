//! How a tool prints.
ghost use Rattle.std.specs.Prelude.{◌++◌, OnOk, codes, decimal};
ghost use Rattle.std.specs.Io.KnownBytes.{Appends};
ghost use Rattle.hip_uses.specs.Tools.{as_line};

use crate::fault::WriteFailed;
use std::io::Write;

/// Writes bytes.
pub(crate) fn write<W: Write>(out: &mut W, bytes: &[u8]) -> Result<(), WriteFailed>
    ensures { OnOk result (Appends (W.contents out.old) (W.contents out.new) bytes.now) }
{
    out.write_all(bytes).or(Err(WriteFailed))
}

/// Prints a text on a line of its own.
pub(crate) fn print_line<W: Write>(out: &mut W, text: &str) -> Result<(), WriteFailed>
    ensures { OnOk result (Appends (W.contents out.old) (W.contents out.new) (as_line text.now)) }
{
    writeln!(out, "{text}").or(Err(WriteFailed))
}

/// Prints a place and a name, with a space behind each.
pub(crate) fn print_place<W: Write>(
    out: &mut W,
    place: usize,
    name: &str,
) -> Result<(), WriteFailed>
    ensures { OnOk result (Appends (W.contents out.old) (W.contents out.new)
        (decimal place ++ (codes " " ++ (name.now ++ codes " ")))) }
{
    write!(out, "{place} {name} ").or(Err(WriteFailed))
}

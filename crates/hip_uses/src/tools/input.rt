//! The input of a tool, as a text.
ghost use Rattle.std.specs.Prelude.{◌≡◌, ◌≤◌, ◌⊎◌, length, IfOk, IfSome, IsUtf8};
ghost use Rattle.hip_uses.specs.Tools.{ReadsText, line_at};
ghost use Rattle.hip_uses.specs.Number.{text_bytes};

use crate::fault::ToolFault;
use hipstr::Backend;
use hipstr::bytes::HipByt;
use hipstr::string::HipStr;
use std::alloc::Global;
use std::io;
use std::io::{ErrorKind, Read};

/// Which line of a text the byte at a place is on, counted from 1.
pub(crate) fn line_of(text: &[u8], place: usize) -> usize
    requires { place ≤ length text.now }
    ensures { result ≡ line_at text.now place }
{
    let mut line = 1;
    for byte in &text[..place] {
        if *byte == b'\n' {
            line += 1;
        }
    }
    line
}

/// Why the input could not be read.
fn read_fault(error: &io::Error) -> ToolFault
    ensures { (result ≡ ToolFault.ReadFailed) ⊎ (result ≡ ToolFault.Memory) }
{
    match error.kind() {
        ErrorKind::OutOfMemory => ToolFault::Memory,
        _ => ToolFault::ReadFailed,
    }
}

/// All that a reader still gives, as a text.
pub(crate) fn read_text<'b, B: Backend, R: Read>(
    alloc: Global,
    reader: &mut R,
) -> Result<HipStr<'b, B>, ToolFault>
    ensures read { IfSome (R.remaining reader.old) (λ input. ReadsText text_bytes input result) }
    ensures utf8 { IfOk result (λ text. IsUtf8 text.items) }
{
    let mut bytes = Vec::new(alloc);
    if let Err(error) = reader.read_to_end(&mut bytes) {
        return Err(read_fault(&error));
    }
    let Ok(bytes) = HipByt::from_vec(alloc, bytes) else {
        return Err(ToolFault::Memory);
    };
    text_of(bytes)
}

/// Bytes as a text.
fn text_of<'b, B: Backend>(bytes: HipByt<'b, B>) -> Result<HipStr<'b, B>, ToolFault>
    ensures read { ReadsText text_bytes bytes.entry.items result }
    ensures utf8 { IfOk result (λ text. IsUtf8 text.items) }
{
    match HipStr::from_utf8(bytes) {
        Ok(text) => Ok(text),
        Err(error) => {
            let place = error.utf8_error().valid_up_to();
            Err(ToolFault::NotUtf8(line_of(error.as_bytes(), place)))
        }
    }
}

//! How answers and bytes are printed.
ghost use Rattle.std.specs.Prelude.{◌≡◌, ◌<◌, ◌++◌, ℕ, List, codes, false, if◌then◌else◌, map, IsTrue, IfOk, OnErr};
ghost use Rattle.std.specs.Fmt.{digit_glyph};
ghost use Rattle.std.specs.Io.KnownBytes.{Appends, Keeps};
ghost use Rattle.memchr.specs.Find.{IsFirstByte};
ghost use Rattle.hip_script.specs.Printed.{kind_name, order_name, printed_answer, printed_byte, printed_field, printed_hex, printed_literal, printed_number, printed_record, printed_records, printed_slot, reason_name};
ghost use Rattle.hip_script.specs.Prints.{Prints};
ghost use Rattle.hip_script.specs.Said.{items_of, needs_escape, texts_of};

use crate::fault::WriteFailed;
use hipstr::string::HipStr;
use hipstr::{Answer, Backend, Kind, Reason};
use itoa::{Buffer, Integer};
use std::cmp::Ordering;
use std::io::{ErrorKind, Write};

/// Writes bytes. That it failed is told in one byte, where an `io::Error` would be moved from call to call.
///
/// `write_all` says nothing of what was written before it failed; this says that it was a front of the bytes.
#[inline(always)]
pub(crate) fn write<W: Write>(out: &mut W, bytes: &[u8]) -> Result<(), WriteFailed>
    ensures { Prints (W.contents out.old) (W.contents out.new) bytes.now result }
{
    if bytes.is_empty() {
        return Ok(());
    }
    let rest = write_front(out, bytes)?;
    if rest.is_empty() {
        return Ok(());
    }
    write_rest(out, rest)
}

/// Writes what a first write left.
#[cold]
#[inline(never)]
fn write_rest<W: Write>(out: &mut W, bytes: &[u8]) -> Result<(), WriteFailed>
    ensures { Prints (W.contents out.old) (W.contents out.new) bytes.now result }
{
    let mut rest = bytes;
    for _turn in 0..usize::MAX {
        if rest.is_empty() {
            return Ok(());
        }
        rest = write_front(out, rest)?;
    }
    Err(WriteFailed)
}

/// Writes a front of the bytes, and gives the others: all of them where the write was interrupted.
#[inline(always)]
fn write_front<'t, W: Write>(out: &mut W, bytes: &'t [u8]) -> Result<&'t [u8], WriteFailed>
    ensures written { IfOk result (λ rest. (front : List ℕ) × (front ++ rest.now ≡ bytes.now)
        × Appends (W.contents out.old) (W.contents out.new) front) }
    ensures failed { OnErr result (Keeps (W.contents out.old) (W.contents out.new)) }
{
    match out.write(bytes) {
        Ok(0) => Err(WriteFailed),
        Ok(count) => Ok(&bytes[count..]),
        Err(error) if error.kind() == ErrorKind::Interrupted => Ok(bytes),
        Err(_) => Err(WriteFailed),
    }
}

/// Prints an answer on a line of its own.
pub(crate) fn print_answer<W: Write>(out: &mut W, answer: Answer) -> Result<(), WriteFailed>
    ensures { Prints (W.contents out.old) (W.contents out.new) (printed_answer answer) result }
{
    match answer {
        Answer::Number(number) => print_number(out, number),
        Answer::Byte(byte) => print_popped_byte(out, byte),
        Answer::Char(c) => print_popped_char(out, c),
        Answer::Done => write(out, b"done\n"),
        Answer::Nothing => write(out, b"nothing\n"),
        Answer::Order(order) => write(out, order_line(order)),
        Answer::Kind(kind) => write(out, kind_line(kind)),
        Answer::Refused(reason) => write(out, refused_line(reason)),
    }
}

/// Prints a byte that was taken off.
fn print_popped_byte<W: Write>(out: &mut W, byte: u8) -> Result<(), WriteFailed>
    ensures { Prints (W.contents out.old) (W.contents out.new) (printed_answer (Answer.Byte byte)) result }
{
    write(out, b"byte ")?;
    print_line(out, byte)
}

/// Prints a character that was taken off.
fn print_popped_char<W: Write>(out: &mut W, c: char) -> Result<(), WriteFailed>
    ensures { Prints (W.contents out.old) (W.contents out.new) (printed_answer (Answer.Char c)) result }
{
    write(out, b"char ")?;
    print_line(out, u32::from(c))
}

/// Prints a number on a line of its own. Most have one digit, which needs no division.
fn print_number<W: Write>(out: &mut W, number: usize) -> Result<(), WriteFailed>
    ensures { Prints (W.contents out.old) (W.contents out.new) (printed_number number) result }
{
    if number < 10 {
        write(out, &[b'0' + number as u8, b'\n'])
    } else {
        print_line(out, number)
    }
}

/// Prints the number of copied bytes on a line of its own.
pub(crate) fn print_count<W: Write>(out: &mut W, count: u128) -> Result<(), WriteFailed>
    ensures { Prints (W.contents out.old) (W.contents out.new) (printed_number count) result }
{
    print_line(out, count)
}

/// Prints a number of any width on a line of its own. A function that formats is a call, so that an answer without a number makes no room to
/// format in.
#[inline(never)]
fn print_line<W: Write, I: Integer>(out: &mut W, number: I) -> Result<(), WriteFailed>
    ensures { Prints (W.contents out.old) (W.contents out.new) (I.text number ++ codes "\n") result }
{
    write(out, Buffer::new().format(number).as_bytes())?;
    write(out, b"\n")
}

fn order_line(order: Ordering) -> &'static [u8]
    ensures { result.now ≡ order_name order ++ codes "\n" }
{
    match order {
        Ordering::Less => b"less\n",
        Ordering::Equal => b"equal\n",
        Ordering::Greater => b"greater\n",
    }
}

fn kind_line(kind: Kind) -> &'static [u8]
    ensures { result.now ≡ kind_name kind ++ codes "\n" }
{
    match kind {
        Kind::Inline => b"inline\n",
        Kind::Borrowed => b"borrowed\n",
        Kind::Allocated => b"allocated\n",
    }
}

fn refused_line(reason: Reason) -> &'static [u8]
    ensures { result.now ≡ codes "refused " ++ reason_name reason ++ codes "\n" }
{
    match reason {
        Reason::NoSlot => b"refused NoSlot\n",
        Reason::Overlap => b"refused Overlap\n",
        Reason::NotText => b"refused NotText\n",
        Reason::NotBytes => b"refused NotBytes\n",
        Reason::NotUtf8 => b"refused NotUtf8\n",
        Reason::TooLong => b"refused TooLong\n",
        Reason::StartGreaterThanEnd => b"refused StartGreaterThanEnd\n",
        Reason::StartOutOfBounds => b"refused StartOutOfBounds\n",
        Reason::EndOutOfBounds => b"refused EndOutOfBounds\n",
        Reason::StartNotACharBoundary => b"refused StartNotACharBoundary\n",
        Reason::EndNotACharBoundary => b"refused EndNotACharBoundary\n",
        Reason::OutOfRange => b"refused OutOfRange\n",
        Reason::OneEnd => b"refused OneEnd\n",
        Reason::Memory => b"refused Memory\n",
    }
}

/// Prints what a slot is, and its bytes.
pub(crate) fn print_slot<W: Write>(
    out: &mut W,
    is_text: bool,
    bytes: &[u8],
) -> Result<(), WriteFailed>
    ensures { Prints (W.contents out.old) (W.contents out.new) (printed_slot is_text bytes.now) result }
{
    write(out, slot_word(is_text))?;
    print_literal(out, bytes)?;
    write(out, b"\n")
}

fn slot_word(is_text: bool) -> &'static [u8]
    ensures { result.now ≡ (if is_text then codes "text " else codes "bytes ") }
{
    if is_text { b"text " } else { b"bytes " }
}

/// Prints records, each on a line of its own.
pub(crate) fn print_records<B: Backend, W: Write>(
    out: &mut W,
    records: &[Vec<HipStr<'_, B>>],
) -> Result<(), WriteFailed>
    ensures { Prints (W.contents out.old) (W.contents out.new) (printed_records (map texts_of records.now)) result }
{
    for fields in records {
        print_record(out, fields)?;
    }
    Ok(())
}

/// Prints a record: its fields as literals, each after one space.
fn print_record<B: Backend, W: Write>(
    out: &mut W,
    fields: &[HipStr<'_, B>],
) -> Result<(), WriteFailed>
    ensures { Prints (W.contents out.old) (W.contents out.new) (printed_record (map items_of fields.now)) result }
{
    write(out, b"record")?;
    for field in fields {
        print_field(out, field.as_bytes())?;
    }
    write(out, b"\n")
}

/// Prints a field behind a space.
fn print_field<W: Write>(out: &mut W, field: &[u8]) -> Result<(), WriteFailed>
    ensures { Prints (W.contents out.old) (W.contents out.new) (printed_field field.now) result }
{
    write(out, b" ")?;
    print_literal(out, field)
}

/// Prints bytes as a literal: 0x20 to 0x7E stand for themselves, but `\"` and `\\` don't.
pub(crate) fn print_literal<W: Write>(out: &mut W, bytes: &[u8]) -> Result<(), WriteFailed>
    ensures { Prints (W.contents out.old) (W.contents out.new) (printed_literal bytes.now) result }
{
    write(out, b"\"")?;
    let mut rest = bytes;
    while let Some(at) = escape_at(rest) {
        write(out, &rest[..at])?;
        print_escaped(out, rest[at])?;
        rest = &rest[at + 1..];
    }
    write(out, rest)?;
    write(out, b"\"")
}

/// The position of the first byte that doesn't stand for itself.
fn escape_at(bytes: &[u8]) -> Option<usize>
    ensures { IsFirstByte needs_escape bytes.now result }
{
    bytes.iter().position(|byte| needs_escape(*byte))
}

/// Whether a byte doesn't stand for itself in a literal.
fn needs_escape(byte: u8) -> bool
    ensures { result ≡ needs_escape byte }
{
    byte == b'"' || byte == b'\\' || !matches!(byte, 0x20..=0x7E)
}

/// Prints a byte of a literal that doesn't stand for itself.
fn print_escaped<W: Write>(out: &mut W, byte: u8) -> Result<(), WriteFailed>
    requires { IsTrue (needs_escape byte) }
    ensures { Prints (W.contents out.old) (W.contents out.new) (printed_byte byte) result }
{
    match byte {
        b'"' => write(out, b"\\\""),
        b'\\' => write(out, b"\\\\"),
        _ => print_hex(out, byte),
    }
}

/// Prints a byte by its two digits.
fn print_hex<W: Write>(out: &mut W, byte: u8) -> Result<(), WriteFailed>
    ensures { Prints (W.contents out.old) (W.contents out.new) (printed_hex byte) result }
{
    write(
        out,
        &[b'\\', b'x', hex_glyph(byte / 16), hex_glyph(byte % 16)],
    )
}

/// A digit in base 16.
fn hex_glyph(value: u8) -> u8
    requires { value < 16 }
    ensures { result ≡ digit_glyph false value }
{
    if value < 10 {
        b'0' + value
    } else {
        b'a' + (value - 10)
    }
}

//! The words of a text, and how often each comes.
ghost use Rattle.std.specs.Prelude.{◌≡◌, ◌<◌, ℕ, ◌==◌, All, IfErr, IfOk, IfSome, IsPermutation, IsSortedBy, IsUtf8, OnOk, length, map, slice_index, vec_len};
ghost use Rattle.std.specs.Io.KnownBytes.{Appends};
ghost use Rattle.std.specs.List.{count_by};
ghost use Rattle.hip_uses.specs.Counts.{AreCountLines, CountFails, count_line};
ghost use Rattle.hip_uses.specs.Number.{text_bytes};
ghost use Rattle.hip_uses.specs.Tallies.{count_and_place, named_lines, numbered, ranks_first};
ghost use Rattle.hip_uses.specs.Tools.{InputFails, Tells, Writes, WritesNothing, of_intern};

use crate::fault::{ToolFault, WriteFailed};
use crate::intern::{InternFault, Interner};
use crate::tools::input::read_text;
use hipstr::Backend;
use hipstr::string::HipStr;
use std::alloc::{AllocError, Global};
use std::cmp::Reverse;
use std::hash::BuildHasher;
use std::io::{Read, Write};

/// Reads a text, and writes each different word of it, a line each: how often it comes, and the word. The most frequent comes first, and of
/// those that are as frequent the one that came first.
///
/// Each line is written at once, so `out` should be buffered; it isn't flushed.
pub fn write_counts<B: Backend, S: BuildHasher + Drop, R: Read, W: Write>(
    alloc: Global,
    hash_builder: S,
    reader: &mut R,
    out: &mut W,
) -> Result<(), ToolFault>
    ensures read { IfSome (R.remaining reader.old) (λ input.
        Tells (CountFails input) input result) }
    ensures written { OnOk result (IfSome (R.remaining reader.old) (λ input.
        Writes (AreCountLines input) (W.contents out.old) (W.contents out.new))) }
    ensures nothing { IfErr result (λ fault.
        WritesNothing fault (W.contents out.old) (W.contents out.new)) }
{
    let text = read_text::<B, R>(alloc, reader)?;
    write_counts_of(alloc, hash_builder, &text, out)
}

/// Like [`write_counts`], of a text that is in memory.
fn write_counts_of<B: Backend, S: BuildHasher + Drop, W: Write>(
    alloc: Global,
    hash_builder: S,
    text: &HipStr<'_, B>,
    out: &mut W,
) -> Result<(), ToolFault>
    requires { IsUtf8 text.now.items }
    ensures fault { IfErr result (InputFails (CountFails text.now.items) text.now.items) }
    ensures written { OnOk result
        (Writes (AreCountLines text.now.items) (W.contents out.old) (W.contents out.new)) }
    ensures nothing { IfErr result (λ fault.
        WritesNothing fault (W.contents out.old) (W.contents out.new)) }
{
    let mut interner = Interner::with_hasher(alloc, hash_builder);
    let numbers = match interner.intern_words(alloc, text) {
        Ok(numbers) => numbers,
        Err(fault) => return Err(intern_fault(fault)),
    };
    let counts = counts_of(alloc, numbers.as_slice(), interner.len())?;
    let rows = ranked(alloc, counts.as_slice())?;
    print_counts(out, interner.texts(), rows.as_slice())?;
    Ok(())
}

/// The fault of an interner as the tool's.
fn intern_fault(fault: InternFault) -> ToolFault
    ensures { result ≡ of_intern fault }
{
    match fault {
        InternFault::TooMany => ToolFault::TooManyWords,
        InternFault::Memory => ToolFault::Memory,
    }
}

/// How often each number below `len` comes.
fn counts_of(alloc: Global, numbers: &[u32], len: usize) -> Result<Vec<u64>, AllocError>
    requires { All (λ number. number < len) numbers.now }
    ensures len { IfOk result (λ counts. vec_len counts ≡ len) }
    ensures counts { IfOk result (λ counts. (k : ℕ) → k < len
        → slice_index counts.items k ≡ count_by (λ number. number == k) numbers.now) }
{
    let mut counts = vec![in alloc; 0u64; len]?;
    for number in numbers {
        counts[*number as usize] += 1;
    }
    Ok(counts)
}

/// Counts with their places, the greatest first, and those that are as great in the order of their places.
fn ranked(alloc: Global, counts: &[u64]) -> Result<Vec<(Reverse<u64>, usize)>, AllocError>
    ensures each { IfOk result (λ rows.
        IsPermutation (numbered counts.now) (map count_and_place rows.items)) }
    ensures order { IfOk result (λ rows.
        IsSortedBy ranks_first (map count_and_place rows.items)) }
{
    let mut rows = Vec::with_capacity(alloc, counts.len())?;
    for (place, count) in counts.iter().enumerate() {
        rows.push_reserved((Reverse(*count), place));
    }
    rows.sort_unstable();
    Ok(rows)
}

/// Prints counts, each with the text at its place, a line each.
fn print_counts<B: Backend, W: Write>(
    out: &mut W,
    texts: &[HipStr<'_, B>],
    rows: &[(Reverse<u64>, usize)],
) -> Result<(), WriteFailed>
    requires { All (λ row. row.1 < length texts.now) rows.now }
    ensures { OnOk result (Appends (W.contents out.old) (W.contents out.new)
        (named_lines (map text_bytes texts.now) rows.now)) }
{
    for row in rows {
        print_count(out, row.0.0, texts[row.1].as_str())?;
    }
    Ok(())
}

/// Prints a word and how often it comes.
fn print_count<W: Write>(out: &mut W, count: u64, word: &str) -> Result<(), WriteFailed>
    ensures { OnOk result (Appends (W.contents out.old) (W.contents out.new)
        (count_line (word.now, count))) }
{
    writeln!(out, "{count} {word}").or(Err(WriteFailed))
}

//! The output of each tool.
use crate::fault::Fault;
use crate::tool::Tool;
use hip_uses::packed::Packed;
use hip_uses::template::Values;
use hip_uses::tools::{ToolFault, write_column, write_counts, write_filled, write_tokens};
use hipstr::Rc;
use hipstr::string::HipStr;
use std::alloc::Global;
use std::hash::RandomState;
use std::io::{BufWriter, Read, Write};
use std::random::RandomSource;

/// Reads the text whole, and writes what the tool makes of it. The seed of hashers is drawn from `random`.
pub(crate) fn perform<S: RandomSource, R: Read + Drop, W: Write + Drop>(
    random: &S,
    alloc: Global,
    tool: Tool<'_>,
    mut reader: R,
    writer: W,
) -> Result<(), Fault> {
    let Ok(mut out) = BufWriter::new(alloc, writer) else {
        return Err(Fault::Tool(ToolFault::Memory));
    };
    let written = write_answer(random, alloc, tool, &mut reader, &mut out);
    let flushed = match written {
        Err(Fault::Tool(ToolFault::WriteFailed)) => Ok(()),
        _ => out.flush(),
    };
    let (_writer, _unwritten) = out.into_parts();
    written?;
    flushed.map_err(|_| Fault::Tool(ToolFault::WriteFailed))
}

fn write_answer<S: RandomSource, R: Read, W: Write>(
    random: &S,
    alloc: Global,
    tool: Tool<'_>,
    reader: &mut R,
    out: &mut W,
) -> Result<(), Fault> {
    match tool {
        Tool::Tokens => write_tokens::<Rc, _, _>(alloc, reader, out)?,
        Tool::Table(column) => write_column::<Rc, _, _>(alloc, column, reader, out)?,
        Tool::Fill(words) => {
            let values = values_of(drawn(random)?, alloc, words)?;
            write_filled(alloc, &values, reader, out)?;
        }
        Tool::Count => {
            let hash_builder = Packed {
                hash_builder: drawn(random)?,
            };
            write_counts::<Rc, _, _, _>(alloc, hash_builder, reader, out)?;
        }
    }
    Ok(())
}

/// A seed for hashers. Words and names come from outside, where somebody may have chosen them.
fn drawn<S: RandomSource>(random: &S) -> Result<RandomState, Fault> {
    RandomState::new(random).map_err(|_| Fault::NoRandomness)
}

/// The values that the arguments `NAME=VALUE` set.
fn values_of<'a>(
    state: RandomState,
    alloc: Global,
    words: &'a [String],
) -> Result<Values<'a, Rc, RandomState>, Fault> {
    let mut values = Values::with_hasher(alloc, state);
    for word in words {
        let Some((name, value)) = word.as_str().split_once('=') else {
            return Err(Fault::Usage);
        };
        values.set(HipStr::borrowed(name), HipStr::borrowed(value))?;
    }
    Ok(values)
}

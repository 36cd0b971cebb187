//! Records of fields. The input is a mebibyte of lines, each of eight fields between commas. Where it isn't a text, the answer is 0.
use crate::pieces::{lent, owned};
use crate::ring::{look, mix};
use hip_fields::reader::Records;
use hipstr::Rc;
use hipstr::pattern::Ranges;
use hipstr::string::HipStr;
use std::alloc::Global;

/// Draws all records, of which each is kept until the next is there: a checksum with the number of their fields and of these fields'
/// bytes more.
fn draw_records<'h, 'b, I: Ranges + Drop>(
    alloc: Global,
    mut records: Records<'h, HipStr<'b, Rc>, I>,
    kept: &mut Vec<HipStr<'b, Rc>>,
    before: u64,
) -> Option<u64> {
    let mut sum = before;
    while let Some(fields) = records.next_record(alloc) {
        *kept = fields.ok()?;
        sum = mix(mix(sum, kept.len() as u64), total_len(kept));
    }
    Some(sum)
}

/// The number of bytes of all texts together.
#[inline(always)]
fn total_len(texts: &[HipStr<'_, Rc>]) -> u64 {
    let mut len = 0u64;
    for text in texts {
        len = len.wrapping_add(text.len() as u64);
    }
    len
}

/// Each round draws all records of a text.
fn rounds_of_records(alloc: Global, text: Option<HipStr<'_, Rc>>, rounds: u64) -> Option<u64> {
    let text = text?;
    let mut kept = Vec::new(alloc);
    let mut sum = 0;
    for _ in 0..rounds {
        sum = draw_records(alloc, Records::new(&text, ','), &mut kept, sum)?;
    }
    for field in &kept {
        sum = look(sum, field.as_bytes());
    }
    Some(sum)
}

#[unsafe(no_mangle)]
pub extern "C" fn hip_records(alloc: Global, input: &[u8], rounds: u64) -> u64 {
    rounds_of_records(alloc, owned(alloc, input), rounds).unwrap_or(0)
}

#[unsafe(no_mangle)]
pub extern "C" fn hip_records_borrowed(alloc: Global, input: &[u8], rounds: u64) -> u64 {
    rounds_of_records(alloc, lent(input), rounds).unwrap_or(0)
}

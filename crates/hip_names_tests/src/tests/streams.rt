//! Forms from readers and to writers that are slow, that fail at one call, or that take nothing.
use super::handle::{Form, Handle};
use super::support::{equals, must};
use hip_bytes::{BorshFault, ByteSink, ByteSource, FromRead, Fuse, ToWrite, VecSink};
use std::alloc::Global;
use std::process::Abort;

const FORM: &[u8] = b"\x03\x00\x00\x00abc";

/// Writes to a writer that takes at most `most` bytes a call and fails at its `k`-th call alone, and answers how many writes failed.
fn write_to<F: Form>(
    value: &F,
    taken: &mut Vec<u8>,
    most: usize,
    k: u64,
) -> (Result<(), BorshFault>, u64) {
    let mut sink = ToWrite::new(Fuse::new(taken, most, k));
    let written = value.serialize(&mut sink);
    (written, sink.failures())
}

/// Reads from a reader that gives at most `most` bytes a call and fails at its `k`-th call alone, and answers how many reads failed.
fn read_from<F: Form>(
    alloc: Global,
    rest: &mut &[u8],
    most: usize,
    k: u64,
) -> (Result<F, BorshFault>, u64) {
    let mut source = FromRead::new(Fuse::new(rest, most, k));
    let read = F::deserialize_reader(alloc, &mut source);
    (read, source.failures())
}

/// Asserts that all of a form is read but the byte behind it, at most so many bytes a call.
fn reads_by<F: Form>(rt: &impl Abort, alloc: Global, bytes: &[u8], most: usize) {
    let mut rest = bytes;
    let (read, failures) = read_from::<F>(alloc, &mut rest, most, 0);
    let read = must(rt, read);
    equals(
        rt,
        &(Some(read.bytes()), rest, failures),
        &(bytes.get(4..10_004), &b"z"[..], 0),
    );
}

/// A form of 10,000 `a`, and a `z` behind it, one byte a read and as many as there is room for.
fn reads_slowly<F: Form>(rt: &impl Abort, alloc: Global) {
    let mut bytes = must(rt, vec![in alloc; 0x10, 0x27, 0, 0]);
    must(rt, bytes.resize(10_004, b'a'));
    must(rt, bytes.push(b'z'));
    reads_by::<F>(rt, alloc, bytes.as_slice(), 1);
    reads_by::<F>(rt, alloc, bytes.as_slice(), usize::MAX);
}

/// A length of four gigabytes and 10,000 bytes: all are taken.
fn far_too_short<F: Form>(rt: &impl Abort, alloc: Global) {
    let mut bytes = must(rt, vec![in alloc; 0xFF; 4]);
    must(rt, bytes.resize(10_004, b'a'));
    is_cut_short::<F>(rt, alloc, bytes.as_slice());
}

/// Asserts that a form of which there isn't all is told to be so, and that all is taken.
fn is_cut_short<F: Form>(rt: &impl Abort, alloc: Global, form: &[u8]) {
    let mut rest = form;
    let (read, failures) = read_from::<F>(alloc, &mut rest, 1, 0);
    equals(
        rt,
        &(read.err(), rest.len(), failures),
        &(Some(BorshFault::Truncated), 0, 0),
    );
}

/// Reads a form, one byte a call, from a reader that fails at its `k`-th call: as many bytes were taken as calls went well.
fn is_read<F: Form>(rt: &impl Abort, alloc: Global, k: usize) {
    let mut rest = FORM;
    let (read, failures) = read_from::<F>(alloc, &mut rest, 1, k as u64);
    let wanted = if 0 < k && k <= FORM.len() {
        (Some(BorshFault::Io), FORM.len() + 1 - k, 1)
    } else {
        (None, 0, 0)
    };
    assert_eq!(rt; (read.err(), rest.len(), failures), wanted, "at call {k}");
}

/// Writes a form, one byte a call, to a writer that fails at its `k`-th call.
fn is_written<F: Form>(rt: &impl Abort, alloc: Global, k: usize) {
    let mut taken = Vec::new(alloc);
    let (written, failures) = write_to(&must(rt, F::lent(b"abc")), &mut taken, 1, k as u64);
    let wanted = if 0 < k && k <= FORM.len() {
        (Err(BorshFault::Io), &FORM[..k - 1], 1)
    } else {
        (Ok(()), FORM, 0)
    };
    assert_eq!(rt;
        (written, taken.as_slice(), failures),
        wanted,
        "at call {k}"
    );
}

/// A writer that takes no byte, and of which no write fails.
fn takes_nothing<F: Form>(rt: &impl Abort, alloc: Global) {
    let mut taken = Vec::new(alloc);
    let (written, failures) = write_to(&must(rt, F::lent(b"abc")), &mut taken, 0, 0);
    equals(
        rt,
        &(written, taken.len(), failures),
        &(Err(BorshFault::Io), 0, 0),
    );
}

/// All tests of streams, of a byte string or of a text.
pub(crate) fn all<F: Form>(rt: &impl Abort, alloc: Global) {
    reads_slowly::<F>(rt, alloc);
    far_too_short::<F>(rt, alloc);
    takes_nothing::<F>(rt, alloc);
    for k in 0..FORM.len() + 3 {
        is_read::<F>(rt, alloc, k);
        is_written::<F>(rt, alloc, k);
    }
    for len in 0..FORM.len() {
        is_cut_short::<F>(rt, alloc, &FORM[..len]);
    }
}

/// A vector takes all bytes of a write.
#[test]
fn whole_writes(rt: HostRuntime) {
    let mut sink = VecSink::new(rt.alloc());
    let taken = (sink.write(b"abc"), sink.write(b""));
    equals(&rt, &(taken, sink.failures()), &((Ok(3), Ok(0)), 0));
    equals(&rt, &sink.into_vec().as_slice(), &b"abc".as_slice());
}

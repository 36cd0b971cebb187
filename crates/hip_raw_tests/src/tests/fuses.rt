//! Readers and writers that move few bytes a call, and fail at one call.
use super::support::equals;
use hip_raw::Fuse;
use std::io::{Read, Write};
use std::process::Abort;

/// At most so many bytes a call, the call that fails, what each call moves, and what is left in the end.
type Row = (usize, u64, &'static [Option<usize>], &'static [u8]);

/// Reads of `abcdef` into room for four bytes. A reader that may move none moves one, since a read of none is the end.
const READS: &[Row] = &[
    (9, 0, &[Some(4), Some(2), Some(0), Some(0)], b""),
    (2, 0, &[Some(2), Some(2), Some(2), Some(0)], b""),
    (0, 0, &[Some(1), Some(1)], b"cdef"),
    (2, 1, &[None, Some(2), Some(2)], b"ef"),
    (2, 2, &[Some(2), None, Some(2)], b"ef"),
    (9, 3, &[Some(4), Some(2), None, Some(0)], b""),
    (2, 9, &[Some(2), Some(2), Some(2), Some(0)], b""),
];

fn reads(rt: &impl Abort, row: Row) {
    let (most, failing, calls, left) = row;
    let mut fuse = Fuse::new(&b"abcdef"[..], most, failing);
    let mut room = [0u8; 4];
    for moved in calls {
        equals(rt, &fuse.read(&mut room).ok(), &(*moved));
    }
    equals(rt, &fuse.into_inner(), &left);
}

#[test]
fn reads_few_and_fails_once(rt: HostRuntime) {
    for row in READS {
        reads(&rt, *row);
    }
}

/// Writes of `abc` to room for six bytes, of which so many are left. A writer may move none.
const WRITES: &[(usize, u64, &'static [Option<usize>], usize)] = &[
    (9, 0, &[Some(3), Some(3), Some(0)], 0),
    (2, 0, &[Some(2), Some(2)], 2),
    (0, 0, &[Some(0), Some(0)], 6),
    (9, 1, &[None, Some(3)], 3),
    (2, 2, &[Some(2), None, Some(2)], 2),
];

fn writes(rt: &impl Abort, row: (usize, u64, &'static [Option<usize>], usize)) {
    let (most, failing, calls, left) = row;
    let mut room = [0u8; 6];
    let mut fuse = Fuse::new(&mut room[..], most, failing);
    for moved in calls {
        equals(rt, &fuse.write(b"abc").ok(), &(*moved));
    }
    assert!(rt; fuse.flush().is_ok());
    equals(rt, &fuse.into_inner().len(), &left);
}

#[test]
fn writes_few_and_fails_once(rt: HostRuntime) {
    for row in WRITES {
        writes(&rt, *row);
    }
}

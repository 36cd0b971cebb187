//! Readers and writers in memory, and what a script prints.
use hip_script::PlayFault;
use hip_script::play::play;
use hipstr::{Backend, Fuse};
use std::alloc::Global;
use std::fmt;
use std::process::Abort;

pub(crate) const FIRST_RUN: &str =
    "copy 0 \"Hello John\"\nslice 0 1 6..\nnew 0\npush 1 \"!\"\nlen 1\nshow 1\n";

pub(crate) const FIRST_ANSWERS: &str = "done\ndone\ndone\ndone\n5\nbytes \"John!\"\n";

/// The output of a script, and how it ends.
pub(crate) type Played = (Vec<u8>, Result<(), PlayFault>);

/// Asserts the output of a row's script, and how it ended.
pub(crate) fn ends<R: fmt::Debug>(
    rt: &impl Abort,
    row: &R,
    played: &Played,
    wanted: (&[u8], Result<(), PlayFault>),
) {
    let (written, ended) = played;
    assert_eq!(rt; (written.as_slice(), *ended), wanted, "of {row:?}");
}

/// The output of a script, and how it ends. `reads` and `writes` are each the number of bytes a call at most, and the one call that fails.
pub(crate) fn played_by<B: Backend>(
    alloc: Global,
    script: &[u8],
    reads: (usize, u64),
    writes: (usize, u64),
) -> Played {
    let mut taken = Vec::new(alloc);
    let reader = Fuse::new(script, reads.0, reads.1);
    let writer = Fuse::new(&mut taken, writes.0, writes.1);
    let ended = play::<B, _, _>(alloc, reader, writer);
    (taken, ended)
}

/// As many bytes a call as there are, and no call that fails.
pub(crate) const WELL: (usize, u64) = (usize::MAX, 0);

/// The output of a script, and how it ends.
pub(crate) fn played<B: Backend>(alloc: Global, script: &str) -> Played {
    played_by::<B>(alloc, script.as_bytes(), WELL, WELL)
}

//! A script, played to a writer that doesn't allocate: whatever request is refused, that is the fault that is told.
use super::refusing::{each, equals, must_hold, refuse, was_refused};
use hip_script::PlayFault;
use hip_script::play::play;
use hipstr::{Backend, Rc, Unique};
use std::alloc::Global;
use std::process::Abort;

const SCRIPT: &[u8] =
    b"borrow 0 \"a,b,c,d\"\ntext 0\npieces 0 split char \",\" FBBFF 1\nshow 2\nkind 2\n";

const ANSWERS: &[u8] = b"done\ndone\n4\ntext \"d\"\nborrowed\n";

/// The bytes that were written before a refusal stay, and are a beginning of the answers.
fn is_played<B: Backend>(rt: &impl Abort, alloc: Global, k: usize) -> bool {
    let mut room = [0; 64];
    refuse(alloc, k);
    let ended = play::<B, _, _>(alloc, SCRIPT, &mut room[..]);
    let refused = was_refused(alloc);
    let len = room.iter().position(|byte| *byte == 0).unwrap_or(64);
    let written = room.get(..len).unwrap_or_default();
    let wanted = if refused {
        Err(PlayFault::Memory)
    } else {
        Ok(())
    };
    equals(rt, &(k, ended), &(k, wanted));
    must_hold(
        rt,
        ANSWERS.starts_with(written) & (refused | (written == ANSWERS)),
    );
    refused
}

#[test]
fn script_played(rt: HostRuntime) {
    each(|k| is_played::<Rc>(&rt, rt.alloc(), k));
    each(|k| is_played::<Unique>(&rt, rt.alloc(), k));
}

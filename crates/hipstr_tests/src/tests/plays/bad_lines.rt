//! Scripts that are refused, on either backend.
use super::support::{ends, played};
use hip_script::PlayFault;
use hipstr::{Backend, Rc, Unique};
use std::alloc::Global;
use std::process::Abort;

/// Scripts, and the number of the first line that is no command.
const BAD_SCRIPTS: &[(&str, usize)] = &[
    ("copy 0 abc\n", 1),
    ("new 0\nnew 0 \n", 2),
    ("new 0\n new 0\n", 2),
    ("new  0\n", 1),
    ("new\n", 1),
    ("new \n", 1),
    ("new 0 1\n", 1),
    ("new +1\n", 1),
    ("new -1\n", 1),
    ("new 1a\n", 1),
    ("len 18446744073709551616\n", 1),
    ("copied 0\n", 1),
    ("join 0 2 2 \"-\"\n", 1),
    ("set 0 0 256\n", 1),
    ("set 0 0\n", 1),
    ("compare 0\n", 1),
    ("comparepath 0\n", 1),
    ("NEW 0\n", 1),
    ("new\t0\n", 1),
    ("\n\nbad", 3),
    ("new 0\r", 1),
    ("new 0\r\r\n", 1),
    ("copy 0 \"abc\n", 1),
    ("copy 0 \"abc\\\"\n", 1),
    ("copy 0 \"a\\n\"\n", 1),
    ("copy 0 \"\\x4\"\n", 1),
    ("copy 0 \"\\xg0\"\n", 1),
    ("copy 0 \"\\", 1),
    ("copy 0 \"a\"b\n", 1),
    ("copy 0 \"a\" \n", 1),
    ("copy 0 \"a\" \"b\"\n", 1),
    ("copy 0 a\"b\"\n", 1),
    ("copy \"0\" \"b\"\n", 1),
    ("slice 0 1 1\n", 1),
    ("slice 0 1 a..\n", 1),
    ("slice 0 1 1.2\n", 1),
    ("slice 0 1 ..=\n", 1),
    ("slice 0 1 1..=\n", 1),
    ("slice 0 1 1...2\n", 1),
    ("slice 0 1 1.. 2\n", 1),
    ("slice 0 1 \n", 1),
    ("trim 0 1 middle\n", 1),
    ("trimm 0 1 both char \"ab\"\n", 1),
    ("trimm 0 1 both char \"\"\n", 1),
    ("strip 0 1 front text \"\\xFF\"\n", 1),
    ("strip 0 1 front any\n", 1),
    ("once 0 1 2 left char \"a\"\n", 1),
    ("pieces 0 split char \",\" FX 1\n", 1),
    ("pieces 0 split char \",\"  1\n", 1),
    ("pieces 0 splitn char \",\" F 1\n", 1),
    ("pieces 0 halve F 1\n", 1),
    ("pieces 0 lines -F 1\n", 1),
    ("fields 0 \",,\"\n", 1),
    ("fields 0 \"\"\n", 1),
    ("fields 0 \"\\xFF\"\n", 1),
    ("fields 0 \"\\xC3\"\n", 1),
    ("fields 0 ,\n", 1),
    ("fields 0\n", 1),
    ("fields 0 \",\" 1\n", 1),
    ("fields 0 char \",\"\n", 1),
    ("new 0\nshow 0 \"\nbad\n", 2),
    ("copy 0 \"a\"\nnew x\ncopy 0 \"\n", 2),
];

/// Plays the scripts on a backend: nothing is printed, and the line is told.
fn refused<B: Backend>(rt: &impl Abort, alloc: Global) {
    for (script, line) in BAD_SCRIPTS {
        let wanted = Err(PlayFault::NotACommand(*line));
        ends(rt, script, &played::<B>(alloc, script), (b"", wanted));
    }
}

#[test]
fn bad_lines(rt: HostRuntime) {
    refused::<Rc>(&rt, rt.alloc());
    refused::<Unique>(&rt, rt.alloc());
}

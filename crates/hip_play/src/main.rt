//! `hip_play` reads lines of commands from standard input, gives them to `hipstr::run` and prints the answers.
//!
//! The work is in [`hip_script`], whose [`play`] is generic in the backend, the reader and the writer.
#![tactic(auto)]

use hip_script::play::play;
use hipstr::Rc;
use std::io;
use std::process::ExitCode;

fn main(rt: HostRuntime) -> ExitCode {
    match play::<Rc, _, _>(rt.alloc(), rt.reader(), io::writer(&rt)) {
        Ok(()) => ExitCode::SUCCESS,
        Err(fault) => {
            // There is nowhere left to tell that this line could not be written.
            let _ = eprintln!(rt; "{fault}");
            ExitCode::from(fault.status())
        }
    }
}

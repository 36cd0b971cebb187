//! `hip_jobs JOB ROUNDS SEED` does a job that users of hipstr wait for, on so many inputs that it makes of SEED, and prints a digest of
//! all that the library answered. `all` does each job in turn. Where memory is refused, or an argument isn't understood, it fails.
//!
//! - [`words`]: words get numbers. [`tables`]: tables and records are read, and their cells looked up. [`tokens`]: sources are cut into
//!   tokens. [`pages`]: templates are filled and published. [`scripts`]: lists of commands are played.
//! - [`edges`]: inputs that are awkward: fields of no byte and of one, pieces just above the 23 bytes that a handle holds and just below,
//!   words that are all different, a text that nearly matches everywhere, pieces from both ends in turn, handles of one owner by the
//!   ten thousand, a fault in each line.
#![tactic(auto)]

mod digest;
mod edges;
mod made;
mod pages;
mod scripts;
mod tables;
mod tokens;
mod words;

use digest::Digest;
use made::Numbers;
use std::alloc::Global;
use std::env;
use std::process::ExitCode;

/// A job, which an argument names.
#[derive(Clone, Copy)]
enum Job {
    Words,
    Tables,
    Tokens,
    Pages,
    Scripts,
    Edges,
}

/// The jobs by their names.
const JOBS: &[(&str, Job)] = &[
    ("words", Job::Words),
    ("tables", Job::Tables),
    ("tokens", Job::Tokens),
    ("pages", Job::Pages),
    ("scripts", Job::Scripts),
    ("edges", Job::Edges),
];

fn main(rt: HostRuntime) -> ExitCode {
    let Some(digest) = run(&rt) else {
        return ExitCode::FAILURE;
    };
    match println!(rt; "{digest:016x}") {
        Ok(()) => ExitCode::SUCCESS,
        Err(_) => ExitCode::FAILURE,
    }
}

/// The digest of the jobs that the arguments name.
fn run(rt: &HostRuntime) -> Option<u64> {
    let mut words = env::args(rt).ok()?.skip(1);
    let (name, rounds, seed) = (words.next()?, words.next()?, words.next()?);
    let rounds = rounds.as_str().parse::<usize>().ok()?;
    let seed = seed.as_str().parse::<u64>().ok()?;
    do_named(rt.alloc(), name.as_str(), rounds, seed)
}

/// Does the job of this name, or all.
fn do_named(alloc: Global, wanted: &str, rounds: usize, seed: u64) -> Option<u64> {
    let mut digest = Digest::new();
    let mut done = false;
    for (name, job) in JOBS {
        if wanted == *name || wanted == "all" {
            done = true;
            let mut numbers = Numbers::new(seed);
            do_job(alloc, *job, rounds, &mut numbers, &mut digest)?;
        }
    }
    done.then_some(digest.sum())
}

/// Does a job.
fn do_job(
    alloc: Global,
    job: Job,
    rounds: usize,
    numbers: &mut Numbers,
    digest: &mut Digest,
) -> Option<()> {
    match job {
        Job::Words => words::number(alloc, rounds, numbers, digest),
        Job::Tables => tables::read(alloc, rounds, numbers, digest),
        Job::Tokens => tokens::cut(alloc, rounds, numbers, digest),
        Job::Pages => pages::publish_all(alloc, rounds, numbers, digest),
        Job::Scripts => scripts::play_all(alloc, rounds, numbers, digest),
        Job::Edges => edges::cut(alloc, rounds, numbers, digest),
    }
}

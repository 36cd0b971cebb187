//! Scripts of commands: reads their lines, gives them to [`hipstr::run`] and writes the answers, one a line.
//!
//! [`play_to`](play::play_to) does so, and is generic in the backend, the reader and the writer: it writes the answers of the lines that it
//! reads, by the definitions of `specs/`, `Grammar` and `Played` above all. [`play`](play::play) takes reader and writer, and gathers what
//! is written; the program `hip_play` has it read standard input and write standard output.
#![tactic(auto)]

mod buffers;
mod fault;
mod line;
mod lines;
pub mod play;
mod print;
mod said;
mod script;
mod verb;
mod words;

pub use fault::PlayFault;

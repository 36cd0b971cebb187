//! The lines of scripts and their answers, lines that are no commands, readers and writers that fail, and scripts longer than what is
//! gathered.
mod bad_lines;
mod failing;
mod long;
mod scripts;
mod support;

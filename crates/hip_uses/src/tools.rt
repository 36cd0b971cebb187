//! Tools over the uses: each reads its input whole, as a text, and writes what it makes of it.
//!
//! An input that has a fault is told by its line, and nothing is written then.

pub use crate::fault::ToolFault;
pub use crate::tools::column::write_column;
pub use crate::tools::counts::write_counts;
pub use crate::tools::filled::write_filled;
pub use crate::tools::tokens::write_tokens;

mod column;
mod counts;
mod filled;
mod input;
mod print;
mod quoted;
mod tokens;

//! Numbers of 64 bits, as [`AsciiSet::marks`](crate::pattern::AsciiSet::marks) gives them.
pub use hip_match::bits::{lowest, without_lowest};

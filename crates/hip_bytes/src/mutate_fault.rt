//! Why a value wasn't written through a vector.

/// Why a value wasn't written through a vector: none could be lent, or the one that was written couldn't be put back. Memory was refused.
#[derive(Debug, Drop)]
pub enum MutateFault<R: Drop, V: Drop = Vec<u8>> {
    /// The value is as it was, and nothing was called.
    Lend,
    /// The value is empty. Here are what the closure gave, and what it left to be put back.
    PutBack(R, V),
}

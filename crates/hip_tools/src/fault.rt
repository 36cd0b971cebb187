//! Why the program did not come to its end.
use crate::tool::USAGE;
use hip_uses::tools::ToolFault;
use std::alloc::{AllocError, AllocFailed};
use std::fmt;

#[derive(Drop)]
pub(crate) enum Fault {
    /// The arguments name no tool, or not what it needs.
    Usage,
    /// The system gives no random bytes, of which the hasher of words and names is seeded.
    NoRandomness,
    Tool(ToolFault),
}

impl Fault {
    /// The exit status: 2 where the arguments are at fault, else 1.
    pub(crate) fn status(&self) -> u8 {
        match self {
            Fault::Usage => 2,
            _ => 1,
        }
    }
}

impl fmt::Display for Fault {
    fn fmt<W: fmt::Write>(&self, f: &mut fmt::Formatter<W>) -> fmt::Result {
        match self {
            Fault::Usage => f.write_str(USAGE),
            Fault::NoRandomness => f.write_str("no randomness"),
            Fault::Tool(fault) => write!(f, "{fault}"),
        }
    }
}

impl From<ToolFault> for Fault {
    fn from(fault: ToolFault) -> Self {
        Fault::Tool(fault)
    }
}

impl From<AllocError> for Fault {
    fn from(_: AllocError) -> Self {
        Fault::Tool(ToolFault::Memory)
    }
}

impl<T: Drop> From<AllocFailed<T>> for Fault {
    fn from(_: AllocFailed<T>) -> Self {
        Fault::Tool(ToolFault::Memory)
    }
}

use std::error::Error;
use std::fmt;

/// A read or a write failed. No byte moved.
#[derive(Clone, Copy, Debug, PartialEq, Eq)]
pub struct IoFault;

impl fmt::Display for IoFault {
    ghost use Rattle.std.specs.Prelude.{Some, codes};

    ghost output = { λ _. Some (codes "input or output failed") };

    fn fmt<W: fmt::Write>(&self, f: &mut fmt::Formatter<W>) -> fmt::Result {
        f.write_str("input or output failed")
    }
}

impl Error for IoFault {}

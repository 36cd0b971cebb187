use std::alloc::AllocError;
use std::error::Error;
use std::fmt;

/// Why a list that is made of others wasn't made.
#[derive(Clone, Copy, Debug, PartialEq, Eq)]
pub enum GrowFault {
    /// Memory ran out.
    Memory,
    /// The list would be longer than `usize::MAX`.
    TooLong,
}

impl fmt::Display for GrowFault {
    ghost use Rattle.std.specs.Prelude.{Some};
    ghost use Rattle.hip_bytes.specs.GrowFault.{grow_fault_text};

    ghost output = { λ fault. Some (grow_fault_text fault) };

    fn fmt<W: fmt::Write>(&self, f: &mut fmt::Formatter<W>) -> fmt::Result {
        f.write_str(match self {
            GrowFault::Memory => "out of memory",
            GrowFault::TooLong => "too long",
        })
    }
}

impl Error for GrowFault {}

impl From<AllocError> for GrowFault {
    ghost use Rattle.std.specs.Prelude.{◌≡◌};
    ghost use Rattle.hip_bytes.specs.declared.grow_fault.GrowFault.TheVariants.{Memory};

    ghost from_gives = { λ _ fault. fault ≡ Memory };

    #[inline]
    fn from(_refused: AllocError) -> GrowFault {
        GrowFault::Memory
    }
}

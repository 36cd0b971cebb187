use std::alloc::AllocError;
use std::error::Error;
use std::fmt;

/// Why bytes weren't read as a text.
#[derive(Clone, Copy, Debug, PartialEq, Eq)]
pub enum BytesFault {
    /// Memory ran out.
    Memory,
    /// The bytes aren't UTF-8.
    NotUtf8,
}

impl fmt::Display for BytesFault {
    ghost use Rattle.std.specs.Prelude.{Some};
    ghost use Rattle.hip_text.specs.Fault.{bytes_fault_text};

    ghost output = { λ fault. Some (bytes_fault_text fault) };

    fn fmt<W: fmt::Write>(&self, f: &mut fmt::Formatter<W>) -> fmt::Result {
        f.write_str(match self {
            BytesFault::Memory => "out of memory",
            BytesFault::NotUtf8 => "not UTF-8",
        })
    }
}

impl Error for BytesFault {}

impl From<AllocError> for BytesFault {
    ghost use Rattle.std.specs.Prelude.{◌≡◌};
    ghost use Rattle.hip_text.specs.declared.faults.BytesFault.TheVariants.{Memory};

    ghost from_gives = { λ _ fault. fault ≡ Memory };

    #[inline]
    fn from(_refused: AllocError) -> BytesFault {
        BytesFault::Memory
    }
}

/// Why units weren't read as a text.
#[derive(Clone, Copy, Debug, PartialEq, Eq)]
pub enum Utf16Fault {
    /// Memory ran out.
    Memory,
    /// The unit at this position is the first surrogate without a partner.
    Unpaired(usize),
}

impl fmt::Display for Utf16Fault {
    ghost use Rattle.std.specs.Prelude.{Some};
    ghost use Rattle.hip_text.specs.Fault.{utf16_fault_text};

    ghost output = { λ fault. Some (utf16_fault_text fault) };

    fn fmt<W: fmt::Write>(&self, f: &mut fmt::Formatter<W>) -> fmt::Result {
        match self {
            Utf16Fault::Memory => f.write_str("out of memory"),
            Utf16Fault::Unpaired(at) => write!(f, "unpaired surrogate at {at}"),
        }
    }
}

impl Error for Utf16Fault {}

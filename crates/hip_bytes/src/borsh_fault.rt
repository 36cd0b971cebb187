use hip_raw::IoFault;
use std::alloc::AllocError;
use std::error::Error;
use std::fmt;

/// Why a Borsh form wasn't written or read.
#[derive(Clone, Copy, Debug, PartialEq, Eq)]
pub enum BorshFault {
    /// Memory ran out.
    Memory,
    /// The length is no `u32`.
    TooLong,
    /// The source ended before the form did.
    Truncated,
    /// A read or a write failed, or a write took no byte.
    Io,
    /// The bytes of a text aren't UTF-8.
    NotUtf8,
}

impl fmt::Display for BorshFault {
    ghost use Rattle.std.specs.Prelude.{Some};
    ghost use Rattle.hip_bytes.specs.FormatFault.{borsh_fault_text};

    ghost output = { λ fault. Some (borsh_fault_text fault) };

    fn fmt<W: fmt::Write>(&self, f: &mut fmt::Formatter<W>) -> fmt::Result {
        f.write_str(match self {
            BorshFault::Memory => "out of memory",
            BorshFault::TooLong => "too long",
            BorshFault::Truncated => "truncated",
            BorshFault::Io => "input or output failed",
            BorshFault::NotUtf8 => "not UTF-8",
        })
    }
}

impl Error for BorshFault {}

impl From<AllocError> for BorshFault {
    ghost use Rattle.std.specs.Prelude.{◌≡◌};
    ghost use Rattle.hip_bytes.specs.declared.borsh_fault.BorshFault.TheVariants.{Memory};

    ghost from_gives = { λ _ fault. fault ≡ Memory };

    #[inline]
    fn from(_refused: AllocError) -> BorshFault {
        BorshFault::Memory
    }
}

impl From<IoFault> for BorshFault {
    ghost use Rattle.std.specs.Prelude.{◌≡◌};
    ghost use Rattle.hip_bytes.specs.declared.borsh_fault.BorshFault.TheVariants.{Io};

    ghost from_gives = { λ _ fault. fault ≡ Io };

    #[inline]
    fn from(_failed: IoFault) -> BorshFault {
        BorshFault::Io
    }
}

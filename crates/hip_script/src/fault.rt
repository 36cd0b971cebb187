ghost use Rattle.std.specs.Prelude.{◌≡◌, ℕ};

use std::alloc::{AllocError, AllocFailed};
use std::fmt;

/// Why a line was not read.
#[derive(Clone, Copy)]
pub(crate) enum LineFault {
    /// It is no command.
    NotACommand,
    /// Memory ran out.
    Memory,
}

impl<T: Drop> From<AllocFailed<T>> for LineFault {
    ghost use Rattle.std.specs.Prelude.{◌≡◌};
    ghost use Rattle.hip_script.specs.declared.fault.LineFault.TheVariants.{Memory};

    ghost from_gives = { λ _ fault. fault ≡ Memory };

    fn from(_refused: AllocFailed<T>) -> LineFault {
        LineFault::Memory
    }
}

/// The answers could not be written.
#[derive(Clone, Copy)]
pub(crate) struct WriteFailed;

/// Why lines that were read were not all played.
#[derive(Clone, Copy)]
pub(crate) enum Stop {
    /// The answers could not be written.
    WriteFailed,
    /// Memory ran out.
    Memory,
}

impl From<AllocError> for Stop {
    ghost use Rattle.std.specs.Prelude.{◌≡◌};
    ghost use Rattle.hip_script.specs.declared.fault.Stop.TheVariants.{Memory};

    ghost from_gives = { λ _ fault. fault ≡ Memory };

    fn from(_refused: AllocError) -> Stop {
        Stop::Memory
    }
}

impl<T: Drop> From<AllocFailed<T>> for Stop {
    ghost use Rattle.std.specs.Prelude.{◌≡◌};
    ghost use Rattle.hip_script.specs.declared.fault.Stop.TheVariants.{Memory};

    ghost from_gives = { λ _ fault. fault ≡ Memory };

    fn from(_refused: AllocFailed<T>) -> Stop {
        Stop::Memory
    }
}

impl From<WriteFailed> for Stop {
    ghost use Rattle.std.specs.Prelude.{◌≡◌};
    ghost use Rattle.hip_script.specs.declared.fault.Stop.TheVariants.{WriteFailed};

    ghost from_gives = { λ _ fault. fault ≡ WriteFailed };

    fn from(_failed: WriteFailed) -> Stop {
        Stop::WriteFailed
    }
}

/// Why a script was not played to its end.
#[derive(Clone, Copy, Debug, PartialEq, Eq)]
pub enum PlayFault {
    /// The line with this number, counted from 1, is not a command.
    NotACommand(usize),
    /// The script could not be read.
    ReadFailed,
    /// The answers could not be written.
    WriteFailed,
    /// Memory ran out.
    Memory,
}

impl PlayFault {
    ghost use Rattle.hip_script.specs.declared.fault.PlayFault.TheVariants.{NotACommand};

    /// The exit status of a program that met the fault: 2 where the script is at fault, else 1.
    pub fn status(self) -> u8
        ensures bad_line { (line : ℕ) → self ≡ NotACommand line → result ≡ 2 }
        ensures other { ((line : ℕ) → self ≡ NotACommand line → ⊥) → result ≡ 1 }
    {
        match self {
            PlayFault::NotACommand(_) => 2,
            PlayFault::ReadFailed | PlayFault::WriteFailed | PlayFault::Memory => 1,
        }
    }
}

impl fmt::Display for PlayFault {
    fn fmt<W: fmt::Write>(&self, f: &mut fmt::Formatter<W>) -> fmt::Result {
        match self {
            PlayFault::NotACommand(number) => write!(f, "line {number}: not a command"),
            PlayFault::ReadFailed => write!(f, "read failed"),
            PlayFault::WriteFailed => write!(f, "write failed"),
            PlayFault::Memory => write!(f, "out of memory"),
        }
    }
}

impl From<AllocError> for PlayFault {
    ghost use Rattle.hip_script.specs.declared.fault.PlayFault.TheVariants.{Memory};

    ghost from_gives = { λ _ fault. fault ≡ Memory };

    fn from(_refused: AllocError) -> PlayFault {
        PlayFault::Memory
    }
}

impl<T: Drop> From<AllocFailed<T>> for PlayFault {
    ghost use Rattle.hip_script.specs.declared.fault.PlayFault.TheVariants.{Memory};

    ghost from_gives = { λ _ fault. fault ≡ Memory };

    fn from(_refused: AllocFailed<T>) -> PlayFault {
        PlayFault::Memory
    }
}

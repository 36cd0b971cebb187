use std::alloc::AllocError;
use std::error::Error;
use std::fmt;

/// Why a JSON value wasn't read or made.
#[derive(Clone, Copy, Debug, PartialEq, Eq)]
pub enum JsonFault {
    /// Memory ran out.
    Memory,
    /// The bytes of a path aren't UTF-8.
    NotUtf8,
    /// The value is no string.
    NotJsonString,
    /// The value is no array of bytes: the item at this position is the first that is no whole number from 0 to 255, or the value is no
    /// array.
    NotJsonBytes(Option<usize>),
    /// The value is no object with the one key `Unix`.
    NotJsonUnix,
}

impl fmt::Display for JsonFault {
    ghost use Rattle.std.specs.Prelude.{Some};
    ghost use Rattle.hip_bytes.specs.FormatFault.{json_fault_text};

    ghost output = { λ fault. Some (json_fault_text fault) };

    fn fmt<W: fmt::Write>(&self, f: &mut fmt::Formatter<W>) -> fmt::Result {
        match self {
            JsonFault::Memory => f.write_str("out of memory"),
            JsonFault::NotUtf8 => f.write_str("not UTF-8"),
            JsonFault::NotJsonString => f.write_str("not a JSON string"),
            JsonFault::NotJsonBytes(None) => f.write_str("not a JSON array of bytes"),
            JsonFault::NotJsonBytes(Some(at)) => write!(f, "not a byte at {at} of a JSON array"),
            JsonFault::NotJsonUnix => f.write_str("not a JSON object with the one key Unix"),
        }
    }
}

impl Error for JsonFault {}

impl From<AllocError> for JsonFault {
    ghost use Rattle.std.specs.Prelude.{◌≡◌};
    ghost use Rattle.hip_bytes.specs.declared.json_fault.JsonFault.TheVariants.{Memory};

    ghost from_gives = { λ _ fault. fault ≡ Memory };

    #[inline]
    fn from(_refused: AllocError) -> JsonFault {
        JsonFault::Memory
    }
}

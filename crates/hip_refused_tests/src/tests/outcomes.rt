//! The outcomes of calls in one form: whether memory was refused, and what is handed back.
use hipstr::bytes::{BorshFault, GrowFault, JsonFault, MutateFault};
use hipstr::string::{BytesFault, Utf16Fault};
use hipstr::{ByteSink, VecSink};
use std::alloc::AllocError;
use std::borrow::CowSlice;

/// The value that was made, or `true`, as memory was refused.
pub(crate) fn of_memory<T>(outcome: Result<T, AllocError>) -> Result<T, bool> {
    match outcome {
        Ok(made) => Ok(made),
        Err(AllocError) => Err(true),
    }
}

pub(crate) fn of_growth<T>(outcome: Result<T, GrowFault>) -> Result<T, bool> {
    match outcome {
        Ok(made) => Ok(made),
        Err(fault) => Err(fault == GrowFault::Memory),
    }
}

pub(crate) fn of_json<T>(outcome: Result<T, JsonFault>) -> Result<T, bool> {
    match outcome {
        Ok(made) => Ok(made),
        Err(fault) => Err(fault == JsonFault::Memory),
    }
}

pub(crate) fn of_borsh<T>(outcome: Result<T, BorshFault>) -> Result<T, bool> {
    match outcome {
        Ok(made) => Ok(made),
        Err(fault) => Err(fault == BorshFault::Memory),
    }
}

pub(crate) fn of_utf16<T>(outcome: Result<T, Utf16Fault>) -> Result<T, bool> {
    match outcome {
        Ok(made) => Ok(made),
        Err(fault) => Err(fault == Utf16Fault::Memory),
    }
}

pub(crate) fn of_bytes<T>(outcome: Result<T, BytesFault>) -> Result<T, bool> {
    match outcome {
        Ok(made) => Ok(made),
        Err(fault) => Err(fault == BytesFault::Memory),
    }
}

/// The value that a guard couldn't put back.
pub(crate) fn put_back<V: Drop>(outcome: Result<(), V>) -> Result<(), Option<V>> {
    match outcome {
        Ok(()) => Ok(()),
        Err(back) => Err(Some(back)),
    }
}

/// The outcome of a mutation: `Err(None)` where the closure wasn't called, `Err(Some(_))` with the value that couldn't be put back.
pub(crate) fn lent_back<V: Drop>(outcome: Result<(), MutateFault<(), V>>) -> Result<(), Option<V>> {
    match outcome {
        Ok(_) => Ok(()),
        Err(MutateFault::Lend) => Err(None),
        Err(MutateFault::PutBack(_, back)) => Err(Some(back)),
    }
}

/// The bytes of a string that wasn't put back.
pub(crate) fn bytes_back(outcome: Result<(), Option<String>>) -> Result<(), Option<Vec<u8>>> {
    match outcome {
        Ok(()) => Ok(()),
        Err(None) => Err(None),
        Err(Some(back)) => Err(Some(back.into_bytes())),
    }
}

/// Whether a form was written, to a sink that finds no memory or fails.
pub(crate) fn is_written(written: Result<(), BorshFault>, sink: &VecSink) -> bool {
    written == Ok(()) && sink.failures() == 0
}

/// The string of a vector that is a text's.
pub(crate) fn string_of(vec: Vec<u8>) -> Result<String, Vec<u8>> {
    match String::from_utf8(vec) {
        Ok(string) => Ok(string),
        Err(error) => Err(error.into_bytes()),
    }
}

pub(crate) fn is_cow(cow: CowSlice<'_, u8>, bytes: &[u8]) -> bool {
    match cow {
        CowSlice::Borrowed(lent) => lent == bytes,
        CowSlice::Owned(vec) => vec.as_slice() == bytes,
    }
}

//! Why a use gave nothing.
ghost use Rattle.std.specs.Prelude.{◌≡◌};
ghost use Rattle.hip_uses.specs.declared.fault.InternFault.TheVariants.{Memory as intern_memory};
ghost use Rattle.hip_uses.specs.declared.fault.PublishFault.TheVariants.{Memory as publish_memory};
ghost use Rattle.hip_uses.specs.declared.fault.TableFault.TheVariants.{Memory as table_memory};
ghost use Rattle.hip_uses.specs.declared.fault.TemplateFault.TheVariants.{Memory as template_memory};
ghost use Rattle.hip_uses.specs.declared.fault.ToolFault.TheVariants.{Memory as tool_memory, WriteFailed as tool_write_failed};

use hipstr::Backend;
use hipstr::bytes::GrowFault;
use hipstr::string::HipStr;
use std::alloc::{AllocError, AllocFailed};
use std::fmt;
use thiserror::Error;

/// Why a text got no number.
#[derive(Clone, Copy, Debug, PartialEq, Eq, Error)]
pub enum InternFault {
    /// There are as many texts as numbers.
    #[error("too many different texts")]
    TooMany,
    #[error("out of memory")]
    Memory,
}

impl From<AllocError> for InternFault {
    ghost from_gives = { λ _ fault. fault ≡ intern_memory };

    fn from(_: AllocError) -> Self {
        InternFault::Memory
    }
}

impl<T: Drop> From<AllocFailed<T>> for InternFault {
    ghost from_gives = { λ _ fault. fault ≡ intern_memory };

    fn from(_: AllocFailed<T>) -> Self {
        InternFault::Memory
    }
}

/// Why a message was not taken.
#[derive(Clone, Copy, Debug, PartialEq, Eq, Error)]
pub enum PublishFault {
    /// A subscriber has as many messages waiting as it may.
    #[error("a queue is full")]
    Full,
    #[error("out of memory")]
    Memory,
}

impl From<AllocError> for PublishFault {
    ghost from_gives = { λ _ fault. fault ≡ publish_memory };

    fn from(_: AllocError) -> Self {
        PublishFault::Memory
    }
}

/// Why a text is no table.
#[derive(Clone, Copy, Debug, PartialEq, Eq, Error)]
pub enum TableFault {
    /// It has no line.
    #[error("no header")]
    Empty,
    /// This line, counted from 1, has another number of fields than the header.
    #[error("line {0}: another number of fields than the header")]
    Ragged(usize),
    #[error("out of memory")]
    Memory,
}

impl From<AllocError> for TableFault {
    ghost from_gives = { λ _ fault. fault ≡ table_memory };

    fn from(_: AllocError) -> Self {
        TableFault::Memory
    }
}

/// Why a template gave no text.
#[derive(Drop)]
pub enum TemplateFault<'b, B: Backend> {
    /// No `}}` follows a `{{`. Holds the text behind it.
    Unclosed(HipStr<'b, B>),
    /// Nothing goes under this name.
    Unknown(HipStr<'b, B>),
    Memory,
}

impl<'b, B: Backend> From<AllocError> for TemplateFault<'b, B> {
    ghost from_gives = { λ _ fault. fault ≡ template_memory };

    fn from(_: AllocError) -> Self {
        TemplateFault::Memory
    }
}

impl<'b, B: Backend, T: Drop> From<AllocFailed<T>> for TemplateFault<'b, B> {
    ghost from_gives = { λ _ fault. fault ≡ template_memory };

    fn from(_: AllocFailed<T>) -> Self {
        TemplateFault::Memory
    }
}

/// A filled template that is longer than any text is reported as [`TemplateFault::Memory`].
impl<'b, B: Backend> From<GrowFault> for TemplateFault<'b, B> {
    ghost from_gives = { λ _ fault. fault ≡ template_memory };

    fn from(_: GrowFault) -> Self {
        TemplateFault::Memory
    }
}

impl<'b, B: Backend> fmt::Display for TemplateFault<'b, B> {
    fn fmt<W: fmt::Write>(&self, f: &mut fmt::Formatter<W>) -> fmt::Result {
        match self {
            TemplateFault::Unclosed(text) => write!(f, "no `}}}}` in `{text}`"),
            TemplateFault::Unknown(name) => write!(f, "nothing under `{name}`"),
            TemplateFault::Memory => f.write_str("out of memory"),
        }
    }
}

/// Why a tool did not come to its end.
#[derive(Drop)]
pub enum ToolFault {
    ReadFailed,
    WriteFailed,
    Memory,
    /// This line, counted from 1, isn't UTF-8.
    NotUtf8(usize),
    /// No `}}` follows the first `{{` on this line that is no hole's.
    Unclosed(usize),
    /// A hole on this line has this name, under which nothing goes.
    Unknown(usize, String),
    Table(TableFault),
    /// The header has no column of this name.
    NoColumn(String),
    /// There are more different words than numbers.
    TooManyWords,
}

impl fmt::Display for ToolFault {
    fn fmt<W: fmt::Write>(&self, f: &mut fmt::Formatter<W>) -> fmt::Result {
        match self {
            ToolFault::ReadFailed => f.write_str("read failed"),
            ToolFault::WriteFailed => f.write_str("write failed"),
            ToolFault::Memory => f.write_str("out of memory"),
            ToolFault::NotUtf8(line) => write!(f, "line {line}: not UTF-8"),
            ToolFault::Unclosed(line) => write!(f, "line {line}: no `}}}}` follows"),
            ToolFault::Unknown(line, name) => write!(f, "line {line}: nothing under `{name}`"),
            ToolFault::Table(fault) => write!(f, "{fault}"),
            ToolFault::NoColumn(name) => write!(f, "line 1: no column `{name}`"),
            ToolFault::TooManyWords => f.write_str("too many different words"),
        }
    }
}

impl From<AllocError> for ToolFault {
    ghost from_gives = { λ _ fault. fault ≡ tool_memory };

    fn from(_: AllocError) -> Self {
        ToolFault::Memory
    }
}

impl<T: Drop> From<AllocFailed<T>> for ToolFault {
    ghost from_gives = { λ _ fault. fault ≡ tool_memory };

    fn from(_: AllocFailed<T>) -> Self {
        ToolFault::Memory
    }
}

impl From<WriteFailed> for ToolFault {
    ghost from_gives = { λ _ fault. fault ≡ tool_write_failed };

    fn from(_: WriteFailed) -> Self {
        ToolFault::WriteFailed
    }
}

/// A write that failed, told in one byte, where an `io::Error` would be moved from call to call.
#[derive(Clone, Copy)]
pub(crate) struct WriteFailed;

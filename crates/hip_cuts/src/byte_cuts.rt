//! The calls that take bytes apart, which needn't be UTF-8.
ghost use Rattle.std.specs.Prelude.{◌≡◌, ◌==◌, IfSome};
ghost use Rattle.hip_match.specs.Bytes.{IsWithin, byte_ends, byte_lines};
ghost use Rattle.hip_match.specs.Pieces.{split};
ghost use Rattle.hip_match.specs.Trims.{split_once, rsplit_once};
ghost use Rattle.hip_cuts.specs.Cut.{LeavesBetween, LeavesEnd, LeavesStart, ascii_space_ends, found_in};
ghost use Rattle.hip_cuts.specs.Cut.{OnceAnswers, OnceCosts, OnceCounts, TrimAnswers, TrimCosts, TrimCounts};
ghost use Rattle.hip_cuts.specs.Cut.{PartsIfAny, PartsIfAnyCosts};

use crate::byte_pieces::BytePieces;
use crate::pieces::PieceSource;
use hip_bytes::HipByt;
use hip_match::byte_lines::ByteLines;
use hip_match::bytes;
use hip_match::marked_parts::SplitByte;
use hip_text::{Backend, Meter};
use std::alloc::{AllocError, Global};

/// How bytes are taken apart: at a byte, at the ends of lines and at ASCII white space, by the calls of Rust's `[u8]` and of the crate
/// bstr. The pieces are bytes of the same kind of handle, each the source's part at its range, so they cost what pieces of a text do.
pub trait ByteCuts<B: Backend>: PieceSource {
    /// The parts between the bytes `byte`, one more than there are such bytes.
    fn split<'h>(&'h self, alloc: Global, byte: u8) -> BytePieces<'h, Self, SplitByte<'h>>
        ensures source { result.source ≡ Self.handle self.now }
        ensures rest { result.rest ≡ found_in (Self.handle self.now) split (byte_ends (λ b. b == byte)) };

    /// The lines, without the line feed that ends them and one carriage return before it.
    fn lines<'h>(&'h self, alloc: Global) -> BytePieces<'h, Self, ByteLines<'h>>
        ensures source { result.source ≡ Self.handle self.now }
        ensures rest { result.rest ≡ byte_lines (Self.handle self.now).items };

    /// The bytes without ASCII white space at their front and at their end.
    fn trim_ascii(&self, alloc: Global) -> Result<Self, AllocError>
        ensures trimmed { TrimAnswers Self.handle LeavesBetween ascii_space_ends
            (Self.handle self.now) result };

    /// [`ByteCuts::trim_ascii`], counted.
    fn trim_ascii_metered(&self, alloc: Global, meter: &mut Meter) -> Result<Self, AllocError>
        ensures trimmed { TrimAnswers Self.handle LeavesBetween ascii_space_ends
            (Self.handle self.now) result }
        ensures counted { TrimCosts B.SHARES LeavesBetween ascii_space_ends
            (Self.handle self.now) meter.old meter.new }
        ensures copied { TrimCounts Self.handle B.SHARES
            (Self.handle self.now) result meter.old meter.new };

    /// The bytes without ASCII white space at their front.
    fn trim_ascii_start(&self, alloc: Global) -> Result<Self, AllocError>
        ensures trimmed { TrimAnswers Self.handle LeavesEnd ascii_space_ends
            (Self.handle self.now) result };

    /// [`ByteCuts::trim_ascii_start`], counted.
    fn trim_ascii_start_metered(&self, alloc: Global, meter: &mut Meter) -> Result<Self, AllocError>
        ensures trimmed { TrimAnswers Self.handle LeavesEnd ascii_space_ends
            (Self.handle self.now) result }
        ensures counted { TrimCosts B.SHARES LeavesEnd ascii_space_ends
            (Self.handle self.now) meter.old meter.new }
        ensures copied { TrimCounts Self.handle B.SHARES
            (Self.handle self.now) result meter.old meter.new };

    /// The bytes without ASCII white space at their end.
    fn trim_ascii_end(&self, alloc: Global) -> Result<Self, AllocError>
        ensures trimmed { TrimAnswers Self.handle LeavesStart ascii_space_ends
            (Self.handle self.now) result };

    /// [`ByteCuts::trim_ascii_end`], counted.
    fn trim_ascii_end_metered(&self, alloc: Global, meter: &mut Meter) -> Result<Self, AllocError>
        ensures trimmed { TrimAnswers Self.handle LeavesStart ascii_space_ends
            (Self.handle self.now) result }
        ensures counted { TrimCosts B.SHARES LeavesStart ascii_space_ends
            (Self.handle self.now) meter.old meter.new }
        ensures copied { TrimCounts Self.handle B.SHARES
            (Self.handle self.now) result meter.old meter.new };

    /// The bytes before the first `byte` and the bytes behind it, if there is one.
    fn split_once(&self, alloc: Global, byte: u8) -> Result<Option<(Self, Self)>, AllocError>
        ensures parts { OnceAnswers Self.handle split_once (byte_ends (λ b. b == byte))
            (Self.handle self.now) result };

    /// [`ByteCuts::split_once`], counted.
    fn split_once_metered(
        &self,
        alloc: Global,
        byte: u8,
        meter: &mut Meter,
    ) -> Result<Option<(Self, Self)>, AllocError>
        ensures parts { OnceAnswers Self.handle split_once (byte_ends (λ b. b == byte))
            (Self.handle self.now) result }
        ensures counted { OnceCosts B.SHARES split_once (byte_ends (λ b. b == byte))
            (Self.handle self.now) meter.old meter.new }
        ensures copied { OnceCounts Self.handle B.SHARES
            (Self.handle self.now) result meter.old meter.new };

    /// The bytes before the last `byte` and the bytes behind it, if there is one.
    fn rsplit_once(&self, alloc: Global, byte: u8) -> Result<Option<(Self, Self)>, AllocError>
        ensures parts { OnceAnswers Self.handle rsplit_once (byte_ends (λ b. b == byte))
            (Self.handle self.now) result };

    /// [`ByteCuts::rsplit_once`], counted.
    fn rsplit_once_metered(
        &self,
        alloc: Global,
        byte: u8,
        meter: &mut Meter,
    ) -> Result<Option<(Self, Self)>, AllocError>
        ensures parts { OnceAnswers Self.handle rsplit_once (byte_ends (λ b. b == byte))
            (Self.handle self.now) result }
        ensures counted { OnceCosts B.SHARES rsplit_once (byte_ends (λ b. b == byte))
            (Self.handle self.now) meter.old meter.new }
        ensures copied { OnceCounts Self.handle B.SHARES
            (Self.handle self.now) result meter.old meter.new };
}

impl<'b, B: Backend> PieceSource for HipByt<'b, B> {
    ghost handle = { λ bytes. bytes };
}

impl<'b, B: Backend> ByteCuts<B> for HipByt<'b, B> {
    #[inline]
    fn split<'h>(&'h self, alloc: Global, byte: u8) -> BytePieces<'h, Self, SplitByte<'h>> {
        BytePieces::new(self, alloc, SplitByte::between(self.as_slice(), byte))
    }

    #[inline]
    fn lines<'h>(&'h self, alloc: Global) -> BytePieces<'h, Self, ByteLines<'h>> {
        BytePieces::new(self, alloc, ByteLines::new(self.as_slice()))
    }

    #[inline]
    fn trim_ascii(&self, alloc: Global) -> Result<Self, AllocError> {
        self.trim_ascii_metered(alloc, &mut Meter::new())
    }

    #[inline]
    fn trim_ascii_metered(&self, alloc: Global, meter: &mut Meter) -> Result<Self, AllocError> {
        let (start, end) = bytes::trim_ascii(self.as_slice());
        self.part_metered(alloc, start, end, meter)
    }

    #[inline]
    fn trim_ascii_start(&self, alloc: Global) -> Result<Self, AllocError> {
        self.trim_ascii_start_metered(alloc, &mut Meter::new())
    }

    #[inline]
    fn trim_ascii_start_metered(
        &self,
        alloc: Global,
        meter: &mut Meter,
    ) -> Result<Self, AllocError> {
        let (start, end) = bytes::trim_ascii_start(self.as_slice());
        self.part_metered(alloc, start, end, meter)
    }

    #[inline]
    fn trim_ascii_end(&self, alloc: Global) -> Result<Self, AllocError> {
        self.trim_ascii_end_metered(alloc, &mut Meter::new())
    }

    #[inline]
    fn trim_ascii_end_metered(&self, alloc: Global, meter: &mut Meter) -> Result<Self, AllocError> {
        let (start, end) = bytes::trim_ascii_end(self.as_slice());
        self.part_metered(alloc, start, end, meter)
    }

    #[inline]
    fn split_once(&self, alloc: Global, byte: u8) -> Result<Option<(Self, Self)>, AllocError> {
        self.split_once_metered(alloc, byte, &mut Meter::new())
    }

    #[inline]
    fn split_once_metered(
        &self,
        alloc: Global,
        byte: u8,
        meter: &mut Meter,
    ) -> Result<Option<(Self, Self)>, AllocError> {
        parts_at(self, alloc, bytes::split_once(self.as_slice(), byte), meter)
    }

    #[inline]
    fn rsplit_once(&self, alloc: Global, byte: u8) -> Result<Option<(Self, Self)>, AllocError> {
        self.rsplit_once_metered(alloc, byte, &mut Meter::new())
    }

    #[inline]
    fn rsplit_once_metered(
        &self,
        alloc: Global,
        byte: u8,
        meter: &mut Meter,
    ) -> Result<Option<(Self, Self)>, AllocError> {
        parts_at(
            self,
            alloc,
            bytes::rsplit_once(self.as_slice(), byte),
            meter,
        )
    }
}

/// The parts at two ranges, if there are any.
#[inline]
fn parts_at<'b, B: Backend>(
    source: &HipByt<'b, B>,
    alloc: Global,
    ranges: Option<((usize, usize), (usize, usize))>,
    meter: &mut Meter,
) -> Result<Option<(HipByt<'b, B>, HipByt<'b, B>)>, AllocError>
    requires { IfSome ranges
        (λ ranges. IsWithin source.now.items ranges.0 × IsWithin source.now.items ranges.1) }
    ensures parts { PartsIfAny (λ part. part) ranges source.now result }
    ensures counted { PartsIfAnyCosts B.SHARES ranges source.now meter.old meter.new }
    ensures copied { OnceCounts (λ part. part) B.SHARES source.now result meter.old meter.new }
{
    let Some((front, back)) = ranges else {
        return Ok(None);
    };
    let front = source.part_metered(alloc, front.0, front.1, meter)?;
    let back = source.part_metered(alloc, back.0, back.1, meter)?;
    Ok(Some((front, back)))
}

//! Parts of a path, by its components.
ghost use Rattle.std.specs.Prelude.{◌≡◌, ◌≤◌, IfOk, length, not, take};
ghost use Rattle.hip_raw.specs.Meter.{RisesAtMost};
ghost use Rattle.hip_bytes.specs.Cost.{cut_cost, PartCounts};
ghost use Rattle.hip_bytes.specs.Made.{CutAnswers};
ghost use Rattle.hip_names.specs.PathParts.{extension, file_name, file_stem, has_root};
ghost use Rattle.hip_names.specs.PathCuts.{ParentAnswers, ParentCosts, PartIfAny, PartIfAnyCosts, PartIfAnyCounts};

use super::HipPath;
use crate::hip_os_str::HipOsStr;
use crate::parts::{
    begins_with_root, extension_range, file_name_range, file_stem_range, parent_len,
};
use hip_bytes::{Backend, Meter};
use std::alloc::{AllocError, Global};

impl<'b, B: Backend> HipPath<'b, B> {
    /// Whether the path begins with the root.
    #[inline]
    pub fn has_root(&self) -> bool
        ensures { result ≡ has_root self.now.items }
    {
        begins_with_root(self.as_path())
    }

    /// Whether the path doesn't depend on the current directory: [`HipPath::has_root`], on Unix.
    #[inline]
    pub fn is_absolute(&self) -> bool
        ensures { result ≡ has_root self.now.items }
    {
        self.has_root()
    }

    /// Whether the path depends on the current directory.
    #[inline]
    pub fn is_relative(&self) -> bool
        ensures { result ≡ not (has_root self.now.items) }
    {
        !self.is_absolute()
    }

    /// The last component, where that is a name. It is cut like a part of the bytes: from an owner that is shared no more is copied than
    /// a handle holds in itself.
    #[inline]
    pub fn file_name(&self, alloc: Global) -> Result<Option<HipOsStr<'b, B>>, AllocError>
        ensures part { PartIfAny (file_name self.now.items) self.now result }
    {
        self.file_name_metered(alloc, &mut Meter::new())
    }

    /// [`HipPath::file_name`], counted.
    #[inline]
    pub fn file_name_metered(
        &self,
        alloc: Global,
        meter: &mut Meter,
    ) -> Result<Option<HipOsStr<'b, B>>, AllocError>
        ensures part { PartIfAny (file_name self.now.items) self.now result }
        ensures counted { PartIfAnyCosts B.SHARES (file_name self.now.items) self.now
            meter.old meter.new }
        ensures copied { PartIfAnyCounts B.SHARES self.now result meter.old meter.new }
    {
        let Some((start, end)) = file_name_range(self.as_path()) else {
            return Ok(None);
        };
        Ok(Some(self.name.part_metered(alloc, start, end, meter)?))
    }

    /// The file name before its last dot, or all of it where there is none, or where it begins with that. Cut like
    /// [`HipPath::file_name`].
    #[inline]
    pub fn file_stem(&self, alloc: Global) -> Result<Option<HipOsStr<'b, B>>, AllocError>
        ensures part { PartIfAny (file_stem self.now.items) self.now result }
    {
        self.file_stem_metered(alloc, &mut Meter::new())
    }

    /// [`HipPath::file_stem`], counted.
    #[inline]
    pub fn file_stem_metered(
        &self,
        alloc: Global,
        meter: &mut Meter,
    ) -> Result<Option<HipOsStr<'b, B>>, AllocError>
        ensures part { PartIfAny (file_stem self.now.items) self.now result }
        ensures counted { PartIfAnyCosts B.SHARES (file_stem self.now.items) self.now
            meter.old meter.new }
        ensures copied { PartIfAnyCounts B.SHARES self.now result meter.old meter.new }
    {
        let Some((start, end)) = file_stem_range(self.as_path()) else {
            return Ok(None);
        };
        Ok(Some(self.name.part_metered(alloc, start, end, meter)?))
    }

    /// The file name behind its last dot, unless it begins with that. Cut like [`HipPath::file_name`].
    #[inline]
    pub fn extension(&self, alloc: Global) -> Result<Option<HipOsStr<'b, B>>, AllocError>
        ensures part { PartIfAny (extension self.now.items) self.now result }
    {
        self.extension_metered(alloc, &mut Meter::new())
    }

    /// [`HipPath::extension`], counted.
    #[inline]
    pub fn extension_metered(
        &self,
        alloc: Global,
        meter: &mut Meter,
    ) -> Result<Option<HipOsStr<'b, B>>, AllocError>
        ensures part { PartIfAny (extension self.now.items) self.now result }
        ensures counted { PartIfAnyCosts B.SHARES (extension self.now.items) self.now
            meter.old meter.new }
        ensures copied { PartIfAnyCounts B.SHARES self.now result meter.old meter.new }
    {
        let Some((start, end)) = extension_range(self.as_path()) else {
            return Ok(None);
        };
        Ok(Some(self.name.part_metered(alloc, start, end, meter)?))
    }

    /// The path without its last component. The root and the empty path have no parent. Slashes and dots behind the other components are
    /// left off too: the parent of `/foo//bar` is `/foo`.
    #[inline]
    pub fn parent(&self, alloc: Global) -> Result<Option<Self>, AllocError>
        ensures parent { ParentAnswers self.now result }
    {
        self.parent_metered(alloc, &mut Meter::new())
    }

    /// [`HipPath::parent`], counted.
    #[inline]
    pub fn parent_metered(
        &self,
        alloc: Global,
        meter: &mut Meter,
    ) -> Result<Option<Self>, AllocError>
        ensures parent { ParentAnswers self.now result }
        ensures counted { ParentCosts B.SHARES self.now result meter.old meter.new }
        ensures copied { PartIfAnyCounts B.SHARES self.now result meter.old meter.new }
    {
        let Some(len) = parent_len(self.as_path()) else {
            return Ok(None);
        };
        Ok(Some(self.front_metered(alloc, len, meter)?))
    }

    /// The first bytes.
    #[inline]
    fn front_metered(
        &self,
        alloc: Global,
        len: usize,
        meter: &mut Meter,
    ) -> Result<Self, AllocError>
        requires in_bounds { len ≤ length self.now.items }
        ensures part { CutAnswers self.now (take len self.now.items) result }
        ensures counted { RisesAtMost meter.old meter.new
            (cut_cost B.SHARES self.now.kind len) }
        ensures copied { IfOk result
            (λ part. PartCounts B.SHARES self.now part meter.old meter.new) }
    {
        Ok(HipPath {
            name: self.name.part_metered(alloc, 0, len, meter)?,
        })
    }
}

//! Bytes that no other handle shares.
ghost use Rattle.std.specs.Prelude.{◌≡◌, false, length, IfSome, IfOk, IfErr, IsOk, IsSome, OnErr};
ghost use Rattle.std.specs.Borrow.{sem, RestsIfNone};
ghost use Rattle.std.specs.Fn.{FnOnceReturnsAtMut, FnOnceTakesAtMut};
ghost use Rattle.hip_raw.specs.Sole.{reference_of, source_of};
ghost use Rattle.hip_raw.specs.contracts.allocated.Allocated.{the_row};

use crate::allocated::Allocated;
use crate::backend::Backend;

/// An [`Allocated`] whose owner no other handle shares, held for writing.
#[derive(Drop)]
pub struct Sole<'a, S> {
    source: &'a mut S,
}

impl<B: Backend> Allocated<B> {
    /// These bytes, held for writing, where no other handle shares the owner. Where one does, nothing changes.
    #[inline]
    pub fn sole(&mut self) -> Option<Sole<'_, Allocated<B>>>
        ensures* none { sem 𝓛 (RestsIfNone (the_row B.row B.Sole.row B.Extent.row B.Backend B.Sole.Room B.Extent.Extent)
            self.entry reference_of result (λ now. now ≡ self.old)) }
        ensures same_reference { IfSome result (λ held. reference_of held ≡ self.entry.ghost_name) }
        ensures source { IfSome result (λ held. (source_of held).items ≡ self.old.items) }
        ensures capacity { IfSome result (λ held. (source_of held).capacity ≡ self.old.capacity) }
        ensures sole { B.SHARES ≡ false → IsSome result }
    {
        match self.with_mut_slice(|_| ()) {
            Ok(()) => Some(Sole { source: self }),
            Err(_) => None,
        }
    }
}

impl<'a, B: Backend> Sole<'a, Allocated<B>> {
    /// The bytes.
    #[inline]
    pub fn as_slice(&self) -> &[u8]
        ensures { result.now ≡ (source_of self.now).items }
    {
        self.source.as_slice()
    }

    /// [`Allocated::with_mut_slice`].
    #[inline]
    pub fn with_mut_slice<R, F: FnOnce(&mut [u8]) -> R>(&mut self, f: F) -> Result<R, F>
        requires { FnOnceTakesAtMut F.FnOnce f (source_of self.old).items }
        ensures same_reference { reference_of self.new ≡ reference_of self.old }
        ensures ran { IfOk result
            (λ answer. FnOnceReturnsAtMut F.FnOnce f (source_of self.old).items answer (source_of self.new).items) }
        ensures len { length (source_of self.new).items ≡ length (source_of self.old).items }
        ensures capacity { (source_of self.new).capacity ≡ (source_of self.old).capacity }
        ensures sole { B.SHARES ≡ false → IsOk result }
        ensures err { OnErr result (source_of self.new ≡ source_of self.old) }
        ensures handed_back { IfErr result (λ back. back ≡ f) }
    {
        self.source.with_mut_slice(f)
    }
}

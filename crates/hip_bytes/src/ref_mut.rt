//! A value lent out as a vector.
ghost use Rattle.std.specs.Prelude.{◌≡◌, ℕ, List, [], length, IfOk, IfErr, OnOk, OnErr};
ghost use Rattle.std.specs.Borrow.{sem, follows};
ghost use Rattle.hip_raw.specs.Meter.{RisesAtMost};
ghost use Rattle.std.specs.Vec.{vec_items};
ghost use Rattle.hip_bytes.specs.Mutated.{MutateAnswers, MutateCosts, TakesItems};
ghost use Rattle.hip_bytes.specs.RefMut.{lender, lent_items, lent_source};
ghost use mir.Syntax.{named};

use crate::mutate_fault::MutateFault;
use hip_raw::{Block, Meter};
use std::alloc::{AllocError, Global};
use std::fmt;

/// A handle that can be lent out as a vector of its bytes.
pub trait Source: Drop {
    /// Its bytes.
    ghost items: { Self → List ℕ };

    /// It holds no bytes, in the handle itself.
    ghost is_emptied: { Self → Type 0 };

    /// It holds these bytes, by length.
    ghost has_put: { Self → List ℕ → Type 0 };

    /// The greatest number of bytes that a put of this many copies.
    ghost put_cost: { ℕ → ℕ };

    /// A put of a list of this length may need memory.
    ghost put_needs_memory: { ℕ → Type 0 };

    /// Takes the bytes out in a vector, and leaves none. The block that held the vector, if one did, goes with it. After a refusal the
    /// value is as it was.
    fn lend_vec_metered(
        &mut self,
        alloc: Global,
        meter: &mut Meter,
    ) -> Result<(Vec<u8>, Block), AllocError>
        ensures items { IfOk result (λ lent. lent.0.items ≡ items self.old) }
        ensures emptied { OnOk result (is_emptied self.new) }
        ensures counted { RisesAtMost meter.old meter.new (length (items self.old)) }
        ensures err { OnErr result (self.new ≡ self.old) };

    /// Makes the value that of the vector, in the block where there is one. A refused vector is handed back, and the value is as it was.
    fn put_back_metered(
        &mut self,
        alloc: Global,
        block: Block,
        vec: Vec<u8>,
        meter: &mut Meter,
    ) -> Result<(), Vec<u8>>
        ensures put { OnOk result (has_put self.new vec.items) }
        ensures memory { OnErr result (put_needs_memory (length vec.items)) }
        ensures counted { RisesAtMost meter.old meter.new (put_cost (length vec.items)) }
        ensures err { OnErr result (self.new ≡ self.old) }
        ensures handed_back { IfErr result (λ back. back ≡ vec) };
}

/// Lends a value's bytes out in a vector, which [`RefMut::finish`] writes back. Until then the value is empty. A refused call changes
/// nothing, as [`Source::lend_vec_metered`] says, which is all that this calls.
pub fn mutate<S: Source>(source: &mut S, alloc: Global) -> Result<RefMut<'_, S>, AllocError>
    ensures same_reference { IfOk result (λ guard. lender guard ≡ source.entry.ghost_name) }
    ensures items { IfOk result (λ guard. lent_items guard ≡ S.items source.old) }
    ensures emptied { IfOk result (λ guard. S.is_emptied (lent_source guard)) }
{
    mutate_metered(source, alloc, &mut Meter::new())
}

/// [`mutate`], counted.
pub fn mutate_metered<'a, S: Source>(
    source: &'a mut S,
    alloc: Global,
    meter: &mut Meter,
) -> Result<RefMut<'a, S>, AllocError>
    ensures same_reference { IfOk result (λ guard. lender guard ≡ source.entry.ghost_name) }
    ensures items { IfOk result (λ guard. lent_items guard ≡ S.items source.old) }
    ensures emptied { IfOk result (λ guard. S.is_emptied (lent_source guard)) }
    ensures counted { RisesAtMost meter.old meter.new (length (S.items source.old)) }
{
    let (vec, block) = source.lend_vec_metered(alloc, meter)?;
    Ok(RefMut::new(source, vec, block))
}

/// Calls `f` with a value's bytes in a vector, and makes the value that of the vector which `f` leaves. Where no vector could be lent `f`
/// isn't called and the value is as it was; where the vector couldn't be put back the value is empty.
pub fn with_mutated<S: Source, R: Drop, F: FnOnce(&mut Vec<u8>) -> R + Drop>(
    source: &mut S,
    alloc: Global,
    f: F,
) -> Result<R, MutateFault<R>>
    requires { TakesItems vec_items F.FnOnce f (S.items source.old) }
    ensures { MutateAnswers vec_items F.FnOnce f (S.items source.old) source.old source.new
        S.has_put S.is_emptied S.put_needs_memory result }
{
    with_mutated_metered(source, alloc, f, &mut Meter::new())
}

/// [`with_mutated`], counted. What `f` copies isn't.
pub fn with_mutated_metered<S: Source, R: Drop, F: FnOnce(&mut Vec<u8>) -> R + Drop>(
    source: &mut S,
    alloc: Global,
    f: F,
    meter: &mut Meter,
) -> Result<R, MutateFault<R>>
    requires { TakesItems vec_items F.FnOnce f (S.items source.old) }
    ensures mutated { MutateAnswers vec_items F.FnOnce f (S.items source.old) source.old source.new
        S.has_put S.is_emptied S.put_needs_memory result }
    ensures counted { MutateCosts vec_items F.FnOnce f
        (S.items source.old) meter.old meter.new S.put_cost result }
{
    let Ok((mut lent, block)) = source.lend_vec_metered(alloc, meter) else {
        return Err(MutateFault::Lend);
    };
    let answer = f(&mut lent);
    match source.put_back_metered(alloc, block, lent, meter) {
        Ok(()) => Ok(answer),
        Err(back) => Err(MutateFault::PutBack(answer, back)),
    }
}

/// A value's bytes in a vector, to be written back by [`RefMut::finish`]. While it lives the value is empty, and where it is dropped
/// the value stays so.
#[derive(Drop)]
pub struct RefMut<'a, S: Source, V: Drop = Vec<u8>, P: Drop = Block> {
    source: &'a mut S,
    vec: V,
    block: P,
}

impl<'a, S: Source> RefMut<'a, S, Vec<u8>, Block> {
    ghost use Rattle.hip_raw.specs.contracts.block.Block.{the_row as block_row};
    ghost use Rattle.hip_bytes.specs.RefMut.{bytes_row, lent_vec, with_vec};
    ghost use Rattle.hip_bytes.specs.contracts.ref_mut.RefMut.{the_row};

    /// A guard that writes this vector back, in the block where there is one: what [`Source::lend_vec_metered`] lent.
    pub fn new(source: &'a mut S, vec: Vec<u8>, block: Block) -> Self
        ensures same_reference { lender result ≡ source.entry.ghost_name }
        ensures vec { lent_vec result ≡ vec }
        ensures source { lent_source result ≡ source.old }
    {
        RefMut { source, vec, block }
    }

    /// The lent vector.
    #[inline]
    pub fn as_vec(&self) -> &Vec<u8>
        ensures { result.now ≡ lent_vec self.now }
    {
        &self.vec
    }

    /// The lent vector, for writing.
    #[inline]
    pub fn as_mut_vec(&mut self) -> &mut Vec<u8>
        ensures* writes_back { sem 𝓛
            (follows (the_row (record { mir = named 1; lft = [] }) S.row bytes_row block_row)
            bytes_row self.entry.ghost_name result.ghost_name (with_vec self.old)) }
        ensures items { result.now ≡ lent_vec self.old }
    {
        &mut self.vec
    }

    /// Writes the vector's bytes back. A refused vector is handed back, and the value stays empty.
    pub fn finish(self, alloc: Global) -> Result<(), Vec<u8>>
        ensures put { OnOk result (S.has_put (self.exit.0.now) (lent_items self.entry)) }
        ensures memory { OnErr result (S.put_needs_memory (length (lent_items self.entry))) }
        ensures err { OnErr result (self.exit.0.now ≡ lent_source self.entry) }
        ensures handed_back { IfErr result (λ back. back ≡ lent_vec self.entry) }
    {
        self.finish_metered(alloc, &mut Meter::new())
    }

    /// [`RefMut::finish`], counted.
    pub fn finish_metered(self, alloc: Global, meter: &mut Meter) -> Result<(), Vec<u8>>
        ensures put { OnOk result (S.has_put (self.exit.0.now) (lent_items self.entry)) }
        ensures memory { OnErr result (S.put_needs_memory (length (lent_items self.entry))) }
        ensures counted { RisesAtMost meter.old meter.new
            (S.put_cost (length (lent_items self.entry))) }
        ensures err { OnErr result (self.exit.0.now ≡ lent_source self.entry) }
        ensures handed_back { IfErr result (λ back. back ≡ lent_vec self.entry) }
    {
        let RefMut { source, vec, block } = self;
        source.put_back_metered(alloc, block, vec, meter)
    }
}

impl<'a, S: Source> fmt::Debug for RefMut<'a, S, Vec<u8>, Block> {
    fn fmt<W: fmt::Write>(&self, f: &mut fmt::Formatter<W>) -> fmt::Result {
        fmt::Debug::fmt(&self.vec, f)
    }
}

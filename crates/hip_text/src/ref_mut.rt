//! A text lent out as a `String`.
ghost use Rattle.std.specs.Prelude.{◌≡◌, ℕ, List, [], length, IfOk, IfErr, OnOk, OnErr};
ghost use Rattle.std.specs.Borrow.{sem, follows};
ghost use Rattle.std.specs.String.{string_bytes};
ghost use Rattle.hip_bytes.specs.Meter.{RisesAtMost};
ghost use Rattle.hip_bytes.specs.Mutated.{MutateAnswers, MutateCosts, TakesItems};
ghost use Rattle.hip_text.specs.RefMut.{lender, lent_items, lent_source};
ghost use mir.Syntax.{named};

use hip_bytes::{Block, Meter, MutateFault};
use std::alloc::{AllocError, Global};
use std::fmt;

/// A handle that can be lent out as a `String` of its text.
pub trait TextSource: Drop {
    /// Its bytes.
    ghost items: { Self → List ℕ };

    /// It holds no bytes, in the handle itself.
    ghost is_emptied: { Self → Type 0 };

    /// It holds these bytes, by length.
    ghost has_put: { Self → List ℕ → Type 0 };

    /// The greatest number of bytes that a put of this many copies.
    ghost put_cost: { ℕ → ℕ };

    /// A put of a text of this length may need memory.
    ghost put_needs_memory: { ℕ → Type 0 };

    /// Takes the text out in a `String`, and leaves none. The block that held its vector, if one did, goes with it. After a refusal the
    /// value is as it was.
    fn lend_string_metered(
        &mut self,
        alloc: Global,
        meter: &mut Meter,
    ) -> Result<(String, Block), AllocError>
        ensures items { IfOk result (λ lent. string_bytes lent.0 ≡ items self.old) }
        ensures emptied { OnOk result (is_emptied self.new) }
        ensures counted { RisesAtMost meter.old meter.new (length (items self.old)) }
        ensures err { OnErr result (self.new ≡ self.old) };

    /// Makes the value that of the `String`, in the block where there is one. A refused one is handed back, and the value is as it was.
    fn put_back_metered(
        &mut self,
        alloc: Global,
        block: Block,
        string: String,
        meter: &mut Meter,
    ) -> Result<(), String>
        ensures put { OnOk result (has_put self.new (string_bytes string)) }
        ensures memory { OnErr result (put_needs_memory (length (string_bytes string))) }
        ensures counted { RisesAtMost meter.old meter.new
            (put_cost (length (string_bytes string))) }
        ensures err { OnErr result (self.new ≡ self.old) }
        ensures handed_back { IfErr result (λ back. back ≡ string) };
}

/// Lends a text out in a `String`, which [`RefMut::finish`] writes back. Until then the value is empty. A refused call changes
/// nothing, as [`TextSource::lend_string_metered`] says, which is all that this calls.
pub fn mutate<S: TextSource>(source: &mut S, alloc: Global) -> Result<RefMut<'_, S>, AllocError>
    ensures same_reference { IfOk result (λ guard. lender guard ≡ source.entry.ghost_name) }
    ensures items { IfOk result (λ guard. lent_items guard ≡ S.items source.old) }
    ensures emptied { IfOk result (λ guard. S.is_emptied (lent_source guard)) }
{
    mutate_metered(source, alloc, &mut Meter::new())
}

/// [`mutate`], counted.
pub fn mutate_metered<'a, S: TextSource>(
    source: &'a mut S,
    alloc: Global,
    meter: &mut Meter,
) -> Result<RefMut<'a, S>, AllocError>
    ensures same_reference { IfOk result (λ guard. lender guard ≡ source.entry.ghost_name) }
    ensures items { IfOk result (λ guard. lent_items guard ≡ S.items source.old) }
    ensures emptied { IfOk result (λ guard. S.is_emptied (lent_source guard)) }
    ensures counted { RisesAtMost meter.old meter.new (length (S.items source.old)) }
{
    let (string, block) = source.lend_string_metered(alloc, meter)?;
    Ok(RefMut::new(source, string, block))
}

/// Calls `f` with a text in a `String`, and makes the value that of the `String` which `f` leaves. Where none could be lent `f` isn't
/// called and the value is as it was; where it couldn't be put back the value is empty.
pub fn with_mutated<S: TextSource, R: Drop, F: FnOnce(&mut String) -> R + Drop>(
    source: &mut S,
    alloc: Global,
    f: F,
) -> Result<R, MutateFault<R, String>>
    requires { TakesItems string_bytes F.FnOnce f (S.items source.old) }
    ensures { MutateAnswers string_bytes F.FnOnce f (S.items source.old) source.old source.new
        S.has_put S.is_emptied S.put_needs_memory result }
{
    with_mutated_metered(source, alloc, f, &mut Meter::new())
}

/// [`with_mutated`], counted. What `f` copies isn't.
pub fn with_mutated_metered<S: TextSource, R: Drop, F: FnOnce(&mut String) -> R + Drop>(
    source: &mut S,
    alloc: Global,
    f: F,
    meter: &mut Meter,
) -> Result<R, MutateFault<R, String>>
    requires { TakesItems string_bytes F.FnOnce f (S.items source.old) }
    ensures mutated { MutateAnswers string_bytes F.FnOnce f (S.items source.old) source.old source.new
        S.has_put S.is_emptied S.put_needs_memory result }
    ensures counted { MutateCosts string_bytes F.FnOnce f
        (S.items source.old) meter.old meter.new S.put_cost result }
{
    let Ok((mut lent, block)) = source.lend_string_metered(alloc, meter) else {
        return Err(MutateFault::Lend);
    };
    let answer = f(&mut lent);
    match source.put_back_metered(alloc, block, lent, meter) {
        Ok(()) => Ok(answer),
        Err(back) => Err(MutateFault::PutBack(answer, back)),
    }
}

/// A text in a `String`, to be written back by [`RefMut::finish`]. While it lives the value is empty, and where it is dropped the value
/// stays so.
#[derive(Drop)]
pub struct RefMut<'a, S: TextSource, V: Drop = String, P: Drop = Block> {
    source: &'a mut S,
    string: V,
    block: P,
}

impl<'a, S: TextSource> RefMut<'a, S, String, Block> {
    ghost use Rattle.hip_bytes.specs.contracts.Block.{the_row as block_row};
    ghost use Rattle.hip_text.specs.RefMut.{lent_string, string_row, with_string};
    ghost use Rattle.hip_text.specs.contracts.ref_mut.RefMut.{the_row};

    /// A guard that writes this `String` back, in the block where there is one: what [`TextSource::lend_string_metered`] lent.
    pub fn new(source: &'a mut S, string: String, block: Block) -> Self
        ensures same_reference { lender result ≡ source.entry.ghost_name }
        ensures string { lent_string result ≡ string }
        ensures source { lent_source result ≡ source.old }
    {
        RefMut {
            source,
            string,
            block,
        }
    }

    /// The lent `String`.
    #[inline]
    pub fn as_string(&self) -> &String
        ensures { result.now ≡ lent_string self.now }
    {
        &self.string
    }

    /// The lent `String`, for writing.
    #[inline]
    pub fn as_mut_string(&mut self) -> &mut String
        ensures* writes_back { sem 𝓛
            (follows (the_row (record { mir = named 1; lft = [] }) S.row string_row block_row)
            string_row self.entry.ghost_name result.ghost_name (with_string self.old)) }
        ensures items { result.now ≡ lent_string self.old }
    {
        &mut self.string
    }

    /// Writes the `String`'s text back. A refused one is handed back, and the value stays empty.
    pub fn finish(self, alloc: Global) -> Result<(), String>
        ensures put { OnOk result (S.has_put (self.exit.0.now) (lent_items self.entry)) }
        ensures memory { OnErr result (S.put_needs_memory (length (lent_items self.entry))) }
        ensures err { OnErr result (self.exit.0.now ≡ lent_source self.entry) }
        ensures handed_back { IfErr result (λ back. back ≡ lent_string self.entry) }
    {
        self.finish_metered(alloc, &mut Meter::new())
    }

    /// [`RefMut::finish`], counted.
    pub fn finish_metered(self, alloc: Global, meter: &mut Meter) -> Result<(), String>
        ensures put { OnOk result (S.has_put (self.exit.0.now) (lent_items self.entry)) }
        ensures memory { OnErr result (S.put_needs_memory (length (lent_items self.entry))) }
        ensures counted { RisesAtMost meter.old meter.new
            (S.put_cost (length (lent_items self.entry))) }
        ensures err { OnErr result (self.exit.0.now ≡ lent_source self.entry) }
        ensures handed_back { IfErr result (λ back. back ≡ lent_string self.entry) }
    {
        let RefMut {
            source,
            string,
            block,
        } = self;
        source.put_back_metered(alloc, block, string, meter)
    }
}

impl<'a, S: TextSource> fmt::Debug for RefMut<'a, S, String, Block> {
    fn fmt<W: fmt::Write>(&self, f: &mut fmt::Formatter<W>) -> fmt::Result {
        fmt::Debug::fmt(&self.string, f)
    }
}

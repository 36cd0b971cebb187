//! The room of a sole owner, and how it is written in place.
ghost use Rattle.std.specs.Prelude.{◌≡◌, ℕ, ◌+◌, ◌^◌, ◌<◌, ◌≤◌, false, List, length, take, vec_capacity, IfOk, IfErr, OnErr, IsOk};
ghost use Rattle.std.specs.Fn.{FnOnceReturnsAtMut, FnOnceTakesAtMut};
ghost use Rattle.std.specs.Borrow.{sem, Lends, Array, u8};
ghost use Rattle.hip_raw.specs.Window.{window};

use crate::backend::Backend;

/// The room of the sole owner of some bytes: a list that is written and cut in place.
pub trait Room {
    // The list, and the number of bytes that it can hold without allocating.
    ghost items: { Self → List ℕ };

    ghost capacity: { Self → ℕ };

    // The room after its list was written over as a slice.
    ghost with_items: { Self → List ℕ → Self };

    /// The bytes, for writing. What stands there when the loan ends is the list.
    fn as_mut_slice(&mut self) -> &mut [u8]
        ensures* writes_back { sem 𝓛
            (Lends Self.row (Array u8 0) self.entry result (with_items self.old)) }
        ensures items { result.now ≡ items self.old };

    /// Keeps the first `len` bytes, or all where there are fewer. It copies nothing.
    fn truncate(&mut self, len: usize)
        ensures items { items self.new ≡ take len (items self.old) }
        ensures capacity { capacity self.new ≡ capacity self.old };

    // The list is what was written; its length and the capacity stay.
    ghost written: { (room : Self) (bytes : List ℕ)
        → length bytes ≡ length (items room) → items (with_items room bytes) ≡ bytes };

    ghost keeps_length: { (room : Self) (bytes : List ℕ)
        → length (items (with_items room bytes)) ≡ length (items room) };

    ghost keeps_capacity: { (room : Self) (bytes : List ℕ)
        → capacity (with_items room bytes) ≡ capacity room };
}

impl Room for Vec<u8> {
    ghost use Rattle.std.specs.Vec.{with_items as vec_with_items};
    ghost use Rattle.std.proofs.Common.{rules};
    ghost use Rattle.std.proofs.lemmas.Grind.{common_steps};

    ghost items = { λ vec. vec.items };

    ghost capacity = { λ vec. vec_capacity vec };

    ghost with_items = { λ vec bytes. vec_with_items vec bytes };

    ghost written = { λ room bytes same. Prim.grind (rules, common_steps) };

    ghost keeps_length = { λ room bytes. Prim.grind (rules, common_steps) };

    ghost keeps_capacity = { λ room bytes. Prim.search rules };

    #[inline]
    fn as_mut_slice(&mut self) -> &mut [u8] {
        self.as_mut_slice()
    }

    #[inline]
    fn truncate(&mut self, len: usize) {
        self.truncate(len);
    }
}

// Calls `f` with the bytes of a range, for writing.
#[inline]
fn write_room<S: Room, R, F: FnOnce(&mut [u8]) -> R>(
    sole: &mut S,
    start: usize,
    len: usize,
    f: F,
) -> R
    requires callable { FnOnceTakesAtMut F.FnOnce f (window (S.items sole.old) start len) }
    requires in_bounds { start + len ≤ length (S.items sole.old) }
    requires bound { length (S.items sole.old) < 2 ^ 64 }
    ensures ran { FnOnceReturnsAtMut F.FnOnce f (window (S.items sole.old) start len) result
        (window (S.items sole.new) start len) }
    ensures len { length (S.items sole.new) ≡ length (S.items sole.old) }
    ensures capacity { S.capacity sole.new ≡ S.capacity sole.old }
{
    let bytes = sole.as_mut_slice();
    f(&mut bytes[start..start + len])
}

// Like `write_room`, but for an owner, where no other handle shares it. Where one does, `f` is handed back.
#[inline]
pub(crate) fn write_range<B: Backend, R, F: FnOnce(&mut [u8]) -> R>(
    owner: &mut B,
    start: usize,
    len: usize,
    f: F,
) -> Result<R, F>
    requires callable { FnOnceTakesAtMut F.FnOnce f (window (B.items owner.old) start len) }
    requires in_bounds { start + len ≤ length (B.items owner.old) }
    ensures ran { IfOk result
        (λ answer. FnOnceReturnsAtMut F.FnOnce f (window (B.items owner.old) start len) answer
        (window (B.items owner.new) start len)) }
    ensures len { length (B.items owner.new) ≡ length (B.items owner.old) }
    ensures capacity { B.capacity owner.new ≡ B.capacity owner.old }
    ensures sole { B.SHARES ≡ false → IsOk result }
    ensures err { OnErr result (owner.new ≡ owner.old) }
    ensures handed_back { IfErr result (λ back. back ≡ f) }
{
    match owner.writable() {
        Some(sole) => Ok(write_room(sole, start, len, f)),
        None => Err(f),
    }
}

// Cuts the owner's list to `len` bytes, where no other handle shares it.
#[inline]
pub(crate) fn cut<B: Backend>(owner: &mut B, len: usize)
    ensures items { take len (B.items owner.new) ≡ take len (B.items owner.old) }
    ensures lower_bound { len ≤ length (B.items owner.old) → len ≤ length (B.items owner.new) }
    ensures upper_bound { length (B.items owner.new) ≤ length (B.items owner.old) }
    ensures sole { B.SHARES ≡ false → B.items owner.new ≡ take len (B.items owner.old) }
    ensures capacity { B.capacity owner.new ≡ B.capacity owner.old }
{
    if let Some(sole) = owner.writable() {
        sole.truncate(len);
    }
}

//! A list that only clauses read.
ghost use Rattle.std.specs.Prelude.{◌≡◌, Bool, List};

use std::alloc::AllocError;
use std::marker::Model;

/// A list of answers that takes no bytes: no code can read it.
#[derive(Drop)]
pub struct Chosen {
    pub ghost answers: { List Bool },
}

impl Model for Chosen {
    ghost use base.Fml.{ftrue};

    ghost also_owns = { λ _. ftrue };
}

// The list that the caller's proof chooses.
pub(crate) fn choose() -> Chosen
    ghost answers: { List Bool }
    ensures { result.answers ≡ answers }
{
    Chosen {}
}

// A list that the caller's proof chooses by what `seen` holds.
pub(crate) fn choose_from(seen: &Chosen) -> Chosen
    ghost answers: { List Bool }
    ensures { result.answers ≡ answers }
{
    let _ = seen;
    choose()
}

impl Clone for Chosen {
    ghost is_clone = { λ a b. b.answers ≡ a.answers };

    ghost is_infallible = { λ _. Unit {0} };

    fn clone(&self) -> Result<Self, AllocError> {
        Ok(choose_from(self))
    }
}

//! The text of a value, while the value writes it.
ghost use Rattle.std.specs.Prelude.{◌≡◌, ◌≤◌, ◌+◌, ◌++◌, IsUtf8, [], length, IfOk, IfSome, OnErr, OnOk};
ghost use Rattle.hip_raw.specs.Meter.{RisesAtLeast, RisesAtMost};
ghost use Rattle.hip_bytes.specs.declared.kind.TheConstants.{INLINE_CAPACITY};

use crate::gathering::Gathering;
use hip_raw::Meter;
use std::alloc::{AllocError, Global};
use std::fmt::{self, Display, Formatter};
use std::marker::Model;

/// What a value has written so far, and the number of bytes that were copied for it.
#[derive(Drop)]
pub(crate) struct Draft {
    gathering: Gathering,
    counted: Meter,
    alloc: Global,
}

impl Model for Draft {
    ghost use Rattle.hip_bytes.specs.Gathering.{Drafted, IsDraft};

    ghost Value = { Drafted };

    ghost view = { λ d. record { items = d.gathering.items; counted = d.counted } };

    ghost invariant = { λ d. IsDraft d.gathering d.counted };
}

impl fmt::Write for Draft {
    ghost write_str_gives = { λ old text new. new.items ≡ old.items ++ text };

    #[tactic(auto, using(crate::proofs::Drafts::drafts))]
    fn write_str(&mut self, s: &str) -> fmt::Result {
        match self
            .gathering
            .add_behind(self.alloc, &[], s.as_bytes(), &mut self.counted)
        {
            Ok(()) => Ok(()),
            Err(_) => Err(fmt::Error),
        }
    }
}

/// What a value writes, as `{}` does.
#[tactic(auto, using(crate::proofs::Drafts::drafts))]
pub(crate) fn drafted<D: Display + Drop>(
    alloc: Global,
    value: D,
    meter: &mut Meter,
) -> Result<Gathering, AllocError>
    ensures text { IfOk result (λ made. IfSome (D.output value) (λ text. made.items ≡ text)) }
    ensures utf8 { IfOk result (λ made. IsUtf8 made.items) }
    ensures counted { IfOk result
        (λ made. RisesAtMost meter.old meter.new (length made.items + INLINE_CAPACITY)) }
    ensures copied { IfOk result (λ made. RisesAtLeast meter.old meter.new (length made.items)) }
{
    let mut formatter = Formatter::new(Draft {
        gathering: Gathering::new(),
        counted: Meter::new(),
        alloc,
    });
    let outcome = formatter.write(value);
    let Draft {
        gathering,
        counted,
        ..
    } = formatter.into_inner();
    meter.add(&counted);
    match outcome {
        Ok(()) => Ok(gathering),
        Err(fmt::Error) => Err(AllocError),
    }
}

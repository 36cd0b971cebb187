//! Values that are written at the end.
ghost use Rattle.std.specs.Prelude.{◌≡◌, ◌-◌, length, OnOk, OnErr};
ghost use Rattle.std.specs.Fmt.{AppendsText};
ghost use Rattle.hip_raw.specs.Meter.{RisesAtLeast, RisesAtMost};
ghost use Rattle.hip_bytes.specs.Change.{PushesText};
ghost use Rattle.hip_bytes.specs.Cost.{written_cost};

use super::HipByt;
use crate::draft::drafted;
use crate::writer::Writer;
use hip_raw::{Backend, Meter};
use std::alloc::{AllocError, Global};
use std::fmt::Display;

impl<'b, B: Backend> HipByt<'b, B> {
    /// Writes a value at the end, as `{}` does: `bytes.write_fmt(alloc, format_args!("{name}: {count}"))`. Its text is gathered first,
    /// in the call itself as long as it fits a handle, and then pushed. So a refused write changes nothing, be it for want of memory or
    /// since the value's own `fmt` fails, which is told as want of memory too.
    pub fn write_fmt<D: Display + Drop>(
        &mut self,
        alloc: Global,
        value: D,
    ) -> Result<(), AllocError>
        ensures items { OnOk result (AppendsText self.old.items self.new.items (D.output value)) }
        ensures pushed { OnOk result (PushesText B.SHARES self.old self.new) }
        ensures err { OnErr result (self.new ≡ self.old) }
    {
        self.write_fmt_metered(alloc, value, &mut Meter::new())
    }

    /// [`HipByt::write_fmt`], counted.
    #[tactic(auto, using(crate::proofs::Drafts::pushes_draft))]
    pub fn write_fmt_metered<D: Display + Drop>(
        &mut self,
        alloc: Global,
        value: D,
        meter: &mut Meter,
    ) -> Result<(), AllocError>
        ensures items { OnOk result (AppendsText self.old.items self.new.items (D.output value)) }
        ensures pushed { OnOk result (PushesText B.SHARES self.old self.new) }
        ensures err { OnErr result (self.new ≡ self.old) }
        ensures counted { OnOk result (RisesAtMost meter.old meter.new (written_cost B.SHARES
            (length self.old.items) (length self.new.items - length self.old.items))) }
        ensures copied { OnOk result (RisesAtLeast meter.old meter.new
            (length self.new.items - length self.old.items)) }
    {
        let text = drafted(alloc, value, meter)?;
        text.push_on(self, alloc, meter)
    }

    /// This handle with an allocator, for `write!` and as an [`io::Write`](std::io::Write).
    #[inline]
    pub fn writer(&mut self, alloc: Global) -> Writer<'_, 'b, B>
        ensures same_reference { result.bytes.ghost_name ≡ self.entry.ghost_name }
        ensures bytes { result.bytes.now ≡ self.old }
    {
        Writer { bytes: self, alloc }
    }
}

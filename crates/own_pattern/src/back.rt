//! The set as a pattern that is looked for from a text's end too.
ghost use Rattle.hipstr.specs.CharLaws.{char_ends-one_char, char_ends-one_start};
ghost use Rattle.own_pattern.specs.Table.{in_table};

use crate::table::TruthTable;
use hipstr::pattern::{DoubleEndedPattern, OneChar, Pattern, ReversePattern};

impl ReversePattern for TruthTable {
    #[inline]
    #[tactic(auto, using(crate::proofs::Ends::steps))]
    fn last_match_by(&self, _searcher: &mut (), text: &str, to: usize) -> Option<(usize, usize)> {
        let mut at = to;
        while at > 0 {
            at -= 1;
            if let Some(end) = self.end_at(text, at) {
                return Some((at, end));
            }
        }
        None
    }

    #[inline]
    #[tactic(auto, using(crate::proofs::Ends::ends_there))]
    fn match_before(&self, text: &str, to: usize) -> Option<usize> {
        let at = to.checked_sub(1)?;
        self.end_at(text, at)?;
        Some(at)
    }

    ghost one_start = { λ table. char_ends-one_start (in_table table) };
}

impl DoubleEndedPattern for TruthTable {}

impl OneChar for TruthTable {
    ghost one_char = { λ table. char_ends-one_char (in_table table) };
}

//! The set as a pattern that is looked for from a text's front.
ghost use Rattle.hipstr.specs.CharLaws.{char_ends-spans};
ghost use Rattle.hipstr.specs.Characters.{char_ends};
ghost use Rattle.own_pattern.specs.Table.{in_table};

use crate::table::TruthTable;
use hipstr::pattern::{ClonePattern, Pattern};

impl Pattern for TruthTable {
    type Searcher = ();

    ghost ends = { λ table. char_ends (in_table table) };

    #[inline]
    fn searcher(&self, _text: &str, _from: usize, _to: usize) {}

    #[inline]
    #[tactic(auto, using(crate::proofs::Starts::none_past))]
    fn next_match_by(&self, _searcher: &mut (), text: &str, from: usize) -> Option<(usize, usize)> {
        for at in from..text.len() {
            if let Some(end) = self.end_at(text, at) {
                return Some((at, end));
            }
        }
        None
    }

    #[inline]
    fn match_at(&self, text: &str, at: usize) -> Option<usize> {
        self.end_at(text, at)
    }

    ghost spans = { λ table. char_ends-spans (in_table table) };
}

impl ClonePattern for TruthTable {
    ghost use Rattle.std.proofs.Common.{rules};

    ghost clones_keep = { Prim.search rules };
}

//! Sets of characters of ASCII.
ghost use Rattle.std.specs.Prelude.{◌≡◌, ◌==◌, ◌<◌, ◌||◌, ℕ, false};
ghost use Rattle.hipstr.specs.Characters.{char_ends};
ghost use Rattle.own_pattern.specs.Table.{in_table};

/// A set of characters of ASCII, as a table of truths.
#[derive(Clone, Copy)]
pub struct TruthTable {
    has: [bool; 128],
}

impl TruthTable {
    /// No character.
    #[tactic(auto, using(crate::proofs::Starts::empty_table))]
    pub fn new() -> Self
        ensures { (c : ℕ) → in_table result c ≡ false }
    {
        TruthTable { has: [false; 128] }
    }

    /// These characters and one more.
    pub fn with(self, byte: u8) -> Self
        requires { byte < 128 }
        ensures { (c : ℕ) → in_table result c ≡ (c == byte || in_table self c) }
    {
        let mut has = self.has;
        has[byte as usize] = true;
        TruthTable { has }
    }

    // Whether a byte is a character of the set.
    #[inline]
    fn has(&self, byte: u8) -> bool
        ensures { result ≡ in_table self.now byte }
    {
        byte < 128 && self.has[byte as usize]
    }

    // Where the character at `at` ends, if it is one of the set.
    #[inline]
    #[tactic(auto, using(crate::proofs::Starts::starts))]
    pub(crate) fn end_at(&self, text: &str, at: usize) -> Option<usize>
        ensures { result ≡ char_ends (in_table self.now) text.now at }
    {
        if at < text.len() && self.has(text.as_bytes()[at]) {
            Some(at + 1)
        } else {
            None
        }
    }
}

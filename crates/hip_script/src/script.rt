//! A whole script, as the records of its lines.
ghost use Rattle.std.specs.Prelude.{◌≡◌, ◌<◌, ◌++◌, ◌∷◌, [], ℕ, Err, OnOk, IsErrOf, None};
ghost use Rattle.hip_script.specs.Grammar.{line_said, script_of};
ghost use Rattle.hip_script.specs.Said.{GivesScript, ReadsLine, held};
ghost use Rattle.hip_script.specs.declared.fault.PlayFault.TheVariants.{NotACommand};
ghost use Rattle.hip_script.specs.declared.said.Said.{Said};

use crate::buffers::Buffers;
use crate::fault::{LineFault, PlayFault};
use crate::lines::first_line;
use crate::said::Said;
use crate::words::Words;
use std::alloc::Global;

/// The number of bytes of a script for which room for one line is reserved at first. Only an empty line is that short.
const BYTES_A_LINE: usize = 4;

/// The greatest number of lines that room is reserved for at first.
const AT_FIRST: usize = 74_897;

/// A script that was read: the records of its lines, and the buffers that these refer to.
#[derive(Drop)]
pub(crate) struct Script<'l> {
    pub(crate) lines: Vec<Said<'l>>,
    pub(crate) buffers: Buffers<'l>,
}

impl<'l> Script<'l> {
    /// Reads a script. The first line that is no command is told by its number.
    ///
    /// Room is reserved first for more lines than the script can have, but for no more than `AT_FIRST`. Unused room costs no page, and a block
    /// that large grows without a copy. glibc keeps as much free room as twice the largest block that was freed: with less room here, each of
    /// many scripts that are played one after another would get its pages anew.
    pub(crate) fn read(alloc: Global, input: &'l [u8]) -> Result<Self, PlayFault>
        ensures script { GivesScript result (script_of input.now) }
        ensures bad_line { (line : ℕ) → result ≡ Err (NotACommand line) → 0 < line }
    {
        let most = (input.len() / BYTES_A_LINE).min(AT_FIRST);
        let mut script = Script {
            lines: Vec::with_capacity(alloc, most + 1)?,
            buffers: Buffers::new(alloc),
        };
        let mut number = 0usize;
        let mut rest = input;
        while let Some((line, after)) = first_line(rest) {
            number += 1;
            rest = after;
            if line.is_empty() {
                continue;
            }
            match script.read_line(line) {
                Ok(()) => {}
                Err(LineFault::NotACommand) => return Err(PlayFault::NotACommand(number)),
                Err(LineFault::Memory) => return Err(PlayFault::Memory),
            }
        }
        Ok(script)
    }

    /// Reads a line that is not empty.
    fn read_line(&mut self, line: &'l [u8]) -> Result<(), LineFault>
        ensures ok { OnOk result ((said : Said) × ReadsLine (line_said line.now) (held self.old.buffers) (held self.new.buffers) said
            × (self.new.lines.items ≡ self.old.lines.items ++ said ∷ [])) }
        ensures bad { IsErrOf result LineFault.NotACommand → line_said line.now ≡ None }
    {
        let mut words = Words::new(line);
        let (verb, list) = words.row().ok_or(LineFault::NotACommand)?;
        let mut said = Said::new(verb);
        self.buffers.read_words(list, &mut words, &mut said)?;
        if !words.is_empty() {
            return Err(LineFault::NotACommand);
        }
        self.lines.push(said)?;
        Ok(())
    }
}

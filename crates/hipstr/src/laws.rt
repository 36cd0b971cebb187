//! Laws of the machine, of pieces, and of the parts that a text is cut into. Each function does nothing; its contract is the law.
ghost use Rattle.std.specs.Prelude.{◌≡◌, ◌≤◌, ℕ, true, List};
ghost use Rattle.hip_bytes.specs.Cost.{clone_cost, cut_cost};
ghost use Rattle.hip_bytes.specs.declared.kind.Kind.{Kind};
ghost use Rattle.hipstr.specs.Little.{CopiesLittle};
ghost use Rattle.hipstr.specs.Slot.{SlotState};
ghost use Rattle.hipstr.specs.Step.{Costs};

use crate::command::Command;
use hip_bytes::Backend;
pub use hip_cuts::laws::{
    a_byte_parts_bytes, a_character_parts_as_its_text, a_trim_leaves_what_white_space_surrounds,
    a_trim_of_bytes_leaves_what_white_space_surrounds, borrowed_pieces_copy_nothing,
    lines_and_their_ends_are_the_bytes, lines_and_their_ends_are_the_text,
    pieces_in_order_copy_the_text_once, rsplit_once_parts_at_the_last, shared_pieces_copy_little,
    split_once_parts_at_the_first, strip_prefix_leaves_the_rest, strip_suffix_leaves_the_front,
};
pub use hip_match::laws::{
    ended_pieces_are_the_text, join_undoes_split, join_undoes_split_by_char,
    just_one_list_is_leftmost, just_one_list_is_rightmost, one_char_reverses,
    white_space_parts_the_longest_runs,
};

/// Where owners are shared, a clone, a slice, a trim or a strip costs at most the 23 bytes that a handle holds itself, whatever its source
/// holds. A text that is parted in two costs that for each part, and pieces cost it for each that is drawn. Where the source is borrowed,
/// each of them costs nothing. By the contract of [`run`](crate::run), whose meter rises by no more than these costs, a list of commands
/// copies no more.
#[tactic(auto, using(crate::proofs::Little::copies_little))]
pub fn parts_copy_little(command: Command<'_>)
    ensures { (slots : List SlotState) (cost : ℕ) → Costs true slots command.entry cost
        → CopiesLittle slots command.entry cost }
{}

/// Where owners are shared, one part of a handle and one clone copy at most the 23 bytes that a handle holds itself, whatever its source
/// holds. A loop over metered calls adds that up.
#[tactic(auto, using(crate::proofs::Little::one_part, crate::proofs::Little::one_clone))]
pub fn one_part_copies_little<B: Backend>()
    ensures part { B.SHARES ≡ true → (kind : Kind) (len : ℕ) → cut_cost B.SHARES kind len ≤ 23 }
    ensures clone { B.SHARES ≡ true → (kind : Kind) (len : ℕ) → clone_cost B.SHARES kind len ≤ 23 }
{}

//! Cuts of texts and bytes: **a piece is the source's part at its range, with that part's kind and cost.**
//!
//! - [`TextCuts`] has the calls by which a [`HipStr`] is taken apart: pieces, trims, strips, and splits into two.
//! - [`IterWrapper`] is an iterator over pieces, from the front and, where their ranges come from both ends, from the back. Its value is
//!   the text and the ranges that are left.
//! - [`ByteCuts`] takes a `HipByt` apart, whose bytes needn't be UTF-8, into [`BytePieces`].
//! - [`PiecesAt`] gives the pieces at ranges of the caller's, as those by a closure, by which no function holds an [`IterWrapper`].
//!
//! Where a text is cut is found by hip_match, whose ranges these are; how, by hip_text. The words of the contracts are theirs, and `Piece`
//! (what a walk gives), `Walks` (of a walk by a closure) and `Cut` (what trims and strips leave) of `specs/`.
//!
//! A loop over a walk is proved with no proof file:
//!
//! ```text
//! let mut longest = 0;
//! for field in line.split(alloc, ',') {
//!     longest = longest.max(field?.len());
//! }
//! ```
//!
//! By a closure, of which a line of a proof file says what passes (see `CharPred` of hip_match):
//!
//! ```text
//! let digits = CharPred::new(|c| c.is_ascii_digit());
//! for (_, part) in line.pieces_at(alloc, Split::new(line.as_str(), digits)) {
//!     longest = longest.max(part?.len());
//! }
//! ```
#![tactic(auto)]

mod byte_cuts;
mod byte_pieces;
pub mod laws;
mod pieces;
mod pieces_at;
mod text_cuts;
mod walk;

pub use byte_cuts::ByteCuts;
pub use byte_pieces::BytePieces;
pub use hip_match;
pub use hip_text::{Backend, HipStr, INLINE_CAPACITY, Kind, Meter, Rc, Unique};
pub use pieces::{IterWrapper, PieceSource, Pieces, Unnumbered};
pub use pieces_at::PiecesAt;
pub use text_cuts::TextCuts;
pub use walk::Walk;

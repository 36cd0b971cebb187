//! The block of an owner, without its bytes.
ghost use Rattle.hip_raw.specs.Block.{IsNoBlock};

use crate::buffer::Buffer;
use std::rc;

/// The block of an owner whose vector was taken out, or none. An owner that is made in it allocates none.
#[derive(Drop)]
pub struct Block {
    pub(crate) left: Left,
}

// The block that an owner of either kind leaves.
#[derive(Drop)]
pub(crate) enum Left {
    Nothing,
    Shared(rc::Rc<Vec<u8>>),
    Sole(Buffer),
}

impl Block {
    /// No block.
    #[inline]
    pub fn none() -> Self
        ensures { IsNoBlock result }
    {
        Block {
            left: Left::Nothing,
        }
    }
}

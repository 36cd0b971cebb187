/// The greatest number of bytes that a handle holds in itself.
pub const INLINE_CAPACITY: usize = hip_raw::INLINE_CAPACITY;

/// Where the bytes of a handle lie.
#[derive(Clone, Copy, Debug, PartialEq, Eq)]
pub enum Kind {
    /// In the handle itself.
    Inline,
    /// With another value, which outlives the handle.
    Borrowed,
    /// With an owner, which other handles may share.
    Allocated,
}

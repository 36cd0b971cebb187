//! Bytes that another value owns.
ghost use Rattle.std.specs.Prelude.{◌≡◌, ◌==◌, length, take};
ghost use Rattle.hip_raw.specs.Borrowed.{borrowed_bytes};

/// Bytes that live for `'b`, outside of the handle.
#[derive(Clone, Copy, Debug)]
pub struct Borrowed<'b> {
    bytes: &'b [u8],
}

impl<'b> Borrowed<'b> {
    /// These bytes, none copied.
    #[inline]
    pub fn new(bytes: &'b [u8]) -> Self
        ensures { borrowed_bytes result ≡ bytes.now }
    {
        Borrowed { bytes }
    }

    /// The number of bytes.
    #[inline]
    pub fn len(&self) -> usize
        ensures { result ≡ length (borrowed_bytes self.now) }
    {
        self.bytes.len()
    }

    /// Whether there is no byte.
    #[inline]
    pub fn is_empty(&self) -> bool
        ensures { result ≡ (length (borrowed_bytes self.now) == 0) }
    {
        self.bytes.is_empty()
    }

    /// The bytes, for as long as they live.
    #[inline]
    pub fn as_slice(&self) -> &'b [u8]
        ensures { result.now ≡ borrowed_bytes self.now }
    {
        self.bytes
    }

    /// Keeps the first `len` bytes, or all where there are fewer. It copies nothing.
    #[inline]
    pub fn truncate(&mut self, len: usize)
        ensures { borrowed_bytes self.new ≡ take len (borrowed_bytes self.old) }
    {
        if len < self.bytes.len() {
            self.bytes = &self.bytes[..len];
        }
    }
}

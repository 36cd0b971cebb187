//! A digest of answers.

/// All answers so far, as one number.
#[derive(Drop)]
pub(crate) struct Digest {
    sum: u64,
}

impl Digest {
    pub(crate) fn new() -> Self {
        Digest { sum: 0 }
    }

    pub(crate) fn sum(&self) -> u64 {
        self.sum
    }

    /// Takes a number in.
    #[inline(always)]
    pub(crate) fn number(&mut self, number: u64) {
        self.sum = self.sum.wrapping_mul(31).wrapping_add(number);
    }

    /// Takes the length of bytes in, their first one and their last.
    #[inline(always)]
    pub(crate) fn ends(&mut self, bytes: &[u8]) {
        self.number(bytes.len() as u64);
        if let (Some(first), Some(last)) = (bytes.first(), bytes.last()) {
            self.number(u64::from(*first) * 256 + u64::from(*last));
        }
    }

    /// Takes bytes in, with each of them.
    pub(crate) fn bytes(&mut self, bytes: &[u8]) {
        self.number(bytes.len() as u64);
        let mut sum = self.sum;
        for byte in bytes {
            sum = sum.wrapping_mul(31).wrapping_add(u64::from(*byte));
        }
        self.sum = sum;
    }
}

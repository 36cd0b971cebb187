//! Hashers that take a text of up to 16 bytes as one number. std's `DefaultHasher` takes a number of eight bytes in one step, but the last
//! bytes of a text one by one.
#![tactic(auto, using(crate::proofs::Packing::reads))]

ghost use Rattle.std.specs.Prelude.{◌≡◌, ◌+◌, ◌≤◌, length};
ghost use Rattle.hip_uses.specs.Packed as packing;

use std::hash::{BuildHasher, Hasher};

/// Makes hashers of texts out of another's, for the maps of `Interner` and `Values`. It pays over `RandomState`, by some 7 ns a word;
/// `FoldHasher` packs texts itself.
#[derive(Drop)]
pub struct Packed<S: BuildHasher> {
    pub hash_builder: S,
}

/// Hashes a text. The reads overlap: at most nine texts of up to 8 bytes make one number, and at most eight of 9 to 16.
#[derive(Drop)]
pub struct PackedHasher<H: Hasher + Drop> {
    hasher: H,
}

impl<S: BuildHasher> BuildHasher for Packed<S> {
    type Hasher = PackedHasher<S::Hasher>;

    ghost build_hasher = { λ packed. record { hasher = S.build_hasher packed.hash_builder } };

    #[inline(always)]
    fn build_hasher(&self) -> PackedHasher<S::Hasher> {
        PackedHasher {
            hasher: self.hash_builder.build_hasher(),
        }
    }
}

impl<H: Hasher + Drop> Hasher for PackedHasher<H> {
    ghost write = { λ packed bytes. record { hasher = packing.fed H.write packed.hasher bytes } };

    ghost finish = { λ packed. H.finish packed.hasher };

    #[inline(always)]
    #[tactic(auto, unfolding(crate::specs::Packed::fed, crate::specs::Packed::writes))]
    fn write(&mut self, bytes: &[u8]) {
        let len = bytes.len();
        if len > 16 {
            self.hasher.write(bytes);
        } else if len > 8 {
            self.hasher
                .write_u128(pair(read_u64(bytes, 0), read_u64(bytes, len - 8)));
        } else if !is_end(bytes) {
            self.hasher.write_u64(read_short(bytes));
        }
    }

    #[inline(always)]
    fn finish(&self) -> u64 {
        self.hasher.finish()
    }
}

/// Whether it is the byte 0xFF, which ends each text, and stands in none.
#[inline(always)]
fn is_end(bytes: &[u8]) -> bool
    ensures { result ≡ packing.is_end bytes.now }
{
    bytes.len() == 1 && bytes[0] == 0xff
}

/// Two numbers as one, the first of them lowest.
#[inline(always)]
#[tactic(auto, unfolding(crate::specs::Packed::pair))]
fn pair(low: u64, high: u64) -> u128
    ensures { result ≡ packing.pair low high }
{
    (high as u128) << 64 | low as u128
}

/// Four bytes, the lowest first.
#[inline(always)]
fn read_u32(bytes: &[u8], at: usize) -> u64
    requires { at + 4 ≤ length bytes.now }
    ensures { result ≡ packing.read_u32 bytes.now at }
{
    u32::from_le_bytes([bytes[at], bytes[at + 1], bytes[at + 2], bytes[at + 3]]) as u64
}

/// Eight bytes, the lowest first.
#[inline(always)]
fn read_u64(bytes: &[u8], at: usize) -> u64
    requires { at + 8 ≤ length bytes.now }
    ensures { result ≡ packing.read_u64 bytes.now at }
{
    read_u32(bytes, at) | read_u32(bytes, at + 4) << 32
}

/// Up to eight bytes as one number, by reads that may overlap.
#[inline(always)]
fn read_short(bytes: &[u8]) -> u64
    ensures { result ≡ packing.read_short bytes.now }
{
    let len = bytes.len();
    if len >= 4 {
        read_u32(bytes, 0) | read_u32(bytes, len - 4) << 32
    } else if len > 0 {
        bytes[0] as u64 | (bytes[len / 2] as u64) << 8 | (bytes[len - 1] as u64) << 16
    } else {
        0
    }
}

//! ASCII letters moved to one case in place, 64 bytes at a time.
ghost use Rattle.std.specs.Prelude.{◌≡◌, ℕ, ◌+◌, ◌≤◌, ◌++◌, length, map, take, drop};
ghost use Rattle.std.specs.Char.{to_ascii_uppercase, to_ascii_lowercase};

use std::simd::prelude::*;

const LANES: usize = 64;

// A case that letters are moved to.
trait Case {
    // The byte that a byte becomes.
    ghost moved: { ℕ → ℕ };

    fn move_lanes(lanes: u8x64) -> u8x64
        ensures { result ≡ map moved lanes };

    fn move_bytes(bytes: &mut [u8])
        ensures { bytes.new ≡ map moved bytes.old };
}

struct Upper;

impl Case for Upper {
    ghost moved = { to_ascii_uppercase };

    #[inline(always)]
    fn move_lanes(lanes: u8x64) -> u8x64 {
        let is_lower = (lanes - u8x64::splat(b'a')).simd_lt(u8x64::splat(26));
        lanes - is_lower.select(u8x64::splat(32), u8x64::splat(0))
    }

    #[inline(always)]
    fn move_bytes(bytes: &mut [u8]) {
        bytes.make_ascii_uppercase();
    }
}

struct Lower;

impl Case for Lower {
    ghost moved = { to_ascii_lowercase };

    #[inline(always)]
    fn move_lanes(lanes: u8x64) -> u8x64 {
        let is_upper = (lanes - u8x64::splat(b'A')).simd_lt(u8x64::splat(26));
        lanes + is_upper.select(u8x64::splat(32), u8x64::splat(0))
    }

    #[inline(always)]
    fn move_bytes(bytes: &mut [u8]) {
        bytes.make_ascii_lowercase();
    }
}

// The 64 bytes from `at` on.
#[inline(always)]
fn move_block<C: Case>(bytes: &mut [u8], at: usize)
    requires { at + LANES ≤ length bytes.old }
    ensures done { take (at + LANES) bytes.new
        ≡ take at bytes.old ++ map C.moved (take LANES (drop at bytes.old)) }
    ensures kept { drop (at + LANES) bytes.new ≡ drop (at + LANES) bytes.old }
{
    C::move_lanes(u8x64::from_slice(&bytes[at..])).copy_to_slice(&mut bytes[at..]);
}

#[inline(always)]
fn move_letters<C: Case>(bytes: &mut [u8])
    ensures { bytes.new ≡ map C.moved bytes.old }
{
    let n = bytes.len();
    let mut at = 0;
    while LANES <= n - at {
        move_block::<C>(bytes, at);
        at += LANES;
    }
    C::move_bytes(&mut bytes[at..]);
}

/// Moves the letters `a` to `z` to `A` to `Z`, and keeps every other byte. It copies nothing.
pub fn make_ascii_uppercase(bytes: &mut [u8])
    ensures { bytes.new ≡ map to_ascii_uppercase bytes.old }
{
    move_letters::<Upper>(bytes);
}

/// Moves the letters `A` to `Z` to `a` to `z`, and keeps every other byte. It copies nothing.
pub fn make_ascii_lowercase(bytes: &mut [u8])
    ensures { bytes.new ≡ map to_ascii_lowercase bytes.old }
{
    move_letters::<Lower>(bytes);
}

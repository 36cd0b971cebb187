//! The different names of a template's holes.
ghost use Rattle.std.specs.Prelude.{◌<◌};

use crate::template::Hole;
use hipstr::Backend;
use hipstr::string::HipStr;
use std::alloc::{AllocError, Global};
use std::hash::{BuildHasher, BuildHasherDefault, FoldHasher};

/// The number of spots at which names are at hand.
const SPOTS: usize = 64;

/// A name that is at hand, and the place of a hole with it.
type Lately<'t> = Option<(&'t str, usize)>;

/// Where a name is at hand: by its length, its first byte and its last.
#[inline]
fn spot_of(name: &[u8]) -> usize
    ensures { result < 64 }
{
    let (Some(first), Some(last)) = (name.first(), name.last()) else {
        return 0;
    };
    let ends = usize::from(*first) + 4 * usize::from(*last);
    ends.wrapping_add(name.len()) % SPOTS
}

/// The place of a hole with this name, if it is the one that is at hand. It is compared as a lent handle, since `==` of `str` is a call.
#[inline]
fn known<B: Backend>(lately: Lately<'_>, name: &str) -> Option<usize> {
    match lately {
        Some((known, place)) if HipStr::<B>::borrowed(known).str_eq(name) => Some(place),
        _ => None,
    }
}

/// The greatest number of spots for names by their hashes.
const MOST: usize = 8_192;

/// The number of spots that a name is looked for at.
const TRIES: usize = 4;

/// The place of the hole that a name was met at, or this one, by the spots from its hash on. Where all are taken by others, it isn't known.
/// It is a function apart, so that what names at hand need stays in registers.
#[inline(never)]
fn met_at<'b, B: Backend>(
    holes: &[Hole<'b, B>],
    name: &HipStr<'b, B>,
    place: usize,
    spots: &mut [usize],
) -> usize {
    let hash = BuildHasherDefault::<FoldHasher>::new().hash_one(name.as_str()) as usize;
    let mask = spots.len().saturating_sub(1);
    for step in 0..TRIES {
        let Some(spot) = spots.get_mut(hash.wrapping_add(step) & mask) else {
            return place;
        };
        match holes.get(*spot) {
            Some(known) if known.name == *name => return *spot,
            Some(_) => {}
            None => {
                *spot = place;
                return place;
            }
        }
    }
    place
}

/// For each hole the position of an earlier hole with its name, or its own where none is known.
///
/// Two names that were met lately are at hand at each spot. The others are looked for at few spots by their hashes. So no choice of names
/// makes this quadratic, though the hash has a fixed seed: a name that finds its spots taken is just looked up once more.
pub(crate) fn earlier_places<'b, B: Backend>(
    alloc: Global,
    holes: &[Hole<'b, B>],
) -> Result<Vec<usize>, AllocError> {
    if holes.is_empty() {
        return Ok(Vec::new(alloc));
    }
    let count = holes.len().min(MOST).next_power_of_two();
    let mut spots = vec![in alloc; usize::MAX; count]?;
    let mut first: [Lately<'_>; SPOTS] = [None; SPOTS];
    let mut second: [Lately<'_>; SPOTS] = [None; SPOTS];
    let mut earlier_places = Vec::with_capacity(alloc, holes.len())?;
    for (place, hole) in holes.iter().enumerate() {
        let name = hole.name.as_str();
        let spot = spot_of(name.as_bytes());
        let earlier = if let Some(earlier) = known::<B>(first[spot], name) {
            earlier
        } else if let Some(earlier) = known::<B>(second[spot], name) {
            earlier
        } else {
            second[spot] = first[spot];
            first[spot] = Some((name, place));
            met_at(holes, &hole.name, place, spots.as_mut_slice())
        };
        earlier_places.push_reserved(earlier);
    }
    Ok(earlier_places)
}

//! What a path has before another that is joined to it.
ghost use Rattle.std.specs.Prelude.{◌≡◌, ◌++◌, ◌==◌, [], if◌then◌else◌, slice_index};
ghost use Rattle.std.specs.Path.{slash, with_separator};

/// What is kept of a path to which another is joined: nothing where that is absolute.
#[inline]
pub(crate) fn kept<'a>(base: &'a [u8], path: &[u8]) -> &'a [u8]
    ensures { result.now ≡ (if slice_index path.now 0 == slash then [] else base.now) }
{
    match path {
        [b'/', ..] => &[],
        _ => base,
    }
}

/// The slash that a path lacks before another.
#[inline]
pub(crate) fn separator(base: &[u8]) -> &'static [u8]
    ensures { base.now ++ result.now ≡ with_separator base.now }
{
    match base {
        [] | [.., b'/'] => &[],
        _ => b"/",
    }
}

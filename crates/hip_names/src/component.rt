//! The components of a path.
ghost use Rattle.std.specs.Prelude.{◌≡◌, ◌<◌, ◌≤◌, ◌^◌, [], ◌∷◌, ◌++◌, length, OnSome, MatchOption, if◌then◌else◌};
ghost use Rattle.std.specs.Iterator.{YieldsFirstBy, YieldsLastBy, item_count};
ghost use Rattle.std.specs.List.{before_first, after_first, position, position_or_len};
ghost use Rattle.std.specs.Path.{is_name};
ghost use Rattle.hip_names.specs.Components.{components, names, named, start, is_slash};
ghost use Rattle.hip_names.specs.Shown.{shown, all_shown, to_come};

use crate::parts::last_name;

/// A component of a path.
#[derive(Clone, Copy, Debug, PartialEq, Eq, PartialOrd, Ord)]
pub enum Component<'a> {
    /// The root, with which a path begins whose first byte is `/`.
    RootDir,
    /// `.`, as the first part of a path.
    CurDir,
    /// `..`.
    ParentDir,
    /// A name.
    Normal(&'a [u8]),
}

/// The components of a path, from both ends.
#[derive(Clone, Drop)]
pub struct Components<'a> {
    start: Option<Component<'a>>,
    rest: &'a [u8],
}

impl<'a> Components<'a> {
    /// The components of these bytes.
    #[tactic(auto, unfolding(crate::specs::Components::components))]
    #[inline]
    pub fn new(path: &'a [u8]) -> Self
        ensures { to_come result ≡ components path.entry.now }
    {
        Components {
            start: start_of(path),
            rest: path,
        }
    }
}

/// The root or the dot that a path begins with, beside its names.
#[inline]
pub(crate) fn start_of(path: &[u8]) -> Option<Component<'_>>
    ensures { all_shown result ≡ start path.now }
{
    match path {
        [b'/', ..] => Some(Component::RootDir),
        [b'.'] => Some(Component::CurDir),
        [b'.', b'/', ..] => Some(Component::CurDir),
        _ => None,
    }
}

/// Takes the first component off bytes that begin a part. Parts that are empty or `.` are skipped.
#[tactic(auto, using(crate::proofs::Names::naming))]
#[inline]
pub(crate) fn next_name<'a>(rest: &mut &'a [u8]) -> Option<Component<'a>>
    ensures first { MatchOption result ((names rest.old.now ≡ []) × (names rest.new.now ≡ []))
        (λ component. names rest.old.now ≡ shown component ∷ names rest.new.now) }
{
    while !rest.is_empty() {
        let all: &'a [u8] = *rest;
        let (part, later) = first_part(all);
        *rest = later;
        if let Some(component) = name_of(part) {
            return Some(component);
        }
    }
    None
}

/// Takes the last component off bytes that begin a part. Parts that are empty or `.` are skipped.
#[inline]
#[tactic(auto, using(crate::proofs::Lasts::lasts))]
fn last_component<'a>(rest: &mut &'a [u8]) -> Option<Component<'a>>
    ensures last { MatchOption result ((names rest.old.now ≡ []) × (names rest.new.now ≡ []))
        (λ component. names rest.old.now ≡ names rest.new.now ++ shown component ∷ []) }
{
    let all: &'a [u8] = *rest;
    let Some((start, end)) = last_name(all) else {
        *rest = &[];
        return None;
    };
    *rest = &all[..start];
    Some(named_by(&all[start..end]))
}

/// The component of a part that names something.
#[inline]
fn named_by(part: &[u8]) -> Component<'_>
    ensures { shown result ≡ named part.now }
{
    match part {
        [b'.', b'.'] => Component::ParentDir,
        _ => Component::Normal(part),
    }
}

/// The component that a part names, if it names one.
#[inline]
fn name_of(part: &[u8]) -> Option<Component<'_>>
    ensures { all_shown result ≡ (if is_name part.now then named part.now ∷ [] else []) }
{
    match part {
        [] => None,
        [b'.'] => None,
        [b'.', b'.'] => Some(Component::ParentDir),
        _ => Some(Component::Normal(part)),
    }
}

/// Where the first slash stands.
#[inline]
fn find_slash(path: &[u8]) -> Option<usize>
    ensures { result ≡ position is_slash path.now }
{
    path.iter().position(|byte| *byte == b'/')
}

/// The position of the first slash, or the number of bytes where there is none.
#[tactic(auto, using(crate::proofs::Names::slashes))]
#[inline]
fn slash_at(path: &[u8]) -> usize
    ensures { result ≡ position_or_len is_slash path.now }
{
    find_slash(path).unwrap_or(path.len())
}

/// The bytes before the first slash, and those behind it.
#[inline]
fn first_part(path: &[u8]) -> (&[u8], &[u8])
    ensures part { result.0.now ≡ before_first is_slash path.now }
    ensures later { result.1.now ≡ after_first is_slash path.now }
    ensures shorter { 0 < length path.now → length result.1.now < length path.now }
{
    let end = slash_at(path);
    if end < path.len() {
        (&path[..end], &path[end + 1..])
    } else {
        (path, &[])
    }
}

impl<'a> Iterator for Components<'a> {
    type Item = Component<'a>;

    ghost next_gives = { YieldsFirstBy shown to_come };

    ghost remaining = { item_count to_come };

    #[inline]
    fn next(&mut self) -> Option<Component<'a>> {
        match self.start.take() {
            Some(first) => Some(first),
            None => next_name(&mut self.rest),
        }
    }
}

impl<'a> DoubleEndedIterator for Components<'a> {
    ghost next_back_gives = { YieldsLastBy shown to_come };

    #[inline]
    fn next_back(&mut self) -> Option<Component<'a>> {
        match last_component(&mut self.rest) {
            Some(last) => Some(last),
            None => self.start.take(),
        }
    }
}

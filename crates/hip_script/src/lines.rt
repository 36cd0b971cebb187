//! The lines of a text.
ghost use Rattle.std.specs.Prelude.{◌≡◌, ◌<◌, [], ◌∷◌, length, IfSome, IfNone};
ghost use Rattle.hip_script.specs.Lines.{lines, without_return};

use memchr::memchr;

/// The first line of a text, without its end, and what follows it.
pub(crate) fn first_line(text: &[u8]) -> Option<(&[u8], &[u8])>
    ensures none { IfNone result (text.now ≡ []) }
    ensures line { IfSome result (λ found. lines text.now ≡ found.0.now ∷ lines found.1.now) }
    ensures shorter { IfSome result (λ found. length found.1.now < length text.now) }
{
    if text.is_empty() {
        return None;
    }
    let Some(at) = memchr(b'\n', text) else {
        return Some((text, &[]));
    };
    Some((cut_return(&text[..at]), &text[at + 1..]))
}

/// A line without the `\r` at its end.
fn cut_return(line: &[u8]) -> &[u8]
    ensures { result.now ≡ without_return line.now }
{
    match line {
        [line @ .., b'\r'] => line,
        line => line,
    }
}

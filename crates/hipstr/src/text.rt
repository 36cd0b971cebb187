ghost use Rattle.std.specs.Prelude.{◌≡◌, IfSome, is_some};
ghost use Rattle.std.specs.Str.{is_utf8};

/// These bytes as a text, if they are one.
#[tactic(auto, using(crate::proofs::Places::in_place))]
pub(crate) fn text_of(bytes: &[u8]) -> Option<&str>
    ensures text { IfSome result (λ text. text.now ≡ bytes.now) }
    ensures utf8 { is_some result ≡ is_utf8 bytes.now }
{
    simdutf8::compat::from_utf8(bytes).ok()
}

//! What a head asks for.
ghost use Rattle.std.specs.Prelude.{◌≡◌};
ghost use Rattle.http_messages.specs.Framing.{asked_kind};

/// What a head asks for (RFC 9110, section 9).
#[derive(Clone, Copy, Debug, PartialEq, Eq)]
pub enum AskedKind {
    /// A page.
    Get,
    /// A page without its body.
    Head,
    /// A change.
    Post,
    /// What a path allows.
    Options,
    /// Any other method, also one of these in small letters.
    Other,
}

/// What a method asks for.
pub fn asked_kind(method: &[u8]) -> AskedKind
    ensures kind { result ≡ asked_kind method.now }
{
    if method == b"GET".as_slice() {
        AskedKind::Get
    } else if method == b"HEAD".as_slice() {
        AskedKind::Head
    } else if method == b"POST".as_slice() {
        AskedKind::Post
    } else if method == b"OPTIONS".as_slice() {
        AskedKind::Options
    } else {
        AskedKind::Other
    }
}

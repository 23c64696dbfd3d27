//! The version that the first line of a prefix names.
ghost use Rattle.std.specs.Prelude.{◌≡◌, ◌<◌, IfSome, length};
ghost use Rattle.std.specs.List.{position};
ghost use Rattle.http_messages.specs.Messages.{is_newline};
ghost use Rattle.http_messages.specs.Versions.{first_line, is_version, is_visible};
ghost use Rattle.http_messages.specs.Versions.{names_other_version, up_to_line_end};

/// How many bytes a version has, with the blank before it.
const VERSION: usize = 9;

/// Whether the first line ends with a version other than HTTP/1.0 and HTTP/1.1.
pub(crate) fn names_other_version(front: &[u8]) -> bool
    ensures other { result ≡ names_other_version front.now }
{
    let line = first_line(front);
    if line.len() < VERSION {
        return false;
    }
    let version = &line[line.len() - VERSION..];
    is_version(version) && version != b" HTTP/1.0".as_slice() && version != b" HTTP/1.1".as_slice()
}

/// Whether this is a blank and a version (RFC 9112, section 2.3).
fn is_version(text: &[u8]) -> bool
    ensures version { result ≡ is_version text.now }
{
    text.len() == VERSION
        && &text[..6] == b" HTTP/".as_slice()
        && text[6].is_ascii_digit()
        && text[7] == b'.'
        && text[8].is_ascii_digit()
}

/// The first line that is not empty, without its end.
fn first_line(front: &[u8]) -> &[u8]
    ensures line { result.now ≡ first_line front.now }
{
    match first_visible(front) {
        Some(start) => up_to_line_end(&front[start..]),
        None => &[],
    }
}

/// The bytes up to the first line end.
fn up_to_line_end(text: &[u8]) -> &[u8]
    ensures line { result.now ≡ up_to_line_end text.now }
{
    match first_newline(text) {
        Some(end) => &text[..end],
        None => text,
    }
}

/// Where the first byte stands that is no line end.
fn first_visible(text: &[u8]) -> Option<usize>
    ensures place { result ≡ position is_visible text.now }
    ensures within { IfSome result (λ at. at < length text.now) }
{
    text.iter()
        .position(|byte| !(*byte == b'\r' || *byte == b'\n'))
}

/// Where the first line end stands.
fn first_newline(text: &[u8]) -> Option<usize>
    ensures place { result ≡ position is_newline text.now }
    ensures within { IfSome result (λ at. at < length text.now) }
{
    text.iter()
        .position(|byte| *byte == b'\r' || *byte == b'\n')
}

//! Bytes that a peer sent, as a word of the log.
ghost use Rattle.std.specs.Prelude.{◌≡◌, ◌<◌, ◌++◌, IfOk, IsTrue, OnOk};
ghost use Rattle.std.specs.String.{string_bytes};
ghost use Rattle.std.specs.List.{list_all};
ghost use Rattle.http_log.specs.Shown.{hex_digit, is_printable, is_shown, shown_byte, shown_bytes, shown_within};

use std::alloc::{AllocError, Global};

/// The bytes in printable ASCII, without a blank: each other byte, and the backslash, is `\xNN`. Of more than `most`
/// bytes the first ones are shown, and then `\..`.
pub fn shown(alloc: Global, bytes: &[u8], most: usize) -> Result<String, AllocError>
    ensures text { IfOk result (λ text. string_bytes text ≡ shown_within most bytes.now) }
    ensures printable { IfOk result (λ text. IsTrue (list_all is_printable (string_bytes text))) }
{
    if bytes.len() <= most {
        return shown_whole(alloc, bytes);
    }
    let mut text = shown_whole(alloc, &bytes[..most])?;
    text.push_str("\\..")?;
    Ok(text)
}

/// All of the bytes.
fn shown_whole(alloc: Global, bytes: &[u8]) -> Result<String, AllocError>
    ensures text { IfOk result (λ text. string_bytes text ≡ shown_bytes bytes.now) }
    ensures printable { IfOk result (λ text. IsTrue (list_all is_printable (string_bytes text))) }
{
    let mut text = String::new(alloc);
    for byte in bytes {
        add(&mut text, *byte)?;
    }
    Ok(text)
}

/// Appends a byte.
#[tactic(auto, using(crate::proofs::PrintableLemmas::shown_byte_prints))]
fn add(text: &mut String, byte: u8) -> Result<(), AllocError>
    ensures added { OnOk result (string_bytes text.new ≡ string_bytes text.old ++ shown_byte byte) }
    ensures printable { IsTrue (list_all is_printable (shown_byte byte)) }
{
    if is_shown(byte) {
        return text.push(char::from(byte));
    }
    text.push_str("\\x")?;
    text.push(hex_digit(byte / 16))?;
    text.push(hex_digit(byte % 16))
}

/// Whether a byte is shown as it is.
fn is_shown(byte: u8) -> bool
    ensures shown { result ≡ is_shown byte }
{
    byte >= 33 && byte <= 126 && byte != b'\\'
}

/// A digit of base 16.
fn hex_digit(digit: u8) -> char
    requires { digit < 16 }
    ensures digit { result ≡ hex_digit digit }
{
    let glyph = if digit < 10 {
        b'0' + digit
    } else {
        b'a' - 10 + digit
    };
    char::from(glyph)
}

//! The pieces of a line that is made in one buffer: fixed texts, and after each a text that is written as it is, or a number.
ghost use Rattle.std.specs.Prelude.{◌≡◌, ◌++◌, decimal, OnOk};

use itoa::Buffer;
use std::alloc::AllocError;

/// Appends a fixed text, and after it a text that needs neither quotes nor escapes.
pub(crate) fn put_piece(line: &mut Vec<u8>, before: &str, text: &[u8]) -> Result<(), AllocError>
    ensures adds { OnOk result (line.new.items ≡ line.old.items ++ (before.now ++ text.now)) }
{
    line.extend_from_slice(before.as_bytes())?;
    line.extend_from_slice(text)
}

/// Appends a fixed text, and after it a number in decimal digits.
pub(crate) fn put_count(line: &mut Vec<u8>, before: &str, number: u32) -> Result<(), AllocError>
    ensures adds { OnOk result (line.new.items ≡ line.old.items ++ (before.now ++ decimal number)) }
{
    let mut digits = Buffer::new();
    put_piece(line, before, digits.format(number).as_bytes())
}

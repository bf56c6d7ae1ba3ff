//! Texts of causes: UTF-8, and U+FFFD for each byte at which no well-formed character begins.

ghost use Rattle.std.specs.Prelude.{◌≡◌, ◌++◌, IfOk, string_bytes};
ghost use Rattle.std.specs.Str.{IsUtf8, StartsWithNoChar};
ghost use Rattle.sctp_wire.specs.Text.{IsTextOf};

use std::alloc::{AllocError, Global};

/// The text of the bytes.
///
/// Where bytes are no UTF-8 this reads more of U+FFFD than `String::from_utf8_lossy`: that reads a character cut short
/// as one U+FFFD, and this as one for each of its bytes.
pub fn text_from_bytes(alloc: Global, bytes: &[u8]) -> Result<String, AllocError>
    ensures { IfOk result (λ text. IsTextOf bytes.now (string_bytes text)) }
{
    let mut text = String::new(alloc);
    let mut rest = bytes;
    while !rest.is_empty() {
        let (front, after) = split_text(rest);
        text.push_str(front)?;
        match after.split_first() {
            Some((_, after)) => {
                text.push('\u{FFFD}')?;
                rest = after;
            }
            None => return Ok(text),
        }
    }
    Ok(text)
}

/// The longest text at the front of the bytes, and the bytes behind it.
fn split_text(bytes: &[u8]) -> (&str, &[u8])
    ensures joined { bytes.now ≡ result.0.now ++ result.1.now }
    ensures text { IsUtf8 result.0.now }
    ensures longest { StartsWithNoChar result.1.now }
{
    match bytes.utf8_chunks().next() {
        Some(chunk) => {
            let front = chunk.valid();
            (front, &bytes[front.len()..])
        }
        None => ("", bytes),
    }
}

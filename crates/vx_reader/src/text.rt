ghost use Rattle.std.specs.Prelude.{◌≡◌, ◌≤◌, length, IfOk, IfSome};
ghost use Rattle.vx_reader.specs.Strings as spec;

use crate::token::Quoted;
use sqlite_items::Items;
use std::alloc::{AllocError, Global};
use vx_syntax::{TEXT_BYTES, is_printable};

/// What a byte is in a string.
#[derive(Clone, Copy)]
pub enum StringByte {
    /// The quote at its end.
    Closing,
    /// The backslash before a quote or a backslash.
    Backslash,
    /// A byte that the string holds.
    Held,
    /// A byte that no string has there.
    Wrong,
}

// What a byte is in a string, by whether a backslash stands before it.
fn string_byte(escaped: bool, byte: u8) -> StringByte
    ensures { result ≡ spec.string_byte escaped byte }
{
    match (escaped, byte) {
        (true, b'"' | b'\\') => StringByte::Held,
        (true, _) => StringByte::Wrong,
        (false, b'"') => StringByte::Closing,
        (false, b'\\') => StringByte::Backslash,
        (false, _) if is_printable(byte) => StringByte::Held,
        (false, _) => StringByte::Wrong,
    }
}

/// The string that begins behind its opening quote.
pub fn quoted(alloc: Global, bytes: &[u8]) -> Result<Option<Quoted>, AllocError>
    ensures quoted { IfOk result (λ string. string ≡ spec.quoted bytes.now) }
    ensures within { IfOk result (λ string. IfSome string (λ s. s.len ≤ length bytes.now)) }
{
    let mut value = Items::new(alloc);
    let mut escaped = false;
    for (place, byte) in bytes.iter().enumerate() {
        match string_byte(escaped, *byte) {
            StringByte::Closing => {
                let len = place + 1;
                return Ok(Some(Quoted { value, len }));
            }
            StringByte::Backslash => escaped = true,
            StringByte::Held if value.len() < TEXT_BYTES => {
                value.push(*byte)?;
                escaped = false;
            }
            StringByte::Held | StringByte::Wrong => return Ok(None),
        }
    }
    Ok(None)
}

ghost use Rattle.std.specs.Prelude.{◌≡◌, length, take_while};
ghost use Rattle.std.specs.Char.{is_ascii_digit};
ghost use Rattle.vx_names.specs.Bytes.{is_word_byte};
ghost use Rattle.vx_reader.specs.Bytes.{is_white, is_in_line};

use vx_names::is_word_byte;

/// Whether the byte is white space.
pub fn is_white(byte: u8) -> bool
    ensures { result ≡ is_white byte }
{
    matches!(byte, b'\t' | b'\n' | b'\r' | b' ')
}

/// How many bytes at the front may stand in an identifier.
pub fn word_len(bytes: &[u8]) -> usize
    ensures { result ≡ length (take_while is_word_byte bytes.now) }
{
    bytes.iter().take_while(|byte| is_word_byte(**byte)).count()
}

/// How many bytes at the front are digits.
pub fn number_len(bytes: &[u8]) -> usize
    ensures { result ≡ length (take_while is_ascii_digit bytes.now) }
{
    bytes
        .iter()
        .take_while(|byte| byte.is_ascii_digit())
        .count()
}

/// How many bytes stand before the end of the line.
pub fn line_len(bytes: &[u8]) -> usize
    ensures { result ≡ length (take_while is_in_line bytes.now) }
{
    bytes.iter().take_while(|byte| **byte != b'\n').count()
}

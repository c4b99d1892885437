ghost use Rattle.std.specs.Prelude.{◌≡◌, ◌++◌, ◌<◌, ◌≤◌, length, slice_index, true, IfOk, OnOk};
ghost use Rattle.std.specs.Char.{is_ascii_digit};
ghost use Rattle.vx_names.specs.Bytes.{is_letter};
ghost use Rattle.vx_reader.specs.Strings.{quoted};
ghost use Rattle.vx_reader.specs.Tokens as spec;

use crate::bytes::{is_white, line_len, number_len, word_len};
use crate::front::{begins, passes};
use crate::number::number;
use crate::sign::sign_front;
use crate::spelling::word;
use crate::text::quoted;
use crate::token::{Front, Placed, Quoted};
use sqlite_items::Items;
use std::alloc::{AllocError, Global};
use vx_names::is_letter;
use vx_syntax::Token;

// The identifier that begins at a letter.
fn word_front(alloc: Global, bytes: &[u8]) -> Result<Front, AllocError>
    requires some { 0 < length bytes.now }
    requires letter { is_letter (slice_index bytes.now 0) ≡ true }
    ensures front { IfOk result (λ front. front ≡ spec.word_front bytes.now) }
    ensures within { IfOk result (λ front. front.more < length bytes.now) }
{
    let len = word_len(bytes);
    let token = word(alloc, &bytes[..len])?;
    Ok(begins(token, len))
}

// The number that begins at a digit.
fn number_front(bytes: &[u8]) -> Front
    requires some { 0 < length bytes.now }
    requires digit { is_ascii_digit (slice_index bytes.now 0) ≡ true }
    ensures front { result ≡ spec.number_front bytes.now }
    ensures within { result.more < length bytes.now }
{
    let len = number_len(bytes);
    begins(Token::Number(number(&bytes[..len])), len)
}

// A quote, with the string that begins behind it.
fn text_front(alloc: Global, behind: &[u8]) -> Result<Front, AllocError>
    ensures front { IfOk result (λ front. front ≡ spec.text_front (quoted behind.now)) }
    ensures within { IfOk result (λ front. front.more ≤ length behind.now) }
{
    match quoted(alloc, behind)? {
        Some(Quoted { value, len }) => Ok(begins(Token::Text(value), len + 1)),
        None => Ok(begins(Token::Bad, 1)),
    }
}

// Whether the bytes begin a comment.
fn begins_comment(bytes: &[u8]) -> bool
    ensures { result ≡ spec.begins_comment bytes.now }
{
    bytes.len() >= 2 && &bytes[..2] == b"--".as_slice()
}

// The comment that begins at a byte which ends no line.
fn comment_front(bytes: &[u8]) -> Front
    requires some { 0 < length bytes.now }
    requires comment { spec.begins_comment bytes.now ≡ true }
    ensures front { result ≡ spec.comment_front bytes.now }
    ensures within { result.more < length bytes.now }
{
    passes(line_len(bytes))
}

// What the bytes begin with.
fn front(alloc: Global, bytes: &[u8]) -> Result<Front, AllocError>
    requires { 0 < length bytes.now }
    ensures front { IfOk result (λ front. front ≡ spec.front bytes.now) }
    ensures within { IfOk result (λ front. front.more < length bytes.now) }
{
    let first = bytes[0];
    if is_white(first) {
        Ok(passes(1))
    } else if is_letter(first) {
        word_front(alloc, bytes)
    } else if first.is_ascii_digit() {
        Ok(number_front(bytes))
    } else if first == b'"' {
        text_front(alloc, &bytes[1..])
    } else if begins_comment(bytes) {
        Ok(comment_front(bytes))
    } else {
        Ok(sign_front(bytes))
    }
}

fn push_some(tokens: &mut Items<Placed>, place: u64, token: Option<Token>) -> Result<(), AllocError>
    ensures { OnOk result (tokens.new ≡ tokens.old ++ spec.at place token) }
{
    match token {
        Some(token) => tokens.push(Placed { token, place }),
        None => Ok(()),
    }
}

/// The tokens of a block, each with the place of its first byte.
pub fn tokens(alloc: Global, bytes: &[u8]) -> Result<Items<Placed>, AllocError>
    ensures { IfOk result (λ tokens. tokens ≡ spec.placed_tokens bytes.now) }
{
    let mut tokens = Items::new(alloc);
    let mut rest = bytes;
    while !rest.is_empty() {
        let place = (bytes.len() - rest.len()) as u64;
        let front = front(alloc, rest)?;
        push_some(&mut tokens, place, front.token)?;
        // In two steps, so that no sum can overflow.
        rest = &rest[1..][front.more..];
    }
    Ok(tokens)
}

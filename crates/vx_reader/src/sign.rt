ghost use Rattle.std.specs.Prelude.{◌≡◌, ◌<◌, ◌≤◌, ℕ, List, ◌∷◌, length, IfSome, IsSome};
ghost use Rattle.vx_reader.specs.Tokens as spec;

use crate::front::begins;
use crate::token::Front;
use vx_names::Operator;
use vx_syntax::{Mark, Token};

// The token that the bytes are, if it is an operator or a mark.
fn sign(bytes: &[u8]) -> Option<Token>
    ensures { result ≡ spec.sign bytes.now }
{
    match Operator::from_bytes(bytes) {
        Some(operator) => Some(Token::Operator(operator)),
        None => Mark::from_bytes(bytes).map(Token::Mark),
    }
}

// The operator or mark that the first bytes are, `len` of them.
fn sign_of(len: usize, bytes: &[u8]) -> Option<Token>
    ensures sign { result ≡ spec.sign_of len bytes.now }
    ensures within { IsSome result → len ≤ length bytes.now }
{
    if len <= bytes.len() {
        sign(&bytes[..len])
    } else {
        None
    }
}

// The operator or mark of this byte alone, where no longer one begins with it.
fn lone_sign(byte: u8) -> Option<Token>
    ensures { IfSome result (λ token. (rest : List ℕ) → spec.sign_front (byte ∷ rest) ≡ spec.begins token 1) }
{
    match byte {
        b'(' => Some(Token::Mark(Mark::Open)),
        b')' => Some(Token::Mark(Mark::Close)),
        b'{' => Some(Token::Mark(Mark::OpenBlock)),
        b'}' => Some(Token::Mark(Mark::CloseBlock)),
        b',' => Some(Token::Mark(Mark::Comma)),
        b';' => Some(Token::Mark(Mark::Semicolon)),
        b'@' => Some(Token::Mark(Mark::At)),
        b'&' => Some(Token::Mark(Mark::Ampersand)),
        b'^' => Some(Token::Mark(Mark::Caret)),
        b'-' => Some(Token::Operator(Operator::Minus)),
        b'*' => Some(Token::Operator(Operator::Star)),
        b'/' => Some(Token::Operator(Operator::Slash)),
        b'%' => Some(Token::Operator(Operator::Percent)),
        _ => None,
    }
}

/// The longest operator or mark that the bytes begin with, and else a bad byte.
pub fn sign_front(bytes: &[u8]) -> Front
    requires { 0 < length bytes.now }
    ensures front { result ≡ spec.sign_front bytes.now }
    ensures within { result.more < length bytes.now }
{
    match lone_sign(bytes[0]) {
        Some(token) => begins(token, 1),
        None => longest_sign(bytes),
    }
}

// The longest operator or mark, by how many bytes it has.
#[tactic(auto, unfolding(crate::specs::Tokens::sign_front))]
fn longest_sign(bytes: &[u8]) -> Front
    requires { 0 < length bytes.now }
    ensures front { result ≡ spec.sign_front bytes.now }
    ensures within { result.more < length bytes.now }
{
    if let Some(token) = sign_of(3, bytes) {
        return begins(token, 3);
    }
    if let Some(token) = sign_of(2, bytes) {
        return begins(token, 2);
    }
    begins(sign_of(1, bytes).unwrap_or(Token::Bad), 1)
}

ghost use Rattle.std.specs.Prelude.{◌≡◌, ◌<◌};
ghost use Rattle.vx_reader.specs.Tokens as spec;

use crate::token::Front;
use vx_syntax::Token;

/// No token, but this many bytes that are passed over.
pub fn passes(len: usize) -> Front
    requires { 0 < len }
    ensures { result ≡ spec.passes len }
{
    Front {
        token: None,
        more: len - 1,
    }
}

/// A token of this many bytes.
pub fn begins(token: Token, len: usize) -> Front
    requires { 0 < len }
    ensures { result ≡ spec.begins token len }
{
    Front {
        token: Some(token),
        more: len - 1,
    }
}

ghost use Rattle.std.specs.Prelude.{◌≡◌, IfOk};
ghost use Rattle.vx_names.specs.Name.{IsIdentifier};
ghost use Rattle.vx_reader.specs.Tokens.{word};

use std::alloc::{AllocError, Global};
use vx_names::{NAME_BYTES, name_of};
use vx_syntax::{Keyword, Token};

/// The token that an identifier is.
pub fn word(alloc: Global, bytes: &[u8]) -> Result<Token, AllocError>
    requires { IsIdentifier bytes.now }
    ensures { IfOk result (λ token. token ≡ word bytes.now) }
{
    if let Some(keyword) = Keyword::from_bytes(bytes) {
        return Ok(Token::Keyword(keyword));
    }
    if bytes.len() > NAME_BYTES {
        return Ok(Token::Bad);
    }
    Ok(Token::Word(name_of(alloc, bytes)?))
}

//! The texts of replies.

ghost use Rattle.std.specs.Prelude.{◌≡◌, ◌++◌, IfOk, OnOk};
ghost use Rattle.std.specs.Fmt.{decimal};
ghost use Rattle.vx_syntax.specs.Print.{key_text};
ghost use Rattle.vx_batch.specs.Text.{line, accepted_text, reserved_text, exists_text, missing_text, unknown_text, wrong_kind_text, cycle_text, in_use_text, counted_word, limit_text, syntax_text, too_deep_text, number_too_large_text, not_yet_built_text, image_text, too_long_text, hex_lines};

use std::alloc::{AllocError, Global};
use vx_names::{DeclKey, Name};
use vx_program::Counted;
use vx_syntax::key_text;

// The most bytes of an image that one line shows.
const IMAGE_LINE_BYTES: usize = 32;

/// Says that so many edits were accepted.
pub fn accepted(alloc: Global, count: u64) -> Result<Vec<u8>, AllocError>
    ensures { IfOk result (λ text. text.items ≡ accepted_text count) }
{
    numbered(alloc, b"accepted ", count)
}

/// Refuses an edit that names a key of the prelude or of a primitive.
pub fn refused_reserved(alloc: Global, key: &DeclKey) -> Result<Vec<u8>, AllocError>
    ensures { IfOk result (λ text. text.items ≡ reserved_text (key_text key.now)) }
{
    let key = key_text(alloc, key)?;
    one_line(alloc, b"refused reserved ", key.as_slice())
}

/// Refuses an edit that would take a key which is taken.
pub fn refused_exists(alloc: Global, key: &DeclKey) -> Result<Vec<u8>, AllocError>
    ensures { IfOk result (λ text. text.items ≡ exists_text (key_text key.now)) }
{
    let key = key_text(alloc, key)?;
    one_line(alloc, b"refused exists ", key.as_slice())
}

/// Refuses an edit that names a key which no declaration has.
pub fn refused_missing(alloc: Global, key: &DeclKey) -> Result<Vec<u8>, AllocError>
    ensures { IfOk result (λ text. text.items ≡ missing_text (key_text key.now)) }
{
    let key = key_text(alloc, key)?;
    one_line(alloc, b"refused missing ", key.as_slice())
}

/// Refuses an edit that names an object which is not there.
pub fn refused_unknown(alloc: Global, name: &Name) -> Result<Vec<u8>, AllocError>
    ensures { IfOk result (λ text. text.items ≡ unknown_text name.now) }
{
    one_line(alloc, b"refused unknown ", name.bytes())
}

/// Refuses an edit that names an object where none of its kind may stand.
pub fn refused_wrong_kind(alloc: Global, name: &Name) -> Result<Vec<u8>, AllocError>
    ensures { IfOk result (λ text. text.items ≡ wrong_kind_text name.now) }
{
    one_line(alloc, b"refused wrong kind ", name.bytes())
}

/// Refuses an edit after which the object would inherit from itself.
pub fn refused_cycle(alloc: Global, name: &Name) -> Result<Vec<u8>, AllocError>
    ensures { IfOk result (λ text. text.items ≡ cycle_text name.now) }
{
    one_line(alloc, b"refused cycle ", name.bytes())
}

/// Refuses an edit that drops an object which the declaration of the key names.
pub fn refused_in_use(alloc: Global, name: &Name, by: &DeclKey) -> Result<Vec<u8>, AllocError>
    ensures { IfOk result (λ text. text.items ≡ in_use_text name.now (key_text by.now)) }
{
    let by = key_text(alloc, by)?;
    let mut rest = Vec::from_slice(alloc, name.bytes())?;
    rest.extend_from_slice(b" by ")?;
    rest.extend_from_slice(by.as_slice())?;
    one_line(alloc, b"refused in use ", rest.as_slice())
}

/// Refuses an edit after which there would be so many, which is too many.
pub fn refused_limit(alloc: Global, which: Counted, count: u64) -> Result<Vec<u8>, AllocError>
    ensures { IfOk result (λ text. text.items ≡ limit_text which count) }
{
    let mut rest = Vec::from_slice(alloc, counted_word(which))?;
    rest.push(b' ')?;
    rest.extend_from_slice(format!(in alloc; "{count}")?.as_bytes())?;
    one_line(alloc, b"refused limit ", rest.as_slice())
}

fn counted_word(which: Counted) -> &'static [u8]
    ensures { result.now ≡ counted_word which }
{
    match which {
        Counted::Declarations => b"declarations",
        Counted::Methods => b"methods",
        Counted::Locals => b"locals",
        Counted::Depth => b"depth",
    }
}

/// Refuses a block in which no command begins with the tokens up to the one at this place, or which wants tokens there.
pub fn refused_syntax(alloc: Global, place: u64) -> Result<Vec<u8>, AllocError>
    ensures { IfOk result (λ text. text.items ≡ syntax_text place) }
{
    numbered(alloc, b"refused syntax at ", place)
}

/// Refuses a block whose token at this place lies too deep in brackets and operators.
pub fn refused_too_deep(alloc: Global, place: u64) -> Result<Vec<u8>, AllocError>
    ensures { IfOk result (λ text. text.items ≡ too_deep_text place) }
{
    numbered(alloc, b"refused too deep at ", place)
}

/// Refuses a block whose number at this place is above those of the language.
pub fn refused_number_too_large(alloc: Global, place: u64) -> Result<Vec<u8>, AllocError>
    ensures { IfOk result (λ text. text.items ≡ number_too_large_text place) }
{
    numbered(alloc, b"refused number too large at ", place)
}

/// Refuses what this compiler does not do so far.
pub fn refused_not_yet_built(alloc: Global) -> Result<Vec<u8>, AllocError>
    ensures { IfOk result (λ text. text.items ≡ not_yet_built_text) }
{
    one_line(alloc, b"refused not yet built", b"")
}

/// Refuses a block with so many bytes, more than are read.
pub fn refused_too_long(alloc: Global, len: u64) -> Result<Vec<u8>, AllocError>
    ensures { IfOk result (λ text. text.items ≡ too_long_text len) }
{
    numbered(alloc, b"refused block too long ", len)
}

/// Shows an image after so many accepted edits.
pub fn image(alloc: Global, count: u64, image: &[u8]) -> Result<Vec<u8>, AllocError>
    ensures { IfOk result (λ text. text.items ≡ image_text count image.now) }
{
    let len = image.len();
    let numbers = format!(in alloc; "{count} {len}")?;
    let mut text = one_line(alloc, b"image ", numbers.as_bytes())?;
    append_hex_lines(alloc, &mut text, image)?;
    Ok(text)
}

fn append_hex_lines(alloc: Global, text: &mut Vec<u8>, bytes: &[u8]) -> Result<(), AllocError>
    ensures { OnOk result (text.new.items ≡ text.old.items ++ hex_lines bytes.now) }
{
    for piece in bytes.chunks(IMAGE_LINE_BYTES) {
        append_line(text, b": ", hex::encode(alloc, piece)?.as_bytes())?;
    }
    Ok(())
}

fn one_line(alloc: Global, label: &[u8], rest: &[u8]) -> Result<Vec<u8>, AllocError>
    ensures { IfOk result (λ text. text.items ≡ line (label.now ++ rest.now)) }
{
    let mut text = Vec::new(alloc);
    append_line(&mut text, label, rest)?;
    Ok(text)
}

fn numbered(alloc: Global, label: &[u8], number: u64) -> Result<Vec<u8>, AllocError>
    ensures { IfOk result (λ text. text.items ≡ line (label.now ++ decimal number)) }
{
    one_line(alloc, label, format!(in alloc; "{number}")?.as_bytes())
}

/// Appends a line with this label in front.
pub fn append_line(text: &mut Vec<u8>, label: &[u8], rest: &[u8]) -> Result<(), AllocError>
    ensures { OnOk result (text.new.items ≡ text.old.items ++ line (label.now ++ rest.now)) }
{
    text.extend_from_slice(label)?;
    text.extend_from_slice(rest)?;
    text.push(b'\n')?;
    Ok(())
}

//! The declarations of a program, printed.

ghost use Rattle.std.specs.Prelude.{◌≡◌, ◌++◌, length, filter, IfOk, OnOk};
ghost use Rattle.std.specs.List.{flat_map};
ghost use Rattle.vx_batch.specs.Listing.{is_listed, listed_line, list_text};

use crate::text::append_line;
use std::alloc::{AllocError, Global};
use vx_program::Reserved;
use vx_syntax::{Decl, print_decl};

/// The declarations besides the prelude, a line each, and how many these are.
pub fn list(alloc: Global, decls: &[Decl]) -> Result<Vec<u8>, AllocError>
    ensures { IfOk result (λ text. text.items ≡ list_text decls.now) }
{
    let reserved = Reserved::new(alloc)?;
    let mut text = Vec::new(alloc);
    append_listed(alloc, &reserved, &mut text, decls)?;
    let count = listed_count(alloc, &reserved, decls)?;
    append_line(
        &mut text,
        b"= list ",
        format!(in alloc; "{count}")?.as_bytes(),
    )?;
    Ok(text)
}

fn append_listed(
    alloc: Global,
    reserved: &Reserved,
    text: &mut Vec<u8>,
    decls: &[Decl],
) -> Result<(), AllocError>
    ensures { OnOk result (text.new.items ≡ text.old.items ++ flat_map listed_line (filter is_listed decls.now)) }
{
    for decl in decls {
        if is_listed(alloc, reserved, decl)? {
            append_decl(alloc, text, decl)?;
        }
    }
    Ok(())
}

fn append_decl(alloc: Global, text: &mut Vec<u8>, decl: &Decl) -> Result<(), AllocError>
    ensures { OnOk result (text.new.items ≡ text.old.items ++ listed_line decl.now) }
{
    let printed = print_decl(alloc, decl)?;
    append_line(text, b"| ", printed.as_slice())
}

// Whether the declaration is no part of the prelude.
fn is_listed(alloc: Global, reserved: &Reserved, decl: &Decl) -> Result<bool, AllocError>
    ensures { IfOk result (λ yes. yes ≡ is_listed decl.now) }
{
    let key = decl.key(alloc)?;
    let own = !reserved.has(&key);
    drop(key);
    Ok(own)
}

fn listed_count(alloc: Global, reserved: &Reserved, decls: &[Decl]) -> Result<usize, AllocError>
    ensures { IfOk result (λ count. count ≡ length (filter is_listed decls.now)) }
{
    let mut count = 0;
    for decl in decls {
        if is_listed(alloc, reserved, decl)? {
            count += 1;
        }
    }
    Ok(count)
}

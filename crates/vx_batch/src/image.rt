//! The image of a program.

ghost use Rattle.std.specs.Prelude.{◌≡◌, ◌++◌, not, length, filter, IfOk, OnOk};
ghost use Rattle.vx_names.specs.declared.key.DeclKey.TheVariants as k;
ghost use Rattle.vx_program.specs.Prelude.{is_reserved};
ghost use Rattle.std.specs.List.{flat_map};
ghost use Rattle.vx_batch.specs.Image.{number_bytes, name_bytes, object_bytes, is_own, image_of};

use std::alloc::{AllocError, Global};
use vx_names::{DeclKey, Name};
use vx_program::Reserved;
use vx_syntax::Decl;

// `VXIC`, and the version of the layout.
const IMAGE_HEAD: &[u8; 5] = b"VXIC\0";

/// The image of the program of these declarations.
pub fn image(alloc: Global, decls: &[Decl]) -> Result<Vec<u8>, AllocError>
    ensures { IfOk result (λ bytes. bytes.items ≡ image_of decls.now) }
{
    let reserved = Reserved::new(alloc)?;
    let mut image = Vec::from_slice(alloc, IMAGE_HEAD)?;
    append_number(&mut image, own_count(alloc, &reserved, decls)?)?;
    for decl in decls {
        if is_own(alloc, &reserved, decl)? {
            append_object(&mut image, decl)?;
        }
    }
    Ok(image)
}

// Whether the declaration is a plain object and no part of the prelude.
fn is_own(alloc: Global, reserved: &Reserved, decl: &Decl) -> Result<bool, AllocError>
    ensures { IfOk result (λ yes. yes ≡ is_own decl.now) }
{
    match decl {
        Decl::Object { name, .. } => is_own_name(alloc, reserved, name),
        _ => Ok(false),
    }
}

fn is_own_name(alloc: Global, reserved: &Reserved, name: &Name) -> Result<bool, AllocError>
    ensures { IfOk result (λ yes. yes ≡ not (is_reserved (k.Object name.now))) }
{
    let key = DeclKey::Object(name.copy(alloc)?);
    let own = !reserved.has(&key);
    drop(key);
    Ok(own)
}

fn own_count(alloc: Global, reserved: &Reserved, decls: &[Decl]) -> Result<usize, AllocError>
    ensures { IfOk result (λ count. count ≡ length (filter is_own decls.now)) }
{
    let mut count = 0;
    for decl in decls {
        if is_own(alloc, reserved, decl)? {
            count += 1;
        }
    }
    Ok(count)
}

fn append_number(image: &mut Vec<u8>, number: usize) -> Result<(), AllocError>
    ensures { OnOk result (image.new.items ≡ image.old.items ++ number_bytes number) }
{
    let number = number.min(u32::MAX as usize) as u32;
    image.extend_from_slice(&number.to_be_bytes())
}

fn append_name(image: &mut Vec<u8>, name: &Name) -> Result<(), AllocError>
    ensures { OnOk result (image.new.items ≡ image.old.items ++ name_bytes name.now) }
{
    let bytes = name.bytes();
    image.push(bytes.len() as u8)?;
    image.extend_from_slice(bytes)
}

fn append_names(image: &mut Vec<u8>, names: &[Name]) -> Result<(), AllocError>
    ensures { OnOk result (image.new.items ≡ image.old.items ++ flat_map name_bytes names.now) }
{
    for name in names {
        append_name(image, name)?;
    }
    Ok(())
}

fn append_object(image: &mut Vec<u8>, decl: &Decl) -> Result<(), AllocError>
    ensures { OnOk result (image.new.items ≡ image.old.items ++ object_bytes decl.now) }
{
    match decl {
        Decl::Object { name, parents } => {
            append_name(image, name)?;
            append_number(image, parents.len())?;
            append_names(image, parents.as_slice())
        }
        _ => Ok(()),
    }
}

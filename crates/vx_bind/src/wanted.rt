//! Of which names a binding asks.
ghost use Rattle.std.specs.Prelude.{◌≡◌, ◌++◌, [], not, filter, slice_get, IfOk, OnOk};
ghost use Rattle.std.specs.Option.{option_copied};
ghost use Rattle.std.specs.Str.{bytes_eq};
ghost use Rattle.vx_syntax.specs.Declarations.{any};
ghost use Rattle.vx_answers.specs.OrderRows.{fresh};
ghost use Rattle.vx_answers.specs.SendRows.{base_at, bases_at, cones_asked, info_objects, specialisers_asked, specialisers_of, with_base};

use crate::order::{About, base_of, is_any};
use sqlite_items::Items;
use std::alloc::{AllocError, Global};
use vx_names::{MethodKey, Name};
use vx_node::{Info, Kind};
use vx_walks::is_one;

/// The specialisers of the methods and of the one below which a message is bound, but `any`, each once.
pub fn specialisers_asked(
    alloc: Global,
    heads: &[(MethodKey, Kind)],
    below: Option<&MethodKey>,
) -> Result<Items<Name>, AllocError>
    ensures { IfOk result (λ names. names ≡ specialisers_asked (specialisers_of heads.now (option_copied below.entry))) }
{
    let mut met = Items::new(alloc);
    for head in heads {
        meet_specialisers(alloc, &mut met, head.0.specialisers.as_slice())?;
    }
    match below {
        Some(below) => meet_specialisers(alloc, &mut met, below.specialisers.as_slice())?,
        None => {}
    }
    Ok(met)
}

// Puts those of the names that are not met yet behind those that are, but `any`.
fn meet_specialisers(alloc: Global, met: &mut Items<Name>, xs: &[Name]) -> Result<(), AllocError>
    ensures { OnOk result (met.new ≡ met.old ++ fresh met.old (filter (λ x. not (bytes_eq x any)) xs.now)) }
{
    for x in xs {
        if !is_any(x) {
            if !is_one(met.as_slice(), x.bytes()) {
                met.push(x.copy(alloc)?)?;
            }
        }
    }
    Ok(())
}

/// The objects that infos name.
pub fn info_objects(alloc: Global, infos: &[Info]) -> Result<Items<Name>, AllocError>
    ensures { IfOk result (λ names. names ≡ info_objects infos.now) }
{
    let mut names = Items::new(alloc);
    for info in infos {
        match info {
            Info::Any => {}
            Info::Cone(x) => names.push(x.copy(alloc)?)?,
            Info::Exact(x) => names.push(x.copy(alloc)?)?,
        }
    }
    Ok(names)
}

/// Whose cones are asked for: at each position that has a cone, that object's and those of the specialisers' bases.
pub fn cones_asked(
    alloc: Global,
    abouts: &[About],
    heads: &[(MethodKey, Kind)],
    below: Option<&MethodKey>,
    infos: &[Info],
) -> Result<Items<Name>, AllocError>
    ensures { IfOk result (λ names. names ≡ cones_asked abouts.now (specialisers_of heads.now (option_copied below.entry)) 0 infos.now) }
{
    let mut names = Items::new(alloc);
    for (place, info) in infos.iter().enumerate() {
        match info {
            Info::Any => {}
            Info::Exact(_) => {}
            Info::Cone(x) => {
                names.push(x.copy(alloc)?)?;
                push_bases(alloc, &mut names, abouts, heads, below, place)?;
            }
        }
    }
    Ok(names)
}

// Pushes the bases of the specialisers at the position.
fn push_bases(
    alloc: Global,
    names: &mut Items<Name>,
    abouts: &[About],
    heads: &[(MethodKey, Kind)],
    below: Option<&MethodKey>,
    place: usize,
) -> Result<(), AllocError>
    ensures { OnOk result (names.new ≡ names.old ++ bases_at abouts.now place (specialisers_of heads.now (option_copied below.entry))) }
{
    for head in heads {
        push_base(alloc, names, abouts, head.0.specialisers.as_slice(), place)?;
    }
    match below {
        Some(below) => push_base(alloc, names, abouts, below.specialisers.as_slice(), place),
        None => Ok(()),
    }
}

// Pushes the base of the specialiser at the position, where there is one.
fn push_base(
    alloc: Global,
    names: &mut Items<Name>,
    abouts: &[About],
    xs: &[Name],
    place: usize,
) -> Result<(), AllocError>
    ensures { OnOk result (names.new ≡ names.old ++ with_base (base_at abouts.now (slice_get xs.now place)) []) }
{
    match base_at(abouts, xs, place) {
        Some(base) => names.push(base.copy(alloc)?),
        None => Ok(()),
    }
}

// The base of the name at the place, where there is one.
fn base_at<'a>(abouts: &'a [About], xs: &[Name], place: usize) -> Option<&'a Name>
    ensures { option_copied result ≡ base_at abouts.now (slice_get xs.now place) }
{
    if place < xs.len() {
        base_of(abouts, &xs[place])
    } else {
        None
    }
}

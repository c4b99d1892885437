//! Tables of selectors: what their rows lead to, and the masks of their positions.
ghost use Rattle.std.specs.Prelude.{◌≡◌, ℕ, nat_le};
ghost use Rattle.vx_format.specs.Layout.{most_rows, starts};
ghost use Rattle.vx_format.specs.Reading.{Cursor, valid};
ghost use Rattle.vx_format.specs.Format.{a_class_mask, a_deed, a_list, a_mask, a_split};
ghost use Rattle.vx_image.specs.Gives.{Gives};

use crate::cursor::{At, number_at, small_at, symbol_at, u8_at, u32_at};
use crate::fault::LoadFault;
use crate::names::name_at;
use crate::part::{Context, Part, list_at};
use sqlite_items::Items;
use std::alloc::Global;
use vx_format::{ClassMask, Does, Position, Row, Split, Table, Version};

// A mask of as many bytes as the version has.
fn mask_at<'a>(at: At<'a>, version: Version) -> Result<(u128, At<'a>), LoadFault>
    ensures { Gives (λ x. x) result (a_mask version at.entry) }
{
    match version {
        Version::One => number_at(at, 8),
        Version::Two => number_at(at, 16),
    }
}

impl Part for (u32, u32) {
    ghost use Rattle.vx_format.specs.Format.{a_pair};

    ghost read = { λ c i. a_pair c.roster };

    #[tactic(auto, unfolding(vx_format::specs::Format::a_pair))]
    fn read_part<'a>(
        _alloc: Global,
        context: &Context,
        _number: u32,
        at: At<'a>,
    ) -> Result<((u32, u32), At<'a>), LoadFault> {
        let (object, at) = symbol_at(at, context.roster.objects)?;
        let (code, at) = symbol_at(at, context.roster.codes)?;
        Ok(((object, code), at))
    }
}

// The position on which it depends what a row enters, and the codes for its classes, if there is one.
#[tactic(auto, unfolding(vx_format::specs::Format::a_split))]
fn split_at<'a>(
    alloc: Global,
    at: At<'a>,
    context: &Context,
) -> Result<(Option<Split>, At<'a>), LoadFault>
    ensures { Gives (λ x. x) result (a_split context.now.roster at.entry) }
{
    let (position, at) = u8_at(at)?;
    if position == 255 {
        return Ok((None, at));
    }
    let (count, at) = u8_at(at)?;
    let (pairs, at) = list_at(alloc, context, count as u32, at)?;
    Ok((Some(Split { position, pairs }), at))
}

// What a row leads to.
#[tactic(auto, unfolding(vx_format::specs::Format::a_deed))]
fn deed_at<'a>(alloc: Global, at: At<'a>, context: &Context) -> Result<(Does, At<'a>), LoadFault>
    ensures { Gives (λ x. x) result (a_deed context.now.roster at.entry) }
{
    let place = at.place();
    let (tag, at) = u8_at(at)?;
    match tag {
        0 => {
            let (code, at) = symbol_at(at, context.roster.codes)?;
            let (split, at) = split_at(alloc, at, context)?;
            Ok((Does::Code(code, split), at))
        }
        1 => {
            let (prim, at) = small_at(at, 18)?;
            Ok((Does::Prim(prim), at))
        }
        2 => {
            let (field, at) = symbol_at(at, context.roster.fields)?;
            Ok((Does::Get(field), at))
        }
        3 => {
            let (field, at) = symbol_at(at, context.roster.fields)?;
            Ok((Does::Set(field), at))
        }
        _ => Err(LoadFault::BadIndex(place)),
    }
}

impl Part for Row {
    ghost use Rattle.vx_format.specs.Format.{a_row};

    ghost read = { λ c i. a_row c.version c.roster };

    #[tactic(auto, unfolding(vx_format::specs::Format::a_row))]
    fn read_part<'a>(
        alloc: Global,
        context: &Context,
        _number: u32,
        at: At<'a>,
    ) -> Result<(Row, At<'a>), LoadFault> {
        let (does, at) = deed_at(alloc, at, context)?;
        let (beats, at) = mask_at(at, context.version)?;
        Ok((Row { does, beats }, at))
    }
}

// Of which there are so many, objects or tests, stands in `names`.
impl Part for ClassMask {
    ghost use Rattle.vx_format.specs.Format.{a_class_mask};

    ghost read = { λ c i. a_class_mask c.version c.names };

    #[tactic(auto, unfolding(vx_format::specs::Format::a_class_mask))]
    fn read_part<'a>(
        _alloc: Global,
        context: &Context,
        _number: u32,
        at: At<'a>,
    ) -> Result<(ClassMask, At<'a>), LoadFault> {
        let (symbol, at) = symbol_at(at, context.names)?;
        let (mask, at) = mask_at(at, context.version)?;
        Ok((ClassMask { symbol, mask }, at))
    }
}

impl Part for Position {
    ghost use Rattle.vx_format.specs.Format.{a_position};

    ghost read = { λ c i. a_position c.version c.roster };

    #[tactic(auto, unfolding(vx_format::specs::Format::a_position))]
    fn read_part<'a>(
        alloc: Global,
        context: &Context,
        _number: u32,
        at: At<'a>,
    ) -> Result<(Position, At<'a>), LoadFault> {
        let (default, at) = mask_at(at, context.version)?;
        let (classes, at) = masks_at(alloc, at, context, context.roster.objects)?;
        let (tests, at) = masks_at(alloc, at, context, context.roster.tests)?;
        Ok((
            Position {
                default,
                classes,
                tests,
            },
            at,
        ))
    }
}

// Masks of classes or of tests, of which there are so many.
fn masks_at<'a>(
    alloc: Global,
    at: At<'a>,
    context: &Context,
    bound: u32,
) -> Result<(Items<ClassMask>, At<'a>), LoadFault>
    ensures { Gives (λ x. x) result (a_list 4 (a_class_mask context.now.version bound) at.entry) }
{
    let inner = Context {
        roster: context.roster,
        version: context.version,
        main: context.main,
        names: bound,
    };
    let (count, at) = u32_at(at)?;
    list_at(alloc, &inner, count, at)
}

// The number of arguments of a table.
fn arity_at<'a>(at: At<'a>, main: Option<u32>, number: u32) -> Result<(u8, At<'a>), LoadFault>
    ensures { Gives (λ x. x) result (valid 1 (starts main number) at.entry) }
{
    let place = at.place();
    let (arity, at) = u8_at(at)?;
    if let Some(main) = main {
        if main == number && arity != 0 {
            return Err(LoadFault::BadIndex(place));
        }
    }
    Ok((arity, at))
}

// The number of rows of a table.
fn rows_at<'a>(at: At<'a>, version: Version) -> Result<(u8, At<'a>), LoadFault>
    ensures { Gives (λ x. x) result (valid 1 (λ n. nat_le n (most_rows version)) at.entry) }
{
    let place = at.place();
    let (count, at) = u8_at(at)?;
    let most = match version {
        Version::One => 64,
        Version::Two => 128,
    };
    if count <= most {
        Ok((count, at))
    } else {
        Err(LoadFault::BadIndex(place))
    }
}

impl Part for Table {
    ghost use Rattle.vx_format.specs.Format.{a_table};

    ghost read = { λ c i. a_table c.version c.roster c.main i };

    #[tactic(auto, unfolding(vx_format::specs::Format::a_table))]
    fn read_part<'a>(
        alloc: Global,
        context: &Context,
        number: u32,
        at: At<'a>,
    ) -> Result<(Table, At<'a>), LoadFault> {
        let (name, at) = name_at(alloc, at)?;
        let (arity, at) = arity_at(at, context.main, number)?;
        let (count, at) = rows_at(at, context.version)?;
        let (rows, at) = list_at(alloc, context, count as u32, at)?;
        let (positions, at) = list_at(alloc, context, arity as u32, at)?;
        Ok((
            Table {
                name,
                arity,
                rows,
                positions,
            },
            at,
        ))
    }
}

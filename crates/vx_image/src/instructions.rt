//! Instructions. Each is looked at in the same order: whether it ends in its block, whether its bytes are there, and then its operands.
ghost use Rattle.std.specs.Prelude.{◌≡◌, ℕ, ◌+◌, ◌*◌, ◌<◌, ◌≤◌, ◌^◌, nat_le};
ghost use Rattle.vx_format.specs.Reading.{Cursor, a_number, below, listed};
ghost use Rattle.vx_format.specs.Format.{a_closure, a_failure, a_new, a_resend, a_symbol, a_text, chosen, fixed, instructions};
ghost use Rattle.vx_image.specs.Gives.{Gives};

use crate::cursor::{At, bytes_at, fixed_at, small_at, symbol_at, u8_at, u32_at};
use crate::fault::LoadFault;
use crate::names::is_name;
use crate::part::{Context, Part, Piece, list_at};
use crate::shapes::integer_at;
use sqlite_items::Items;
use std::alloc::Global;
use vx_format::{Instr, Roster};

// Whether what begins at the place and has so many bytes ends within the end. The sum is made in 128 bits, where it is never too large.
fn has_room(end: u128, place: u64, size: u64) -> bool
    ensures { result ≡ nat_le (place + size) end }
{
    place as u128 + size as u128 <= end
}

// The operands of an instruction that pushes a string.
fn text_at<'a>(
    alloc: Global,
    at: At<'a>,
    end: u128,
    place: u64,
) -> Result<(Instr, At<'a>), LoadFault>
    ensures { Gives (λ x. x) result (a_text end place at.entry) }
{
    if !has_room(end, place, 5) {
        return Err(LoadFault::BadIndex(place));
    }
    let (count, at) = u32_at(at)?;
    if !has_room(end, place, 5 + count as u64) {
        return Err(LoadFault::BadIndex(place));
    }
    let (text, at) = bytes_at(at, count as usize)?;
    Ok((Instr::Text(Items::from_slice(alloc, text)?), at))
}

impl Part for u32 {
    ghost use Rattle.vx_format.specs.Reading.{a_number};

    ghost read = { λ c i. a_number 4 };

    fn read_part<'a>(
        _alloc: Global,
        _context: &Context,
        _number: u32,
        at: At<'a>,
    ) -> Result<(u32, At<'a>), LoadFault> {
        u32_at(at)
    }
}

// The operands of an instruction that makes a closure.
fn closure_at<'a>(
    alloc: Global,
    at: At<'a>,
    context: &Context,
    end: u128,
    place: u64,
) -> Result<(Instr, At<'a>), LoadFault>
    ensures { Gives (λ x. x) result (a_closure end place at.entry) }
{
    if !has_room(end, place, 9) {
        return Err(LoadFault::BadIndex(place));
    }
    let (block, at) = u32_at(at)?;
    let (count, at) = u32_at(at)?;
    if !has_room(end, place, 9 + 4 * count as u64) {
        return Err(LoadFault::BadIndex(place));
    }
    let (xs, at) = list_at(alloc, context, count, at)?;
    Ok((Instr::Closure(block, xs), at))
}

// So many fields, of which there are bound.
fn fields_at<'a>(
    alloc: Global,
    at: At<'a>,
    bound: u32,
    count: u32,
) -> Result<(Items<u32>, At<'a>), LoadFault>
    ensures { Gives (λ x. x) result (listed count 0 (λ i. a_symbol bound) at.entry) }
{
    let mut fields = Items::new(alloc);
    let mut at = at;
    for i in 0..count {
        let (field, after) = symbol_at(at, bound)?;
        fields.push(field)?;
        at = after;
    }
    Ok((fields, at))
}

// The operands of an instruction that makes an object.
fn new_at<'a>(
    alloc: Global,
    at: At<'a>,
    r: Roster,
    end: u128,
    place: u64,
) -> Result<(Instr, At<'a>), LoadFault>
    requires { place < 2 ^ 63 }
    ensures { Gives (λ x. x) result (a_new r end place at.entry) }
{
    if !has_room(end, place, 9) {
        return Err(LoadFault::BadIndex(place));
    }
    let (object, at) = u32_at(at)?;
    let (count, at) = u32_at(at)?;
    if !has_room(end, place, 9 + 4 * count as u64) {
        return Err(LoadFault::BadIndex(place));
    }
    if at.lacks(4 * count as u64) {
        return Err(LoadFault::Short(at.total()));
    }
    if object >= r.objects {
        return Err(LoadFault::BadIndex(place + 1));
    }
    let (fields, at) = fields_at(alloc, at, r.fields, count)?;
    Ok((Instr::New(object, fields), at))
}

// The operands of an instruction that ends the run.
fn failure_at<'a>(
    alloc: Global,
    at: At<'a>,
    end: u128,
    place: u64,
) -> Result<(Instr, At<'a>), LoadFault>
    requires { place < 2 ^ 63 }
    ensures { Gives (λ x. x) result (a_failure end place at.entry) }
{
    if !has_room(end, place, 3) {
        return Err(LoadFault::BadIndex(place));
    }
    let (kind, at) = u8_at(at)?;
    let (count, at) = u8_at(at)?;
    if !has_room(end, place, 4 + count as u64) {
        return Err(LoadFault::BadIndex(place));
    }
    if at.lacks(count as u64 + 1) {
        return Err(LoadFault::Short(at.total()));
    }
    if kind >= 3 {
        return Err(LoadFault::BadIndex(place + 1));
    }
    let (name, at) = bytes_at(at, count as usize)?;
    if !is_name(name) {
        return Err(LoadFault::BadIndex(place + 2));
    }
    let (arity, at) = u8_at(at)?;
    if kind != 2 && arity != 0 {
        return Err(LoadFault::BadIndex(place + 3 + count as u64));
    }
    Ok((
        Instr::Fail(kind, Items::from_slice(alloc, name)?, arity),
        at,
    ))
}

// The number that is the only operand of the instruction at the place.
fn number_operand<'a>(at: At<'a>, end: u128, place: u64) -> Result<(u32, At<'a>), LoadFault>
    ensures { Gives (λ x. x) result (fixed end place 5 (a_number 4) at.entry) }
{
    fixed_at(&at, end, place, 5)?;
    u32_at(at)
}

// The symbol that is the only operand of the instruction at the place. There are so many.
fn symbol_operand<'a>(
    at: At<'a>,
    end: u128,
    place: u64,
    bound: u32,
) -> Result<(u32, At<'a>), LoadFault>
    ensures { Gives (λ x. x) result (fixed end place 5 (a_symbol bound) at.entry) }
{
    fixed_at(&at, end, place, 5)?;
    symbol_at(at, bound)
}

// The resend at the place.
fn resend_at<'a>(at: At<'a>, end: u128, place: u64, r: Roster) -> Result<(Instr, At<'a>), LoadFault>
    ensures { Gives (λ x. x) result (fixed end place 6 (a_resend r) at.entry) }
{
    fixed_at(&at, end, place, 6)?;
    let (table, at) = symbol_at(at, r.tables)?;
    let (row, at) = u8_at(at)?;
    Ok((Instr::Resend(table, row), at))
}

// The number of the primitive that the instruction at the place does.
fn prim_operand<'a>(at: At<'a>, end: u128, place: u64) -> Result<(u8, At<'a>), LoadFault>
    ensures { Gives (λ x. x) result (fixed end place 2 (below 1 18) at.entry) }
{
    fixed_at(&at, end, place, 2)?;
    small_at(at, 18)
}

// The operands of an instruction whose operation has a number from 9 on.
fn later_at<'a>(
    alloc: Global,
    context: &Context,
    end: u128,
    place: u64,
    tag: u8,
    at: At<'a>,
) -> Result<(Instr, At<'a>), LoadFault>
    requires from_nine { 9 ≤ tag }
    requires place { place < 2 ^ 63 }
    ensures { Gives (λ x. x) result (chosen (instructions context.now.roster end place) place tag at.entry) }
{
    let r = context.roster;
    match tag {
        9 => closure_at(alloc, at, context, end, place),
        10 => {
            let (t, at) = symbol_operand(at, end, place, r.tables)?;
            Ok((Instr::Send(t), at))
        }
        11 => {
            let (c, at) = symbol_operand(at, end, place, r.codes)?;
            Ok((Instr::Call(c), at))
        }
        12 => resend_at(at, end, place, r),
        13 => {
            let (p, at) = prim_operand(at, end, place)?;
            Ok((Instr::Prim(p), at))
        }
        14 => {
            let (f, at) = symbol_operand(at, end, place, r.fields)?;
            Ok((Instr::Get(f), at))
        }
        15 => {
            let (f, at) = symbol_operand(at, end, place, r.fields)?;
            Ok((Instr::Set(f), at))
        }
        16 => new_at(alloc, at, r, end, place),
        17 => Ok((Instr::Pop, at)),
        18 => Ok((Instr::Ret, at)),
        19 => Ok((Instr::Home, at)),
        20 => Ok((Instr::Mark, at)),
        21 => failure_at(alloc, at, end, place),
        _ => Err(LoadFault::BadIndex(place)),
    }
}

impl Piece for Instr {
    ghost use Rattle.vx_format.specs.Format.{an_instruction, no_depth};

    ghost read = { λ c end depth. an_instruction c.roster end depth };

    ghost grown = { no_depth };

    #[tactic(auto, unfolding(vx_format::specs::Format::an_instruction))]
    fn read_piece<'a>(
        alloc: Global,
        context: &Context,
        end: u128,
        _depth: u64,
        at: At<'a>,
    ) -> Result<(Instr, At<'a>), LoadFault> {
        let place = at.place();
        let (tag, at) = u8_at(at)?;
        match tag {
            0 => Err(LoadFault::BadIndex(place)),
            1 => {
                fixed_at(&at, end, place, 17)?;
                let (z, at) = integer_at(at)?;
                Ok((Instr::Int(z), at))
            }
            2 => text_at(alloc, at, end, place),
            3 => {
                let (o, at) = symbol_operand(at, end, place, context.roster.objects)?;
                Ok((Instr::Object(o), at))
            }
            4 => {
                let (x, at) = number_operand(at, end, place)?;
                Ok((Instr::Load(x), at))
            }
            5 => {
                let (x, at) = number_operand(at, end, place)?;
                Ok((Instr::Store(x), at))
            }
            6 => {
                let (x, at) = number_operand(at, end, place)?;
                Ok((Instr::Cell(x), at))
            }
            7 => {
                let (x, at) = number_operand(at, end, place)?;
                Ok((Instr::CellGet(x), at))
            }
            8 => {
                let (x, at) = number_operand(at, end, place)?;
                Ok((Instr::CellSet(x), at))
            }
            _ => later_at(alloc, context, end, place, tag, at),
        }
    }

    fn grow(&self, _depth: u64) -> u64 {
        0
    }
}

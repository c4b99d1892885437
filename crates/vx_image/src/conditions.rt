//! The tests of predicates.
ghost use Rattle.std.specs.Prelude.{◌≡◌, ℕ};
ghost use Rattle.vx_format.specs.Layout.{values_left};
ghost use Rattle.vx_format.specs.Reading.{Cursor, listed};
ghost use Rattle.vx_format.specs.Format.{a_class_test, a_form, a_step, a_test};
ghost use Rattle.vx_image.specs.Gives.{Gives};

use crate::cursor::{At, fixed_at, optional_at, small_at, symbol_at, u8_at, u32_at};
use crate::fault::LoadFault;
use crate::part::{Context, Part, Piece, list_at, until_at};
use crate::shapes::integer_at;
use sqlite_items::Items;
use std::alloc::Global;
use vx_format::{ClassTest, Step, Test};

impl Part for Option<u32> {
    ghost use Rattle.vx_format.specs.Format.{an_optional};

    ghost read = { λ c i. an_optional c.roster.fields };

    fn read_part<'a>(
        _alloc: Global,
        context: &Context,
        _number: u32,
        at: At<'a>,
    ) -> Result<(Option<u32>, At<'a>), LoadFault> {
        optional_at(at, context.roster.fields)
    }
}

impl Part for ClassTest {
    ghost use Rattle.vx_format.specs.Format.{a_class_test};

    ghost read = { λ c i. a_class_test c.roster c.names };

    #[tactic(auto, unfolding(vx_format::specs::Format::a_class_test))]
    fn read_part<'a>(
        alloc: Global,
        context: &Context,
        _number: u32,
        at: At<'a>,
    ) -> Result<(ClassTest, At<'a>), LoadFault> {
        let (object, at) = symbol_at(at, context.roster.objects)?;
        let (fields, at) = list_at(alloc, context, context.names, at)?;
        Ok((ClassTest { object, fields }, at))
    }
}

impl Piece for Step {
    ghost use Rattle.vx_format.specs.Layout.{depth_after};
    ghost use Rattle.vx_format.specs.Format.{a_step};

    ghost read = { λ c end depth. a_step c.names end depth };

    ghost grown = { depth_after };

    #[tactic(auto, unfolding(vx_format::specs::Format::a_step))]
    fn read_piece<'a>(
        _alloc: Global,
        context: &Context,
        end: u128,
        depth: u64,
        at: At<'a>,
    ) -> Result<(Step, At<'a>), LoadFault> {
        let place = at.place();
        let (tag, at) = u8_at(at)?;
        match tag {
            0 => {
                fixed_at(&at, end, place, 22)?;
                let (operator, at) = small_at(at, 5)?;
                let (name, at) = symbol_at(at, context.names)?;
                let (z, at) = integer_at(at)?;
                Ok((Step::Compare(operator, name, z), at))
            }
            1 => {
                if depth < 2 {
                    return Err(LoadFault::BadIndex(place));
                }
                Ok((Step::And, at))
            }
            2 => {
                if depth < 2 {
                    return Err(LoadFault::BadIndex(place));
                }
                Ok((Step::Or, at))
            }
            3 => {
                if depth < 1 {
                    return Err(LoadFault::BadIndex(place));
                }
                Ok((Step::Not, at))
            }
            _ => Err(LoadFault::BadIndex(place)),
        }
    }

    fn grow(&self, depth: u64) -> u64 {
        match self {
            Step::Compare(_, _, _) => depth + 1,
            Step::And => depth.saturating_sub(1),
            Step::Or => depth.saturating_sub(1),
            Step::Not => depth,
        }
    }
}

// How many truth values the steps leave.
fn values_left(steps: &[Step]) -> u64
    ensures { result ≡ values_left 0 steps.now }
{
    let mut depth = 0u64;
    for step in steps {
        depth = step.grow(depth);
    }
    depth
}

// A test in postfix form behind the number of its bytes, at whose place it is told when not one value is left at the end.
#[tactic(auto, unfolding(vx_format::specs::Format::a_form))]
fn form_at<'a>(
    alloc: Global,
    at: At<'a>,
    context: &Context,
) -> Result<(Items<Step>, At<'a>), LoadFault>
    ensures { Gives (λ x. x) result (a_form context.now.names at.entry) }
{
    let place = at.place();
    let (count, at) = u32_at(at)?;
    let (steps, at) = until_at(alloc, context, count, at)?;
    if values_left(steps.as_slice()) == 1 {
        Ok((steps, at))
    } else {
        Err(LoadFault::BadIndex(place))
    }
}

impl Part for Test {
    ghost use Rattle.vx_format.specs.Format.{a_test};

    ghost read = { λ c i. a_test c.roster };

    #[tactic(auto, unfolding(vx_format::specs::Format::a_test))]
    fn read_part<'a>(
        alloc: Global,
        context: &Context,
        _number: u32,
        at: At<'a>,
    ) -> Result<(Test, At<'a>), LoadFault> {
        let (count, at) = u32_at(at)?;
        let (names, at) = u32_at(at)?;
        let inner = Context {
            roster: context.roster,
            version: context.version,
            main: context.main,
            names,
        };
        let (classes, at) = list_at(alloc, &inner, count, at)?;
        let (steps, at) = form_at(alloc, at, &inner)?;
        Ok((
            Test {
                names,
                classes,
                steps,
            },
            at,
        ))
    }
}

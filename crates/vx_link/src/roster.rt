//! What an image lists.
ghost use Rattle.std.specs.Prelude.{◌≡◌, ◌<◌, length, Some, slice_get, IfOk};
ghost use Rattle.vx_node.specs.declared.node.NodeId.TheVariants as node;
ghost use Rattle.vx_node.specs.declared.node.Target.TheVariants as target;
ghost use Rattle.vx_link.specs.Roster.{IsRoster};
ghost use Rattle.vx_link.specs.Link.{targets};

use sqlite_items::Items;
use std::alloc::{AllocError, Global};
use vx_names::{FieldKey, MethodKey, Name, Selector};
use vx_node::{NodeId, Target, Variant};

/// What an image has: the keys of its fields, plain objects, tests, tables and codes. A symbol stands for the place of its key in the list. Each list is
/// in the order of its keys, and none of them comes twice.
#[derive(Drop)]
pub struct Roster {
    pub fields: Items<FieldKey>,
    pub objects: Items<Name>,
    /// The predicates, by their names.
    pub tests: Items<Name>,
    pub tables: Items<Selector>,
    /// The codes of each method: as general as it is first, and then those for one class.
    pub codes: Items<(MethodKey, Variant)>,
}

/// How many units an image of the roster has.
pub fn count(roster: &Roster) -> usize
    requires { IsRoster roster.now }
    ensures { result ≡ length (targets roster.now) }
{
    roster.objects.len() + roster.tests.len() + roster.tables.len() + roster.codes.len()
}

/// The node of the unit at the place, in the order of the image.
pub fn node_at(alloc: Global, roster: &Roster, place: usize) -> Result<NodeId, AllocError>
    requires { place < length (targets roster.now) }
    ensures { IfOk result (λ node. slice_get (targets roster.now) place ≡ Some node) }
{
    let objects = roster.objects.as_slice();
    if place < objects.len() {
        return shape_of(alloc, &objects[place]);
    }
    let place = place - objects.len();
    let tests = roster.tests.as_slice();
    if place < tests.len() {
        return test_of(alloc, &tests[place]);
    }
    let place = place - tests.len();
    let tables = roster.tables.as_slice();
    if place < tables.len() {
        return table_of(alloc, &tables[place]);
    }
    let place = place - tables.len();
    let codes = roster.codes.as_slice();
    let (key, variant) = &codes[place];
    code_of(alloc, key, variant)
}

fn shape_of(alloc: Global, name: &Name) -> Result<NodeId, AllocError>
    ensures { IfOk result (λ made. made ≡ node.Target (target.Shape name.now)) }
{
    Ok(NodeId::Target(Target::Shape(name.copy(alloc)?)))
}

fn test_of(alloc: Global, name: &Name) -> Result<NodeId, AllocError>
    ensures { IfOk result (λ made. made ≡ node.Target (target.Test name.now)) }
{
    Ok(NodeId::Target(Target::Test(name.copy(alloc)?)))
}

fn table_of(alloc: Global, selector: &Selector) -> Result<NodeId, AllocError>
    ensures { IfOk result (λ made. made ≡ node.Target (target.Table selector.now)) }
{
    Ok(NodeId::Target(Target::Table(selector.copy(alloc)?)))
}

fn code_of(alloc: Global, key: &MethodKey, variant: &Variant) -> Result<NodeId, AllocError>
    ensures { IfOk result (λ made. made ≡ node.Target (target.Code key.now variant.now)) }
{
    let key = key.copy(alloc)?;
    let variant = variant.copy(alloc)?;
    Ok(NodeId::Target(Target::Code(key, variant)))
}

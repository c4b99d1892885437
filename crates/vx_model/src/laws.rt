//! What holds of the definitions.
ghost use Rattle.std.specs.Prelude.{◌≡◌, ◌↔◌, ◌⊎◌, ℕ, List, [], Option, Some, true, is_some};
ghost use Rattle.vx_lists.specs.Members.{IsIn};
ghost use Rattle.vx_names.specs.declared.key.Selector.{Selector};
ghost use Rattle.vx_names.specs.declared.key.FieldKey.{FieldKey};
ghost use Rattle.vx_names.specs.declared.key.MethodKey.{MethodKey};
ghost use Rattle.vx_syntax.specs.declared.decl.Decl.{Decl};
ghost use Rattle.vx_syntax.specs.declared.decl.Start.{Start};
ghost use Rattle.vx_syntax.specs.Expressions.{Bytes};
ghost use Rattle.vx_program.specs.Program.{IsProgram, Leads, is_there};
ghost use Rattle.vx_model.specs.declared.look.Look.TheVariants.{One, None, Many};
ghost use Rattle.vx_model.specs.declared.value.Heap.{Heap};
ghost use Rattle.vx_model.specs.declared.value.Value.{Value};
ghost use Rattle.vx_model.specs.Order.{IsBase, base, cone, plain_names, up};
ghost use Rattle.vx_model.specs.Fields.{IsLowest, field_at, fields, keys_above, may, slots};
ghost use Rattle.vx_model.specs.Holds.{Holds, class_of, holds};
ghost use Rattle.vx_model.specs.Lookup.{IsBest, applicable, is_more_specific, lookup};

use vx_program::chains_are_found;

/// Being above is an order of the names of a program.
pub fn above_is_an_order()
    ensures reflexive { (program : List Decl) (x : Bytes) → Leads program x x }
    ensures transitive { (program : List Decl) (x y z : Bytes) → Leads program x y → Leads program y z → Leads program x z }
    ensures antisymmetric { (program : List Decl) (x y : Bytes) → IsProgram program → Leads program x y → Leads program y x → x ≡ y }
{}

/// The names above one are those to which chains lead from it, and the cone of a name has the plain objects above which it is.
pub fn cones_mirror_ups()
    ensures up { (program : List Decl) (x y : Bytes) → IsIn y (up program x) ↔ ((is_there program x ≡ true) × (is_there program y ≡ true) × Leads program x y) }
    ensures cone { (program : List Decl) (x y : Bytes) → IsIn x (cone program y) ↔ (IsIn x (plain_names program) × Leads program x y) }
    ensures mirror { (program : List Decl) (x y : Bytes) → is_there program y ≡ true → IsIn x (cone program y) ↔ (IsIn x (plain_names program) × IsIn y (up program x)) }
{
    chains_are_found();
}

/// The base is found by first parents, and whatever is there has one.
pub fn bases_are_found()
    ensures is { (program : List Decl) (x y : Bytes) → IsProgram program → (base program x ≡ Some y) ↔ IsBase program x y }
    ensures there { (program : List Decl) (x : Bytes) → IsProgram program → is_there program x ≡ true → is_some (base program x) ≡ true }
{
    chains_are_found();
}

/// Looking at all that is above an object at once is going up parent by parent.
pub fn holding_is_found()
    ensures { (program : List Decl) (heap : Heap) (value : Value) (x : Bytes) → IsProgram program →
        (holds program heap value x ≡ true) ↔ Holds program heap value x }
{
    chains_are_found();
}

/// The field of a name is the one whose specialiser has those of all others above it.
pub fn fields_are_lowest()
    ensures { (program : List Decl) (class name : Bytes) (key : FieldKey) → IsProgram program →
        (field_at program class name ≡ Some key) ↔ IsLowest program (keys_above program class name program) key }
{
    chains_are_found();
}

/// What a value counts as, an object of its class may count as, and has slots for: those of all fields of it. So has it for the
/// fields that names mean.
pub fn slots_cover_holding()
    ensures may { (program : List Decl) (heap : Heap) (value : Value) (x : Bytes) → IsProgram program → holds program heap value x ≡ true →
        may program (class_of heap value) x ≡ true }
    ensures slots { (program : List Decl) (class : Bytes) (field : FieldKey × Start) →
        IsIn field (slots program class) ↔ (IsIn field (fields program) × (may program class field.0.specialiser ≡ true)) }
    ensures meant { (program : List Decl) (class name : Bytes) (key : FieldKey) → field_at program class name ≡ Some key →
        (start : Start) × IsIn (key, start) (slots program class) }
{
    chains_are_found();
}

/// No two methods are each more specific than the other.
pub fn specificity_is_strict()
    ensures { (program : List Decl) (m k : MethodKey) → IsProgram program → is_more_specific program m k ≡ true → is_more_specific program k m ≡ true → ⊥ }
{
    chains_are_found();
}

/// A lookup gives the method that is more specific than all others, none where none is applicable, and else many.
pub fn choices_are_best()
    ensures one { (program : List Decl) (heap : Heap) (selector : Selector) (arguments : List Value) (below : Option MethodKey) (m : MethodKey) → IsProgram program →
        (lookup program heap selector arguments below ≡ One m) ↔ IsBest program (applicable program heap selector arguments below) m }
    ensures none { (program : List Decl) (heap : Heap) (selector : Selector) (arguments : List Value) (below : Option MethodKey) →
        (lookup program heap selector arguments below ≡ None) ↔ (applicable program heap selector arguments below ≡ []) }
    ensures many { (program : List Decl) (heap : Heap) (selector : Selector) (arguments : List Value) (below : Option MethodKey) → IsProgram program →
        (lookup program heap selector arguments below ≡ Many) ↔ ((m : MethodKey) × IsIn m (applicable program heap selector arguments below))
        × ((m : MethodKey) → IsBest program (applicable program heap selector arguments below) m → ⊥) }
{
    chains_are_found();
}

//! The keys that no change may name.
ghost use Rattle.std.specs.Prelude.{◌≡◌, ◌≤◌, ◌++◌, ◌∷◌, [], length, map, count_by, codes, IfOk, OnOk};
ghost use Rattle.vx_names.specs.Name.{IsName};
ghost use Rattle.vx_names.specs.declared.key.DeclKey.TheVariants as k;
ghost use Rattle.std.specs.List.{list_any, position_from};
ghost use Rattle.vx_syntax.specs.Declarations.{method_key};
ghost use Rattle.vx_program.specs.Program.{is_there, is_method_of};
ghost use Rattle.vx_program.specs.Lookups.{names};
ghost use Rattle.vx_program.specs.Methods.{with_selector};
ghost use Rattle.vx_syntax.specs.Counts.{capped};
ghost use Rattle.vx_program.specs.Prelude.{same_key, is_one, is_primitive, is_reserved, of_integers, of_strings, of_one, evaluation, arithmetic, division, comparing, joining, printing, evaluating, evaluating_more, looping, prelude, prelude_keys, primitive_keys};

use crate::methods::push_if;
use crate::prelude::{method_key, one, pair, prelude};
use sqlite_items::Items;
use std::alloc::{AllocError, Global};
use std::cmp::Ordering;
use std::marker::Model;
use vx_names::{DeclKey, MethodKey, Name, Selector, name_of};

/// How many declarations the prelude has.
pub const PRELUDE_DECLARATIONS: u64 = 22;

/// The keys of the prelude's declarations and of the primitives. It holds nothing else, so contracts see nothing of it.
#[derive(Drop)]
pub struct Reserved {
    prelude: Items<DeclKey>,
    primitives: Items<DeclKey>,
}

impl Model for Reserved {
    ghost use Rattle.std.specs.Prelude.{◌≡◌};
    ghost use Rattle.vx_program.specs.Prelude.{prelude_keys, primitive_keys};

    ghost Value = { Unit {0} };

    ghost view = { λ _. tt };

    ghost invariant = { λ r. (r.prelude ≡ prelude_keys) × (r.primitives ≡ primitive_keys) };
}

impl Reserved {
    pub fn new(alloc: Global) -> Result<Reserved, AllocError> {
        let mut keys = Items::new(alloc);
        for decl in prelude(alloc)?.as_slice() {
            keys.push(decl.key(alloc)?)?;
        }
        let primitives = primitives(alloc)?;
        Ok(Reserved {
            prelude: keys,
            primitives,
        })
    }

    /// Whether the key is that of a prelude object, a prelude method or a primitive.
    pub fn has(&self, key: &DeclKey) -> bool
        ensures { result ≡ is_reserved key.now }
    {
        is_one(self.prelude.as_slice(), key) || is_one(self.primitives.as_slice(), key)
    }

    /// Whether the name is that of an object of the prelude.
    #[tactic(auto, using(crate::proofs::Lookups::named_in_prelude))]
    pub fn has_object(&self, x: &Name) -> bool
        ensures { result ≡ is_there prelude x.now }
    {
        are_named(self.prelude.as_slice(), x)
    }

    /// How many primitives have the selector.
    pub fn methods_of(&self, selector: &Selector) -> u64
        ensures { result ≡ capped (count_by (is_method_of selector.now) primitive_keys) }
    {
        let mut count = 0u64;
        for key in self.primitives.as_slice() {
            if is_method_of(key, selector) {
                count = count.saturating_add(1);
            }
        }
        count
    }

    /// Puts the primitives of the selector on the list.
    pub fn push_methods(
        &self,
        alloc: Global,
        keys: &mut Items<MethodKey>,
        selector: &Selector,
    ) -> Result<(), AllocError>
        ensures { OnOk result (keys.new ≡ keys.old ++ with_selector selector.now primitive_keys) }
    {
        for key in self.primitives.as_slice() {
            push_method(alloc, keys, key, selector)?;
        }
        Ok(())
    }

    /// The number of the primitive that has the key.
    pub fn primitive(&self, key: &DeclKey) -> Option<usize>
        ensures { result ≡ position_from (λ one. same_key one key.now) 0 primitive_keys }
    {
        for (number, one) in self.primitives.as_slice().iter().enumerate() {
            if one == key {
                return Some(number);
            }
        }
        None
    }

    /// Whether the key is that of a primitive.
    pub fn is_primitive(&self, key: &DeclKey) -> bool
        ensures { result ≡ is_primitive key.now }
    {
        is_one(self.primitives.as_slice(), key)
    }
}

// Whether the key is that of an object or a predicate of the name.
fn is_named(key: &DeclKey, x: &Name) -> bool
    ensures { result ≡ names x.now key.now }
{
    match key {
        DeclKey::Object(name) => name.bytes() == x.bytes(),
        DeclKey::Predicate(name) => name.bytes() == x.bytes(),
        _ => false,
    }
}

fn is_method_of(key: &DeclKey, selector: &Selector) -> bool
    ensures { result ≡ is_method_of selector.now key.now }
{
    match key {
        DeclKey::Method(key) => key.selector.cmp(selector) == Ordering::Equal,
        _ => false,
    }
}

// Puts the key on the list where it is that of a method of the selector.
fn push_method(
    alloc: Global,
    keys: &mut Items<MethodKey>,
    key: &DeclKey,
    selector: &Selector,
) -> Result<(), AllocError>
    ensures { OnOk result (keys.new ≡ keys.old ++ with_selector selector.now (key.now ∷ [])) }
{
    match key {
        DeclKey::Method(key) => push_if(alloc, keys, key, selector),
        _ => Ok(()),
    }
}

fn are_named(keys: &[DeclKey], x: &Name) -> bool
    ensures { result ≡ list_any (names x.now) keys.now }
{
    for key in keys {
        if is_named(key, x) {
            return true;
        }
    }
    false
}

fn is_one(keys: &[DeclKey], key: &DeclKey) -> bool
    ensures { result ≡ is_one keys.now key.now }
{
    for one in keys {
        if one == key {
            return true;
        }
    }
    false
}

#[tactic(auto, using(crate::proofs::Lookups::primitives_are))]
fn primitives(alloc: Global) -> Result<Items<DeclKey>, AllocError>
    ensures { IfOk result (λ keys. keys ≡ primitive_keys) }
{
    let mut keys = Items::new(alloc);
    push_operations(alloc, &mut keys)?;
    push_others(alloc, &mut keys)?;
    Ok(keys)
}

fn push_operations(alloc: Global, keys: &mut Items<DeclKey>) -> Result<(), AllocError>
    ensures { OnOk result (keys.new ≡ keys.old ++ map k.Method (arithmetic ++ division ++ comparing ++ joining)) }
{
    push_arithmetic(alloc, keys)?;
    push_division(alloc, keys)?;
    push_comparing(alloc, keys)?;
    push_joining(alloc, keys)
}

fn push_others(alloc: Global, keys: &mut Items<DeclKey>) -> Result<(), AllocError>
    ensures { OnOk result (keys.new ≡ keys.old ++ map k.Method (printing ++ evaluating ++ evaluating_more ++ looping)) }
{
    push_printing(alloc, keys)?;
    push_evaluating(alloc, keys)?;
    push_evaluating_more(alloc, keys)?;
    push_looping(alloc, keys)
}

fn push(
    alloc: Global,
    keys: &mut Items<DeclKey>,
    x: &[u8],
    specialisers: Items<Name>,
) -> Result<(), AllocError>
    requires { IsName x.now × (length specialisers ≤ 8) }
    ensures { OnOk result (keys.new ≡ keys.old ++ k.Method (method_key x.now specialisers) ∷ []) }
{
    keys.push(DeclKey::Method(method_key(alloc, x, specialisers)?))?;
    Ok(())
}

fn push_of_integers(alloc: Global, keys: &mut Items<DeclKey>, x: &[u8]) -> Result<(), AllocError>
    requires { IsName x.now }
    ensures { OnOk result (keys.new ≡ keys.old ++ k.Method (of_integers x.now) ∷ []) }
{
    push(alloc, keys, x, pair(alloc, b"int", b"int")?)
}

fn push_of_strings(alloc: Global, keys: &mut Items<DeclKey>, x: &[u8]) -> Result<(), AllocError>
    requires { IsName x.now }
    ensures { OnOk result (keys.new ≡ keys.old ++ k.Method (of_strings x.now) ∷ []) }
{
    push(alloc, keys, x, pair(alloc, b"string", b"string")?)
}

fn push_arithmetic(alloc: Global, keys: &mut Items<DeclKey>) -> Result<(), AllocError>
    ensures { OnOk result (keys.new ≡ keys.old ++ map k.Method arithmetic) }
{
    push_of_integers(alloc, keys, b"+")?;
    push_of_integers(alloc, keys, b"-")?;
    push_of_integers(alloc, keys, b"*")
}

fn push_division(alloc: Global, keys: &mut Items<DeclKey>) -> Result<(), AllocError>
    ensures { OnOk result (keys.new ≡ keys.old ++ map k.Method division) }
{
    push_of_integers(alloc, keys, b"/")?;
    push_of_integers(alloc, keys, b"%")
}

fn push_comparing(alloc: Global, keys: &mut Items<DeclKey>) -> Result<(), AllocError>
    ensures { OnOk result (keys.new ≡ keys.old ++ map k.Method comparing) }
{
    push_of_integers(alloc, keys, b"<")?;
    push_of_integers(alloc, keys, b"=")?;
    push_of_strings(alloc, keys, b"=")
}

fn push_joining(alloc: Global, keys: &mut Items<DeclKey>) -> Result<(), AllocError>
    ensures { OnOk result (keys.new ≡ keys.old ++ map k.Method joining) }
{
    push_of_strings(alloc, keys, b"++")?;
    push(alloc, keys, b"==", pair(alloc, b"any", b"any")?)
}

fn push_of_one(
    alloc: Global,
    keys: &mut Items<DeclKey>,
    x: &[u8],
    specialiser: &[u8],
) -> Result<(), AllocError>
    requires { IsName x.now × IsName specialiser.now }
    ensures { OnOk result (keys.new ≡ keys.old ++ k.Method (of_one x.now specialiser.now) ∷ []) }
{
    push(alloc, keys, x, one(alloc, specialiser)?)
}

fn push_integer_printing(alloc: Global, keys: &mut Items<DeclKey>) -> Result<(), AllocError>
    ensures { OnOk result (keys.new ≡ keys.old ++ k.Method (of_one (codes "print") (codes "int")) ∷ []) }
{
    push_of_one(alloc, keys, b"print", b"int")
}

fn push_string_printing(alloc: Global, keys: &mut Items<DeclKey>) -> Result<(), AllocError>
    ensures { OnOk result (keys.new ≡ keys.old ++ k.Method (of_one (codes "print") (codes "string")) ∷ []) }
{
    push_of_one(alloc, keys, b"print", b"string")
}

fn push_printing(alloc: Global, keys: &mut Items<DeclKey>) -> Result<(), AllocError>
    ensures { OnOk result (keys.new ≡ keys.old ++ map k.Method printing) }
{
    push_integer_printing(alloc, keys)?;
    push_string_printing(alloc, keys)
}

// The evaluation of a closure with so many arguments.
fn push_evaluation(alloc: Global, keys: &mut Items<DeclKey>, count: usize) -> Result<(), AllocError>
    requires { count ≤ 4 }
    ensures { OnOk result (keys.new ≡ keys.old ++ k.Method (evaluation count) ∷ []) }
{
    let mut specialisers = one(alloc, b"closure")?;
    for i in 0..count {
        specialisers.push(name_of(alloc, b"any")?)?;
    }
    push(alloc, keys, b"eval", specialisers)
}

fn push_evaluating(alloc: Global, keys: &mut Items<DeclKey>) -> Result<(), AllocError>
    ensures { OnOk result (keys.new ≡ keys.old ++ map k.Method evaluating) }
{
    push_evaluation(alloc, keys, 0)?;
    push_evaluation(alloc, keys, 1)?;
    push_evaluation(alloc, keys, 2)
}

fn push_evaluating_more(alloc: Global, keys: &mut Items<DeclKey>) -> Result<(), AllocError>
    ensures { OnOk result (keys.new ≡ keys.old ++ map k.Method evaluating_more) }
{
    push_evaluation(alloc, keys, 3)?;
    push_evaluation(alloc, keys, 4)
}

fn push_looping(alloc: Global, keys: &mut Items<DeclKey>) -> Result<(), AllocError>
    ensures { OnOk result (keys.new ≡ keys.old ++ map k.Method looping) }
{
    push_of_one(alloc, keys, b"loop", b"closure")
}

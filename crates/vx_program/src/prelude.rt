//! What each program has from the beginning.
ghost use Rattle.std.specs.Prelude.{◌≡◌, ◌≤◌, ◌++◌, ◌∷◌, [], map, length, codes, Some, IfOk, OnOk};
ghost use Rattle.vx_names.specs.Name.{IsName};
ghost use Rattle.vx_syntax.specs.declared.expr.Expr.TheVariants as e;
ghost use Rattle.vx_syntax.specs.declared.expr.Stmt.TheVariants as t;
ghost use Rattle.vx_syntax.specs.declared.decl.Decl.TheVariants as d;
ghost use Rattle.vx_syntax.specs.Declarations.{any, method_key};
ghost use Rattle.vx_program.specs.Prelude.{child, sent, sent_to_two, sent_to_three, closure, answering, first_objects, last_objects, comparisons, conjunctions, choices, negations, disjunctions, turn, repetitions, logic, prelude};

use sqlite_items::Items;
use std::alloc::{AllocError, Global};
use vx_names::{MethodKey, Name, Selector, name_of};
use vx_syntax::{Body, Decl, Expr, Stmt};

/// The declarations of the prelude, in key order.
#[tactic(auto, using(crate::proofs::Lookups::prelude_is))]
pub fn prelude(alloc: Global) -> Result<Vec<Decl>, AllocError>
    ensures { IfOk result (λ decls. decls.items ≡ prelude) }
{
    let mut decls = Vec::new(alloc);
    push_objects(alloc, &mut decls)?;
    push_comparisons(alloc, &mut decls)?;
    push_logic(alloc, &mut decls)?;
    Ok(decls)
}

/// A list of one name.
pub fn one(alloc: Global, x: &[u8]) -> Result<Items<Name>, AllocError>
    requires { IsName x.now }
    ensures { IfOk result (λ names. names ≡ x.now ∷ []) }
{
    and(alloc, Items::new(alloc), x)
}

/// The names, and one more behind them.
pub fn and(alloc: Global, names: Items<Name>, x: &[u8]) -> Result<Items<Name>, AllocError>
    requires { IsName x.now }
    ensures { IfOk result (λ all. all ≡ names ++ x.now ∷ []) }
{
    let mut names = names;
    names.push(name_of(alloc, x)?)?;
    Ok(names)
}

fn formals(alloc: Global, names: &[Name]) -> Result<Items<Option<Name>>, AllocError>
    ensures { IfOk result (λ formals. formals ≡ map Some names.now) }
{
    let mut formals = Items::new(alloc);
    for name in names {
        formals.push(Some(name.copy(alloc)?))?;
    }
    Ok(formals)
}

/// The key of a method with these specialisers.
pub fn method_key(
    alloc: Global,
    x: &[u8],
    specialisers: Items<Name>,
) -> Result<MethodKey, AllocError>
    requires { IsName x.now × (length specialisers ≤ 8) }
    ensures { IfOk result (λ key. key ≡ method_key x.now specialisers) }
{
    Ok(vx_syntax::method_key(name_of(alloc, x)?, specialisers))
}

fn named(alloc: Global, x: &[u8]) -> Result<Expr, AllocError>
    requires { IsName x.now }
    ensures { IfOk result (λ expr. expr ≡ e.Name x.now) }
{
    Ok(Expr::Name(name_of(alloc, x)?))
}

fn sent(alloc: Global, x: &[u8], a: Expr) -> Result<Expr, AllocError>
    requires { IsName x.now }
    ensures { IfOk result (λ expr. expr ≡ sent x.now a) }
{
    let selector = Selector {
        name: name_of(alloc, x)?,
        arity: 1,
    };
    let mut arguments = Items::new(alloc);
    arguments.push(a)?;
    Ok(Expr::Send(selector, arguments))
}

fn sent_to_two(alloc: Global, x: &[u8], a: Expr, b: Expr) -> Result<Expr, AllocError>
    requires { IsName x.now }
    ensures { IfOk result (λ expr. expr ≡ sent_to_two x.now a b) }
{
    let selector = Selector {
        name: name_of(alloc, x)?,
        arity: 2,
    };
    let mut arguments = Items::new(alloc);
    arguments.push(a)?;
    arguments.push(b)?;
    Ok(Expr::Send(selector, arguments))
}

fn sent_to_three(alloc: Global, x: &[u8], a: Expr, b: Expr, c: Expr) -> Result<Expr, AllocError>
    requires { IsName x.now }
    ensures { IfOk result (λ expr. expr ≡ sent_to_three x.now a b c) }
{
    let selector = Selector {
        name: name_of(alloc, x)?,
        arity: 3,
    };
    let mut arguments = Items::new(alloc);
    arguments.push(a)?;
    arguments.push(b)?;
    arguments.push(c)?;
    Ok(Expr::Send(selector, arguments))
}

// A closure of one statement, without formals.
fn closure(alloc: Global, statement: Stmt) -> Result<Expr, AllocError>
    ensures { IfOk result (λ expr. expr ≡ closure statement) }
{
    let mut statements = Items::new(alloc);
    statements.push(statement)?;
    Ok(Expr::Closure(Items::new(alloc), Body(statements)))
}

fn answering(
    alloc: Global,
    x: &[u8],
    names: Items<Name>,
    specialisers: Items<Name>,
    a: Expr,
) -> Result<Decl, AllocError>
    requires { IsName x.now × (length specialisers ≤ 8) }
    ensures { IfOk result (λ decl. decl ≡ answering x.now names specialisers a) }
{
    let key = method_key(alloc, x, specialisers)?;
    let formals = formals(alloc, names.as_slice())?;
    let mut statements = Items::new(alloc);
    statements.push(Stmt::Do(a))?;
    Ok(Decl::Method {
        key,
        formals,
        body: Body(statements),
    })
}

fn push_objects(alloc: Global, decls: &mut Vec<Decl>) -> Result<(), AllocError>
    ensures { OnOk result (decls.new.items ≡ decls.old.items ++ d.Object any [] ∷ first_objects ++ last_objects) }
{
    decls.push(root(alloc)?)?;
    push_first_objects(alloc, decls)?;
    push_last_objects(alloc, decls)
}

fn push_first_objects(alloc: Global, decls: &mut Vec<Decl>) -> Result<(), AllocError>
    ensures { OnOk result (decls.new.items ≡ decls.old.items ++ first_objects) }
{
    decls.push(child(alloc, b"bool", b"any")?)?;
    decls.push(child(alloc, b"closure", b"any")?)?;
    decls.push(child(alloc, b"false", b"bool")?)?;
    Ok(())
}

fn push_last_objects(alloc: Global, decls: &mut Vec<Decl>) -> Result<(), AllocError>
    ensures { OnOk result (decls.new.items ≡ decls.old.items ++ last_objects) }
{
    decls.push(child(alloc, b"int", b"any")?)?;
    decls.push(child(alloc, b"nil", b"any")?)?;
    decls.push(child(alloc, b"string", b"any")?)?;
    decls.push(child(alloc, b"true", b"bool")?)?;
    Ok(())
}

fn root(alloc: Global) -> Result<Decl, AllocError>
    ensures { IfOk result (λ decl. decl ≡ d.Object any []) }
{
    Ok(Decl::Object {
        name: name_of(alloc, b"any")?,
        parents: Items::new(alloc),
    })
}

fn child(alloc: Global, x: &[u8], parent: &[u8]) -> Result<Decl, AllocError>
    requires { IsName x.now × IsName parent.now }
    ensures { IfOk result (λ decl. decl ≡ child x.now parent.now) }
{
    let parents = one(alloc, parent)?;
    Ok(Decl::Object {
        name: name_of(alloc, x)?,
        parents,
    })
}

/// A list of two names.
pub fn pair(alloc: Global, x: &[u8], y: &[u8]) -> Result<Items<Name>, AllocError>
    requires { IsName x.now × IsName y.now }
    ensures { IfOk result (λ names. names ≡ x.now ∷ y.now ∷ []) }
{
    and(alloc, one(alloc, x)?, y)
}

// A method of two formals, `a` and `b`.
fn binary(alloc: Global, x: &[u8], specialisers: Items<Name>, a: Expr) -> Result<Decl, AllocError>
    requires { IsName x.now × (length specialisers ≤ 8) }
    ensures { IfOk result (λ decl. decl ≡ answering x.now (codes "a" ∷ codes "b" ∷ []) specialisers a) }
{
    answering(alloc, x, pair(alloc, b"a", b"b")?, specialisers, a)
}

// `x < y`
fn less(alloc: Global, x: &[u8], y: &[u8]) -> Result<Expr, AllocError>
    requires { IsName x.now × IsName y.now }
    ensures { IfOk result (λ expr. expr ≡ sent_to_two (codes "<") (e.Name x.now) (e.Name y.now)) }
{
    sent_to_two(alloc, b"<", named(alloc, x)?, named(alloc, y)?)
}

// `eval(x)`
fn evaluated(alloc: Global, x: &[u8]) -> Result<Expr, AllocError>
    requires { IsName x.now }
    ensures { IfOk result (λ expr. expr ≡ sent (codes "eval") (e.Name x.now)) }
{
    sent(alloc, b"eval", named(alloc, x)?)
}

fn push_comparisons(alloc: Global, decls: &mut Vec<Decl>) -> Result<(), AllocError>
    ensures { OnOk result (decls.new.items ≡ decls.old.items ++ comparisons) }
{
    let at_most = sent(alloc, b"not", less(alloc, b"b", b"a")?)?;
    decls.push(binary(alloc, b"<=", pair(alloc, b"int", b"int")?, at_most)?)?;
    let more = less(alloc, b"b", b"a")?;
    decls.push(binary(alloc, b">", pair(alloc, b"int", b"int")?, more)?)?;
    let at_least = sent(alloc, b"not", less(alloc, b"a", b"b")?)?;
    decls.push(binary(alloc, b">=", pair(alloc, b"int", b"int")?, at_least)?)?;
    Ok(())
}

fn push_conjunctions(alloc: Global, decls: &mut Vec<Decl>) -> Result<(), AllocError>
    ensures { OnOk result (decls.new.items ≡ decls.old.items ++ conjunctions) }
{
    let no = named(alloc, b"false")?;
    decls.push(binary(alloc, b"and", pair(alloc, b"false", b"any")?, no)?)?;
    let second = evaluated(alloc, b"b")?;
    decls.push(binary(alloc, b"and", pair(alloc, b"true", b"any")?, second)?)?;
    Ok(())
}

// An `if` with one branch, for this first argument.
fn choice(alloc: Global, condition: &[u8], a: Expr) -> Result<Decl, AllocError>
    requires { IsName condition.now }
    ensures { IfOk result (λ decl. decl ≡ answering (codes "if") (codes "c" ∷ codes "t" ∷ []) (condition.now ∷ any ∷ []) a) }
{
    let specialisers = pair(alloc, condition, b"any")?;
    answering(alloc, b"if", pair(alloc, b"c", b"t")?, specialisers, a)
}

// An `if` with two branches, for this first argument.
fn choice_of_two(alloc: Global, condition: &[u8], a: Expr) -> Result<Decl, AllocError>
    requires { IsName condition.now }
    ensures { IfOk result (λ decl. decl ≡ answering (codes "if") (codes "c" ∷ codes "t" ∷ codes "e" ∷ []) (condition.now ∷ any ∷ any ∷ []) a) }
{
    let formals = and(alloc, pair(alloc, b"c", b"t")?, b"e")?;
    let specialisers = and(alloc, pair(alloc, condition, b"any")?, b"any")?;
    answering(alloc, b"if", formals, specialisers, a)
}

fn push_choices(alloc: Global, decls: &mut Vec<Decl>) -> Result<(), AllocError>
    ensures { OnOk result (decls.new.items ≡ decls.old.items ++ choices) }
{
    decls.push(choice(alloc, b"false", named(alloc, b"nil")?)?)?;
    decls.push(choice(alloc, b"true", evaluated(alloc, b"t")?)?)?;
    decls.push(choice_of_two(alloc, b"false", evaluated(alloc, b"e")?)?)?;
    decls.push(choice_of_two(alloc, b"true", evaluated(alloc, b"t")?)?)?;
    Ok(())
}

fn negation(alloc: Global, given: &[u8], answer: &[u8]) -> Result<Decl, AllocError>
    requires { IsName given.now × IsName answer.now }
    ensures { IfOk result (λ decl. decl ≡ answering (codes "not") (codes "a" ∷ []) (given.now ∷ []) (e.Name answer.now)) }
{
    let specialisers = one(alloc, given)?;
    answering(
        alloc,
        b"not",
        one(alloc, b"a")?,
        specialisers,
        named(alloc, answer)?,
    )
}

fn push_negations(alloc: Global, decls: &mut Vec<Decl>) -> Result<(), AllocError>
    ensures { OnOk result (decls.new.items ≡ decls.old.items ++ negations) }
{
    decls.push(negation(alloc, b"false", b"true")?)?;
    decls.push(negation(alloc, b"true", b"false")?)?;
    Ok(())
}

fn push_disjunctions(alloc: Global, decls: &mut Vec<Decl>) -> Result<(), AllocError>
    ensures { OnOk result (decls.new.items ≡ decls.old.items ++ disjunctions) }
{
    let second = evaluated(alloc, b"b")?;
    decls.push(binary(alloc, b"or", pair(alloc, b"false", b"any")?, second)?)?;
    let yes = named(alloc, b"true")?;
    decls.push(binary(alloc, b"or", pair(alloc, b"true", b"any")?, yes)?)?;
    Ok(())
}

// A turn of `while`, for a condition `c` and a body `b`.
fn turn(alloc: Global) -> Result<Expr, AllocError>
    ensures { IfOk result (λ expr. expr ≡ turn) }
{
    let condition = evaluated(alloc, b"c")?;
    let body = closure(alloc, Stmt::Do(evaluated(alloc, b"b")?))?;
    let end = closure(alloc, Stmt::Back(named(alloc, b"nil")?))?;
    sent_to_three(alloc, b"if", condition, body, end)
}

// Turns without end, in the body of `while`.
fn turns(alloc: Global) -> Result<Expr, AllocError>
    ensures { IfOk result (λ expr. expr ≡ sent (codes "loop") (closure (t.Do turn))) }
{
    let turns = closure(alloc, Stmt::Do(turn(alloc)?))?;
    sent(alloc, b"loop", turns)
}

fn repetition(alloc: Global, body: Expr) -> Result<Decl, AllocError>
    ensures { IfOk result (λ decl. decl ≡ answering (codes "while") (codes "c" ∷ codes "b" ∷ []) (codes "closure" ∷ codes "closure" ∷ []) body) }
{
    let specialisers = pair(alloc, b"closure", b"closure")?;
    answering(
        alloc,
        b"while",
        pair(alloc, b"c", b"b")?,
        specialisers,
        body,
    )
}

fn push_repetitions(alloc: Global, decls: &mut Vec<Decl>) -> Result<(), AllocError>
    ensures { OnOk result (decls.new.items ≡ decls.old.items ++ repetitions) }
{
    decls.push(repetition(alloc, turns(alloc)?)?)?;
    Ok(())
}

fn push_logic(alloc: Global, decls: &mut Vec<Decl>) -> Result<(), AllocError>
    ensures { OnOk result (decls.new.items ≡ decls.old.items ++ logic) }
{
    push_conjunctions(alloc, decls)?;
    push_choices(alloc, decls)?;
    push_negations(alloc, decls)?;
    push_disjunctions(alloc, decls)?;
    push_repetitions(alloc, decls)
}

//! What nodes are answered with, as text.
ghost use Rattle.std.specs.Prelude.{◌≡◌, ◌++◌, [], map, codes, IfOk, OnOk, Some};
ghost use Rattle.vx_syntax.specs.Print.{field_key_text, body_text, joined};
ghost use Rattle.vx_explain.specs.AnswerTexts as spec;

use crate::nodes::append_method;
use crate::units::append_unit;
use sqlite_items::Items;
use std::alloc::{AllocError, Global};
use vx_names::{DeclKey, FieldKey, MethodKey, Name, Selector, name_of};
use vx_node::{Answer, Bound, Kind, Known, Stands};
use vx_syntax::{Body, Decl, Start, key_text, print_decl};

/// What a node is answered with, as text: names with commas between them, bodies behind their formals, units by their pieces,
/// bytes in hexadecimal and symbols in brackets. Of a declaration it has the kind and the parents, of a field on a name the
/// field's name and whether it can be changed.
pub fn answer_text(alloc: Global, answer: &Answer) -> Result<Vec<u8>, AllocError>
    ensures { IfOk result (λ text. text.items ≡ spec.answer_text answer.now) }
{
    let mut text = Vec::new(alloc);
    append_answer(alloc, &mut text, answer)?;
    Ok(text)
}

fn append_answer(alloc: Global, text: &mut Vec<u8>, answer: &Answer) -> Result<(), AllocError>
    ensures { OnOk result (text.new.items ≡ text.old.items ++ spec.answer_text answer.now) }
{
    match answer {
        Answer::Decl(known) => append_known(text, known),
        Answer::Children(children) => append_children(text, children.as_slice()),
        Answer::There(stands) => append_stands(text, *stands),
        Answer::Heads(heads) => append_heads(alloc, text, heads.as_slice()),
        Answer::Body(own) => append_own(alloc, text, own),
        Answer::Fields(fields) => append_fields(text, fields.as_slice()),
        Answer::Up(names) => append_names(text, names.as_slice()),
        Answer::Cone(names) => append_names(text, names.as_slice()),
        Answer::Base(name) => append_name(text, name),
        Answer::Slots(slots) => append_slots(alloc, text, slots.as_slice()),
        Answer::Field(key) => append_field(alloc, text, key),
        Answer::Inline(own) => append_own(alloc, text, own),
        Answer::Bind(bound) => append_bound(alloc, text, bound),
        Answer::Clones(clones) => append_clones(alloc, text, clones),
        Answer::Unit(unit) => append_unit(alloc, text, unit.as_slice()),
    }
}

fn append_known(text: &mut Vec<u8>, known: &Known) -> Result<(), AllocError>
    ensures { OnOk result (text.new.items ≡ text.old.items ++ spec.known_text known.now) }
{
    match known {
        Known::Nothing => text.extend_from_slice(b"none"),
        Known::Plain(parents) => {
            text.extend_from_slice(b"plain ")?;
            append_names(text, parents.as_slice())
        }
        Known::Predicate(parents, _) => {
            text.extend_from_slice(b"predicate ")?;
            append_names(text, parents.as_slice())
        }
    }
}

fn append_names(text: &mut Vec<u8>, names: &[Name]) -> Result<(), AllocError>
    ensures { OnOk result (text.new.items ≡ text.old.items ++ spec.or_none (codes ", ") names.now) }
{
    if names.is_empty() {
        return text.extend_from_slice(b"none");
    }
    append_each_name(text, names)
}

fn append_each_name(text: &mut Vec<u8>, names: &[Name]) -> Result<(), AllocError>
    ensures { OnOk result (text.new.items ≡ text.old.items ++ joined [] (codes ", ") names.now) }
{
    let mut lead = b"".as_slice();
    for name in names {
        text.extend_from_slice(lead)?;
        text.extend_from_slice(name.bytes())?;
        lead = b", ".as_slice();
    }
    Ok(())
}

fn append_stands(text: &mut Vec<u8>, stands: Stands) -> Result<(), AllocError>
    ensures { OnOk result (text.new.items ≡ text.old.items ++ spec.stands_text stands) }
{
    match stands {
        Stands::Nothing => text.extend_from_slice(b"none"),
        Stands::Plain => text.extend_from_slice(b"plain"),
        Stands::Predicate => text.extend_from_slice(b"predicate"),
    }
}

fn append_children(text: &mut Vec<u8>, children: &[(Name, Stands)]) -> Result<(), AllocError>
    ensures { OnOk result (text.new.items ≡ text.old.items ++ spec.or_none (codes ", ") (map spec.child_text children.now)) }
{
    if children.is_empty() {
        return text.extend_from_slice(b"none");
    }
    append_each_child(text, children)
}

fn append_each_child(text: &mut Vec<u8>, children: &[(Name, Stands)]) -> Result<(), AllocError>
    ensures { OnOk result (text.new.items ≡ text.old.items ++ joined [] (codes ", ") (map spec.child_text children.now)) }
{
    let mut lead = b"".as_slice();
    for child in children {
        text.extend_from_slice(lead)?;
        append_child(text, child)?;
        lead = b", ".as_slice();
    }
    Ok(())
}

fn append_child(text: &mut Vec<u8>, child: &(Name, Stands)) -> Result<(), AllocError>
    ensures { OnOk result (text.new.items ≡ text.old.items ++ spec.child_text child.now) }
{
    text.extend_from_slice(child.0.bytes())?;
    text.push(b' ')?;
    append_stands(text, child.1)
}

fn append_heads(
    alloc: Global,
    text: &mut Vec<u8>,
    heads: &[(MethodKey, Kind)],
) -> Result<(), AllocError>
    ensures { OnOk result (text.new.items ≡ text.old.items ++ spec.or_none (codes ", ") (map spec.head_text heads.now)) }
{
    if heads.is_empty() {
        return text.extend_from_slice(b"none");
    }
    append_each_head(alloc, text, heads)
}

fn append_each_head(
    alloc: Global,
    text: &mut Vec<u8>,
    heads: &[(MethodKey, Kind)],
) -> Result<(), AllocError>
    ensures { OnOk result (text.new.items ≡ text.old.items ++ joined [] (codes ", ") (map spec.head_text heads.now)) }
{
    let mut lead = b"".as_slice();
    for head in heads {
        text.extend_from_slice(lead)?;
        append_head(alloc, text, &head.0, &head.1)?;
        lead = b", ".as_slice();
    }
    Ok(())
}

fn append_head(
    alloc: Global,
    text: &mut Vec<u8>,
    key: &MethodKey,
    kind: &Kind,
) -> Result<(), AllocError>
    ensures { OnOk result (text.new.items ≡ text.old.items ++ spec.head_text (key.now, kind.now)) }
{
    append_method(alloc, text, b"", key)?;
    text.push(b' ')?;
    append_kind(alloc, text, kind)
}

fn append_kind(alloc: Global, text: &mut Vec<u8>, kind: &Kind) -> Result<(), AllocError>
    ensures { OnOk result (text.new.items ≡ text.old.items ++ spec.kind_text kind.now) }
{
    match kind {
        Kind::Source => text.extend_from_slice(b"source"),
        Kind::Prim(number) => {
            let place = *number;
            text.extend_from_slice(b"primitive ")?;
            text.extend_from_slice(format!(in alloc; "{place}")?.as_bytes())
        }
        Kind::Get(key) => {
            text.extend_from_slice(b"get ")?;
            append_key(alloc, text, key)
        }
        Kind::Set(key) => {
            text.extend_from_slice(b"set ")?;
            append_key(alloc, text, key)
        }
    }
}

pub(crate) fn append_key(
    alloc: Global,
    text: &mut Vec<u8>,
    key: &FieldKey,
) -> Result<(), AllocError>
    ensures { OnOk result (text.new.items ≡ text.old.items ++ field_key_text key.now) }
{
    let own = DeclKey::Field(key.copy(alloc)?);
    let written = key_text(alloc, &own)?;
    text.extend_from_slice(written.as_slice())
}

fn append_bound(alloc: Global, text: &mut Vec<u8>, bound: &Bound) -> Result<(), AllocError>
    ensures { OnOk result (text.new.items ≡ text.old.items ++ spec.bound_text bound.now) }
{
    match bound {
        Bound::One(key, kind) => {
            text.extend_from_slice(b"one ")?;
            append_head(alloc, text, key, kind)
        }
        Bound::Open => text.extend_from_slice(b"open"),
        Bound::Nobody => text.extend_from_slice(b"nobody"),
    }
}

fn append_own(
    alloc: Global,
    text: &mut Vec<u8>,
    own: &Option<(Items<Option<Name>>, Body)>,
) -> Result<(), AllocError>
    ensures { OnOk result (text.new.items ≡ text.old.items ++ spec.text_text own.now) }
{
    match own {
        Some((formals, body)) => {
            text.push(b'(')?;
            append_formals(text, formals.as_slice())?;
            text.extend_from_slice(b") ")?;
            append_body(alloc, text, body)
        }
        None => text.extend_from_slice(b"none"),
    }
}

fn append_formals(text: &mut Vec<u8>, formals: &[Option<Name>]) -> Result<(), AllocError>
    ensures { OnOk result (text.new.items ≡ text.old.items ++ joined [] (codes ", ") (map spec.formal_text formals.now)) }
{
    let mut lead = b"".as_slice();
    for formal in formals {
        text.extend_from_slice(lead)?;
        append_formal(text, formal)?;
        lead = b", ".as_slice();
    }
    Ok(())
}

fn append_formal(text: &mut Vec<u8>, formal: &Option<Name>) -> Result<(), AllocError>
    ensures { OnOk result (text.new.items ≡ text.old.items ++ spec.formal_text formal.now) }
{
    match formal {
        Some(name) => text.extend_from_slice(name.bytes()),
        None => text.extend_from_slice(b"@any"),
    }
}

// A body as declarations print it, behind a head of eleven bytes.
fn append_body(alloc: Global, text: &mut Vec<u8>, body: &Body) -> Result<(), AllocError>
    ensures { OnOk result (text.new.items ≡ text.old.items ++ body_text body.now) }
{
    let written = headed(alloc, body)?;
    text.extend_from_slice(&written.as_slice()[11..])
}

fn headed(alloc: Global, body: &Body) -> Result<Vec<u8>, AllocError>
    ensures { IfOk result (λ text. text.items ≡ codes "method m() " ++ body_text body.now) }
{
    let name = name_of(alloc, b"m")?;
    let key = MethodKey {
        selector: Selector { name, arity: 0 },
        specialisers: Items::new(alloc),
    };
    let formals = Items::new(alloc);
    let body = body.copy(alloc)?;
    print_decl(alloc, &Decl::Method { key, formals, body })
}

fn append_slots(
    alloc: Global,
    text: &mut Vec<u8>,
    slots: &[(FieldKey, Start)],
) -> Result<(), AllocError>
    ensures { OnOk result (text.new.items ≡ text.old.items ++ spec.or_none (codes ", ") (map spec.slot_text slots.now)) }
{
    if slots.is_empty() {
        return text.extend_from_slice(b"none");
    }
    append_each_slot(alloc, text, slots)
}

fn append_each_slot(
    alloc: Global,
    text: &mut Vec<u8>,
    slots: &[(FieldKey, Start)],
) -> Result<(), AllocError>
    ensures { OnOk result (text.new.items ≡ text.old.items ++ joined [] (codes ", ") (map spec.slot_text slots.now)) }
{
    let mut lead = b"".as_slice();
    for slot in slots {
        text.extend_from_slice(lead)?;
        append_slot(alloc, text, &slot.0, &slot.1)?;
        lead = b", ".as_slice();
    }
    Ok(())
}

fn append_slot(
    alloc: Global,
    text: &mut Vec<u8>,
    key: &FieldKey,
    start: &Start,
) -> Result<(), AllocError>
    ensures { OnOk result (text.new.items ≡ text.old.items ++ spec.slot_text (key.now, start.now)) }
{
    let decl = Decl::Field {
        key: key.copy(alloc)?,
        start: start.copy(alloc)?,
        changeable: false,
    };
    let written = print_decl(alloc, &decl)?;
    text.extend_from_slice(written.as_slice())
}

fn append_fields(text: &mut Vec<u8>, fields: &[(Name, Start, bool)]) -> Result<(), AllocError>
    ensures { OnOk result (text.new.items ≡ text.old.items ++ spec.or_none (codes ", ") (map spec.declared_text fields.now)) }
{
    if fields.is_empty() {
        return text.extend_from_slice(b"none");
    }
    append_each_field(text, fields)
}

fn append_each_field(text: &mut Vec<u8>, fields: &[(Name, Start, bool)]) -> Result<(), AllocError>
    ensures { OnOk result (text.new.items ≡ text.old.items ++ joined [] (codes ", ") (map spec.declared_text fields.now)) }
{
    let mut lead = b"".as_slice();
    for field in fields {
        text.extend_from_slice(lead)?;
        append_declared(text, field)?;
        lead = b", ".as_slice();
    }
    Ok(())
}

fn append_declared(text: &mut Vec<u8>, field: &(Name, Start, bool)) -> Result<(), AllocError>
    ensures { OnOk result (text.new.items ≡ text.old.items ++ spec.declared_text field.now) }
{
    if field.2 {
        text.extend_from_slice(b"var ")?;
    }
    text.extend_from_slice(field.0.bytes())
}

fn append_name(text: &mut Vec<u8>, name: &Option<Name>) -> Result<(), AllocError>
    ensures { OnOk result (text.new.items ≡ text.old.items ++ spec.name_or_none name.now) }
{
    match name {
        Some(name) => text.extend_from_slice(name.bytes()),
        None => text.extend_from_slice(b"none"),
    }
}

fn append_field(alloc: Global, text: &mut Vec<u8>, key: &Option<FieldKey>) -> Result<(), AllocError>
    ensures { OnOk result (text.new.items ≡ text.old.items ++ spec.field_or_none key.now) }
{
    match key {
        Some(key) => append_key(alloc, text, key),
        None => text.extend_from_slice(b"none"),
    }
}

fn append_clones(
    alloc: Global,
    text: &mut Vec<u8>,
    clones: &Option<(u8, Items<Name>)>,
) -> Result<(), AllocError>
    ensures { OnOk result (text.new.items ≡ text.old.items ++ spec.clones_text clones.now) }
{
    match clones {
        Some((position, classes)) => append_cloned(alloc, text, *position, classes.as_slice()),
        None => text.extend_from_slice(b"none"),
    }
}

fn append_cloned(
    alloc: Global,
    text: &mut Vec<u8>,
    position: u8,
    classes: &[Name],
) -> Result<(), AllocError>
    ensures { OnOk result (text.new.items ≡ text.old.items ++ spec.clones_text (Some (position, classes.now))) }
{
    text.extend_from_slice(format!(in alloc; "{position}")?.as_bytes())?;
    text.extend_from_slice(b" of ")?;
    append_each_name(text, classes)
}

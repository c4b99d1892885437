//! Nodes as text.
ghost use Rattle.std.specs.Prelude.{◌≡◌, ◌++◌, [], map, codes, IfOk, OnOk};
ghost use Rattle.vx_syntax.specs.Print.{key_text, selector_text, joined};
ghost use Rattle.vx_explain.specs.NodeTexts.{info_text, method_text, below_text, variant_text, fact_text, filter_text, target_text, node_text, nodes_text};
ghost use Rattle.vx_node.specs.Traces.{nodes};

use sqlite_items::Items;
use std::alloc::{AllocError, Global};
use vx_names::{DeclKey, MethodKey, Name, Selector};
use vx_node::{Fact, Filter, Info, Infos, NodeId, Step, Target, Variant};

/// The node as `why` shows it.
pub fn node_text(alloc: Global, node: &NodeId) -> Result<Vec<u8>, AllocError>
    ensures { IfOk result (λ text. text.items ≡ node_text node.now) }
{
    let mut text = Vec::new(alloc);
    append_node(alloc, &mut text, node)?;
    Ok(text)
}

/// The nodes with commas between them, `none` where there are none.
pub fn nodes_text(alloc: Global, nodes: &[NodeId]) -> Result<Vec<u8>, AllocError>
    ensures { IfOk result (λ text. text.items ≡ nodes_text nodes.now) }
{
    let mut text = Vec::new(alloc);
    if nodes.is_empty() {
        text.extend_from_slice(b"none")?;
    } else {
        append_nodes(alloc, &mut text, nodes)?;
    }
    Ok(text)
}

/// The nodes of a trace's steps, as `nodes_text` writes them.
pub fn reads_text(alloc: Global, steps: &[Step]) -> Result<Vec<u8>, AllocError>
    ensures { IfOk result (λ text. text.items ≡ nodes_text (nodes steps.now)) }
{
    let mut own = Items::new(alloc);
    for step in steps {
        own.push(step.node.copy(alloc)?)?;
    }
    nodes_text(alloc, own.as_slice())
}

fn append_nodes(alloc: Global, text: &mut Vec<u8>, nodes: &[NodeId]) -> Result<(), AllocError>
    ensures { OnOk result (text.new.items ≡ text.old.items ++ joined [] (codes ", ") (map node_text nodes.now)) }
{
    let mut lead = b"".as_slice();
    for node in nodes {
        text.extend_from_slice(lead)?;
        append_node(alloc, text, node)?;
        lead = b", ".as_slice();
    }
    Ok(())
}

pub(crate) fn append_node(
    alloc: Global,
    text: &mut Vec<u8>,
    node: &NodeId,
) -> Result<(), AllocError>
    ensures { OnOk result (text.new.items ≡ text.old.items ++ node_text node.now) }
{
    match node {
        NodeId::Fact(fact) => append_fact(alloc, text, fact),
        NodeId::Filter(filter) => append_filter(alloc, text, filter),
        NodeId::Target(target) => append_target(alloc, text, target),
    }
}

pub(crate) fn append_word(text: &mut Vec<u8>, word: &[u8], name: &Name) -> Result<(), AllocError>
    ensures { OnOk result (text.new.items ≡ text.old.items ++ word.now ++ name.now) }
{
    text.extend_from_slice(word)?;
    text.extend_from_slice(name.bytes())
}

pub(crate) fn append_message(
    alloc: Global,
    text: &mut Vec<u8>,
    word: &[u8],
    selector: &Selector,
) -> Result<(), AllocError>
    ensures { OnOk result (text.new.items ≡ text.old.items ++ word.now ++ selector_text selector.now) }
{
    text.extend_from_slice(word)?;
    let own = vx_syntax::selector_text(alloc, selector)?;
    text.extend_from_slice(own.as_slice())
}

pub(crate) fn append_method(
    alloc: Global,
    text: &mut Vec<u8>,
    word: &[u8],
    key: &MethodKey,
) -> Result<(), AllocError>
    ensures { OnOk result (text.new.items ≡ text.old.items ++ word.now ++ method_text key.now) }
{
    text.extend_from_slice(word)?;
    let own = DeclKey::Method(key.copy(alloc)?);
    let written = vx_syntax::key_text(alloc, &own)?;
    text.extend_from_slice(written.as_slice())
}

fn append_fact(alloc: Global, text: &mut Vec<u8>, fact: &Fact) -> Result<(), AllocError>
    ensures { OnOk result (text.new.items ≡ text.old.items ++ fact_text fact.now) }
{
    match fact {
        Fact::Decl(x) => append_word(text, b"decl ", x),
        Fact::Children(x) => append_word(text, b"children ", x),
        Fact::There(x) => append_word(text, b"there ", x),
        Fact::Heads(selector) => append_message(alloc, text, b"heads ", selector),
        Fact::Body(key) => append_method(alloc, text, b"body ", key),
        Fact::Fields(x) => append_word(text, b"fields ", x),
    }
}

fn append_filter(alloc: Global, text: &mut Vec<u8>, filter: &Filter) -> Result<(), AllocError>
    ensures { OnOk result (text.new.items ≡ text.old.items ++ filter_text filter.now) }
{
    match filter {
        Filter::Up(x) => append_word(text, b"up ", x),
        Filter::Cone(x) => append_word(text, b"cone ", x),
        Filter::Base(x) => append_word(text, b"base ", x),
        Filter::Slots(x) => append_word(text, b"slots ", x),
        Filter::Field(class, name) => {
            append_word(text, b"field ", class)?;
            append_word(text, b".", name)
        }
        Filter::Inline(key) => append_method(alloc, text, b"inline ", key),
        Filter::Bind(selector, infos, below) => {
            append_message(alloc, text, b"bind ", selector)?;
            append_infos(text, infos)?;
            append_below(alloc, text, below)
        }
        Filter::Clones(key) => append_method(alloc, text, b"clones ", key),
    }
}

fn append_infos(text: &mut Vec<u8>, infos: &Infos) -> Result<(), AllocError>
    ensures { OnOk result (text.new.items ≡ text.old.items ++ codes "(" ++ joined [] (codes ",") (map info_text infos.now) ++ codes ")") }
{
    text.push(b'(')?;
    append_each_info(text, infos.as_slice())?;
    text.push(b')')?;
    Ok(())
}

fn append_each_info(text: &mut Vec<u8>, infos: &[Info]) -> Result<(), AllocError>
    ensures { OnOk result (text.new.items ≡ text.old.items ++ joined [] (codes ",") (map info_text infos.now)) }
{
    let mut lead = b"".as_slice();
    for info in infos {
        text.extend_from_slice(lead)?;
        append_info(text, info)?;
        lead = b",".as_slice();
    }
    Ok(())
}

fn append_info(text: &mut Vec<u8>, info: &Info) -> Result<(), AllocError>
    ensures { OnOk result (text.new.items ≡ text.old.items ++ info_text info.now) }
{
    match info {
        Info::Any => text.extend_from_slice(b"*"),
        Info::Cone(x) => append_word(text, b"<", x),
        Info::Exact(x) => append_word(text, b"=", x),
    }
}

fn append_below(
    alloc: Global,
    text: &mut Vec<u8>,
    below: &Option<MethodKey>,
) -> Result<(), AllocError>
    ensures { OnOk result (text.new.items ≡ text.old.items ++ below_text below.now) }
{
    match below {
        None => Ok(()),
        Some(key) => append_method(alloc, text, b" below ", key),
    }
}

fn append_target(alloc: Global, text: &mut Vec<u8>, target: &Target) -> Result<(), AllocError>
    ensures { OnOk result (text.new.items ≡ text.old.items ++ target_text target.now) }
{
    match target {
        Target::Shape(x) => append_word(text, b"shape ", x),
        Target::Test(x) => append_word(text, b"test ", x),
        Target::Table(selector) => append_message(alloc, text, b"table ", selector),
        Target::Code(key, variant) => {
            append_method(alloc, text, b"code ", key)?;
            append_variant(alloc, text, variant)
        }
    }
}

pub(crate) fn append_variant(
    alloc: Global,
    text: &mut Vec<u8>,
    variant: &Variant,
) -> Result<(), AllocError>
    ensures { OnOk result (text.new.items ≡ text.old.items ++ variant_text variant.now) }
{
    match variant {
        Variant::General => Ok(()),
        Variant::Clone(position, class) => {
            let place = *position;
            text.push(b'#')?;
            text.extend_from_slice(format!(in alloc; "{place}")?.as_bytes())?;
            append_word(text, b"=", class)
        }
    }
}

//! What a program answers of nodes, and what it reads for them.
ghost use Rattle.std.specs.Prelude.{◌≡◌, ◌<◌, IfOk};
ghost use Rattle.vx_node.specs.Nodes.{rank, IsWellFormed};

use crate::ask::{named, string};
use crate::trouble::Trouble;
use sqlite_items::Items;
use std::alloc::Global;
use vx_answers::Finding;
use vx_compute::{Made, compute_plain};
use vx_explain::{answer_text, reads_text};
use vx_names::{DeclKey, FieldKey, MethodKey, Name};
use vx_node::{Answer, CountGate, Filter, Info, Infos, NodeId, Target};
use vx_program::{Change, Edit, Program};
use vx_reader::{Command, read_block};
use vx_syntax::Start;

/// What is found of a filter.
pub fn found(alloc: Global, program: &Program, node: &NodeId) -> Result<Finding, Trouble>
    requires well_formed { IsWellFormed node.now }
    requires found_out { 0 < rank node.now }
{
    let mut gate = CountGate::new();
    match compute_plain(alloc, program, &mut gate, node) {
        Made::Found(finding) => Ok(finding),
        Made::OutOfMemory => Err(Trouble::OutOfMemory),
        other => {
            drop(other);
            Err(Trouble::Unclear)
        }
    }
}

/// The names above a name, or of the objects below it.
pub fn names_of(
    alloc: Global,
    program: &Program,
    verb: &str,
    x: &Name,
) -> Result<Items<Name>, Trouble> {
    let own = x.copy(alloc)?;
    let finding = match verb {
        "up" => found(alloc, program, &NodeId::Filter(Filter::Up(own)))?,
        _ => found(alloc, program, &NodeId::Filter(Filter::Cone(own)))?,
    };
    match finding.value().copy(alloc)? {
        Answer::Up(names) => Ok(names),
        Answer::Cone(names) => Ok(names),
        other => {
            drop(other);
            Err(Trouble::Unclear)
        }
    }
}

/// The base of an object or a predicate.
pub fn base_of(alloc: Global, program: &Program, x: &Name) -> Result<Option<Name>, Trouble> {
    let node = NodeId::Filter(Filter::Base(x.copy(alloc)?));
    let finding = found(alloc, program, &node)?;
    match finding.value().copy(alloc)? {
        Answer::Base(name) => Ok(name),
        other => {
            drop(other);
            Err(Trouble::Unclear)
        }
    }
}

/// The slots of an object of a class.
pub fn slots_of(
    alloc: Global,
    program: &Program,
    x: &Name,
) -> Result<Items<(FieldKey, Start)>, Trouble> {
    let node = NodeId::Filter(Filter::Slots(x.copy(alloc)?));
    let finding = found(alloc, program, &node)?;
    match finding.value().copy(alloc)? {
        Answer::Slots(slots) => Ok(slots),
        other => {
            drop(other);
            Err(Trouble::Unclear)
        }
    }
}

/// What the verb means: the answer of a node, or what is read for it.
pub fn told_of(
    alloc: Global,
    program: &Program,
    verb: &str,
    words: &str,
) -> Result<String, Trouble> {
    match verb {
        "reads" => {
            let finding = found(alloc, program, &node_of(alloc, words)?)?;
            let text = reads_text(alloc, finding.trace().steps())?;
            string(alloc, text.as_slice())
        }
        _ => {
            let finding = found(alloc, program, &node_of(alloc, words)?)?;
            let text = answer_text(alloc, finding.value())?;
            string(alloc, text.as_slice())
        }
    }
}

// The node that the words name, as `up a` and `inline m(@a)`.
fn node_of(alloc: Global, words: &str) -> Result<NodeId, Trouble>
    ensures { IfOk result (λ node. IsWellFormed node × (0 < rank node)) }
{
    let (verb, word) = words.split_once(' ').unwrap_or((words, ""));
    let filter = match verb {
        "up" => Filter::Up(named(alloc, word)?),
        "cone" => Filter::Cone(named(alloc, word)?),
        "base" => Filter::Base(named(alloc, word)?),
        "slots" => Filter::Slots(named(alloc, word)?),
        "shape" => return Ok(NodeId::Target(Target::Shape(named(alloc, word)?))),
        "inline" => Filter::Inline(method_of(alloc, word)?),
        "field" => field_of(alloc, word)?,
        "bind" => return bind_of(alloc, word),
        _ => return Err(Trouble::Unclear),
    };
    Ok(NodeId::Filter(filter))
}

// The field that a name means for a class, as `a f`.
fn field_of(alloc: Global, words: &str) -> Result<Filter, Trouble>
    ensures { IfOk result (λ filter. IsWellFormed (NodeId.Filter filter) × (0 < rank (NodeId.Filter filter))) }
{
    let (class, name) = words.split_once(' ').unwrap_or((words, ""));
    Ok(Filter::Field(named(alloc, class)?, named(alloc, name)?))
}

// The binding of a message to the methods of a key's selector, where this is known of its arguments; with `below` at the
// end, to those that the key's own method goes before.
fn bind_of(alloc: Global, words: &str) -> Result<NodeId, Trouble>
    ensures { IfOk result (λ node. IsWellFormed node × (0 < rank node)) }
{
    let above = words.strip_suffix(" below").unwrap_or(words);
    let (word, rest) = above.split_once(' ').unwrap_or((above, ""));
    let key = method_of(alloc, word)?;
    let infos = infos_of(alloc, rest)?;
    if infos.len() != key.selector.arity as usize {
        return Err(Trouble::Unclear);
    }
    let selector = key.selector.copy(alloc)?;
    if above.len() == words.len() {
        return Ok(NodeId::Filter(Filter::Bind(selector, Infos::new(infos), None)));
    }
    if key.specialisers.len() != key.selector.arity as usize {
        return Err(Trouble::Unclear);
    }
    Ok(NodeId::Filter(Filter::Bind(selector, Infos::new(infos), Some(key))))
}

// What is known of arguments: each `*`, `<x` or `=x`.
fn infos_of(alloc: Global, words: &str) -> Result<Items<Info>, Trouble> {
    let mut infos = Items::new(alloc);
    for word in words.split_whitespace() {
        infos.push(info_of(alloc, word)?)?;
    }
    Ok(infos)
}

fn info_of(alloc: Global, word: &str) -> Result<Info, Trouble> {
    if word == "*" {
        return Ok(Info::Any);
    }
    if let Some(x) = word.strip_prefix('<') {
        return Ok(Info::Cone(named(alloc, x)?));
    }
    match word.strip_prefix('=') {
        Some(x) => Ok(Info::Exact(named(alloc, x)?)),
        None => Err(Trouble::Unclear),
    }
}

// The key of a method, as `m(@a)`.
fn method_of(alloc: Global, word: &str) -> Result<MethodKey, Trouble> {
    let block = format!(in alloc; "drop method {word}")?;
    match read_block(alloc, block.as_str().as_bytes())? {
        Command::Edit(edit) => dropped(alloc, &edit),
        other => {
            drop(other);
            Err(Trouble::Unclear)
        }
    }
}

fn dropped(alloc: Global, edit: &Edit) -> Result<MethodKey, Trouble> {
    match edit.changes.as_slice() {
        [Change::Drop(DeclKey::Method(key))] => Ok(key.copy(alloc)?),
        _ => Err(Trouble::Unclear),
    }
}

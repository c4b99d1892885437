ghost use Rattle.std.specs.Prelude.{◌≡◌, IfOk};
ghost use Rattle.vx_node.specs.declared.node.NodeId.TheVariants as node;
ghost use Rattle.vx_node.specs.declared.node.Fact.TheVariants as fact;
ghost use Rattle.vx_node.specs.Asking.{gives, followed};
ghost use Rattle.vx_node.specs.Askers.{Follows, Learns};
ghost use Rattle.vx_compilation.specs.Readings.{source_in};
ghost use Rattle.vx_compilation.specs.Inlining.{inline};
ghost use Rattle.vx_answers.specs.Facts.{text_of};
ghost use Rattle.vx_answers.specs.SendRows.{inline_row};
ghost use Rattle.vx_inline.specs.Flat.{is_inlined};

use crate::flat::is_flat_body;
use sqlite_items::Items;
use std::alloc::{AllocError, Global};
use vx_names::{MethodKey, Name};
use vx_node::{Answer, Asker, Fact, Halt, NodeId, Tracer};
use vx_syntax::{Body, copy_formals, size};
use vx_walks::learn_node;

// The greatest size of a body that is put in place of its sends.
const INLINED_SIZE: u64 = 12;

/// The formals and the body of a method, where it is put in place of its sends: it is small, and has no closure, variable or resend.
pub fn inlinable<A: Asker>(
    alloc: Global,
    t: &mut Tracer<A>,
    key: &MethodKey,
) -> Result<Option<(Items<Option<Name>>, Body)>, Halt>
    requires ready { A.ready t.old.asker.now }
    ensures ready { A.ready t.new.asker.now }
    ensures same { t.new.asker.ghost_name ≡ t.old.asker.ghost_name }
    ensures follows { Follows A.manner (followed (inline_row key.now) (λ own. gives (text_of own))) result
        t.old.asker.now t.old.trace t.new.asker.now t.new.trace }
{
    let at = match learn(alloc, t, key) {
        Ok(at) => at,
        Err(halt) => return Err(halt),
    };
    let text = inlined_in(alloc, t.answer(at))?;
    Ok(text)
}

fn learn<A: Asker>(alloc: Global, t: &mut Tracer<A>, key: &MethodKey) -> Result<usize, Halt>
    requires ready { A.ready t.old.asker.now }
    ensures ready { A.ready t.new.asker.now }
    ensures same { t.new.asker.ghost_name ≡ t.old.asker.ghost_name }
    ensures learns { Learns A.manner (node.Fact (fact.Body key.now)) result t.old.asker.now t.old.trace t.new.asker.now t.new.trace }
{
    learn_node(t, NodeId::Fact(Fact::Body(key.copy(alloc)?)))
}

fn inlined_in(
    alloc: Global,
    answer: &Answer,
) -> Result<Option<(Items<Option<Name>>, Body)>, AllocError>
    ensures { IfOk result (λ text. text ≡ text_of (inline (source_in answer.now))) }
{
    match answer {
        Answer::Body(Some((formals, body))) => {
            if is_inlined(body) {
                let formals = copy_formals(alloc, formals.as_slice())?;
                Ok(Some((formals, body.copy(alloc)?)))
            } else {
                Ok(None)
            }
        }
        _ => Ok(None),
    }
}

fn is_inlined(body: &Body) -> bool
    ensures { result ≡ is_inlined body.now }
{
    size(body) <= INLINED_SIZE && is_flat_body(body.0.as_slice())
}

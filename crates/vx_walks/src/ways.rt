ghost use Rattle.std.specs.Prelude.{◌≡◌, IfOk};
ghost use Rattle.vx_node.specs.Nodes.{rank, IsWellFormed};
ghost use Rattle.vx_answers.specs.OrderRows.{parents_in, plain_ones};
ghost use Rattle.vx_walks.specs.Ways.{way_of};

use sqlite_items::Items;
use std::alloc::{AllocError, Global};
use vx_names::{Name, copy_names};
use vx_node::{Answer, Fact, Known, NodeId, Stands};

/// Which way a walk goes.
#[derive(Clone, Copy)]
pub enum Way {
    /// From objects to their parents.
    Upward,
    /// From plain objects to the plain ones among their children.
    Downward,
}

/// What a walk asks of a name.
pub fn node_of(alloc: Global, way: Way, x: &Name) -> Result<NodeId, AllocError>
    ensures node { IfOk result (λ node. node ≡ (way_of way).node x.now) }
    ensures fact { IfOk result (λ node. (rank node ≡ 0) × IsWellFormed node) }
{
    let own = x.copy(alloc)?;
    Ok(match way {
        Way::Upward => NodeId::Fact(Fact::Decl(own)),
        Way::Downward => NodeId::Fact(Fact::Children(own)),
    })
}

/// The names to which an answer leads on, where the name is there.
pub fn onward(alloc: Global, way: Way, answer: &Answer) -> Result<Option<Items<Name>>, AllocError>
    ensures { IfOk result (λ names. names ≡ (way_of way).onward answer.now) }
{
    match way {
        Way::Upward => parents_in(alloc, answer),
        Way::Downward => match answer {
            Answer::Children(children) => Ok(Some(plain_ones(alloc, children.as_slice())?)),
            _ => Ok(Some(Items::new(alloc))),
        },
    }
}

fn parents_in(alloc: Global, answer: &Answer) -> Result<Option<Items<Name>>, AllocError>
    ensures { IfOk result (λ names. names ≡ parents_in answer.now) }
{
    match answer {
        Answer::Decl(Known::Plain(parents)) => Ok(Some(copy_names(alloc, parents.as_slice())?)),
        Answer::Decl(Known::Predicate(parents, _)) => Ok(Some(copy_names(
            alloc,
            parents.as_slice(),
        )?)),
        _ => Ok(None),
    }
}

fn plain_ones(alloc: Global, children: &[(Name, Stands)]) -> Result<Items<Name>, AllocError>
    ensures { IfOk result (λ names. names ≡ plain_ones children.now) }
{
    let mut names = Items::new(alloc);
    for child in children {
        let (x, stands) = child;
        match stands {
            Stands::Plain => names.push(x.copy(alloc)?)?,
            Stands::Predicate => {}
            Stands::Nothing => {}
        }
    }
    Ok(names)
}

//! Nodes: facts, which declarations say, filters, which are found out of them, and targets, which are made for the image.
ghost use Rattle.std.specs.Prelude.{◌≡◌, refl, IfOk};
ghost use Rattle.std.specs.declared.cmp.Ordering.TheVariants.{Equal};
ghost use Rattle.std.specs.Ordering.{eq_by_cmp, as_partial_cmp};
ghost use Rattle.std.specs.Cmp.{partial_order_from_own_ties, partial_order_from_total, eq_by_cmp_equiv};
ghost use Rattle.std.specs.Cmp.Lexicographic.{slice_cmp};
ghost use Rattle.vx_names.specs.KeyLaws.{alike, same_writes};
ghost use Rattle.vx_node.specs.Order.{infos_cmp, infos_total, infos_apart, infos_writes};

use sqlite_items::Items;
use std::alloc::{AllocError, Global};
use std::cmp::Ordering;
use std::hash::{Hash, Hasher};
use std::marker::Model;
use vx_names::{MethodKey, Name, Selector};

/// What is known of an argument's class before the run.
#[derive(Drop, PartialEq, Eq, Hash, PartialOrd, Ord)]
pub enum Info {
    /// Any value.
    Any,
    /// A value whose class is the object or below it.
    Cone(Name),
    /// A value whose class is the object.
    Exact(Name),
}

/// The infos of a message's arguments.
#[derive(Drop)]
pub struct Infos {
    infos: Items<Info>,
}

impl Model for Infos {
    ghost use Rattle.std.specs.Prelude.{List};
    ghost use Rattle.vx_node.specs.declared.node.Info.{Info};

    ghost Value = { List Info };

    ghost view = { λ i. i.infos };
}

impl PartialEq for Infos {
    ghost eq = { eq_by_cmp infos_cmp };

    ghost laws = { alike infos_total };

    fn eq(&self, other: &Infos) -> bool {
        self.cmp(other) == Ordering::Equal
    }
}

impl Eq for Infos {
    ghost laws = { eq_by_cmp_equiv infos_total };
}

impl Hash for Infos {
    ghost hash_input = { infos_writes };

    ghost respects_eq = { same_writes infos_apart infos_writes };

    fn hash<H: Hasher>(&self, state: &mut H) {
        self.infos.as_slice().hash(state);
    }
}

impl PartialOrd for Infos {
    ghost partial_cmp = { as_partial_cmp infos_cmp };

    ghost laws = { partial_order_from_own_ties (partial_order_from_total infos_total) (λ _ _. refl) };

    fn partial_cmp(&self, other: &Infos) -> Option<Ordering> {
        Some(self.cmp(other))
    }
}

impl Ord for Infos {
    ghost cmp = { infos_cmp };

    ghost total = { infos_total };

    ghost matches_partial_cmp = { λ _ _. refl };

    ghost matches_eq = { λ _ _. refl };

    fn cmp(&self, other: &Infos) -> Ordering {
        self.infos.as_slice().cmp(other.infos.as_slice())
    }
}

/// Which code of a method: the general one, or that for one class of the argument at a position.
#[derive(Drop, PartialEq, Eq, Hash, PartialOrd, Ord)]
pub enum Variant {
    General,
    Clone(u8, Name),
}

/// What declarations say by themselves.
#[derive(Drop, PartialEq, Eq, Hash, PartialOrd, Ord)]
pub enum Fact {
    Decl(Name),
    Children(Name),
    There(Name),
    Heads(Selector),
    Body(MethodKey),
    Fields(Name),
}

/// What is found out of facts and of other filters.
#[derive(Drop, PartialEq, Eq, Hash, PartialOrd, Ord)]
pub enum Filter {
    Up(Name),
    Cone(Name),
    Base(Name),
    Slots(Name),
    Field(Name, Name),
    Inline(MethodKey),
    Bind(Selector, Infos, Option<MethodKey>),
    Clones(MethodKey),
}

/// What is made for the image.
#[derive(Drop, PartialEq, Eq, Hash, PartialOrd, Ord)]
pub enum Target {
    Shape(Name),
    Test(Name),
    Table(Selector),
    Code(MethodKey, Variant),
}

/// What can be asked of a program. Nodes are ordered by kind and then by their parts.
#[derive(Drop, PartialEq, Eq, Hash, PartialOrd, Ord)]
pub enum NodeId {
    Fact(Fact),
    Filter(Filter),
    Target(Target),
}

impl Info {
    pub fn copy(&self, alloc: Global) -> Result<Info, AllocError>
        ensures { IfOk result (λ info. info ≡ self.now) }
    {
        match self {
            Info::Any => Ok(Info::Any),
            Info::Cone(x) => Ok(Info::Cone(x.copy(alloc)?)),
            Info::Exact(x) => Ok(Info::Exact(x.copy(alloc)?)),
        }
    }
}

impl Infos {
    pub fn new(infos: Items<Info>) -> Infos
        ensures { result ≡ infos }
    {
        Infos { infos }
    }

    pub fn as_slice(&self) -> &[Info]
        ensures { result.now ≡ self.now }
    {
        self.infos.as_slice()
    }

    pub fn copy(&self, alloc: Global) -> Result<Infos, AllocError>
        ensures { IfOk result (λ infos. infos ≡ self.now) }
    {
        Ok(Infos {
            infos: copy_infos(alloc, self.infos.as_slice())?,
        })
    }
}

/// The infos, each copied.
pub fn copy_infos(alloc: Global, infos: &[Info]) -> Result<Items<Info>, AllocError>
    ensures { IfOk result (λ copies. copies ≡ infos.now) }
{
    let mut copies = Items::new(alloc);
    for info in infos {
        copies.push(info.copy(alloc)?)?;
    }
    Ok(copies)
}

fn copy_below(alloc: Global, below: &Option<MethodKey>) -> Result<Option<MethodKey>, AllocError>
    ensures { IfOk result (λ copy. copy ≡ below.now) }
{
    match below {
        Some(key) => Ok(Some(key.copy(alloc)?)),
        None => Ok(None),
    }
}

impl Variant {
    pub fn copy(&self, alloc: Global) -> Result<Variant, AllocError>
        ensures { IfOk result (λ variant. variant ≡ self.now) }
    {
        match self {
            Variant::General => Ok(Variant::General),
            Variant::Clone(position, class) => Ok(Variant::Clone(*position, class.copy(alloc)?)),
        }
    }
}

fn copy_fact(alloc: Global, fact: &Fact) -> Result<Fact, AllocError>
    ensures { IfOk result (λ copy. copy ≡ fact.now) }
{
    match fact {
        Fact::Decl(x) => Ok(Fact::Decl(x.copy(alloc)?)),
        Fact::Children(x) => Ok(Fact::Children(x.copy(alloc)?)),
        Fact::There(x) => Ok(Fact::There(x.copy(alloc)?)),
        Fact::Heads(selector) => Ok(Fact::Heads(selector.copy(alloc)?)),
        Fact::Body(key) => Ok(Fact::Body(key.copy(alloc)?)),
        Fact::Fields(x) => Ok(Fact::Fields(x.copy(alloc)?)),
    }
}

fn copy_bind(
    alloc: Global,
    selector: &Selector,
    infos: &Infos,
    below: &Option<MethodKey>,
) -> Result<Filter, AllocError>
    ensures { IfOk result (λ copy. copy ≡ Filter.Bind selector.now infos.now below.now) }
{
    let selector = selector.copy(alloc)?;
    let infos = infos.copy(alloc)?;
    let below = copy_below(alloc, below)?;
    Ok(Filter::Bind(selector, infos, below))
}

fn copy_filter(alloc: Global, filter: &Filter) -> Result<Filter, AllocError>
    ensures { IfOk result (λ copy. copy ≡ filter.now) }
{
    match filter {
        Filter::Up(x) => Ok(Filter::Up(x.copy(alloc)?)),
        Filter::Cone(x) => Ok(Filter::Cone(x.copy(alloc)?)),
        Filter::Base(x) => Ok(Filter::Base(x.copy(alloc)?)),
        Filter::Slots(x) => Ok(Filter::Slots(x.copy(alloc)?)),
        Filter::Field(x, name) => Ok(Filter::Field(x.copy(alloc)?, name.copy(alloc)?)),
        Filter::Inline(key) => Ok(Filter::Inline(key.copy(alloc)?)),
        Filter::Bind(selector, infos, below) => copy_bind(alloc, selector, infos, below),
        Filter::Clones(key) => Ok(Filter::Clones(key.copy(alloc)?)),
    }
}

fn copy_target(alloc: Global, target: &Target) -> Result<Target, AllocError>
    ensures { IfOk result (λ copy. copy ≡ target.now) }
{
    match target {
        Target::Shape(x) => Ok(Target::Shape(x.copy(alloc)?)),
        Target::Test(x) => Ok(Target::Test(x.copy(alloc)?)),
        Target::Table(selector) => Ok(Target::Table(selector.copy(alloc)?)),
        Target::Code(key, variant) => Ok(Target::Code(key.copy(alloc)?, variant.copy(alloc)?)),
    }
}

impl NodeId {
    pub fn copy(&self, alloc: Global) -> Result<NodeId, AllocError>
        ensures { IfOk result (λ node. node ≡ self.now) }
    {
        match self {
            NodeId::Fact(fact) => Ok(NodeId::Fact(copy_fact(alloc, fact)?)),
            NodeId::Filter(filter) => Ok(NodeId::Filter(copy_filter(alloc, filter)?)),
            NodeId::Target(target) => Ok(NodeId::Target(copy_target(alloc, target)?)),
        }
    }
}

ghost use Rattle.std.specs.Prelude.{◌≡◌, IfOk};
ghost use Rattle.vx_program.specs.declared.edit.EditFault.TheVariants.{OutOfMemory};

use sqlite_items::Items;
use std::alloc::{AllocError, AllocFailed, Global};
use vx_names::{DeclKey, Name};
use vx_syntax::Decl;

/// One change of a program.
#[derive(Drop)]
pub enum Change {
    /// The declaration joins the program.
    Add(Decl),
    /// The declaration takes the place of that with its key.
    Put(Decl),
    /// The declaration with this key leaves the program.
    Drop(DeclKey),
}

impl Change {
    pub fn copy(&self, alloc: Global) -> Result<Change, AllocError>
        ensures { IfOk result (λ change. change ≡ self.now) }
    {
        match self {
            Change::Add(decl) => Ok(Change::Add(decl.copy(alloc)?)),
            Change::Put(decl) => Ok(Change::Put(decl.copy(alloc)?)),
            Change::Drop(key) => Ok(Change::Drop(key.copy(alloc)?)),
        }
    }
}

/// Changes that are taken in order, all of them or none.
#[derive(Drop)]
pub struct Edit {
    pub changes: Items<Change>,
}

impl Edit {
    pub fn copy(&self, alloc: Global) -> Result<Edit, AllocError>
        ensures { IfOk result (λ edit. edit ≡ self.now) }
    {
        let mut changes = Items::new(alloc);
        for change in self.changes.as_slice() {
            changes.push(change.copy(alloc)?)?;
        }
        Ok(Edit { changes })
    }
}

/// What a program or a declaration may not have too many of.
#[derive(Debug, Clone, Copy)]
pub enum Counted {
    /// Declarations besides the prelude.
    Declarations,
    /// Methods of one selector, with those of fields, of the prelude and of the primitives.
    Methods,
    /// Formals, lets and formals of closures of one method.
    Locals,
    /// How deep the parts of a body or a test lie in one another.
    Depth,
}

/// Why an edit was refused: the first fault of the first change that has one. The kinds are in the order in which they are
/// tried.
#[derive(Debug, Drop)]
pub enum EditFault {
    /// The key is that of a prelude object or method or of a primitive. A predicate of a prelude object's name has that
    /// object's key here.
    Reserved(DeclKey),
    /// The change would take a key that is taken; the key is that of the declaration or primitive that has it.
    Exists(DeclKey),
    /// No declaration has the key of a put or drop.
    Missing(DeclKey),
    /// No object and no predicate has this name, the first such in the text of the change.
    Unknown(Name),
    /// The object or predicate of this name, the first such in the text of the change, may not stand where it stands.
    WrongKind(Name),
    /// The object or predicate of this name would inherit from itself.
    Cycle(Name),
    /// The object or predicate of this name is the parent or specialiser of a declaration; the key is that of the first
    /// such in key order.
    InUse(Name, DeclKey),
    /// There would be so many, which is too many; 2^64 - 1 stands for any greater number, too.
    Limit(Counted, u64),
    OutOfMemory,
}

impl EditFault {
    pub fn copy(&self, alloc: Global) -> Result<EditFault, AllocError>
        ensures { IfOk result (λ fault. fault ≡ self.now) }
    {
        match self {
            EditFault::Reserved(key) => Ok(EditFault::Reserved(key.copy(alloc)?)),
            EditFault::Exists(key) => Ok(EditFault::Exists(key.copy(alloc)?)),
            EditFault::Missing(key) => Ok(EditFault::Missing(key.copy(alloc)?)),
            EditFault::Unknown(name) => Ok(EditFault::Unknown(name.copy(alloc)?)),
            EditFault::WrongKind(name) => Ok(EditFault::WrongKind(name.copy(alloc)?)),
            EditFault::Cycle(name) => Ok(EditFault::Cycle(name.copy(alloc)?)),
            EditFault::InUse(name, by) => Ok(EditFault::InUse(name.copy(alloc)?, by.copy(alloc)?)),
            EditFault::Limit(which, count) => Ok(EditFault::Limit(*which, *count)),
            EditFault::OutOfMemory => Ok(EditFault::OutOfMemory),
        }
    }
}

impl From<AllocError> for EditFault {
    ghost from_gives = { λ _ e. e ≡ OutOfMemory };

    fn from(_: AllocError) -> Self {
        EditFault::OutOfMemory
    }
}

impl<T: Drop> From<AllocFailed<T>> for EditFault {
    ghost from_gives = { λ _ e. e ≡ OutOfMemory };

    fn from(_: AllocFailed<T>) -> Self {
        EditFault::OutOfMemory
    }
}

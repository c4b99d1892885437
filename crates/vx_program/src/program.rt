ghost use Rattle.std.specs.Prelude.{◌≡◌, ◌<◌, ℕ, Ok, Some, true, length, slice_get, IfOk, IfErr, IfSome, OnOk, OnErr};
ghost use Rattle.std.specs.Option.{option_copied};
ghost use Rattle.std.specs.List as list;
ghost use Rattle.std.specs.List.{position_from};
ghost use Rattle.vx_program.specs.Prelude.{prelude, primitive_keys, same_key};
ghost use Rattle.vx_syntax.specs.declared.decl.Decl.{Decl};
ghost use Rattle.vx_program.specs.Program.{find, is_named, occupies, IsProgram};
ghost use Rattle.vx_program.specs.Methods.{methods};
ghost use Rattle.vx_program.specs.Apply.{apply, IsFaultOf, IsWritable};

use crate::changes::change;
use crate::edit::{Edit, EditFault};
use crate::methods::methods;
use crate::occupied::occupies;
use crate::prelude::prelude;
use crate::reserved::Reserved;
use crate::search;
use sqlite_items::Items;
use std::alloc::{AllocError, Global};
use std::marker::Model;
use std::rc::Rc;
use vx_names::{DeclKey, MethodKey, Selector};
use vx_syntax::Decl;

/// A well-formed program, which contracts see as its declarations in key order, the prelude among them.
#[derive(Drop)]
pub struct Program {
    alloc: Global,
    decls: Vec<Decl>,
    // They are the same for all programs, so one that comes of another shares them with it.
    reserved: Rc<Reserved, Global>,
}

impl Model for Program {
    ghost use Rattle.std.specs.Prelude.{List};
    ghost use Rattle.std.specs.Coded.{codes};
    ghost use Rattle.vx_syntax.specs.declared.decl.Decl.{Decl};
    ghost use Rattle.vx_syntax.specs.contracts.decl.Decl as decl;
    ghost use Rattle.vx_program.specs.Program.{IsProgram};

    ghost Value = { List Decl };

    ghost coded = { Prim.hlevel (codes, decl.the_row.coded) };

    ghost view = { λ p. p.decls.items };

    ghost invariant = { λ p. IsProgram p.decls.items };
}

impl Program {
    /// The prelude alone.
    pub fn empty(alloc: Global) -> Result<Program, AllocError>
        ensures { IfOk result (λ program. program ≡ prelude) }
    {
        let decls = prelude(alloc)?;
        let reserved = Rc::new(alloc, Reserved::new(alloc)?)?;
        Ok(Program {
            alloc,
            decls,
            reserved,
        })
    }

    /// The declarations in key order.
    pub fn declarations(&self) -> &[Decl]
        ensures all { result.now ≡ self.now }
        ensures program { IsProgram self.now }
    {
        self.decls.as_slice()
    }

    /// The declaration that has the key.
    pub fn find(&self, key: &DeclKey) -> Option<&Decl>
        ensures { option_copied result ≡ find self.now key.now }
    {
        search::find(self.decls.as_slice(), key)
    }

    /// Where the object or predicate whose name has these bytes stands among the declarations.
    pub fn place(&self, x: &[u8]) -> Option<usize>
        ensures within { IfSome result (λ place. place < length self.now) }
        ensures some { IfSome result (λ place. (decl : Decl) × (slice_get self.now place ≡ Some decl) × (is_named x.now decl ≡ true)) }
        ensures only { (place : ℕ) (decl : Decl) → slice_get self.now place ≡ Some decl → is_named x.now decl ≡ true → result ≡ Some place }
    {
        search::position_of_name(self.decls.as_slice(), x)
    }

    /// The methods of the selector: those that are declared and those that read and set fields, as the declarations come,
    /// and the primitives behind them.
    pub fn methods(&self, selector: &Selector) -> Result<Items<MethodKey>, AllocError>
        ensures { IfOk result (λ keys. keys ≡ methods self.now selector.now) }
    {
        methods(
            self.alloc,
            self.reserved.as_ref(),
            self.decls.as_slice(),
            selector,
        )
    }

    /// The declaration that occupies the key: that of the key itself, or that of the field which a method reads or sets.
    pub fn maker(&self, key: &DeclKey) -> Option<&Decl>
        ensures { option_copied result ≡ list.find (λ decl. occupies decl key.now) self.now }
    {
        for decl in self.decls.as_slice() {
            if occupies(decl, key) {
                return Some(decl);
            }
        }
        None
    }

    /// The number of the primitive that has the key, counted from 0.
    pub fn primitive(&self, key: &DeclKey) -> Option<usize>
        ensures { result ≡ position_from (λ one. same_key one key.now) 0 primitive_keys }
    {
        self.reserved.as_ref().primitive(key)
    }

    /// The program after the edit, whose changes it takes in order, all or none.
    pub fn apply(&self, edit: &Edit) -> Result<Program, EditFault>
        requires { IsWritable edit.now.changes }
        ensures ok { IfOk result (λ next. apply self.now edit.now.changes ≡ Ok next) }
        ensures fault { IfErr result (IsFaultOf (apply self.now edit.now.changes)) }
    {
        let decls = self.edited(edit)?;
        Ok(Program {
            alloc: self.alloc,
            decls,
            reserved: self.reserved.clone()?,
        })
    }

    /// Takes the edit in place: the program becomes the one after it. Where the edit is refused and where memory runs out, it
    /// stays as it was. A single change copies nothing but what it brings.
    pub fn change(&mut self, edit: &Edit) -> Result<(), EditFault>
        requires { IsWritable edit.now.changes }
        ensures ok { OnOk result (apply self.old edit.now.changes ≡ Ok self.new) }
        ensures fault { IfErr result (IsFaultOf (apply self.old edit.now.changes)) }
        ensures unchanged { OnErr result (self.new ≡ self.old) }
    {
        match edit.changes.as_slice() {
            [one] => change(self.alloc, self.reserved.as_ref(), &mut self.decls, one),
            _ => {
                self.decls = self.edited(edit)?;
                Ok(())
            }
        }
    }

    // The declarations after the edit, in a list of their own.
    fn edited(&self, edit: &Edit) -> Result<Vec<Decl>, EditFault>
        requires { IsWritable edit.now.changes }
        ensures ok { IfOk result (λ next. (apply self.now edit.now.changes ≡ Ok next.items) × IsProgram next.items) }
        ensures fault { IfErr result (IsFaultOf (apply self.now edit.now.changes)) }
    {
        let mut decls = copy_decls(self.alloc, self.decls.as_slice())?;
        for one in edit.changes.as_slice() {
            match change(self.alloc, self.reserved.as_ref(), &mut decls, one) {
                Ok(()) => {}
                Err(fault) => return Err(fault),
            }
        }
        Ok(decls)
    }

    /// The same program again.
    pub fn copy(&self) -> Result<Program, AllocError>
        ensures { IfOk result (λ copy. copy ≡ self.now) }
    {
        let decls = copy_decls(self.alloc, self.decls.as_slice())?;
        Ok(Program {
            alloc: self.alloc,
            decls,
            reserved: self.reserved.clone()?,
        })
    }
}

fn copy_decls(alloc: Global, decls: &[Decl]) -> Result<Vec<Decl>, AllocError>
    ensures { IfOk result (λ copies. copies.items ≡ decls.now) }
{
    let mut copies = Vec::with_capacity(alloc, decls.len())?;
    for decl in decls {
        copies.push(decl.copy(alloc)?)?;
    }
    Ok(copies)
}

//! The next instruction.
ghost use Rattle.std.specs.Prelude.{◌<◌, ◌+◌, ◌^◌};
ghost use Rattle.vx_machine.specs.Cuts.{IsNamed};
ghost use Rattle.vx_machine.specs.Meaning.{Did, IsLater};
ghost use Rattle.vx_machine.specs.Running.{Steps};

use crate::machine::Machine;
use crate::ready::Ready;
use crate::word::Step;
use std::alloc::{AllocError, Global};
use vx_format::Instr;

impl<'a> Machine<'a> {
    /// Takes and does the next instruction. Where none is left, the state lacks it.
    #[inline(always)]
    pub fn step(&mut self, alloc: Global, ready: &Ready<'a>) -> Result<Step, AllocError>
        requires room { self.old.next + 1 < 2 ^ 64 }
        ensures does { Steps ready.now result self.old self.new }
        ensures later { IsLater self.old self.new }
    {
        match self.activations.fetch() {
            None => Ok(Step::Lacks),
            Some(instr) => self.act(alloc, ready, instr),
        }
    }

    // Does an instruction.
    #[inline(always)]
    fn act(
        &mut self,
        alloc: Global,
        ready: &Ready<'a>,
        instr: &'a Instr,
    ) -> Result<Step, AllocError>
        requires named { IsNamed instr.now }
        requires room { self.old.next + 1 < 2 ^ 64 }
        ensures does { Did ready.now instr.entry.now result self.old self.new }
        ensures later { IsLater self.old self.new }
    {
        match instr {
            Instr::Int(z) => self.int(z),
            Instr::Text(bytes) => self.text(bytes.as_slice()),
            Instr::Object(o) => self.object(*o),
            Instr::Load(x) => self.load(*x),
            Instr::Store(x) => self.store(*x),
            Instr::Cell(x) => self.cell(*x),
            Instr::CellGet(x) => self.cell_get(*x),
            Instr::CellSet(x) => self.cell_set(*x),
            Instr::Closure(block, xs) => self.close(ready, *block, xs.as_slice()),
            Instr::Send(t) => self.perform_send(alloc, ready, *t),
            Instr::Call(code) => self.call(ready, *code),
            Instr::Resend(t, row) => self.perform_resend(alloc, ready, *t, *row),
            Instr::Prim(number) => self.prim(alloc, ready, *number),
            Instr::Get(field) => self.get(ready, *field),
            Instr::Set(field) => self.set(ready, *field),
            Instr::New(class, fields) => self.make(alloc, ready, *class, fields.as_slice()),
            Instr::Pop => self.pop(),
            Instr::Ret => self.leave(ready),
            Instr::Home => self.leave_home(alloc),
            Instr::Mark => self.mark(),
            Instr::Fail(kind, name, arity) => self.fail(alloc, *kind, name.as_slice(), *arity),
        }
    }
}

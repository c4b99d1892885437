ghost use Rattle.std.specs.Prelude.{◌≡◌, ◌+◌, ◌<◌, ◌≤◌, ◌^◌, ℕ, List, IfOk};
ghost use Rattle.vx_program.specs.Prelude.{prelude};
ghost use Rattle.vx_program.specs.Apply.{IsWritable};
ghost use Rattle.vx_batch.specs.Script.{reply, Answers};
ghost use Rattle.vx_blocks.specs.Block.{IsBlock};
ghost use Rattle.vx_program.specs.declared.edit.Edit.{Edit};
ghost use Rattle.vx_batch.specs.Image.{image_of};
ghost use Rattle.vx_batch.specs.Listing.{list_text};
ghost use Rattle.vx_batch.specs.Text.{image_text};
ghost use Rattle.vx_batch.specs.Steps.{IsAnswered, IsEdited, IsRefusal, IsAfter};

use crate::{image, listing, report, text};
use std::alloc::{AllocError, Global};
use vx_blocks::Block;
use vx_program::{Edit, EditFault, Program};
use vx_reader::{Command, ReadFault, read_block};

/// A script that is being answered: the program, and how many edits made it.
#[derive(Drop)]
pub(crate) struct Session {
    pub program: Program,
    pub accepted: u64,
}

impl Session {
    pub(crate) fn new(alloc: Global) -> Result<Session, AllocError>
        ensures program { IfOk result (λ session. session.program ≡ prelude) }
        ensures accepted { IfOk result (λ session. session.accepted ≡ 0) }
    {
        Ok(Session {
            program: Program::empty(alloc)?,
            accepted: 0,
        })
    }

    /// The reply to a block.
    pub(crate) fn answer(&mut self, alloc: Global, block: &Block) -> Result<Vec<u8>, AllocError>
        requires { self.old.accepted + 1 < 2 ^ 64 }
        ensures answers { IfOk result (λ text. (edits : List Edit) (bytes : List ℕ) → IsBlock block.now bytes
            → IsAfter self.old.program self.old.accepted edits
            → (next : List Edit) × Answers edits bytes text.items next × IsAfter self.new.program self.new.accepted next) }
        ensures counted { self.new.accepted ≤ self.old.accepted + 1 }
    {
        match block {
            Block::Whole(bytes) => self.read(alloc, bytes.as_slice()),
            Block::TooLong(len) => text::refused_too_long(alloc, *len),
        }
    }

    // The reply to a block that is not too long.
    fn read(&mut self, alloc: Global, block: &[u8]) -> Result<Vec<u8>, AllocError>
        requires { self.old.accepted + 1 < 2 ^ 64 }
        ensures counted { self.new.accepted ≤ self.old.accepted + 1 }
        ensures answered { IfOk result (λ text. IsAnswered self.old.program self.new.program self.old.accepted self.new.accepted block.now text.items) }
    {
        let command = match read_block(alloc, block) {
            Ok(command) => command,
            Err(ReadFault::Syntax(place)) => return text::refused_syntax(alloc, place),
            Err(ReadFault::TooDeep(place)) => return text::refused_too_deep(alloc, place),
            Err(ReadFault::NumberTooLarge(place)) => {
                return text::refused_number_too_large(alloc, place);
            }
            Err(ReadFault::OutOfMemory) => return Err(AllocError),
        };
        match command {
            Command::Blank => Ok(Vec::new(alloc)),
            Command::Edit(edit) => self.edit(alloc, &edit),
            Command::Image => self.image(alloc),
            Command::List => self.list(alloc),
            Command::Mean(f) => report::mean(alloc, &self.program, f),
            Command::Run(_) | Command::Why | Command::Journal => {
                text::refused_not_yet_built(alloc)
            }
        }
    }

    fn edit(&mut self, alloc: Global, edit: &Edit) -> Result<Vec<u8>, AllocError>
        requires room { self.old.accepted + 1 < 2 ^ 64 }
        requires writable { IsWritable edit.now.changes }
        ensures counted { self.new.accepted ≤ self.old.accepted + 1 }
        ensures edited { IfOk result (λ text. IsEdited self.old.program self.new.program self.old.accepted self.new.accepted edit.now text.items) }
    {
        let text = text::accepted(alloc, self.accepted + 1)?;
        match self.program.change(edit) {
            Ok(()) => {
                self.accepted += 1;
                Ok(text)
            }
            Err(fault) => refusal(alloc, fault),
        }
    }

    fn image(&self, alloc: Global) -> Result<Vec<u8>, AllocError>
        ensures { IfOk result (λ text. text.items ≡ image_text self.now.accepted (image_of self.now.program)) }
    {
        let image = image::image(alloc, self.program.declarations())?;
        text::image(alloc, self.accepted, image.as_slice())
    }

    fn list(&self, alloc: Global) -> Result<Vec<u8>, AllocError>
        ensures { IfOk result (λ text. text.items ≡ list_text self.now.program) }
    {
        listing::list(alloc, self.program.declarations())
    }
}

fn refusal(alloc: Global, fault: EditFault) -> Result<Vec<u8>, AllocError>
    ensures { IfOk result (λ text. IsRefusal fault text.items) }
{
    match fault {
        EditFault::Reserved(key) => text::refused_reserved(alloc, &key),
        EditFault::Exists(key) => text::refused_exists(alloc, &key),
        EditFault::Missing(key) => text::refused_missing(alloc, &key),
        EditFault::Unknown(name) => text::refused_unknown(alloc, &name),
        EditFault::WrongKind(name) => text::refused_wrong_kind(alloc, &name),
        EditFault::Cycle(name) => text::refused_cycle(alloc, &name),
        EditFault::InUse(name, by) => text::refused_in_use(alloc, &name, &by),
        EditFault::Limit(which, count) => text::refused_limit(alloc, which, count),
        EditFault::OutOfMemory => Err(AllocError),
    }
}

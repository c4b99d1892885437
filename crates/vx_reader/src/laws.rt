ghost use Rattle.std.specs.Prelude.{◌≡◌, ◌↔◌, ◌+◌, ◌<◌, ◌≤◌, ◌^◌, ℕ, List, ◌∷◌, [], ◌++◌, codes, length, Ok, Result, is_none};
ghost use Rattle.std.specs.List.{AllByRecursion};
ghost use Rattle.vx_lists.specs.Members.{IsIn};
ghost use Rattle.vx_syntax.specs.declared.decl.Decl.{Decl};
ghost use Rattle.vx_syntax.specs.declared.token.Token.TheVariants.{Number};
ghost use Rattle.vx_syntax.specs.Counts.{height};
ghost use Rattle.vx_syntax.specs.Depth.{first_levels, IsShallow};
ghost use Rattle.vx_syntax.specs.Print.{decl_text};
ghost use Rattle.vx_syntax.specs.Written.{IsDeclWritten};
ghost use Rattle.vx_program.specs.declared.edit.Change.TheVariants.{Add};
ghost use Rattle.vx_program.specs.Prelude.{prelude};
ghost use Rattle.vx_program.specs.Program.{IsProgram};
ghost use Rattle.vx_program.specs.declared.edit.Edit as program;
ghost use Rattle.vx_program.specs.Apply.{IsWritable};
ghost use Rattle.vx_reader.specs.declared.command.Command.{Command};
ghost use Rattle.vx_reader.specs.declared.command.Command.TheVariants.{Edit};
ghost use Rattle.vx_reader.specs.declared.command.ReadFault.{ReadFault};
ghost use Rattle.vx_reader.specs.declared.state.State.{State};
ghost use Rattle.vx_reader.specs.AnyDepth.{WouldMean};
ghost use Rattle.vx_reader.specs.CommandMachine.{command_step};
ghost use Rattle.vx_reader.specs.EditText.{change_height, edit_text};
ghost use Rattle.vx_reader.specs.Phrases.{Laws};
ghost use Rattle.vx_reader.specs.Reads.{Reads, answer};
ghost use Rattle.vx_reader.specs.Tokens.{tokens};

use vx_phrases::{
    decl_steps_follow_the_grammar, decls_can_be_finished, decls_end_before_others,
    key_steps_follow_the_grammar,
};
use vx_program::writable_edits_are_read;
use vx_syntax::{
    canonical_tokens_are_shallow, written_declarations_are_read, written_keys_are_read,
};

// What the readers of declarations and keys keep.
fn phrases_are_read()
    ensures { Laws }
{
    decl_steps_follow_the_grammar();
    decls_can_be_finished();
    decls_end_before_others();
    key_steps_follow_the_grammar();
}

/// Each block is read in one way, the reader's answer.
pub fn every_block_is_read()
    ensures { (bytes : List ℕ) → length bytes < 2 ^ 64 → Reads bytes (answer bytes) }
{
    phrases_are_read();
}

/// No block is read in two ways.
pub fn one_reading()
    ensures { (bytes : List ℕ) (a b : Result Command ReadFault) → length bytes < 2 ^ 64 → Reads bytes a → Reads bytes b → a ≡ b }
{
    phrases_are_read();
}

/// An edit that is read can be written.
pub fn read_edits_are_writable()
    ensures { (bytes : List ℕ) (edit : program.Edit) → Reads bytes (Ok (Edit edit)) → IsWritable edit.changes }
{
    phrases_are_read();
    writable_edits_are_read();
}

/// Whether a command goes on with a number does not depend on the number, where it is as great as any of the language.
pub fn great_numbers_are_alike()
    ensures { (state : State) (i n : ℕ) → 2 ^ 127 ≤ i + 1 → 2 ^ 127 ≤ n + 1 →
        is_none (command_step state (Number i)) ≡ is_none (command_step state (Number n)) }
{
    decl_steps_follow_the_grammar();
    key_steps_follow_the_grammar();
}

/// The canonical text of a declaration that can be written and is not higher than 64, behind `add` and a blank, is a
/// block that adds that declaration.
pub fn canonical_additions_are_read()
    ensures { (decl : Decl) → IsDeclWritten decl → height decl ≤ 64 →
        Reads (codes "add " ++ decl_text decl) (Ok (Edit (record { changes = Add decl ∷ [] }))) }
{
    written_declarations_are_read();
    canonical_tokens_are_shallow();
}

/// The canonical text of each declaration of a program that is none of the prelude's, behind `add` and a blank, is a
/// block that adds that declaration.
pub fn programs_are_read_back()
    ensures { (program : List Decl) (own : Decl) → IsProgram program → IsIn own program → (IsIn own prelude → ⊥) →
        Reads (codes "add " ++ decl_text own) (Ok (Edit (record { changes = Add own ∷ [] }))) }
{
    canonical_additions_are_read();
}

/// An edit can be written exactly where some bytes would mean it, if tokens might lie at any depth. Its canonical text is
/// such bytes. What is read is what would be meant, where no token lies too deep.
pub fn writable_edits_have_texts()
    ensures exactly { (edit : program.Edit) → (IsWritable edit.changes ↔ ((bytes : List ℕ) × WouldMean bytes (Edit edit))) }
    ensures text { (edit : program.Edit) → IsWritable edit.changes → WouldMean (edit_text edit.changes) (Edit edit) }
    ensures depth { (bytes : List ℕ) (v : Command) → (Reads bytes (Ok v) ↔ (WouldMean bytes v × IsShallow first_levels (tokens bytes))) }
{
    phrases_are_read();
    writable_edits_are_read();
    written_declarations_are_read();
    written_keys_are_read();
}

/// The canonical text of an edit that can be written and brings nothing higher than 64 is a block that means that edit,
/// and it is the reader's answer.
pub fn canonical_edits_are_read()
    ensures reads { (edit : program.Edit) → IsWritable edit.changes → AllByRecursion (λ change. change_height change ≤ 64) edit.changes →
        Reads (edit_text edit.changes) (Ok (Edit edit)) }
    ensures answered { (edit : program.Edit) → IsWritable edit.changes → AllByRecursion (λ change. change_height change ≤ 64) edit.changes →
        length (edit_text edit.changes) < 2 ^ 64 → answer (edit_text edit.changes) ≡ Ok (Edit edit) }
{
    every_block_is_read();
    one_reading();
    written_declarations_are_read();
    written_keys_are_read();
    canonical_tokens_are_shallow();
}

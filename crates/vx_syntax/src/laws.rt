ghost use Rattle.std.specs.Prelude.{◌≤◌, List, ◌∷◌, []};
ghost use Rattle.vx_syntax.specs.declared.token.Token.{Token};
ghost use Rattle.vx_syntax.specs.declared.decl.Decl.{Decl};
ghost use Rattle.vx_names.specs.declared.key.DeclKey.{DeclKey};
ghost use Rattle.vx_syntax.specs.Words.{AreMeant};
ghost use Rattle.vx_syntax.specs.declared.token.Token.TheVariants.{Word};
ghost use Rattle.vx_syntax.specs.Declarations.{add_word, IsDecl, IsKey};
ghost use Rattle.vx_syntax.specs.Counts.{height};
ghost use Rattle.vx_syntax.specs.Depth.{first_levels, IsShallow};
ghost use Rattle.vx_syntax.specs.PrintedTokens.{printed_decl, printed_key};
ghost use Rattle.vx_syntax.specs.Written.{IsDeclWritten, IsKeyWritten};

use vx_names::operators_are_names;

/// The canonical tokens of a declaration that can be written mean that declaration, whatever follows them, and bytes
/// spell each of them.
pub fn written_declarations_are_read()
    ensures read { (decl : Decl) (us : List Token) → IsDeclWritten decl → IsDecl (printed_decl decl us) us decl }
    ensures meant { (decl : Decl) (us : List Token) → IsDeclWritten decl → AreMeant us → AreMeant (printed_decl decl us) }
{}

/// The canonical tokens of a key that can be written mean that key, whatever follows them, and bytes spell each of them.
pub fn written_keys_are_read()
    ensures read { (key : DeclKey) (us : List Token) → IsKeyWritten key → IsKey (printed_key key us) us key }
    ensures meant { (key : DeclKey) (us : List Token) → IsKeyWritten key → AreMeant us → AreMeant (printed_key key us) }
{}

/// What tokens that bytes spell mean as a declaration or as a key can be written, and bytes spell the tokens that follow.
pub fn what_is_read_can_be_written()
    ensures decl { (decl : Decl) (ts us : List Token) → IsDecl ts us decl → AreMeant ts → IsDeclWritten decl }
    ensures decl_rest { (decl : Decl) (ts us : List Token) → IsDecl ts us decl → AreMeant ts → AreMeant us }
    ensures key { (key : DeclKey) (ts us : List Token) → IsKey ts us key → AreMeant ts → IsKeyWritten key }
    ensures key_rest { (key : DeclKey) (ts us : List Token) → IsKey ts us key → AreMeant ts → AreMeant us }
{
    operators_are_names();
}

/// The canonical tokens of a declaration that is not higher than 64, behind `add`, lie nowhere too deep.
pub fn canonical_tokens_are_shallow()
    ensures { (decl : Decl) → height decl ≤ 64 → IsShallow first_levels (Word add_word ∷ printed_decl decl []) }
{}

//! What the readers of tests, declarations and keys read, by the grammar.
ghost use Rattle.std.specs.Prelude.{◌≡◌, ◌<◌, ◌≤◌, ◌+◌, ◌^◌, ◌↔◌, false, List, [], ◌∷◌, Some, None};
ghost use Rattle.vx_syntax.specs.declared.token.Token.{Token};
ghost use Rattle.vx_syntax.specs.declared.token.Token.TheVariants.{Word};
ghost use Rattle.vx_syntax.specs.declared.test.Test.{Test};
ghost use Rattle.vx_syntax.specs.declared.decl.Decl.{Decl};
ghost use Rattle.vx_syntax.specs.Expressions.{Bytes, is_among};
ghost use Rattle.vx_syntax.specs.Tests.{and_word, or_word, IsTest};
ghost use Rattle.vx_syntax.specs.Declarations.{IsDecl, IsKey};
ghost use Rattle.vx_phrases.specs.declared.test_state.TestState.{TestState};
ghost use Rattle.vx_phrases.specs.Laws.{IsComplete, IsSound, Ends, IsEnd, Completion, TakesAnyNumber};
ghost use Rattle.vx_phrases.specs.TestMachine.{test_begun, test_step, test_finished};
ghost use Rattle.vx_phrases.specs.TestRemains.{TestRemains};
ghost use Rattle.vx_phrases.specs.declared.decl_state.DeclState.{DeclState};
ghost use Rattle.vx_phrases.specs.DeclMachine.{decl_begun, decl_begins, decl_step, decl_finished, names_in};
ghost use Rattle.vx_phrases.specs.DeclRemains.{DeclRemains};
ghost use Rattle.vx_names.specs.declared.key.DeclKey.{DeclKey};
ghost use Rattle.vx_phrases.specs.declared.key_state.KeyState.{KeyState};
ghost use Rattle.vx_phrases.specs.KeyMachine.{key_begun, key_step, key_finished};
ghost use Rattle.vx_phrases.specs.KeyRemains.{KeyRemains};

use vx_bodies::{
    bodies_begin, names_come_singly, numbers_are_alike, states_can_be_finished,
    steps_follow_the_grammar,
};

/// The steps of the reader of tests are those of the grammar.
pub fn test_steps_follow_the_grammar()
    ensures complete { IsComplete TestRemains test_step test_finished }
    ensures sound { IsSound TestRemains test_step }
    ensures ends { Ends TestRemains test_finished }
    ensures at_end { IsEnd TestRemains test_finished }
    ensures begins { (ts us : List Token) (v : Test) → (TestRemains test_begun ts us v ↔ IsTest ts us v) }
    ensures finish { (s : TestState) → Completion (TestRemains s) }
    ensures number { TakesAnyNumber test_step }
{}

/// The steps of the reader of declarations are those of the grammar.
pub fn decl_steps_follow_the_grammar()
    ensures complete { IsComplete DeclRemains decl_step decl_finished }
    ensures sound { IsSound DeclRemains decl_step }
    ensures ends { Ends DeclRemains decl_finished }
    ensures at_end { IsEnd DeclRemains decl_finished }
    ensures begins { (ts us : List Token) (v : Decl) → (DeclRemains decl_begun ts us v ↔ IsDecl ts us v) }
    ensures number { TakesAnyNumber decl_step }
{
    steps_follow_the_grammar();
    bodies_begin();
    states_can_be_finished();
    numbers_are_alike();
}

/// Each state of the reader of declarations with fewer than 2 to the power of 64 names in scope can be completed, and a step
/// brings at most one name into scope.
pub fn decls_can_be_finished()
    ensures finish { (s : DeclState) → names_in s < 2 ^ 64 → Completion (DeclRemains s) }
    ensures grows { (s next : DeclState) (t : Token) → decl_step s t ≡ Some next → names_in next ≤ names_in s + 1 }
{
    states_can_be_finished();
    bodies_begin();
    names_come_singly();
}

/// Where a declaration may end, it goes on neither with what begins one nor with a word that joins no tests.
pub fn decls_end_before_others()
    ensures decls { (s : DeclState) (v : Decl) (t : Token) (next : DeclState) → decl_finished s ≡ Some v → decl_begins t ≡ Some next →
        decl_step s t ≡ None }
    ensures words { (s : DeclState) (v : Decl) (x : Bytes) → decl_finished s ≡ Some v → is_among (and_word ∷ or_word ∷ []) x ≡ false →
        decl_step s (Word x) ≡ None }
{}

/// The steps of the reader of keys are those of the grammar, and a whole key goes on with nothing.
pub fn key_steps_follow_the_grammar()
    ensures complete { IsComplete KeyRemains key_step key_finished }
    ensures sound { IsSound KeyRemains key_step }
    ensures ends { Ends KeyRemains key_finished }
    ensures at_end { IsEnd KeyRemains key_finished }
    ensures begins { (ts us : List Token) (v : DeclKey) → (KeyRemains key_begun ts us v ↔ IsKey ts us v) }
    ensures finish { (s : KeyState) → Completion (KeyRemains s) }
    ensures number { TakesAnyNumber key_step }
    ensures over { (s : KeyState) (v : DeclKey) (t : Token) → key_finished s ≡ Some v → key_step s t ≡ None }
{}

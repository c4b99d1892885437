//! What holds of the machine, for those who read by it.
ghost use Rattle.std.specs.Prelude.{◌≡◌, ◌<◌, ◌≤◌, ◌+◌, ◌^◌, ◌∷◌, ◌++◌, [], ℕ, List, length};
ghost use Rattle.std.specs.List.{AllByRecursion};
ghost use Rattle.vx_syntax.specs.declared.expr.Stmt.{Stmt};
ghost use Rattle.vx_syntax.specs.declared.token.Mark.TheVariants.{CloseBlock};
ghost use Rattle.vx_syntax.specs.declared.token.Token.{Token};
ghost use Rattle.vx_syntax.specs.declared.token.Token.TheVariants.{Mark, Number};
ghost use Rattle.vx_syntax.specs.Expressions.{Scope, IsBody};
ghost use Rattle.vx_syntax.specs.Words.{IsToken};
ghost use Rattle.vx_bodies.specs.declared.state.Next.TheVariants.{Stuck, On};
ghost use Rattle.vx_bodies.specs.declared.state.State.{State};
ghost use Rattle.vx_bodies.specs.Machine.{begun, step, scope_of};
ghost use Rattle.vx_bodies.specs.Remains.{Remains, Moves};

/// What remains of a state, with a token in front, is what remains of where the token leads.
pub fn steps_follow_the_grammar()
    ensures complete { (state : State) (token : Token) (ts us : List Token) (body : List Stmt) →
        Remains state (token ∷ ts) us body → Moves (step state token) ts us body }
    ensures sound { (state : State) (token : Token) (ts us : List Token) (body : List Stmt) →
        Moves (step state token) ts us body → Remains state (token ∷ ts) us body }
{}

/// What remains where a body begins is a body, and the `}` after it.
pub fn bodies_begin()
    ensures begins { (scope : Scope) (ts us : List Token) (body : List Stmt) →
        IsBody scope ts (Mark CloseBlock ∷ us) body → Remains (begun scope) ts us body }
    ensures began { (scope : Scope) (ts us : List Token) (body : List Stmt) →
        Remains (begun scope) ts us body → IsBody scope ts (Mark CloseBlock ∷ us) body }
    ensures names { (scope : Scope) → length (scope_of (begun scope)) ≡ length scope }
{}

/// Each state wants a token, and each that holds fewer than 2 to the power of 64 names can be finished.
pub fn states_can_be_finished()
    ensures wants { (state : State) (us : List Token) (body : List Stmt) → Remains state [] us body → ⊥ }
    ensures finish { (state : State) → length (scope_of state) < 2 ^ 64 →
        (more : List Token) × (body : List Stmt) × AllByRecursion IsToken more × ((us : List Token) → Remains state (more ++ us) us body) }
{}

/// A step brings at most one name.
pub fn names_come_singly()
    ensures { (state next : State) (token : Token) → step state token ≡ On next →
        length (scope_of next) ≤ length (scope_of state) + 1 }
{}

/// Whether a body goes on with a number does not depend on the number.
pub fn numbers_are_alike()
    ensures { (state : State) (i n : ℕ) → step state (Number i) ≡ Stuck → step state (Number n) ≡ Stuck }
{}

//! What holds of the meaning of programs.
ghost use Rattle.std.specs.Prelude.{◌≡◌, ◌≤◌, ℕ, List};
ghost use Rattle.vx_syntax.specs.Expressions.{Bytes};
ghost use Rattle.vx_program.specs.Program.{IsProgram};
ghost use Rattle.vx_model.specs.declared.report.Report.TheVariants.{Stuck};
ghost use Rattle.vx_syntax.specs.declared.decl.Decl.{Decl};
ghost use Rattle.vx_model.specs.Meaning.{meaning};
ghost use Rattle.vx_model.specs.Reports.{GoesOn};

/// A run that has ended is the same with every larger allowance, and the lines of one that has not only grow.
pub fn meanings_go_on()
    ensures { (program : List Decl) (n m : ℕ) → n ≤ m → GoesOn (meaning program n) (meaning program m) }
{}

/// No run of a program lacks anything.
#[tactic(auto, using(crate::proofs::NeverStuck::never_stuck))]
pub fn meanings_are_never_stuck()
    ensures { (program : List Decl) (n : ℕ) (lines : List Bytes) → IsProgram program → meaning program n ≡ Stuck lines → ⊥ }
{}

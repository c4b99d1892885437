//! What holds of the trees and the code of programs.
ghost use Rattle.vx_compilation.specs.TreeAsking.{TreesAreRead};
ghost use Rattle.vx_compilation.specs.BindingIsSound.{BindingIsSound};
ghost use Rattle.vx_compilation.specs.Compiled.{TreesMeanTheProgram, CompiledCodeMeansTheProgram};

/// What a send is bound to is what lookup finds, for all values that fit what is known of them.
pub fn binding_is_sound()
    ensures { BindingIsSound }
{}

/// The trees of a program mean the program, whatever the allowance.
pub fn trees_mean_the_program()
    ensures { TreesMeanTheProgram }
{}

/// A report of so many instructions agrees with the meaning, an end of the meaning is reached and stays, and no larger
/// allowance changes it.
pub fn compiled_code_means_the_program()
    ensures { CompiledCodeMeansTheProgram }
{}

/// A tree depends on the answers alone that are read for it.
pub fn trees_are_read()
    ensures { TreesAreRead }
{}

//! Asks programs about their objects: what is above what, which fields objects have, as what values count, and which methods
//! messages find. Standard input is a file of cases, as `vx_cases` has them. The text of a case is a block that adds
//! declarations, a line `.`, and questions, one a line; without such a line all of it is questions, and the program has no
//! declarations of its own. Each question is printed with its answer behind `->`.
//!
//! - `up O`, `cone O`, `base O`: the names above O, those of the plain objects below it, and its base;
//! - `inline M(@O,@O)`: what is put in place of sends that are bound to the method, or none;
//! - `bind M(@O,@O) INFO INFO`: what a message of the method's selector is bound to, each info being `*`, `<O` or `=O`;
//!   with `below` at the end, what a message that the method sends on is bound to;
//! - `reads up O`, and so with `cone`, `base`, `slots`, `field`, `inline`, `bind` and `shape`: what is asked for these;
//! - `shape C`: what stands in an image for an object of the class;
//! - `slots C`: the slots of an object of the class, with their starts; `field C F`: the field that the name F means there;
//! - `count up O`, `count cone O`, `count slots C`: how many there are;
//! - `class V`: the class of a value; `kinds V`: as which objects and predicates it counts; `holds V O`: whether it counts as O;
//! - `find M V V`: the method that the message finds; with `below O O` behind it, among those alone that are less specific than
//!   the one with these specialisers;
//! - `text D`, `key D`, `counts D`: the canonical text of a declaration, its key, and how large and deep its body is and how many
//!   locals it has.
//!
//! A value is a number, a string behind `"`, a closure behind `&` and an object behind `#`, each by its number, or a new object:
//! its class, and its slots as in `a:n@a=4,m@b=5`. With `in V V` at the end of a question, these new objects are there first.
#![tactic(auto)]

mod ask;
mod asked;
mod declared;
mod order;
mod sends;
mod trouble;
mod value;

use crate::trouble::Trouble;
use std::io::{self, Write};
use std::process::ExitCode;
use vx_cases::cases;

fn main(rt: HostRuntime) -> ExitCode {
    match run_all(&rt) {
        Ok(()) => ExitCode::SUCCESS,
        Err(_) => stop(&rt),
    }
}

// Says that the run ends before its end.
fn stop(rt: &HostRuntime) -> ExitCode {
    let _ = rt.println("stopped");
    ExitCode::FAILURE
}

fn run_all(rt: &HostRuntime) -> Result<(), Trouble> {
    let alloc = rt.alloc();
    let file = io::read_to_string(alloc, rt.stdin())?;
    let mut writer = io::writer(rt);
    for case in cases(alloc, file.as_str())?.as_slice() {
        let answers = ask::answers(alloc, case)?;
        writer.write_all(answers.as_str().as_bytes())?;
    }
    Ok(())
}

//! Runs of images.
ghost use Rattle.std.specs.Prelude.{◌≡◌, ◌<◌, ◌+◌, ◌^◌, IfOk};
ghost use Rattle.vx_model.specs.declared.report.Report.TheVariants as r;
ghost use Rattle.vx_places.specs.ImageMachine.{report_of};
ghost use Rattle.vx_places.specs.Reports.{report};
ghost use Rattle.vx_machine.specs.Running.{Ends, looked, report_with};

use crate::machine::Machine;
use crate::opening::{Begun, begin, objects};
use crate::ready::Ready;
use crate::truths::Truths;
use crate::word::Step;
use sqlite_items::Items;
use std::alloc::{AllocError, Global};
use vx_image::Loaded;
use vx_model::{Report, RunError};

/// How a run ended.
#[derive(Drop)]
pub enum Ending {
    /// `main` has returned.
    End,
    /// It stopped with an error.
    Error(RunError),
    /// As many instructions as were allowed are done.
    Unfinished,
    /// The state lacks something, or an operand was of a wrong class.
    Stuck,
}

impl<'a> Machine<'a> {
    // Does at most so many instructions. Whether the state lacks something is looked at before it is said to be unfinished.
    fn go(&mut self, alloc: Global, ready: &Ready<'a>, n: u32) -> Result<Ending, AllocError>
        requires { self.old.next + n + 1 < 2 ^ 64 }
        ensures { Ends ready.now n result self.old self.new }
    {
        for done in 0..n {
            let count = self.lines.len();
            match self.step(alloc, ready)? {
                Step::On => {}
                Step::Over => return Ok(Ending::End),
                Step::Stops(error) => return Ok(Ending::Error(error.into_inner())),
                Step::Lacks => {
                    self.lines.truncate(count);
                    return Ok(Ending::Stuck);
                }
                Step::Finds => {
                    self.lines.truncate(count);
                    return Ok(Ending::Stuck);
                }
            }
        }
        self.look(alloc, ready)
    }

    // Looks whether the state lacks something, where no instruction is left to be done.
    fn look(&mut self, alloc: Global, ready: &Ready<'a>) -> Result<Ending, AllocError>
        requires { self.old.next + 1 < 2 ^ 64 }
        ensures { Ends ready.now 0 result self.old self.new }
    {
        let count = self.lines.len();
        let step = self.step(alloc, ready)?;
        self.lines.truncate(count);
        Ok(looked(step))
    }
}

// How a run ends whose next step would come to this, where no instruction is left to be done.
fn looked(step: Step) -> Ending
    ensures { result ≡ looked step }
{
    match step {
        Step::Lacks => Ending::Stuck,
        Step::On => Ending::Unfinished,
        Step::Over => Ending::Unfinished,
        Step::Finds => Ending::Unfinished,
        Step::Stops(_) => Ending::Unfinished,
    }
}

// Runs an image that is ready.
fn run_ready(alloc: Global, ready: &Ready<'_>, n: u32) -> Result<Report, AllocError>
    ensures { IfOk result (λ found. found ≡ report_of ready.now n) }
{
    let image = ready.image();
    let objects = objects(alloc, &image.own, image.shapes.as_slice())?;
    let mut truths = Truths::new(alloc);
    let none = Items::new(alloc);
    match begin(alloc, ready, objects.as_slice(), &mut truths)? {
        Begun::Lacks => Ok(Report::Stuck(none)),
        Begun::Stops(error) => Ok(stopped(n, none, error)),
        Begun::Runs(activations) => {
            if n == 0 {
                return Ok(Report::Unfinished(none));
            }
            let mut machine = Machine {
                activations,
                objects,
                cells: Vec::new(alloc),
                closures: Vec::new(alloc),
                captured: Vec::new(alloc),
                texts: Items::new(alloc),
                next: 1,
                lines: Vec::new(alloc),
                truths,
            };
            let ending = machine.go(alloc, ready, n - 1)?;
            Ok(reported(ending, Items::from_vec(machine.lines)))
        }
    }
}

// The report of a run whose first instruction stops it.
fn stopped(n: u32, none: Items<Items<u8>>, error: RunError) -> Report
    ensures zero { n ≡ 0 → result ≡ r.Unfinished none }
    ensures more { 0 < n → result ≡ r.Error none error }
{
    if n == 0 {
        Report::Unfinished(none)
    } else {
        Report::Error(none, error)
    }
}

// The report of an ending.
fn reported(ending: Ending, lines: Items<Items<u8>>) -> Report
    ensures { result ≡ report_with ending lines }
{
    match ending {
        Ending::End => Report::End(lines),
        Ending::Error(error) => Report::Error(lines, error),
        Ending::Unfinished => Report::Unfinished(lines),
        Ending::Stuck => Report::Stuck(lines),
    }
}

/// Runs a loaded image for at most so many instructions, of which sending `main` is the first, and tells how the run ended and which lines it printed.
/// `Stuck` comes where the state lacks something, also where no further instruction is allowed, and where an accessor, a constructor or a primitive finds an
/// operand of a wrong class or an object without the slot.
pub fn run(alloc: Global, image: &Loaded, n: u32) -> Result<Report, AllocError>
    ensures { IfOk result (λ found. found ≡ report image.now n) }
{
    image.version();
    let ready = Ready::new(alloc, image.image())?;
    run_ready(alloc, &ready, n)
}

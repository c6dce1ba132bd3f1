//! The machine that runs a program.

ghost use Rattle.std.specs.Prelude.{◌≡◌, ◌≤◌, [], IfOk, OnOk, OnErr, IsErrOf, IsSome, IfSome, Some, None};
ghost use Rattle.rl_base.specs.Told.{TakesPart};
ghost use Rattle.rl_base.specs.Faults.{Rose};
ghost use Rattle.rl_eval.specs.Evaluation.{eval, printed};
ghost use Rattle.rl_eval.specs.Ending.{IsEndingOf};
ghost use Rattle.rl_eval.specs.Derivation.{derivation, IsEndOf};

use crate::form::Form;
use crate::frame::Next;
use crate::program::Program;
use crate::stack::Stack;
use crate::steps::{begin, enter, resume};
use rl_base::{Files, Meter, Name, PutFailed, Sink};
use rl_value::Value;
use std::alloc::{AllocError, Global};
use std::marker::Model;

/// How a run ends.
#[derive(Drop)]
pub enum End {
    /// `main` ended in this value; one without a result ends in the empty tuple.
    Value(Value),
    /// No alternative of `main` served; the value is that of the failed call.
    Failed(Value),
    /// This value was thrown and not caught.
    Uncaught(Value),
    /// There were too few units.
    Budget,
    /// A read failed.
    FileFault,
    /// A put failed.
    SinkFault,
    OutOfMemory,
}

/// A machine that runs a program once. Contracts see the program, until it was run.
#[derive(Drop)]
pub struct Machine {
    alloc: Global,
    program: Option<Program>,
}

impl Model for Machine {
    ghost use Rattle.std.specs.Prelude.{ℕ, List, Option};

    ghost Value = { Option (List (List ℕ)) };

    ghost view = { λ machine. machine.program };
}

impl Machine {
    /// A machine for a program, called with these words. No form reads a variable yet, so that the words have no
    /// effect.
    pub fn new(alloc: Global, program: Program, args: &[String]) -> Result<Machine, AllocError>
        ensures { IfOk result (λ machine. machine ≡ Some program) }
    {
        Ok(Machine {
            alloc,
            program: Some(program),
        })
    }

    /// Runs the program, by the rules of the language, until it ends, its units are used up, or the outside or memory
    /// fails. A printed line is one `put`. Each unit is taken from the meter.
    pub fn run<F: Files, O: Sink>(&mut self, files: &mut F, out: &mut O, meter: &mut Meter) -> End
        requires fresh { IsSome self.old }
        ensures used { self.new ≡ None }
        ensures answer { IfSome self.old (λ literals. IsEndOf (derivation literals meter.old) result (O.told out.old) (O.told out.new) meter.new) }
        ensures asked { F.asked files.new ≡ F.asked files.old }
        ensures held { F.holds files.new ≡ F.holds files.old }
        ensures files_counted { F.faults files.old ≤ F.faults files.new }
        ensures file_fault { result ≡ End.FileFault → Rose (F.faults files.old) (F.faults files.new) }
        ensures out_counted { O.faults out.old ≤ O.faults out.new }
        ensures sink_fault { result ≡ End.SinkFault → Rose (O.faults out.old) (O.faults out.new) }
    {
        let program = self.program.take().unwrap();
        let mut stack = Stack::new(self.alloc);
        match evaluate(
            &mut stack,
            Form::Alternative(program.into_literals()),
            out,
            meter,
        ) {
            Ok(Ending::Done(value)) => End::Value(value),
            Ok(Ending::Cut) => End::Budget,
            Err(Stop::Put) => End::SinkFault,
            Err(Stop::Memory) => End::OutOfMemory,
        }
    }
}

// How an evaluation ends.
#[derive(Drop)]
enum Ending {
    /// In a value.
    Done(Value),
    /// There were too few units.
    Cut,
}

// Why an evaluation stopped.
#[derive(Clone, Copy, Debug, PartialEq, Eq)]
enum Stop {
    Memory,
    Put,
}

impl From<AllocError> for Stop {
    ghost use Rattle.std.specs.Prelude.{◌≡◌};
    ghost use Rattle.rl_eval.specs.declared.machine.Stop.TheVariants.{Memory};

    ghost from_gives = { λ _ stop. stop ≡ Memory };

    fn from(_: AllocError) -> Stop {
        Stop::Memory
    }
}

impl From<PutFailed> for Stop {
    ghost use Rattle.std.specs.Prelude.{◌≡◌};
    ghost use Rattle.rl_eval.specs.declared.machine.Stop.TheVariants.{Put};

    ghost from_gives = { λ _ stop. stop ≡ Put };

    fn from(_: PutFailed) -> Stop {
        Stop::Put
    }
}

// Evaluates a form, each unit taken from the meter.
fn evaluate<O: Sink>(
    stack: &mut Stack,
    form: Form,
    out: &mut O,
    meter: &mut Meter,
) -> Result<Ending, Stop>
    requires { stack.old.frames.items ≡ [] }
    ensures ok { IfOk result (λ ending. IsEndingOf (eval form meter.old []) ending (O.told out.old) (O.told out.new) meter.new) }
    ensures err { OnErr result (TakesPart (O.told out.old) (printed (eval form meter.old [])) (O.told out.new)) }
    ensures counted { O.faults out.old ≤ O.faults out.new }
    ensures failed { IsErrOf result Stop.Put → Rose (O.faults out.old) (O.faults out.new) }
{
    let mut next = Next::Enter(form);
    'steps: loop {
        match next {
            Next::Enter(form) => {
                if !meter.take() {
                    return Ok(Ending::Cut);
                }
                next = enter(stack, form)?;
            }
            Next::Take(member) => {
                if !meter.take() {
                    return Ok(Ending::Cut);
                }
                next = begin(stack, member)?;
            }
            Next::Leave(value) => match stack.frames.pop() {
                None => return Ok(Ending::Done(value)),
                Some(frame) => next = resume(stack, frame, value)?,
            },
            Next::Put(piece, value) => {
                out.put(piece.as_slice())?;
                next = Next::Leave(value);
            }
        }
    }
}

#[cfg(test)]
mod tests {
    use super::*;
    use crate::literal::Literal;
    use rl_base::{MemFiles, MemSink, Row};
    use std::test::Fail;

    #[test]
    fn a_budget_cuts_where_its_units_end(rt: HostRuntime) -> Result<(), Fail> {
        for units in 0..14u64 {
            let mut literals = Vec::new(rt.alloc());
            for text in ["a", "b", "c"] {
                literals.push(Literal::new(&Name::from_str(rt.alloc(), text)?)?)?;
            }
            let program = Program::new(Row::from_vec(rt.alloc(), literals)?);
            let mut machine = Machine::new(rt.alloc(), program, &[])?;
            let mut files = MemFiles::new(rt.alloc());
            let mut out = MemSink::new(rt.alloc(), 6, &[])?;
            let mut meter = Meter::new(units);
            let end = machine.run(&mut files, &mut out, &mut meter);
            // The alternative and its member take two units, and each statement three, the last of them before it prints.
            assert_eq!(rt; matches!(end, End::Value(_)), units >= 11, "{units}");
            assert_eq!(rt; matches!(end, End::Budget), units < 11, "{units}");
            let lines: &[u8] = match units {
                0..5 => b"",
                5..8 => b"a\n",
                8..11 => b"a\nb\n",
                _ => b"a\nb\nc\n",
            };
            assert_eq!(rt; out.bytes(), lines, "{units}");
            assert_eq!(rt; meter.left(), units.saturating_sub(11), "{units}");
        }
        Ok(())
    }
}

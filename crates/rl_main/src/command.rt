//! The whole command.

ghost use Rattle.std.specs.Prelude.{◌≡◌, ◌≤◌, ◌⊎◌, map, string_bytes, Some, None, IfSome};
ghost use Rattle.rl_base.specs.Faults.{Rose};
ghost use Rattle.rl_modules.specs.Load.{load_of, paths_of};
ghost use Rattle.rl_eval.specs.Preparation.{prepared_of};
ghost use Rattle.rl_words.specs.Words.{asked_of, seen_asked};
ghost use Rattle.rl_main.specs.Meaning.{meaning, meaning_of_loaded, meaning_of_prepared, meaning_of_program, paths};
ghost use Rattle.rl_main.specs.Headline.{AsksFor, Headline, Refuses, TellsBudget};
ghost use Rattle.rl_main.specs.Outside.{Leaves, outside};

use crate::lines::{budget_line, fault_line};
use crate::status::Status;
use rl_base::{Files, Meter, Sink};
use rl_eval::{End, Machine, PrepareEnd, Program, prepare};
use rl_modules::{LoadEnd, load};
use rl_syntax::{Fault, Modules};
use rl_words::{Asked, asked_of};
use std::alloc::Global;

const USAGE: &str = "usage: rascal JOB MODULE [ARG].. [--root DIR] [--steps N]\n";

/// Does what the words of the command ask for, and answers how it ended.
///
/// Where the files tell what they hold: out, err and the status are what the words and the files mean. A failed read or
/// want of memory leaves a front of that out, and err as it was; a failed put leaves a front of out or, behind the
/// whole of out, a front of err. The files that are read are those that the module leads to, in order, each once.
pub fn run<F: Files, O: Sink, E: Sink>(
    alloc: Global,
    words: &[String],
    files: &mut F,
    out: &mut O,
    err: &mut E,
) -> Status
    ensures headline { IfSome (F.holds files.old) (λ held. Headline (meaning (map string_bytes words.now) held) result (O.told out.old) (O.told out.new) (E.told err.old) (E.told err.new)) }
    ensures asked { IfSome (F.holds files.old) (λ held. AsksFor (paths (map string_bytes words.now) held) result (F.asked files.old) (F.asked files.new)) }

    // Whatever the files tell:
    ensures usage { result ≡ Status.Usage → asked_of (map string_bytes words.now) ≡ None }
    ensures no_module { asked_of (map string_bytes words.now) ≡ None → (result ≡ Status.Usage) ⊎ ((result ≡ Status.SinkFault) ⊎ (result ≡ Status.OutOfMemory)) }
    ensures leaves { Leaves result (outside (F.holds files.old) (F.faults files.old) (O.faults out.old) (E.faults err.old)) (outside (F.holds files.new) (F.faults files.new) (O.faults out.new) (E.faults err.new)) }
{
    match asked_of(alloc, words) {
        Err(_) => Status::OutOfMemory,
        Ok(None) => match err.put(USAGE.as_bytes()) {
            Ok(()) => Status::Usage,
            Err(_) => Status::SinkFault,
        },
        Ok(Some(asked)) => run_module(alloc, asked, files, out, err),
    }
}

// Loads and runs a module.
fn run_module<F: Files, O: Sink, E: Sink>(
    alloc: Global,
    asked: Asked<'_>,
    files: &mut F,
    out: &mut O,
    err: &mut E,
) -> Status
    ensures headline { IfSome (F.holds files.old) (λ held. Headline (meaning_of_loaded asked.entry.units (load_of held asked.entry.root.now asked.entry.name.now)) result (O.told out.old) (O.told out.new) (E.told err.old) (E.told err.new)) }
    ensures asked { IfSome (F.holds files.old) (λ held. AsksFor (paths_of held asked.entry.root.now asked.entry.name.now) result (F.asked files.old) (F.asked files.new)) }
    ensures no_usage { result ≡ Status.Usage → ⊥ }
    ensures leaves { Leaves result (outside (F.holds files.old) (F.faults files.old) (O.faults out.old) (E.faults err.old)) (outside (F.holds files.new) (F.faults files.new) (O.faults out.new) (E.faults err.new)) }
{
    match load(alloc, files, asked.root, asked.name) {
        Ok(modules) => run_modules(alloc, modules, asked.units, files, out, err),
        Err(LoadEnd::Fault(fault)) => refuse(alloc, &fault, err),
        Err(LoadEnd::FileFault) => Status::FileFault,
        Err(LoadEnd::OutOfMemory) => Status::OutOfMemory,
    }
}

// Tells a fault of a module.
fn refuse<E: Sink>(alloc: Global, fault: &Fault, err: &mut E) -> Status
    ensures headline { Refuses fault.now result (E.told err.old) (E.told err.new) }
    ensures sink_fault { result ≡ Status.SinkFault → Rose (E.faults err.old) (E.faults err.new) }
    ensures err_counted { E.faults err.old ≤ E.faults err.new }
{
    match fault_line(alloc, fault) {
        Err(_) => Status::OutOfMemory,
        Ok(line) => match err.put(line.as_str().as_bytes()) {
            Ok(()) => Status::ModuleFault,
            Err(_) => Status::SinkFault,
        },
    }
}

// Makes a program of modules and runs it.
fn run_modules<F: Files, O: Sink, E: Sink>(
    alloc: Global,
    modules: Modules,
    units: u64,
    files: &mut F,
    out: &mut O,
    err: &mut E,
) -> Status
    ensures headline { Headline (meaning_of_prepared units (prepared_of modules.list)) result (O.told out.old) (O.told out.new) (E.told err.old) (E.told err.new) }
    ensures no_usage { result ≡ Status.Usage → ⊥ }
    ensures asked { F.asked files.new ≡ F.asked files.old }
    ensures leaves { Leaves result (outside (F.holds files.old) (F.faults files.old) (O.faults out.old) (E.faults err.old)) (outside (F.holds files.new) (F.faults files.new) (O.faults out.new) (E.faults err.new)) }
{
    match prepare(alloc, modules) {
        Ok(program) => run_program(alloc, program, units, files, out, err),
        Err(PrepareEnd::Fault(fault)) => refuse(alloc, &fault, err),
        Err(PrepareEnd::OutOfMemory) => Status::OutOfMemory,
    }
}

// Runs a program.
fn run_program<F: Files, O: Sink, E: Sink>(
    alloc: Global,
    program: Program,
    units: u64,
    files: &mut F,
    out: &mut O,
    err: &mut E,
) -> Status
    ensures headline { Headline (meaning_of_program units program) result (O.told out.old) (O.told out.new) (E.told err.old) (E.told err.new) }
    ensures no_usage { result ≡ Status.Usage → ⊥ }
    ensures asked { F.asked files.new ≡ F.asked files.old }
    ensures leaves { Leaves result (outside (F.holds files.old) (F.faults files.old) (O.faults out.old) (E.faults err.old)) (outside (F.holds files.new) (F.faults files.new) (O.faults out.new) (E.faults err.new)) }
{
    let Ok(mut machine) = Machine::new(alloc, program, &[]) else {
        return Status::OutOfMemory;
    };
    let mut meter = Meter::new(units);
    match machine.run(files, out, &mut meter) {
        End::Value(_) => Status::Value(0),
        End::Budget => tell_budget(alloc, units, err),
        End::FileFault => Status::FileFault,
        End::SinkFault => Status::SinkFault,
        End::OutOfMemory => Status::OutOfMemory,
        End::Failed(_) | End::Uncaught(_) => unreachable!(),
    }
}

// Tells that a budget was used up.
fn tell_budget<E: Sink>(alloc: Global, units: u64, err: &mut E) -> Status
    ensures headline { TellsBudget units result (E.told err.old) (E.told err.new) }
    ensures sink_fault { result ≡ Status.SinkFault → Rose (E.faults err.old) (E.faults err.new) }
    ensures err_counted { E.faults err.old ≤ E.faults err.new }
{
    match budget_line(alloc, units) {
        Err(_) => Status::OutOfMemory,
        Ok(line) => match err.put(line.as_str().as_bytes()) {
            Ok(()) => Status::Budget,
            Err(_) => Status::SinkFault,
        },
    }
}

#[cfg(test)]
mod tests;

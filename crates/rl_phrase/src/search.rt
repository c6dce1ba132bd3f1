//! The loop over the machine's turns.

ghost use Rattle.std.specs.Prelude.{◌≡◌, IfOk};
ghost use Rattle.rl_phrase.specs.Search.{Shows};
ghost use Rattle.rl_phrase.specs.LeftRecursion.{HasNoLeftRecursion};

use crate::arena::Arena;
use crate::firsts::firsts;
use crate::machine::Machine;
use crate::memory::Memory;
use crate::stack::Stack;
use crate::steps::Step;
use crate::table::Rule;
use crate::turn::Task;
use crate::unfold::unfold;
use rl_tokens::Tokens;
use std::alloc::{AllocError, Global};

// What the machine ends with.
#[derive(Drop)]
pub enum Ending {
    Failed(u32),
    Found(Vec<Step>, u32),
}

// What a row gives at the first token.
pub fn run_machine(
    alloc: Global,
    tokens: &Tokens,
    rules: &[Rule],
    start: u32,
) -> Result<Ending, AllocError>
    requires { HasNoLeftRecursion rules.now }
    ensures { IfOk result (Shows tokens.now rules.now start) }
{
    let firsts = firsts(alloc, rules)?;
    let mut machine = Machine {
        task: Task::Call {
            row: start as u64,
            at: 0,
        },
        frames: Stack::new(alloc),
        parts: 0,
        far: 0,
        arena: Arena::new(alloc),
        memory: Memory::new(alloc),
    };
    'turns: while machine.turn(tokens, rules, &firsts)? {}
    match machine.task {
        Task::Succeed(at) => {
            let steps = unfold(alloc, &machine.arena, machine.parts)?;
            Ok(Ending::Found(steps, at))
        }
        _ => Ok(Ending::Failed(machine.far)),
    }
}

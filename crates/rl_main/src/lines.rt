//! The lines on err.

ghost use Rattle.std.specs.Prelude.{◌≡◌, ◌++◌, IfOk, OnOk, string_bytes};
ghost use Rattle.std.specs.Fmt.{decimal};
ghost use Rattle.rl_main.specs.Lines.{fault_line, budget_line};

use rl_syntax::Fault;
use std::alloc::{AllocError, Global};

// Puts a number behind a text, and what stands before it.
fn push_number(
    alloc: Global,
    line: &mut String,
    before: &str,
    number: u32,
) -> Result<(), AllocError>
    ensures { OnOk result (string_bytes line.new ≡ (string_bytes line.old ++ before.now) ++ decimal number) }
{
    let digits = format!(in alloc; "{number}")?;
    line.push_str(before)?;
    line.push_str(digits.as_str())
}

/// The line that tells where a fault is.
pub fn fault_line(alloc: Global, fault: &Fault) -> Result<String, AllocError>
    ensures { IfOk result (λ text. string_bytes text ≡ fault_line fault.now) }
{
    let mut line = String::from_str(alloc, fault.path.as_str())?;
    push_number(alloc, &mut line, ":", fault.place.line)?;
    push_number(alloc, &mut line, ":", fault.place.column)?;
    push_number(alloc, &mut line, ": M", u32::from(fault.code))?;
    line.push_str("\n")?;
    Ok(line)
}

/// The line that tells that a budget was used up.
pub fn budget_line(alloc: Global, units: u64) -> Result<String, AllocError>
    ensures { IfOk result (λ text. string_bytes text ≡ budget_line units) }
{
    format!(in alloc; "budget: {units}\n")
}

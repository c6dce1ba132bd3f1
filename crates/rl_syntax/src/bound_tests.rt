//! The variables of small patterns.

use crate::bound::bound_variables;
use crate::identifier::PatternVariable;
use crate::pattern::Pattern;
use rl_base::{Name, Place, Shared};
use std::alloc::{AllocError, Global};
use std::test::Fail;

fn here() -> Place {
    Place {
        module: 0,
        offset: 0,
        line: 1,
        column: 1,
    }
}

fn named(alloc: Global, number: usize, is_test: bool) -> Result<PatternVariable, AllocError> {
    Ok(PatternVariable {
        place: here(),
        name: Name::from_str(alloc, "x")?,
        number,
        is_test,
    })
}

fn tested(alloc: Global) -> Result<Shared<Pattern>, AllocError> {
    let variable = named(alloc, 5, true)?;
    Shared::new(
        alloc,
        Pattern::Variable {
            place: here(),
            variable,
        },
    )
}

// `x7 : x5`, where x5 is a test
fn binding(alloc: Global) -> Result<Pattern, AllocError> {
    let variable = named(alloc, 7, false)?;
    Ok(Pattern::Binding {
        place: here(),
        variable,
        pattern: tested(alloc)?,
    })
}

#[test]
fn a_test_sets_nothing(rt: HostRuntime) -> Result<(), Fail> {
    let pattern = binding(rt.alloc())?;
    let numbers = bound_variables(rt.alloc(), &pattern)?;
    assert_eq!(rt; numbers.as_slice(), [7usize].as_slice());
    Ok(())
}

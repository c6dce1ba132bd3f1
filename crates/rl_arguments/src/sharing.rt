//! Shares of several values.

ghost use Rattle.std.specs.Prelude.{◌≡◌, IfOk};

use rl_value::Value;
use std::alloc::{AllocError, Global};

/// The same values; their parts are shared, not copied.
pub fn shares(alloc: Global, values: &[Value]) -> Result<Vec<Value>, AllocError>
    ensures { IfOk result (λ v. v.items ≡ values.now) }
{
    let mut shares = Vec::with_capacity(alloc, values.len())?;
    for value in values {
        shares.push(value.share()?)?;
    }
    Ok(shares)
}

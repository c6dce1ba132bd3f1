//! Lists of calls on a store.

ghost use Rattle.std.specs.Prelude.{◌≡◌, IfOk, OnOk};
ghost use Rattle.rl_store.specs.Copies.{copies_of, after_call, after_calls, at_first};

use crate::store::Store;
use rl_value::Value;
use std::alloc::{AllocError, Global};

/// A call on a store.
#[derive(Drop)]
pub enum Call {
    Declare { variable: usize, value: Value },
    Write { variable: usize, value: Value },
    OpenScope,
    CloseScope,
    Mark,
    Rollback,
    Release,
}

/// Makes the call. A close, a rollback or a release does nothing where it may not be called.
pub fn make_call(store: &mut Store, call: &Call) -> Result<(), AllocError>
    ensures { OnOk result (copies_of store.new ≡ after_call call.now (copies_of store.old)) }
{
    match call {
        Call::Declare { variable, value } => store.declare(*variable, value.share()?),
        Call::Write { variable, value } => store.write(*variable, value.share()?),
        Call::OpenScope => store.open_scope(),
        Call::CloseScope => {
            if store.is_closable() {
                store.close_scope();
            }
            Ok(())
        }
        Call::Mark => store.mark(),
        Call::Rollback => {
            if store.has_mark() {
                store.rollback();
            }
            Ok(())
        }
        Call::Release => {
            if store.has_mark() {
                store.release();
            }
            Ok(())
        }
    }
}

/// The store after these calls, which has the scopes that a store would have that copies them at each mark.
pub fn replay(alloc: Global, calls: &[Call]) -> Result<Store, AllocError>
    ensures { IfOk result (λ store. copies_of store ≡ after_calls calls.now at_first) }
{
    let mut store = Store::new(alloc);
    for call in calls {
        make_call(&mut store, call)?;
    }
    Ok(store)
}

//! Constructors of data types.

ghost use Rattle.std.specs.Prelude.{◌≡◌, IfOk};

use rl_base::{Name, Row};
use rl_syntax::Field;
use std::alloc::AllocError;

/// A constructor of a data type.
#[derive(Drop)]
pub struct Constructor {
    /// The name of its data type.
    pub owner: Name,
    pub name: Name,
    /// Its fields in order.
    pub fields: Row<Field>,
}

impl Constructor {
    /// The same constructor. Its texts and fields are shared, not copied.
    pub fn share(&self) -> Result<Constructor, AllocError>
        ensures { IfOk result (λ c. c ≡ self.now) }
    {
        Ok(Constructor {
            owner: self.owner.share()?,
            name: self.name.share()?,
            fields: self.fields.share()?,
        })
    }
}

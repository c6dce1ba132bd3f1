//! What tokens and phrases say, and the parts of a phrase by what they say.
#![tactic(auto)]

mod declarations;
mod expressions;
mod form;
mod names;
mod part;
mod patterns;
mod productions;
mod statements;
pub mod words;

pub use expressions::conditions_or_none;
pub use form::{Form, GrammarForm};
pub use part::{FormError, Part, first_in, last_in, optional_at, part_at, parts_in, row_in};

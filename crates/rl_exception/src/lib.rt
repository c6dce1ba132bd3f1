//! How an operation on values ends when it gives none: the exceptions that the language throws, and want of memory.
#![tactic(auto)]

mod building;
mod exceptions;
mod op_end;

pub use building::{
    fitted, fitted_list, fitted_location, fitted_map, fitted_node, fitted_set, fitted_text,
    fitted_tuple, unbuilt,
};
pub use exceptions::{
    ambiguity, arithmetic_exception, call_failed, divided_by_zero, empty_list, empty_set,
    illegal_argument, index_out_of_bounds, io_exception, no_return, no_such_field, no_such_key,
    out_of_range, parse_error, path_not_found, stack_overflow, too_large, uninitialized_variable,
    visit_type, wrong_kind,
};
pub use op_end::OpEnd;

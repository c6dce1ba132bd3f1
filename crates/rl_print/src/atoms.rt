//! The text of values without parts.
ghost use Rattle.std.specs.Prelude.{◌≡◌, ◌++◌, OnOk};
ghost use Rattle.std.specs.String.{string_bytes};
ghost use Rattle.rl_value.specs.Readers.{kind_of};
ghost use Rattle.rl_value.specs.declared.kind.Kind.TheVariants as k;
ghost use Rattle.rl_print.specs.Printed.{printed_of, shown_of, scheme_text, span_text};

use crate::escape::{Escapes, push_escaped};
use rl_value::{Scheme, Value};
use std::alloc::AllocError;

pub(crate) fn push_truth(out: &mut String, value: &Value) -> Result<(), AllocError>
    requires { kind_of value.now ≡ k.Bool }
    ensures { OnOk result (string_bytes out.new ≡ string_bytes out.old ++ printed_of value.now) }
{
    match value.as_bool() {
        Some(true) => out.push_str("true"),
        Some(false) => out.push_str("false"),
        None => Ok(()),
    }
}

pub(crate) fn push_int(out: &mut String, value: &Value) -> Result<(), AllocError>
    requires { kind_of value.now ≡ k.Int }
    ensures { OnOk result (string_bytes out.new ≡ string_bytes out.old ++ printed_of value.now) }
{
    match value.as_int() {
        Some(number) => write!(out, "{number}"),
        None => Ok(()),
    }
}

/// Appends a text between quotes.
pub(crate) fn push_quoted(out: &mut String, value: &Value) -> Result<(), AllocError>
    requires { kind_of value.now ≡ k.Text }
    ensures { OnOk result (string_bytes out.new ≡ string_bytes out.old ++ printed_of value.now) }
{
    match value.as_text() {
        Some(text) => {
            out.push_str("\"")?;
            push_escaped(out, Escapes::Quoted, text)?;
            out.push_str("\"")
        }
        None => Ok(()),
    }
}

/// Appends a text as it is.
pub(crate) fn push_text(out: &mut String, value: &Value) -> Result<(), AllocError>
    requires { kind_of value.now ≡ k.Text }
    ensures { OnOk result (string_bytes out.new ≡ string_bytes out.old ++ shown_of value.now) }
{
    match value.as_text() {
        Some(text) => out.push_str(text),
        None => Ok(()),
    }
}

fn push_scheme(out: &mut String, scheme: Scheme) -> Result<(), AllocError>
    ensures { OnOk result (string_bytes out.new ≡ string_bytes out.old ++ scheme_text scheme) }
{
    match scheme {
        Scheme::Cwd => out.push_str("|cwd:///"),
        Scheme::Unknown => out.push_str("|unknown:///"),
    }
}

fn push_span(out: &mut String, span: Option<(u32, u32)>) -> Result<(), AllocError>
    ensures { OnOk result (string_bytes out.new ≡ string_bytes out.old ++ span_text span) }
{
    match span {
        Some((offset, length)) => write!(out, "({offset},{length})"),
        None => Ok(()),
    }
}

pub(crate) fn push_location(out: &mut String, value: &Value) -> Result<(), AllocError>
    requires { kind_of value.now ≡ k.Location }
    ensures { OnOk result (string_bytes out.new ≡ string_bytes out.old ++ printed_of value.now) }
{
    match (value.scheme(), value.path()) {
        (Some(scheme), Some(path)) => {
            push_scheme(out, scheme)?;
            out.push_str(path)?;
            out.push_str("|")?;
            push_span(out, value.span())
        }
        _ => Ok(()),
    }
}

//! spans and unparse.

ghost use Rattle.std.specs.Prelude.{◌≡◌, IfOk, map, reverse};
ghost use Rattle.std.specs.Option.{option_copied};
ghost use Rattle.rl_value.specs.Built.{Builds};
ghost use Rattle.rl_value.specs.Plain.{IsTree, text, plain_text};
ghost use Rattle.rl_exception.specs.Answer.{Answers, fitting};
ghost use Rattle.rl_arguments.specs.Arguments.{list_of};
ghost use Rattle.rl_arguments.specs.Lists.{BuildsList};
ghost use Rattle.rl_trees.specs.Walk.{walk};
ghost use Rattle.rl_trees.specs.Standing.{span_of};
ghost use Rattle.rl_trees.specs.Rows.{tree_in, row, spans_in, spans_of, unparse_of};

use crate::counts::characters;
use crate::order::{Standing, in_order};
use crate::walk::{Span, walk_back};
use rl_arguments::str_in;
use rl_exception::{OpEnd, fitted_list, fitted_text, unbuilt, wrong_kind};
use rl_print::append_shown;
use rl_value::{BuildEnd, Value, int, tuple};
use std::alloc::{AllocError, Global};
use std::collections::BTreeMap;

/// The trees of a sort in a syntax tree, each with its offset and length in characters: by offset, then
/// longer ones first, then as a walk from the left meets them.
pub fn spans(alloc: Global, tree: &Value, sort: &Value) -> Result<Value, OpEnd>
    ensures { Answers (spans_of tree.now sort.now) result }
{
    let (Some(whole), Some(sort)) = (tree_in(tree), str_in(sort)) else {
        return Err(wrong_kind(alloc));
    };
    listed(alloc, whole, sort)
}

fn listed(alloc: Global, whole: &Value, sort: &str) -> Result<Value, OpEnd>
    ensures { Answers (fitting (list_of (spans_in sort.now whole.now))) result }
{
    match all_rows(alloc, whole, sort) {
        Ok(rows) => fitted_list(alloc, rows),
        Err(end) => Err(unbuilt(alloc, end)),
    }
}

fn tree_in(v: &Value) -> Option<&Value>
    ensures { option_copied result ≡ tree_in v.now }
{
    if v.is_tree() { Some(v) } else { None }
}

fn all_rows(alloc: Global, whole: &Value, sort: &str) -> Result<Vec<Value>, BuildEnd>
    ensures { BuildsList (spans_in sort.now whole.now) result }
{
    let spans = walked(alloc, whole, sort)?;
    let ordered = in_order(alloc, spans)?;
    rows(alloc, &ordered)
}

// The trees of a sort as a walk from the left meets them.
fn walked(alloc: Global, whole: &Value, sort: &str) -> Result<Vec<Span>, AllocError>
    ensures { IfOk result (λ spans. spans.items ≡ walk sort.now 0 whole.now) }
{
    let mut found = Vec::new(alloc);
    let _ = walk_back(&mut found, sort, characters(whole), whole)?;
    found.reverse();
    Ok(found)
}

fn rows(alloc: Global, ordered: &BTreeMap<Standing, Value>) -> Result<Vec<Value>, BuildEnd>
    ensures { BuildsList (map row (map span_of ordered.now.entries)) result }
{
    let mut rows = Vec::new(alloc);
    for (standing, tree) in ordered {
        match row(alloc, standing, tree) {
            Ok(row) => rows.push(row)?,
            Err(end) => return Err(end),
        }
    }
    Ok(rows)
}

fn row(alloc: Global, standing: &Standing, tree: &Value) -> Result<Value, BuildEnd>
    ensures { Builds (row (span_of (standing.now, tree.now))) result }
{
    let mut parts = Vec::with_capacity(alloc, 3)?;
    parts.push(int(standing.0 as i128))?;
    parts.push(int(standing.1.0 as i128))?;
    parts.push(tree.share()?)?;
    tuple(alloc, parts)
}

/// The text of a syntax tree.
pub fn unparse(alloc: Global, tree: &Value) -> Result<Value, OpEnd>
    ensures { Answers (unparse_of tree.now) result }
{
    match tree_in(tree) {
        Some(whole) => text_of(alloc, whole),
        None => Err(wrong_kind(alloc)),
    }
}

fn text_of(alloc: Global, whole: &Value) -> Result<Value, OpEnd>
    requires { IsTree whole.now }
    ensures { Answers (fitting (text (plain_text whole.now))) result }
{
    let mut text = String::new(alloc);
    append_shown(&mut text, whole)?;
    fitted_text(alloc, text.as_str())
}

//! From steps to a tree.

ghost use Rattle.std.specs.Prelude.{◌≡◌, ◌≤◌, [], ◌∷◌, map, IfOk, OnOk, vec_len};
ghost use Rattle.rl_phrase.specs.Tree.{Tree, Node};
ghost use Rattle.rl_phrase.specs.View.{tree_of, trees_of};
ghost use Rattle.rl_phrase.specs.Steps.{tree_steps};
ghost use Rattle.rl_phrase.specs.Depth.{first_below};
ghost use Rattle.rl_phrase.specs.Build.{added, IsFit, one_less, above_after, found_after};

use crate::stack::Stack;
use crate::steps::Step;
use crate::tree::{Part, Phrase};
use std::alloc::{AllocError, Global};

// A tree may be this high.
pub const LIMIT: usize = 1000;

fn node(rule: u32, from: u32, to: u32, parts: Vec<Part>) -> Part
    ensures { tree_of result ≡ Node rule from to (trees_of parts.items) }
{
    Part::Node(Phrase {
        rule,
        from,
        to,
        parts,
    })
}

// One more step: a token, or a node of the last parts.
fn add(parts: &mut Vec<Part>, step: Step) -> Result<(), AllocError>
    requires { IsFit step (vec_len parts.old) }
    ensures { OnOk result (map tree_of parts.new.items ≡ added step (map tree_of parts.old.items)) }
{
    match step {
        Step::Leaf(token) => parts.push(Part::Token(token))?,
        Step::Node {
            rule,
            from,
            to,
            count,
        } => {
            let own = parts.split_off(parts.len() - count)?;
            parts.push(node(rule, from, to, own))?;
        }
    }
    Ok(())
}

// The tree of some steps.
pub fn build(alloc: Global, steps: &[Step]) -> Result<Vec<Part>, AllocError>
    requires { (t : Tree) × (steps.now ≡ tree_steps t) }
    ensures { IfOk result (λ parts. (t : Tree) → steps.now ≡ tree_steps t → map tree_of parts.items ≡ t ∷ []) }
{
    let mut parts = Vec::new(alloc);
    for step in steps {
        add(&mut parts, *step)?;
    }
    Ok(parts)
}

// One tree less is to come.
fn count_down(above: &mut Stack<usize>) -> Result<(), AllocError>
    ensures { OnOk result (above.new ≡ one_less above.old) }
{
    'nodes: while let Some(count) = above.pop() {
        if count > 1 {
            return above.push(count - 1);
        }
    }
    Ok(())
}

// The step comes, from the right.
fn pass(above: &mut Stack<usize>, step: Step) -> Result<(), AllocError>
    ensures { OnOk result (above.new ≡ above_after step above.old) }
{
    match step {
        Step::Node { count, .. } if count != 0 => above.push(count),
        _ => count_down(above),
    }
}

fn found(step: Step, depth: usize, before: Option<u32>) -> Option<u32>
    ensures { result ≡ found_after step LIMIT depth before }
{
    match step {
        Step::Node { from, .. } if depth == LIMIT => Some(from),
        _ => before,
    }
}

// The first token of the leftmost node that is too deep, if there is one.
pub fn too_deep(alloc: Global, steps: &[Step]) -> Result<Option<u32>, AllocError>
    ensures { IfOk result (λ deep. (t : Tree) → steps.now ≡ tree_steps t → deep ≡ first_below t 1000) }
{
    let mut above = Stack::new(alloc);
    let mut deep = None;
    let mut i = steps.len();
    'steps: while i > 0 {
        i -= 1;
        let step = steps[i];
        deep = found(step, above.len(), deep);
        pass(&mut above, step)?;
    }
    Ok(deep)
}

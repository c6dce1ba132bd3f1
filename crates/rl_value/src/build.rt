//! Values made of their parts.

ghost use Rattle.std.specs.Prelude.{◌≡◌, ◌≤◌, ◌<◌, ◌^◌, ◌+◌, ◌⊎◌, All, MatchOption, map};
ghost use Rattle.std.specs.Rc.{rc_str_bytes};
ghost use Rattle.rl_value.specs.Plain.{bool, int, text, location, tuple, list, set, mapping, node, tree, leaf, plains_of, pairs_of, plains_size, plains_height, pairs_size, pairs_height, IsPart};
ghost use Rattle.rl_value.specs.View.{shape_of, pair_of};
ghost use Rattle.rl_value.specs.Built.{Builds};

use crate::build_end::BuildEnd;
use crate::kids::kid_ends;
use crate::shape::{Scheme, Shape};
use crate::value::{Branch, Constructor, Form, Parts, Place, Value};
use std::alloc::Global;
use std::rc::{Rc, RcStr};

/// The size that no value passes.
pub const MAX_SIZE: u32 = 1 << 24;

/// The height that no value passes.
pub const MAX_HEIGHT: u32 = 2000;

/// A truth value.
pub fn truth(b: bool) -> Value
    ensures { result ≡ bool b }
{
    Value {
        form: Form::Bool(b),
    }
}

/// A whole number.
pub fn int(n: i128) -> Value
    ensures { result ≡ int n }
{
    Value { form: Form::Int(n) }
}

/// A text. Like every builder it answers `TooLarge` exactly where the value passes a limit.
pub fn text(alloc: Global, s: &str) -> Result<Value, BuildEnd>
    ensures { Builds (text s.now) result }
{
    if s.len() >= MAX_SIZE as usize {
        return Err(BuildEnd::TooLarge);
    }
    let text = RcStr::from_str(alloc, s)?;
    Ok(Value {
        form: Form::Text(text),
    })
}

/// A text in a syntax tree.
pub fn leaf(alloc: Global, s: &str) -> Result<Value, BuildEnd>
    ensures { Builds (leaf s.now) result }
{
    if s.len() >= MAX_SIZE as usize {
        return Err(BuildEnd::TooLarge);
    }
    let text = RcStr::from_str(alloc, s)?;
    Ok(Value {
        form: Form::Leaf(text),
    })
}

/// A place in a file. The span is an offset and a length.
pub fn location(
    alloc: Global,
    scheme: Scheme,
    path: &str,
    span: Option<(u32, u32)>,
) -> Result<Value, BuildEnd>
    ensures { Builds (location scheme path.now span) result }
{
    if path.len() >= MAX_SIZE as usize {
        return Err(BuildEnd::TooLarge);
    }
    let path = RcStr::from_str(alloc, path)?;
    let place = Rc::new(alloc, Place { scheme, path, span })?;
    Ok(Value {
        form: Form::Location(place),
    })
}

/// A tuple of these values.
pub fn tuple(alloc: Global, vs: Vec<Value>) -> Result<Value, BuildEnd>
    ensures { Builds (tuple (plains_of vs.items)) result }
{
    match measure(&vs) {
        None => Err(BuildEnd::TooLarge),
        Some((size, height)) => {
            let items = vs;
            let parts = Rc::new(
                alloc,
                Parts {
                    size,
                    height,
                    items,
                },
            )?;
            Ok(Value {
                form: Form::Tuple(parts),
            })
        }
    }
}

/// A list of these values.
pub fn list(alloc: Global, vs: Vec<Value>) -> Result<Value, BuildEnd>
    ensures { Builds (list (plains_of vs.items)) result }
{
    match measure(&vs) {
        None => Err(BuildEnd::TooLarge),
        Some((size, height)) => {
            let items = vs;
            let parts = Rc::new(
                alloc,
                Parts {
                    size,
                    height,
                    items,
                },
            )?;
            Ok(Value {
                form: Form::List(parts),
            })
        }
    }
}

/// A constructor's name with its fields.
pub fn node(alloc: Global, name: &str, kids: Vec<Value>) -> Result<Value, BuildEnd>
    ensures { Builds (node name.now (plains_of kids.items)) result }
{
    let name = RcStr::from_str(alloc, name)?;
    node_of(alloc, name, kids)
}

/// The same from a name that is shared.
pub(crate) fn node_of(alloc: Global, name: RcStr, kids: Vec<Value>) -> Result<Value, BuildEnd>
    ensures { Builds (node (rc_str_bytes name) (plains_of kids.items)) result }
{
    match measure(&kids) {
        None => Err(BuildEnd::TooLarge),
        Some((size, height)) => {
            let fields = Parts {
                size,
                height,
                items: kids,
            };
            let node = Rc::new(alloc, Constructor { name, fields })?;
            Ok(Value {
                form: Form::Node(node),
            })
        }
    }
}

/// A syntax tree of these parts.
pub fn tree(alloc: Global, shape: Shape, parts: Vec<Value>) -> Result<Value, BuildEnd>
    requires { All IsPart parts.items }
    ensures { Builds (tree (shape_of shape) (plains_of parts.items)) result }
{
    match measure(&parts) {
        None => Err(BuildEnd::TooLarge),
        Some((size, height)) => {
            let kid_ends = kid_ends(alloc, &parts)?;
            let parts = Parts {
                size,
                height,
                items: parts,
            };
            let tree = Rc::new(
                alloc,
                Branch {
                    shape,
                    parts,
                    kid_ends,
                },
            )?;
            Ok(Value {
                form: Form::Tree(tree),
            })
        }
    }
}

/// The size and the height of a value with these inside, unless a limit is passed.
pub(crate) fn measure(items: &[Value]) -> Option<(u32, u32)>
    ensures { MatchOption result
        ((2 ^ 24 < 1 + plains_size (plains_of items.now)) ⊎ (2000 < 1 + plains_height (plains_of items.now)))
        (λ m. (m.0 ≡ 1 + plains_size (plains_of items.now)) × (m.1 ≡ 1 + plains_height (plains_of items.now))
        × (m.0 ≤ 2 ^ 24) × (m.1 ≤ 2000)) }
{
    let mut size = 1;
    let mut height = 1;
    for item in items {
        size += item.size();
        if size > MAX_SIZE {
            return None;
        }
        height = height.max(1 + item.height());
        if height > MAX_HEIGHT {
            return None;
        }
    }
    Some((size, height))
}

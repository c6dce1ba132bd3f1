//! Building a value as the result of an operation: where it passes a limit of values, `TooLarge()` is thrown.
ghost use Rattle.std.specs.Prelude.{◌≡◌, [], Err};
ghost use Rattle.rl_value.specs.Plain.{Plain, text, location, tuple, list, set, mapping, node, plains_of, pairs_of};
ghost use Rattle.rl_value.specs.Built.{Builds};
ghost use Rattle.rl_value.specs.Order.{plain_cmp};
ghost use Rattle.rl_value.specs.Rising.{rising};
ghost use Rattle.rl_value.specs.Entries.{put_all};
ghost use Rattle.rl_exception.specs.Answer.{fitting, Ends, Answers};

use crate::exceptions::too_large;
use crate::op_end::OpEnd;
use rl_value::{BuildEnd, Scheme, Value, list, location, map, node, set, text, tuple};
use std::alloc::Global;

/// What came of building a value, as the result of an operation.
pub fn fitted(alloc: Global, built: Result<Value, BuildEnd>) -> Result<Value, OpEnd>
    ensures { (t : Plain) → Builds t built → Answers (fitting t) result }
{
    match built {
        Ok(value) => Ok(value),
        Err(end) => Err(unbuilt(alloc, end)),
    }
}

/// Why a value was not built, as the end of an operation.
pub fn unbuilt(alloc: Global, end: BuildEnd) -> OpEnd
    ensures { (t : Plain) → Builds t (Err end) → Ends (fitting t) result }
{
    match end {
        BuildEnd::TooLarge => too_large(alloc),
        BuildEnd::OutOfMemory => OpEnd::OutOfMemory,
    }
}

pub fn fitted_text(alloc: Global, s: &str) -> Result<Value, OpEnd>
    ensures { Answers (fitting (text s.now)) result }
{
    fitted(alloc, text(alloc, s))
}

pub fn fitted_location(
    alloc: Global,
    scheme: Scheme,
    path: &str,
    span: Option<(u32, u32)>,
) -> Result<Value, OpEnd>
    ensures { Answers (fitting (location scheme path.now span)) result }
{
    fitted(alloc, location(alloc, scheme, path, span))
}

pub fn fitted_tuple(alloc: Global, vs: Vec<Value>) -> Result<Value, OpEnd>
    ensures { Answers (fitting (tuple (plains_of vs.items))) result }
{
    fitted(alloc, tuple(alloc, vs))
}

pub fn fitted_list(alloc: Global, vs: Vec<Value>) -> Result<Value, OpEnd>
    ensures { Answers (fitting (list (plains_of vs.items))) result }
{
    fitted(alloc, list(alloc, vs))
}

/// The elements come in any order, with repeats.
pub fn fitted_set(alloc: Global, vs: Vec<Value>) -> Result<Value, OpEnd>
    ensures { Answers (fitting (set (plains_of (rising plain_cmp vs.items)))) result }
{
    fitted(alloc, set(alloc, vs))
}

/// The later of two equal keys wins.
pub fn fitted_map(alloc: Global, pairs: Vec<(Value, Value)>) -> Result<Value, OpEnd>
    ensures { Answers (fitting (mapping (pairs_of (put_all [] pairs.items)))) result }
{
    fitted(alloc, map(alloc, pairs))
}

pub fn fitted_node(alloc: Global, name: &str, fields: Vec<Value>) -> Result<Value, OpEnd>
    ensures { Answers (fitting (node name.now (plains_of fields.items))) result }
{
    fitted(alloc, node(alloc, name, fields))
}

//! The paths of modules.

ghost use Rattle.std.specs.Prelude.{◌≡◌, ◌==◌, ◌++◌, IfOk, OnOk, map, flat_map, string_bytes};
ghost use Rattle.std.specs.List.{slice_split};
ghost use Rattle.rl_modules.specs.Path.{part_of, folder_of, path_of};

use std::alloc::{AllocError, Global};

// The parts of a name, and an empty one between two colons.
fn parts_of<'a>(alloc: Global, name: &'a str) -> Result<Vec<&'a str>, AllocError>
    ensures { IfOk result (λ parts. map (λ part. part.now) parts.items ≡ slice_split (λ c. c == 58) name.now) }
{
    name.split(':').collect(alloc)
}

// A part of a path.
fn part_of(part: &str) -> &str
    ensures { result.now ≡ part_of part.now }
{
    if part.is_empty() { "/" } else { part }
}

// Puts the parts of a path behind a text.
fn push_parts(path: &mut String, parts: &[&str]) -> Result<(), AllocError>
    ensures { OnOk result (string_bytes path.new ≡ string_bytes path.old ++ flat_map part_of (map (λ part. part.now) parts.now)) }
{
    for part in parts {
        path.push_str(part_of(part))?;
    }
    Ok(())
}

// A folder with a slash behind it, and nothing where there is none.
fn folder_of(alloc: Global, root: &str) -> Result<String, AllocError>
    ensures { IfOk result (λ path. string_bytes path ≡ folder_of root.now) }
{
    let mut path = String::from_str(alloc, root)?;
    if !root.is_empty() {
        path.push_str("/")?;
    }
    Ok(path)
}

// The path of the file of a module: that of `a::b` is `a/b.rsc`, under the folder `root`. An empty root stands for none.
pub fn path_of(alloc: Global, root: &str, name: &str) -> Result<String, AllocError>
    ensures { IfOk result (λ path. string_bytes path ≡ path_of root.now name.now) }
{
    let parts = parts_of(alloc, name)?;
    let mut path = folder_of(alloc, root)?;
    push_parts(&mut path, parts.as_slice())?;
    path.push_str(".rsc")?;
    Ok(path)
}

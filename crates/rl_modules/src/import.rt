//! What a module imports.

ghost use Rattle.std.specs.Prelude.{◌≡◌, ◌<◌, ◌≤◌, None, Some, IfSome, MatchOption, length};
ghost use Rattle.std.specs.List.{slice_get};
ghost use Rattle.std.specs.Option.{option_map};
ghost use Rattle.rl_modules.specs.Load.{import_of, wanted};
ghost use Rattle.rl_modules.specs.Unfinished.{SkipsTo};

use crate::names::Names;
use rl_base::Place;
use rl_syntax::Decl;
use rl_visibility::is_built_in;

// An import or extend.
#[derive(Clone, Copy)]
pub struct Import<'a> {
    pub place: Place,
    // The name of the module.
    pub name: &'a str,
}

// A declaration as an import or extend.
fn import_of(declaration: &Decl) -> Option<Import<'_>>
    ensures { option_map (λ it. (it.place, it.name.now)) result ≡ import_of declaration.now }
{
    match declaration {
        Decl::Import { place, module } | Decl::Extend { place, module } => Some(Import {
            place: *place,
            name: module.as_str(),
        }),
        _ => None,
    }
}

// The import or extend of a module that is neither built in nor among the names.
fn wanted<'a>(declaration: &'a Decl, names: &Names) -> Option<Import<'a>>
    ensures { option_map (λ it. (it.place, it.name.now)) result ≡ wanted names.now (import_of declaration.now) }
{
    match import_of(declaration) {
        None => None,
        Some(import) => {
            if is_built_in(import.name) || names.contains(import.name) {
                None
            } else {
                Some(import)
            }
        }
    }
}

// The number of the first declaration from a place on that imports or extends a module which is neither built in nor among
// the names.
pub fn next_wanted<'a>(
    declarations: &'a [Decl],
    from: usize,
    names: &Names,
) -> Option<(usize, Import<'a>)>
    ensures none { MatchOption result (SkipsTo names.now declarations.now from (length declarations.now)) (λ it. SkipsTo names.now declarations.now from it.0) }
    ensures some { IfSome result (λ it. (from ≤ it.0) × IfSome (slice_get declarations.now it.0) (λ declaration. wanted names.now (import_of declaration) ≡ Some (it.1.place, it.1.name.now))) }
    ensures within { IfSome result (λ it. it.0 < length declarations.now) }
{
    for i in from..declarations.len() {
        if let Some(import) = wanted(&declarations[i], names) {
            return Some((i, import));
        }
    }
    None
}

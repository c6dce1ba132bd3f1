//! How the modules of a program are loaded.

ghost use Rattle.std.specs.Prelude.{◌≡◌, ◌≤◌, IfOk, IfSome, IsErrOf, string_bytes};
ghost use Rattle.rl_base.specs.Faults.{Rose};
ghost use Rattle.rl_modules.specs.Complete.{IsComplete};
ghost use Rattle.rl_modules.specs.Load.{Asks, IsLoaded, load_of, paths_of};

use crate::loaded::LoadEnd;
use crate::loader::Loader;
use crate::path::path_of;
use crate::read::read;
use rl_base::{Files, Place, Row};
use rl_syntax::Modules;
use std::alloc::Global;

// Where a file begins.
const START: Place = Place {
    module: 0,
    offset: 0,
    line: 1,
    column: 1,
};

/// Loads the module of a name and all that it imports and extends, depth first and in text order, each once.
///
/// The module `a::b` is read from `a/b.rsc`, in the folder `root` where there is one: an empty root stands for none. The
/// names `IO`, `List`, `Set`, `Map`, `Relation`, `String`, `ParseTree` and `Exception` are built in and read no file, where a
/// module imports them. The first module is number 0, and is read from its file whatever its name is.
///
/// The first fault ends loading. M1, a file is missing, and M2, a file is longer than 2^24 bytes, stand at the import, and for
/// the first module at 1:1 of its path; so does M13, a module is the thousand-and-first, which comes before its file is read.
/// The faults M3 to M12 of a text are those of `rl_reader`.
pub fn load<F: Files>(
    alloc: Global,
    files: &mut F,
    root: &str,
    name: &str,
) -> Result<Modules, LoadEnd>
    ensures answer { IfSome (F.holds files.old) (λ held. IsLoaded (load_of held root.now name.now) result) }
    ensures asked { IfSome (F.holds files.old) (λ held. Asks (paths_of held root.now name.now) (F.asked files.old) result (F.asked files.new)) }
    ensures complete { IfOk result IsComplete }
    ensures file_fault { IsErrOf result LoadEnd.FileFault → Rose (F.faults files.old) (F.faults files.new) }
    ensures held { F.holds files.new ≡ F.holds files.old }
    ensures counted { F.faults files.old ≤ F.faults files.new }
{
    let path = path_of(alloc, root, name)?;
    let mut loader = Loader::new(alloc);
    match read(alloc, files, root, path.as_str(), START, 0, name) {
        Ok(module) => loader.add(module)?,
        Err(end) => return Err(end),
    }
    match loader.run(files, root) {
        Ok(()) => {}
        Err(end) => return Err(end),
    }
    Ok(Modules {
        list: Row::from_vec(alloc, loader.list)?,
        finished: Row::from_vec(alloc, loader.finished)?,
    })
}

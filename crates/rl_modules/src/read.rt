//! How the file of a module is read.

ghost use Rattle.std.specs.Prelude.{◌≡◌, ◌≤◌, ◌^◌, [], ◌∷◌, length, IfOk, IfSome, IsErrOf, Err};
ghost use Rattle.rl_base.specs.Faults.{Rose};
ghost use Rattle.rl_reader.specs.Read.{read_of};
ghost use Rattle.rl_syntax.specs.Fault.{fault_at};
ghost use Rattle.rl_modules.specs.Load.{Asks, IsLoaded, module_read, reading_at};
ghost use Rattle.rl_modules.specs.Path.{path_of};
ghost use Rattle.rl_syntax.specs.declared.module.Module.{Module};

use crate::loaded::LoadEnd;
use crate::path::path_of;
use rl_base::{Files, Name, Place, ReadEnd};
use rl_reader::{ReadFault, read_module};
use rl_syntax::{Fault, Module};
use std::alloc::Global;

// The most bytes that a file of a module may have: 2^24.
const MOST_BYTES: u32 = 16_777_216;

// The fault of a code at a place in the file of a path.
pub fn fault(alloc: Global, path: &str, place: Place, code: u8) -> LoadEnd
    ensures answer { IsLoaded {A = Module} (Err (fault_at (path.now, place) code)) (Err result) }
    ensures no_file_fault { result ≡ LoadEnd.FileFault → ⊥ }
{
    match Name::from_str(alloc, path) {
        Ok(path) => LoadEnd::Fault(Fault { path, place, code }),
        Err(_) => LoadEnd::OutOfMemory,
    }
}

// The module of the bytes of a file.
fn module_of(
    alloc: Global,
    number: u32,
    path: &str,
    name: &str,
    bytes: &[u8],
) -> Result<Module, LoadEnd>
    requires { length bytes.now ≤ 2 ^ 24 }
    ensures answer { IsLoaded (reading_at path.now (read_of number path.now name.now bytes.now)) result }
    ensures named { IfOk result (λ it. it.name ≡ name.now) }
    ensures numbered { IfOk result (λ it. it.place.«module» ≡ number) }
    ensures no_file_fault { IsErrOf result LoadEnd.FileFault → ⊥ }
{
    match read_module(alloc, number, path, name, bytes) {
        Ok(module) => Ok(module),
        Err(ReadFault::Fault { place, code }) => Err(fault(alloc, path, place, code)),
        Err(ReadFault::OutOfMemory) => Err(LoadEnd::OutOfMemory),
    }
}

// Reads the module of a name. Where its file is missing or too long, the fault stands at a place of another path: that of
// its import.
pub fn read<F: Files>(
    alloc: Global,
    files: &mut F,
    root: &str,
    importer: &str,
    place: Place,
    number: u32,
    name: &str,
) -> Result<Module, LoadEnd>
    ensures answer { IfSome (F.holds files.old) (λ held. IsLoaded (module_read held root.now (importer.now, place) number name.now).outcome result) }
    ensures asked { Asks (path_of root.now name.now ∷ []) (F.asked files.old) result (F.asked files.new) }
    ensures named { IfOk result (λ it. it.name ≡ name.now) }
    ensures numbered { IfOk result (λ it. it.place.«module» ≡ number) }
    ensures file_fault { IsErrOf result LoadEnd.FileFault → Rose (F.faults files.old) (F.faults files.new) }
    ensures held { F.holds files.new ≡ F.holds files.old }
    ensures counted { F.faults files.old ≤ F.faults files.new }
{
    let path = path_of(alloc, root, name)?;
    match files.read(alloc, path.as_str(), MOST_BYTES) {
        Ok(bytes) => module_of(alloc, number, path.as_str(), name, bytes.as_slice()),
        Err(ReadEnd::Missing) => Err(fault(alloc, importer, place, 1)),
        Err(ReadEnd::TooLong) => Err(fault(alloc, importer, place, 2)),
        Err(ReadEnd::Failed) => Err(LoadEnd::FileFault),
        Err(ReadEnd::OutOfMemory) => Err(LoadEnd::OutOfMemory),
    }
}

//! Loading of modules, under way.

ghost use Rattle.std.specs.Prelude.{◌≡◌, ◌+◌, ◌*◌, ◌-◌, ◌<◌, ◌≤◌, false, [], ◌∷◌, ◌++◌, length, IfOk, OnOk, IfSome, IsErrOf};
ghost use Rattle.std.specs.List.{list_any};
ghost use Rattle.std.specs.Str.{bytes_eq};
ghost use Rattle.rl_base.specs.Faults.{Rose};
ghost use Rattle.rl_modules.specs.Load.{most_modules};
ghost use Rattle.rl_modules.specs.Unfinished.{rests_of, outcome_of, met_by, IsSound, IsUnderWay, Opens, Finishes, PutsOff, GoesOn};

use crate::import::next_wanted;
use crate::loaded::LoadEnd;
use crate::names::Names;
use crate::read::{fault, read};
use rl_base::{Files, Name, Row};
use rl_syntax::{Decl, Module};
use std::alloc::{AllocError, Global};

// The most modules that a program may have.
const MOST_MODULES: usize = 1000;

// A module whose imports are not all loaded.
#[derive(Drop)]
pub struct Unfinished {
    pub number: u32,
    pub path: Name,
    pub declarations: Row<Decl>,
    // The first declaration that was not looked at.
    pub next: usize,
}

// Loading, under way.
#[derive(Drop)]
pub struct Loader {
    pub alloc: Global,
    // The modules that were met, and their names.
    pub list: Vec<Module>,
    pub names: Names,
    // The numbers of those that are finished.
    pub finished: Vec<u32>,
    // The others, each behind the one that asked for it.
    pub unfinished: Vec<Unfinished>,
}

impl Loader {
    // Nothing was loaded.
    pub fn new(alloc: Global) -> Loader
        ensures sound { IsSound result }
        ensures list { result.list.items ≡ [] }
        ensures finished { result.finished.items ≡ [] }
        ensures unfinished { result.unfinished.items ≡ [] }
    {
        Loader {
            alloc,
            list: Vec::new(alloc),
            names: Names::new(alloc),
            finished: Vec::new(alloc),
            unfinished: Vec::new(alloc),
        }
    }

    // Adds a module that was not met.
    pub fn add(&mut self, module: Module) -> Result<(), AllocError>
        requires sound { IsSound self.old }
        requires room { length self.old.list.items < most_modules }
        requires new { list_any (bytes_eq «module».name) self.old.names ≡ false }
        ensures { OnOk result (Opens «module» self.old self.new) }
    {
        let unfinished = Unfinished {
            number: self.list.len() as u32,
            path: module.path.share()?,
            declarations: module.declarations.share()?,
            next: 0,
        };
        self.names.add(module.name.as_str())?;
        self.unfinished.push(unfinished)?;
        self.list.push(module)?;
        Ok(())
    }

    // Notes that a module is finished.
    fn finish(&mut self, number: u32) -> Result<(), AllocError>
        ensures { OnOk result (Finishes number self.old self.new) }
    {
        self.finished.push(number)?;
        Ok(())
    }

    // Puts off the rest of a module.
    fn put_off(&mut self, unfinished: Unfinished) -> Result<(), AllocError>
        ensures { OnOk result (PutsOff unfinished self.old self.new) }
    {
        self.unfinished.push(unfinished)?;
        Ok(())
    }

    // Goes on with a module that is not finished, the last one: up to the next module that it imports, which is met now, or
    // to its end.
    fn go_on<F: Files>(
        &mut self,
        files: &mut F,
        root: &str,
        mut unfinished: Unfinished,
    ) -> Result<(), LoadEnd>
        requires sound { IsSound self.old }
        requires nested { length self.old.unfinished.items < length self.old.list.items }
        requires under_way { IsUnderWay self.old.list.items self.old.finished.items (self.old.unfinished.items ++ unfinished ∷ []) }
        ensures answer { IfSome (F.holds files.old) (λ held. GoesOn (rests_of (most_modules - 1) held root.now (self.old.unfinished.items ++ unfinished ∷ []) (met_by self.old)) (F.asked files.old) result (F.asked files.new) (outcome_of held root.now self.new)) }
        ensures sound { OnOk result (IsSound self.new) }
        ensures under_way { OnOk result (IsUnderWay self.new.list.items self.new.finished.items self.new.unfinished.items) }
        ensures smaller { OnOk result (2 * (most_modules - length self.new.list.items) + length self.new.unfinished.items < 2 * (most_modules - length self.old.list.items) + length self.old.unfinished.items + 1) }
        ensures file_fault { IsErrOf result LoadEnd.FileFault → Rose (F.faults files.old) (F.faults files.new) }
        ensures held { F.holds files.new ≡ F.holds files.old }
        ensures counted { F.faults files.old ≤ F.faults files.new }
    {
        let declarations = unfinished.declarations.as_slice();
        match next_wanted(declarations, unfinished.next, &self.names) {
            None => {
                self.finish(unfinished.number)?;
                Ok(())
            }
            Some((index, import)) => {
                let path = unfinished.path.as_str();
                let number = self.list.len();
                if number >= MOST_MODULES {
                    return Err(fault(self.alloc, path, import.place, 13));
                }
                let module = match read(
                    self.alloc,
                    files,
                    root,
                    path,
                    import.place,
                    number as u32,
                    import.name,
                ) {
                    Ok(module) => module,
                    Err(end) => return Err(end),
                };
                unfinished.next = index + 1;
                self.put_off(unfinished)?;
                self.add(module)?;
                Ok(())
            }
        }
    }

    // Goes on until all modules are finished.
    pub fn run<F: Files>(&mut self, files: &mut F, root: &str) -> Result<(), LoadEnd>
        requires sound { IsSound self.old }
        requires under_way { IsUnderWay self.old.list.items self.old.finished.items self.old.unfinished.items }
        ensures answer { IfSome (F.holds files.old) (λ held. GoesOn (outcome_of held root.now self.old) (F.asked files.old) result (F.asked files.new) (outcome_of held root.now self.new)) }
        ensures all { OnOk result (self.new.unfinished.items ≡ []) }
        ensures sound { OnOk result (IsSound self.new) }
        ensures under_way { OnOk result (IsUnderWay self.new.list.items self.new.finished.items self.new.unfinished.items) }
        ensures file_fault { IsErrOf result LoadEnd.FileFault → Rose (F.faults files.old) (F.faults files.new) }
        ensures held { F.holds files.new ≡ F.holds files.old }
        ensures counted { F.faults files.old ≤ F.faults files.new }
    {
        'modules: while let Some(unfinished) = self.unfinished.pop() {
            if let Err(end) = self.go_on(files, root, unfinished) {
                return Err(end);
            }
        }
        Ok(())
    }
}

//! Loading over files in memory.

ghost use Rattle.std.specs.Prelude.{◌≡◌, ◌++◌, OnOk};
ghost use Rattle.rl_modules.specs.Load.{paths_of};

use crate::loaded::LoadEnd;
use crate::loading::load;
use rl_base::{MemFiles, RecordedFiles};
use rl_syntax::Modules;
use std::alloc::Global;
use std::test::Fail;

fn files(alloc: Global, entries: &[(&str, &str)]) -> Result<MemFiles, Fail> {
    let mut files = MemFiles::new(alloc);
    for (path, text) in entries {
        files.add(path, text.as_bytes())?;
    }
    Ok(files)
}

// Loads over files that keep the paths of their reads.
fn load_recorded(
    alloc: Global,
    files: &mut RecordedFiles<MemFiles>,
    root: &str,
    name: &str,
) -> Result<Modules, LoadEnd>
    ensures { OnOk result (files.new.paths ≡ files.old.paths ++ paths_of files.old.files.files root.now name.now) }
{
    load(alloc, files, root, name)
}

// The names of modules by number, and the numbers in the order in which they were finished.
fn is_loaded(modules: &Modules, names: &[&str], finished: &[u32]) -> bool {
    let list = modules.list.as_slice();
    list.len() == names.len()
        && list
            .iter()
            .zip(names)
            .all(|(module, name)| module.name.as_str() == *name)
        && modules.finished.as_slice() == finished
}

#[test]
fn each_module_is_loaded_once_and_depth_first(rt: HostRuntime) -> Result<(), Fail> {
    let rows: [(&[(&str, &str)], &str, &str, &[&str], &[u32]); 3] = [
        (
            &[
                (
                    "Main.rsc",
                    "module Main import a::B; import IO; extend C; import Main;",
                ),
                ("a/B.rsc", "module a::B import C; extend Main; import a::B;"),
                ("C.rsc", "module C extend a::B; import List;"),
            ],
            "",
            "Main",
            &["Main", "a::B", "C"],
            &[2, 1, 0],
        ),
        (
            &[
                ("d/Main.rsc", "module Main import B; import A;"),
                ("d/A.rsc", "module A"),
                ("d/B.rsc", "module B"),
                ("A.rsc", ""),
            ],
            "d",
            "Main",
            &["Main", "B", "A"],
            &[1, 2, 0],
        ),
        (
            &[("IO.rsc", "module IO import IO;")],
            "",
            "IO",
            &["IO"],
            &[0],
        ),
    ];
    for (entries, root, name, names, finished) in rows {
        let mut files = RecordedFiles::new(rt.alloc(), files(rt.alloc(), entries)?);
        match load_recorded(rt.alloc(), &mut files, root, name) {
            Ok(modules) => assert!(rt; is_loaded(&modules, names, finished), "{names:?}"),
            Err(_) => return Err("not loaded".into()),
        }
    }
    Ok(())
}

#[test]
fn each_module_is_read_once(rt: HostRuntime) -> Result<(), Fail> {
    let entries = [
        ("Main.rsc", "module Main import B; import IO; import B;"),
        ("B.rsc", "module B extend C; import Main;"),
        ("C.rsc", "module C import B;"),
    ];
    for (call, is_read) in [(1, true), (2, true), (3, true), (4, false)] {
        let mut files = files(rt.alloc(), &entries)?;
        files.fail_at(call)?;
        let end = load(rt.alloc(), &mut files, "", "Main");
        let is_failed = matches!(end, Err(LoadEnd::FileFault));
        assert_eq!(rt; is_failed, is_read, "{call}");
    }
    Ok(())
}

fn is_fault(end: &Result<Modules, LoadEnd>, want: (&str, u32, u32, u32, u8)) -> bool {
    match end {
        Err(LoadEnd::Fault(fault)) => {
            let (at, module, line, column, number) = want;
            fault.path.as_str() == at
                && fault.place.module == module
                && fault.place.line == line
                && fault.place.column == column
                && fault.code == number
        }
        _ => false,
    }
}

#[test]
fn the_first_fault_is_told(rt: HostRuntime) -> Result<(), Fail> {
    let rows: [(&[(&str, &str)], (&str, u32, u32, u32, u8)); 5] = [
        (&[], ("Main.rsc", 0, 1, 1, 1)),
        (
            &[("Main.rsc", "module Main\n import Nope; import No;")],
            ("Main.rsc", 0, 2, 2, 1),
        ),
        (
            &[
                ("Main.rsc", "module Main import A; import Nope;"),
                ("A.rsc", "module A\nimport B;\nextend Nope;"),
                ("B.rsc", "module B"),
            ],
            ("A.rsc", 1, 3, 1, 1),
        ),
        (
            &[
                ("Main.rsc", "module Main import A; ?"),
                ("A.rsc", "module B"),
            ],
            ("Main.rsc", 0, 1, 23, 9),
        ),
        (
            &[("Main.rsc", "module Main import A;"), ("A.rsc", "module B")],
            ("A.rsc", 1, 1, 8, 11),
        ),
    ];
    for (entries, want) in rows {
        let mut files = files(rt.alloc(), entries)?;
        let end = load(rt.alloc(), &mut files, "", "Main");
        assert!(rt; is_fault(&end, want), "{want:?}");
    }
    Ok(())
}

#[test]
fn a_file_that_is_too_long_is_refused_at_its_import(rt: HostRuntime) -> Result<(), Fail> {
    let mut files = files(
        rt.alloc(),
        &[("Main.rsc", "module Main import IO;\n import A;")],
    )?;
    let text = vec![in rt.alloc(); b' '; 16_777_217]?;
    files.add("A.rsc", text.as_slice())?;
    let end = load(rt.alloc(), &mut files, "", "Main");
    assert!(rt; is_fault(&end, ("Main.rsc", 0, 2, 2, 2)));
    Ok(())
}

#[test]
fn the_thousand_and_first_module_is_refused(rt: HostRuntime) -> Result<(), Fail> {
    for (last, is_refused) in [(999, false), (1000, true)] {
        let mut files = files(rt.alloc(), &[("Main.rsc", "module Main\nimport M1;")])?;
        for i in 1..last {
            let path = format!(in rt.alloc(); "M{i}.rsc")?;
            let next = i + 1;
            let text = format!(in rt.alloc(); "module M{i}\nimport M{next};")?;
            files.add(path.as_str(), text.as_str().as_bytes())?;
        }
        let path = format!(in rt.alloc(); "M{last}.rsc")?;
        let text = format!(in rt.alloc(); "module M{last}")?;
        files.add(path.as_str(), text.as_str().as_bytes())?;
        let end = load(rt.alloc(), &mut files, "", "Main");
        assert_eq!(rt; end.is_ok(), !is_refused, "{last}");
        if is_refused {
            assert!(rt; is_fault(&end, ("M999.rsc", 999, 2, 1, 13)));
        }
    }
    Ok(())
}
